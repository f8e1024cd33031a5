//! Whether a new replica is at the beginning of a row of cells.

ghost use Rattle.std.specs.Prelude.{◌≡◌, ◌↔◌, IsTrue};

use cs_replica::Replica;
use cs_store::RowStore;
use cs_value::{Catalog, TableDef};

fn same_marks(left: &[bool], right: &[bool]) -> bool
    ensures { IsTrue result ↔ (left.now ≡ right.now) }
{
    left == right
}

/// Whether two tables have one name and the same columns.
fn same_parts(left: &TableDef, right: &TableDef) -> bool
    ensures { IsTrue result ↔ ((left.now.name ≡ right.now.name) × (left.now.key_marks ≡ right.now.key_marks)) }
{
    left.name.as_str() == right.name.as_str()
        && same_marks(left.key_marks.as_slice(), right.key_marks.as_slice())
}

fn same_table(left: &TableDef, right: &TableDef) -> bool
    ensures { IsTrue result ↔ (left.now ≡ right.now) }
{
    same_parts(left, right)
}

/// Whether two lists of tables are the same.
fn same_tables(left: &[TableDef], right: &[TableDef]) -> bool
    ensures { IsTrue result ↔ (left.now ≡ right.now) }
{
    let mut left = left;
    let mut right = right;
    loop {
        match (left.split_first(), right.split_first()) {
            (None, None) => return true,
            (Some((x, xs)), Some((y, ys))) => {
                if !same_table(x, y) {
                    return false;
                }
                left = xs;
                right = ys;
            }
            _ => return false,
        }
    }
}

/// Whether a replica has taken nothing, and has the handed tables.
pub(crate) fn is_at_first<S: RowStore>(replica: &Replica<S>, handed: &Catalog) -> bool
    ensures { IsTrue result ↔ ((replica.now.position.version ≡ 0) × (replica.now.catalog ≡ handed.now)) }
{
    replica.version() == 0 && same_tables(replica.catalog().tables(), handed.tables())
}
