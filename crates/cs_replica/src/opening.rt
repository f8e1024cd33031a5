//! A store that shows a replica, read again.

ghost use Rattle.std.specs.Prelude.{◌≡◌, ◌⊎◌, IfErr, IfOk, IsUtf8};
ghost use Rattle.std.specs.List.{AllByRecursion};
ghost use Rattle.cs_value.specs.declared.catalog.TableDef.{TableDef as Table};
ghost use Rattle.cs_pending.specs.Calls.{WritesStore};
ghost use Rattle.cs_pending.specs.position.Laws.{FitsPosition};
ghost use Rattle.cs_pending.specs.position.Shows.{ShowsSomeAt};
ghost use Rattle.cs_opening.specs.declared.fault.OpenFault.TheVariants.{Device, Memory};

use cs_opening::{OpenFault, open_at};
use cs_pending::position::Position;
use cs_store::RowStore;
use cs_value::{Catalog, TableDef};
use std::alloc::Global;

/// The numbers of a position are in range.
pub(crate) fn in_range(position: &Position)
    ensures { FitsPosition position.now }
{
    let _id = position.id;
    let _version = position.version;
}

/// The names of tables are text.
fn are_named(tables: &[TableDef])
    ensures { AllByRecursion (λ (table : Table). IsUtf8 table.name) tables.now }
{
    let Some((first, others)) = tables.split_first() else {
        return;
    };
    let _name = first.name.as_str();
    are_named(others);
}

/// Reads the store of a replica again: where it shows the replica at a position, that is what is read.
pub(crate) fn reopen_at<S: RowStore>(
    alloc: Global,
    store: &mut S,
    catalog: &Catalog,
    position: &Position,
) -> Result<Position, OpenFault>
    ensures reopens { (S.honest store.old → ShowsSomeAt catalog.now position.now (S.contents store.old))
        → WritesStore S.RowStore Device (Unit {0}) (λ left. left ≡ S.contents store.old) store.old store.new result }
    ensures same { S.honest store.new → ShowsSomeAt catalog.now position.now (S.contents store.old) → IfOk result (λ read. read ≡ position.now) }
    ensures refused { S.honest store.new → ShowsSomeAt catalog.now position.now (S.contents store.old)
        → IfErr result (λ fault. (fault ≡ Memory) ⊎ (fault ≡ Device)) }
{
    cs_opening::laws::openings();
    cs_pending::position::laws::one_position();
    are_named(catalog.tables());
    in_range(position);
    match open_at(alloc, store, catalog, position.id) {
        Ok(read) => Ok(read),
        Err(fault) => Err(fault),
    }
}
