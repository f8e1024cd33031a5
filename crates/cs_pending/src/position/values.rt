//! The values that a store keeps of a replica, as bytes.

ghost use Rattle.std.specs.Prelude.{◌≡◌, ◌++◌, IfOk, OnOk};
ghost use Rattle.cs_wire.specs.Numbers.{eight_bytes, four_bytes};
ghost use Rattle.cs_pending.specs.position.Values.{catalog_bytes, flight_bytes};

use cs_change::marks::flag_bytes;
use cs_change::put_header;
use cs_normal::Normal;
use cs_value::{Catalog, Memory, TableDef};
use std::alloc::Global;

/// A number in eight bytes, the high byte first: a version, or the number of a push.
pub fn number_value(alloc: Global, number: u64) -> Result<Vec<u8>, Memory>
    ensures { IfOk result (λ value. value.items ≡ eight_bytes number) }
{
    Ok(Vec::from_slice(alloc, &number.to_be_bytes())?)
}

/// The id of a replica in four bytes, the high byte first.
pub fn id_value(alloc: Global, id: u32) -> Result<Vec<u8>, Memory>
    ensures { IfOk result (λ value. value.items ≡ four_bytes id) }
{
    Ok(Vec::from_slice(alloc, &id.to_be_bytes())?)
}

/// A push that is under way: its number in eight bytes, and its changeset.
pub fn flight_value(alloc: Global, number: u64, changes: &Normal) -> Result<Vec<u8>, Memory>
    ensures { IfOk result (λ value. value.items ≡ flight_bytes number changes.now) }
{
    let mut value = number_value(alloc, number)?;
    changes.encode(&mut value)?;
    Ok(value)
}

/// Appends the headers of tables.
fn put_table_headers(alloc: Global, tables: &[TableDef], out: &mut Vec<u8>) -> Result<(), Memory>
    ensures { OnOk result (out.new.items ≡ out.old.items ++ catalog_bytes tables.now) }
{
    for table in tables {
        let marks = flag_bytes(alloc, table.key_marks.as_slice())?;
        put_header(marks.as_slice(), table.name.as_str(), out)?;
    }
    Ok(())
}

/// The tables that are synced: the header of each, as a changeset has it.
pub fn catalog_value(alloc: Global, catalog: &Catalog) -> Result<Vec<u8>, Memory>
    ensures { IfOk result (λ value. value.items ≡ catalog_bytes catalog.now) }
{
    let mut value = Vec::new(alloc);
    put_table_headers(alloc, catalog.tables(), &mut value)?;
    Ok(value)
}
