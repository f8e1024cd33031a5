//! The pending changes of tables, as they are listed, behind headers.

ghost use Rattle.std.specs.Prelude.{◌≡◌, ◌<◌, ◌+◌, ◌^◌, ◌++◌, length, map, IfOk, OnOk};
ghost use Rattle.std.specs.List.{flat_map};
ghost use Rattle.cs_change.specs.Spelling.{flag_byte};
ghost use Rattle.cs_store.specs.Contents.{IsListing, stored_pending};
ghost use Rattle.cs_store.specs.Written.{pairs_of};
ghost use Rattle.cs_store.specs.declared.fault.StoreFault.TheVariants.{Device};
ghost use Rattle.cs_pending.specs.Calls.{ReadsStore};
ghost use Rattle.cs_pending.specs.outgoing.Steps.{AreAppended, IsTablePut, listing_spelling};

use cs_change::marks::flag_bytes;
use cs_change::put_header;
use cs_store::{RowStore, StoreFault, StoredBody};
use cs_value::{Memory, TableDef};
use std::alloc::Global;

/// Appends the bodies of a listing, one behind another.
fn put_bodies(listed: &[StoredBody], out: &mut Vec<u8>) -> Result<(), Memory>
    ensures { OnOk result (out.new.items ≡ out.old.items ++ flat_map (λ row. row.1) (pairs_of listed.now)) }
{
    for stored in listed {
        out.extend_from_slice(stored.body.as_slice())?;
    }
    Ok(())
}

/// Appends what is listed of a table behind its header, if anything is.
fn put_listing(
    alloc: Global,
    table: &TableDef,
    listed: &[StoredBody],
    out: &mut Vec<u8>,
) -> Result<(), Memory>
    ensures { OnOk result (out.new.items ≡ out.old.items ++ listing_spelling table.now (pairs_of listed.now)) }
{
    if listed.is_empty() {
        return Ok(());
    }
    let marks = flag_bytes(alloc, table.key_marks.as_slice())?;
    put_header(marks.as_slice(), table.name.as_str(), out)?;
    put_bodies(listed, out)
}

/// Appends the pending changes of a table.
fn put_table<S: RowStore>(
    alloc: Global,
    store: &mut S,
    table: &TableDef,
    number: u32,
    out: &mut Vec<u8>,
) -> Result<(), StoreFault>
    ensures reads { ReadsStore S.RowStore Device (Unit {0}) store.old store.new result }
    ensures put { S.honest store.new → OnOk result (IsTablePut (S.contents store.old) number table.now out.old.items out.new.items) }
{
    let _name = table.name.as_str();
    let listed = store.pend_list(number)?;
    match put_listing(alloc, table, listed.as_slice(), out) {
        Ok(()) => Ok(()),
        Err(fault) => Err(StoreFault::from(fault)),
    }
}

/// Appends the pending changes of tables, of which the first has this number.
pub(crate) fn put_tables<S: RowStore>(
    alloc: Global,
    store: &mut S,
    tables: &[TableDef],
    number: u32,
    out: &mut Vec<u8>,
) -> Result<(), StoreFault>
    requires { number + length tables.now < 2 ^ 32 }
    ensures reads { ReadsStore S.RowStore Device (Unit {0}) store.old store.new result }
    ensures put { S.honest store.new → OnOk result (AreAppended (S.contents store.old) number tables.now out.old.items out.new.items) }
{
    let Some((table, others)) = tables.split_first() else {
        return Ok(());
    };
    match put_table(alloc, store, table, number, out) {
        Ok(()) => {}
        Err(fault) => return Err(fault),
    }
    match put_tables(alloc, store, others, number + 1, out) {
        Ok(()) => Ok(()),
        Err(fault) => Err(fault),
    }
}
