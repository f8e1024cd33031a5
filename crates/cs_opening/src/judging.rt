//! Whether the pending changes of a store lead to its rows, and how many there are.

ghost use Rattle.std.specs.Prelude.{◌≡◌, ◌↔◌, ◌<◌, ◌+◌, ◌^◌, length, IfOk, IsTrue};
ghost use Rattle.cs_change.specs.Spelling.{marks_of};
ghost use Rattle.cs_store.specs.Contents.{stored_tables};
ghost use Rattle.cs_store.specs.Written.{pairs_of};
ghost use Rattle.cs_store.specs.declared.fault.StoreFault.TheVariants.{Device};
ghost use Rattle.cs_pending.specs.Calls.{ReadsStore};
ghost use Rattle.cs_opening.specs.Steps.{AreLeading, IsCount, IsLeading, IsTableCount};

use crate::leading::{Room, leads};
use cs_store::{RowStore, StoreFault, StoredBody, mark_bytes};
use cs_value::TableDef;
use std::alloc::Global;

/// Whether a listed change leads to what stands at its place.
fn leads_there<S: RowStore>(
    store: &mut S,
    table: &TableDef,
    columns: &[u8],
    number: u32,
    listed: &StoredBody,
    room: &mut Room,
) -> Result<bool, StoreFault>
    requires { marks_of columns.now ≡ table.now.key_marks }
    ensures reads { ReadsStore S.RowStore Device (Unit {0}) store.old store.new result }
    ensures told { S.honest store.new → IfOk result (λ is. IsTrue is
        ↔ IsLeading table.now (stored_tables (S.contents store.old) number listed.now.key.items) listed.now.body.items) }
{
    let row = store.get(number, listed.key.as_slice())?;
    match leads(table, columns, &row, listed.body.as_slice(), room) {
        Ok(leads) => Ok(leads),
        Err(fault) => Err(StoreFault::from(fault)),
    }
}

/// Whether each listed change leads to what stands at its place.
fn all_lead<S: RowStore>(
    store: &mut S,
    table: &TableDef,
    columns: &[u8],
    number: u32,
    listed: &[StoredBody],
    room: &mut Room,
) -> Result<bool, StoreFault>
    requires { marks_of columns.now ≡ table.now.key_marks }
    ensures reads { ReadsStore S.RowStore Device (Unit {0}) store.old store.new result }
    ensures told { S.honest store.new → IfOk result (λ all. IsTrue all
        ↔ AreLeading (S.contents store.old) number table.now (pairs_of listed.now)) }
{
    for stored in listed {
        match leads_there(store, table, columns, number, stored, room) {
            Ok(true) => {}
            Ok(false) => return Ok(false),
            Err(fault) => return Err(fault),
        }
    }
    Ok(true)
}

/// How many changes of a table are pending, if each leads to what stands at its place.
fn count_table<S: RowStore>(
    alloc: Global,
    store: &mut S,
    table: &TableDef,
    number: u32,
    room: &mut Room,
) -> Result<Option<u64>, StoreFault>
    ensures reads { ReadsStore S.RowStore Device (Unit {0}) store.old store.new result }
    ensures counted { S.honest store.new → IfOk result (IsTableCount (S.contents store.old) number table.now) }
{
    let columns = mark_bytes(alloc, table.key_marks.as_slice())?;
    let listed = store.pend_list(number)?;
    match all_lead(
        store,
        table,
        columns.as_slice(),
        number,
        listed.as_slice(),
        room,
    ) {
        Ok(true) => Ok(Some(listed.as_slice().len() as u64)),
        Ok(false) => Ok(None),
        Err(fault) => Err(fault),
    }
}

/// How many changes of tables are pending, of which the first has this number, if each leads to what stands at its place.
pub(crate) fn count_tables<S: RowStore>(
    alloc: Global,
    store: &mut S,
    tables: &[TableDef],
    number: u32,
    room: &mut Room,
) -> Result<Option<u64>, StoreFault>
    requires { number + length tables.now < 2 ^ 32 }
    ensures reads { ReadsStore S.RowStore Device (Unit {0}) store.old store.new result }
    ensures counted { S.honest store.new → IfOk result (IsCount (S.contents store.old) number tables.now) }
{
    let Some((table, others)) = tables.split_first() else {
        return Ok(Some(0));
    };
    let first = match count_table(alloc, store, table, number, room) {
        Ok(Some(first)) => first,
        Ok(None) => return Ok(None),
        Err(fault) => return Err(fault),
    };
    let more = match count_tables(alloc, store, others, number + 1, room) {
        Ok(Some(more)) => more,
        Ok(None) => return Ok(None),
        Err(fault) => return Err(fault),
    };
    match first.checked_add(more) {
        Some(count) => Ok(Some(count)),
        None => Err(StoreFault::Memory),
    }
}
