//! The rows of a table, read from what a store lists.

ghost use Rattle.std.specs.Prelude.{◌≡◌, ◌≤◌, ◌∷◌, [], IfOk, IfSome, IsSome, length, slice_get, Some};
ghost use Rattle.std.specs.List.{AllByRecursion};
ghost use Rattle.cs_pending.specs.Calls.{ReadsStore};
ghost use Rattle.cs_pending.specs.Shows.{ShowsRows, ShowsSome};
ghost use Rattle.cs_pending.specs.View.{View};
ghost use Rattle.cs_store.specs.Contents.{IsListing, stored_tables};
ghost use Rattle.cs_store.specs.Written.{pairs_of};
ghost use Rattle.cs_store.specs.declared.fault.StoreFault.TheVariants.{Device};
ghost use Rattle.cs_value.specs.declared.catalog.TableDef.{TableDef as Table};
ghost use Rattle.cs_pending.specs.rows.Rows.{AreRowsOf};
ghost use Rattle.cs_pending.specs.rows.Steps.{AreSpelled, IsRowBody};

use cs_change::Bytes;
use cs_record::RowBuf;
use cs_store::{RowStore, StoreFault, StoredBody, whole_row};
use cs_value::{Catalog, Items, Memory, TableDef};
use std::alloc::Global;

/// A row behind the bytes of its key.
pub type RowAtKey = (Bytes, RowBuf);

/// The row behind its key that a stored body is, if it is a row with so many columns.
fn row_in(alloc: Global, columns: usize, stored: &StoredBody) -> Result<Option<RowAtKey>, Memory>
    ensures found { IfOk result (λ read. IfSome read (λ row. AreSpelled columns (stored.now ∷ []) (row ∷ []))) }
    ensures only { IsRowBody columns stored.now → IfOk result (λ read. IsSome read) }
{
    let Some(row) = whole_row(stored.body.as_slice(), columns) else {
        return Ok(None);
    };
    let key = Vec::from_slice(alloc, stored.key.as_slice())?;
    Ok(Some((Items::from_vec(key), RowBuf::of_row(alloc, &row)?)))
}

/// The rows behind their keys that stored bodies are, if they are all rows with so many columns.
fn rows_in(
    alloc: Global,
    columns: usize,
    listed: &[StoredBody],
) -> Result<Option<Vec<RowAtKey>>, Memory>
    ensures found { IfOk result (λ read. IfSome read (λ rows. AreSpelled columns listed.now rows.items)) }
    ensures only { AllByRecursion (IsRowBody columns) listed.now → IfOk result (λ read. IsSome read) }
{
    let mut rows = Vec::with_capacity(alloc, listed.len())?;
    for stored in listed {
        match row_in(alloc, columns, stored)? {
            Some(row) => rows.push(row)?,
            None => return Ok(None),
        }
    }
    Ok(Some(rows))
}

/// The bodies of the rows of a table, by its number.
fn list_bodies<S: RowStore>(store: &mut S, number: u32) -> Result<Vec<StoredBody>, StoreFault>
    ensures reads { ReadsStore S.RowStore Device (Unit {0}) store.old store.new result }
    ensures listed { S.honest store.new → IfOk result (λ listed. IsListing (stored_tables (S.contents store.old) number) (pairs_of listed.items)) }
{
    match store.list(number) {
        Ok(listed) => Ok(listed),
        Err(fault) => Err(fault),
    }
}

/// The rows of a table with this number, each behind the bytes of its key.
fn read_rows<S: RowStore>(
    alloc: Global,
    store: &mut S,
    catalog: &Catalog,
    table: &TableDef,
    number: u32,
) -> Result<Vec<RowAtKey>, StoreFault>
    requires { slice_get catalog.now number ≡ Some table.now }
    ensures reads { ReadsStore S.RowStore Device
        (ShowsSome catalog.now (S.contents store.old)) store.old store.new result }
    ensures listed { S.honest store.new → (view : View) → ShowsRows catalog.now (S.contents store.old) view
        → IfOk result (λ rows. AreRowsOf (view.tables table.now.name) rows.items) }
{
    cs_record::laws::rows();
    cs_value::laws::catalogs();
    let _tables = catalog.tables();
    let listed = match list_bodies(store, number) {
        Ok(listed) => listed,
        Err(fault) => return Err(fault),
    };
    let columns = table.key_marks.as_slice().len();
    match rows_in(alloc, columns, listed.as_slice())? {
        Some(rows) => Ok(rows),
        None => Err(store.misread()),
    }
}

/// The rows of the table with this number in the catalog, each behind the bytes of its key and in the order of these. There are
/// none past the last table. What the store lists that is no row of the table is told to the store.
pub fn rows_of<S: RowStore>(
    alloc: Global,
    store: &mut S,
    catalog: &Catalog,
    table: usize,
) -> Result<Vec<RowAtKey>, StoreFault>
    // The store is only read.
    ensures reads { ReadsStore S.RowStore Device
        (ShowsSome catalog.now (S.contents store.old)) store.old store.new result }

    // They are the rows that the store shows.
    ensures listed { S.honest store.new → (view : View) → ShowsRows catalog.now (S.contents store.old) view
        → (def : Table) → slice_get catalog.now table ≡ Some def → IfOk result (λ rows. AreRowsOf (view.tables def.name) rows.items) }
    ensures none { length catalog.now ≤ table → IfOk result (λ rows. rows.items ≡ []) }
{
    let tables = catalog.tables();
    let Some(def) = tables.get(table) else {
        return Ok(Vec::new(alloc));
    };
    match read_rows(alloc, store, catalog, def, table as u32) {
        Ok(rows) => Ok(rows),
        Err(fault) => Err(fault),
    }
}
