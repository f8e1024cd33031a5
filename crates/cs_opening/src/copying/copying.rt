//! A store copied into memory.

ghost use Rattle.std.specs.Prelude.{◌≡◌, ◌≢◌, true, false, ℕ, List, ◌<◌, ◌+◌, ◌^◌, ◌↔◌, [], None, length, map, IfOk, IfSome, IsTrue, OnOk};
ghost use Rattle.std.specs.FinMap.{empty};
ghost use Rattle.cs_store.specs.Contents.{Contents, IsListing, meta_value, stored_pending, stored_tables};
ghost use Rattle.cs_store.specs.Laws.{value_after};
ghost use Rattle.cs_store.specs.Whole.{IsWhole};
ghost use Rattle.cs_store.specs.Written.{pairs_of};
ghost use Rattle.cs_store.specs.declared.fault.StoreFault.TheVariants.{Device};
ghost use Rattle.cs_store.specs.declared.names.MetaName.{MetaName as Name};
ghost use Rattle.cs_pending.specs.Calls.{ReadsStore};
ghost use Rattle.cs_opening.specs.copying.Copied.{HoldsRowsAlone};
ghost use Rattle.cs_opening.specs.copying.Steps.{AreCopied, HasOurNames, IsCopied, edit_at, value_read};

use cs_map_store::MapStore;
use cs_store::edits::{PlaceEdit, PlaceEdits};
use cs_store::{Batch, MetaEdit, MetaName, RowStore, StoreFault, StoredBody};
use cs_value::{Catalog, Memory, TableDef};
use std::alloc::{AllocError, Global};

/// Whether all that a store holds is what its place says, and it has no log.
fn has_no_log<S: RowStore>(store: &mut S, catalog: &Catalog) -> Result<bool, StoreFault>
    ensures reads { ReadsStore S.RowStore Device (Unit {0}) store.old store.new result }
    ensures told { S.honest store.new → IfOk result (λ is. IsTrue is
        ↔ (IsWhole catalog.now (S.contents store.old) × ((S.contents store.old).log ≡ empty))) }
{
    let whole = store.check(catalog)?;
    if !whole {
        return Ok(false);
    }
    let entries = store.log_len()?;
    Ok(entries == 0)
}

/// Reads the value of each of these names, as edits that set it.
fn read_values<S: RowStore>(
    store: &mut S,
    names: &[MetaName],
    edits: &mut Vec<MetaEdit>,
) -> Result<(), StoreFault>
    ensures reads { ReadsStore S.RowStore Device (Unit {0}) store.old store.new result }
    ensures read { S.honest store.new → OnOk result ((name : Name) → value_after edits.new.items name None
        ≡ value_read (S.contents store.old) names.now name (value_after edits.old.items name None)) }
{
    let Some((name, others)) = names.split_first() else {
        return Ok(());
    };
    let value = store.meta(*name)?;
    edits.push(MetaEdit { name: *name, value })?;
    match read_values(store, others, edits) {
        Ok(()) => Ok(()),
        Err(fault) => Err(fault),
    }
}

/// The values of a store, as edits that set them.
fn values_of<S: RowStore>(alloc: Global, store: &mut S) -> Result<Vec<MetaEdit>, StoreFault>
    ensures reads { ReadsStore S.RowStore Device (Unit {0}) store.old store.new result }
    ensures read { S.honest store.new → IfOk result (λ edits. (name : Name)
        → value_after edits.items name None ≡ meta_value (S.contents store.old) name) }
{
    let names = [
        MetaName::Id,
        MetaName::Version,
        MetaName::Number,
        MetaName::Flight,
        MetaName::Pending,
        MetaName::Catalog,
    ];
    let mut edits = Vec::with_capacity(alloc, names.len())?;
    match read_values(store, &names, &mut edits) {
        Ok(()) => Ok(edits),
        Err(fault) => Err(fault),
    }
}

/// A store in memory that holds these values alone.
fn store_of(alloc: Global, meta: Vec<MetaEdit>) -> Result<MapStore, Memory>
    ensures { IfOk result (λ copy. (contents : Contents) → HasOurNames contents
        → ((name : Name) → value_after meta.items name None ≡ meta_value contents name) → AreCopied contents copy.held 0) }
{
    cs_store::laws::commits();
    let mut copy = MapStore::new(alloc);
    let batch = Batch {
        rows: PlaceEdits::new(alloc),
        pending: PlaceEdits::new(alloc),
        meta,
        log: None,
    };
    match copy.commit(&batch) {
        Ok(()) => Ok(copy),
        Err(_) => Err(AllocError),
    }
}

/// A store in memory that holds the values of a store alone.
fn copy_values<S: RowStore>(alloc: Global, store: &mut S) -> Result<MapStore, StoreFault>
    ensures reads { ReadsStore S.RowStore Device (Unit {0}) store.old store.new result }
    ensures copied { S.honest store.new → HasOurNames (S.contents store.old)
        → IfOk result (λ copy. AreCopied (S.contents store.old) copy.held 0) }
{
    let meta = match values_of(alloc, store) {
        Ok(meta) => meta,
        Err(fault) => return Err(fault),
    };
    let copy = store_of(alloc, meta)?;
    Ok(copy)
}

/// Edits that set the listed rows of the table with this number.
fn edits_of(alloc: Global, number: u32, listed: &[StoredBody]) -> Result<PlaceEdits, Memory>
    ensures { IfOk result (λ edits. edits ≡ map (edit_at number) listed.now) }
{
    let mut edits = PlaceEdits::with_capacity(alloc, listed.len(), 0)?;
    for row in listed {
        let body = Some(row.body.as_slice());
        edits.push(&PlaceEdit::new(number, row.key.as_slice(), body))?;
    }
    Ok(edits)
}

/// Writes the listed rows of the table with this number into the copy.
fn put_rows(
    alloc: Global,
    copy: &mut MapStore,
    number: u32,
    listed: Vec<StoredBody>,
) -> Result<(), Memory>
    ensures { OnOk result ((contents : Contents) → IsListing (stored_tables contents number) (pairs_of listed.items)
        → ((key : List ℕ) → stored_pending contents number key ≡ None)
        → AreCopied contents copy.old.held number → AreCopied contents copy.new.held (number + 1)) }
{
    cs_store::laws::commits();
    let batch = Batch {
        rows: edits_of(alloc, number, listed.as_slice())?,
        pending: PlaceEdits::new(alloc),
        meta: Vec::new(alloc),
        log: None,
    };
    match copy.commit(&batch) {
        Ok(()) => Ok(()),
        Err(_) => Err(AllocError),
    }
}

/// Whether nothing is listed.
fn are_none(listed: &[StoredBody]) -> bool
    ensures none { result ≡ true → listed.now ≡ [] }
    ensures some { result ≡ false → listed.now ≢ [] }
{
    match listed.split_first() {
        None => true,
        Some(_) => false,
    }
}

/// Copies the rows of the table with this number, if no change of it is pending.
fn copy_table<S: RowStore>(
    alloc: Global,
    store: &mut S,
    copy: &mut MapStore,
    number: u32,
) -> Result<bool, StoreFault>
    ensures reads { ReadsStore S.RowStore Device (Unit {0}) store.old store.new result }
    ensures told { S.honest store.new
        → IfOk result (IsCopied (S.contents store.old) copy.old.held copy.new.held number (number + 1)) }
{
    let pending = store.pend_list(number)?;
    if !are_none(pending.as_slice()) {
        return Ok(false);
    }
    let listed = store.list(number)?;
    put_rows(alloc, copy, number, listed)?;
    Ok(true)
}

/// Copies the rows of tables, of which the first has this number, if no change of them is pending.
fn copy_tables<S: RowStore>(
    alloc: Global,
    store: &mut S,
    copy: &mut MapStore,
    tables: &[TableDef],
    number: u32,
) -> Result<bool, StoreFault>
    requires { number + length tables.now < 2 ^ 32 }
    ensures reads { ReadsStore S.RowStore Device (Unit {0}) store.old store.new result }
    ensures told { S.honest store.new
        → IfOk result (IsCopied (S.contents store.old) copy.old.held copy.new.held number (number + length tables.now)) }
{
    let Some((_, others)) = tables.split_first() else {
        return Ok(true);
    };
    match copy_table(alloc, store, copy, number) {
        Ok(true) => {}
        Ok(false) => return Ok(false),
        Err(fault) => return Err(fault),
    }
    match copy_tables(alloc, store, copy, others, number + 1) {
        Ok(copied) => Ok(copied),
        Err(fault) => Err(fault),
    }
}

/// A copy in memory of a store, where that holds rows of the catalog's tables and values by name alone. None where it holds
/// anything else. The store is only read: each table and each value once.
pub fn copy_of<S: RowStore>(
    alloc: Global,
    store: &mut S,
    catalog: &Catalog,
) -> Result<Option<MapStore>, StoreFault>
    ensures reads { ReadsStore S.RowStore Device (Unit {0}) store.old store.new result }

    // The copy holds what the store holds, which is rows and values alone.
    ensures copied { S.honest store.new → IfOk result (λ copied. IfSome copied (λ copy.
        HoldsRowsAlone catalog.now (S.contents store.old) × (copy.held ≡ S.contents store.old))) }

    // There is none where it isn't.
    ensures none { S.honest store.new → IfOk result (λ copied. copied ≡ None → HoldsRowsAlone catalog.now (S.contents store.old) → ⊥) }
{
    let tables = catalog.tables();
    match has_no_log(store, catalog) {
        Ok(true) => {}
        Ok(false) => return Ok(None),
        Err(fault) => return Err(fault),
    }
    let mut copy = match copy_values(alloc, store) {
        Ok(copy) => copy,
        Err(fault) => return Err(fault),
    };
    match copy_tables(alloc, store, &mut copy, tables, 0) {
        Ok(true) => Ok(Some(copy)),
        Ok(false) => Ok(None),
        Err(fault) => Err(fault),
    }
}
