//! What stands at a place, and stood there before what is pending.

ghost use Rattle.std.specs.Prelude.{◌≡◌, ◌↔◌, ℕ, List, Option, Some, option_map, IfOk, IfSome, IsTrue, length, slice_get};
ghost use Rattle.std.specs.Option.{option_copied};
ghost use Rattle.cs_value.specs.Key.{Place};
ghost use Rattle.cs_value.specs.declared.value.Value.{Value};
ghost use Rattle.cs_record.specs.Spelling.{row_bytes};
ghost use Rattle.cs_change.specs.Action.{action_any};
ghost use Rattle.cs_change.specs.Spelling.{change_spelling, FitsChange, FitsRow};
ghost use Rattle.cs_change.specs.declared.change.Change.{Change as OneChange};
ghost use Rattle.cs_store.specs.Contents.{stored_pending, stored_tables};
ghost use Rattle.cs_store.specs.Laws.{row_after};
ghost use Rattle.cs_store.specs.States.{IsStored};
ghost use Rattle.cs_store.specs.Written.{optional_bytes};
ghost use Rattle.cs_store.specs.declared.fault.StoreFault.TheVariants.{Device};
ghost use Rattle.cs_pending.specs.Calls.{ReadsStore};
ghost use Rattle.cs_pending.specs.Placing.{IsStandingAt, StandsIn, StoresSome, StoresSomeChange, base_found, body_found, standing_found};
ghost use Rattle.cs_pending.specs.Settling.{Settles, SettlesSome};
ghost use Rattle.cs_pending.specs.Shows.{ShowsSome};
ghost use Rattle.cs_pending.specs.View.{View, undo};

use crate::places::{copied, lent, undone};
use crate::settling::Settling;
use cs_changeset::read_one;
use cs_record::{Row, RowBuf};
use cs_store::edits::{LentEdits, PlaceEdit, PlaceEdits};
use cs_store::{RowStore, StoreFault, mark_bytes, whole_row};
use cs_value::{Catalog, TableDef};
use std::alloc::Global;

/// The place of a row.
#[derive(Drop)]
pub struct RowPlace<'a> {
    /// Its table.
    pub table: &'a TableDef,
    /// The table's number in the catalog.
    pub number: u32,
    /// The bytes of its key.
    pub key: &'a [u8],
}

/// What stands at a place, and what stood there before the change that is pending. Where none is pending, they are the same.
#[derive(Drop)]
pub struct Standing {
    /// The row that stands there, if there is one.
    pub mine: Option<RowBuf>,
    /// The row that stood there before what is pending, if there was one.
    pub base: Option<RowBuf>,
}

/// What was found at a place: the row that stands there, if there is one. Where a change is pending, it is also the row or none
/// that stood there before that. So no row is copied where nothing is pending.
#[derive(Drop)]
pub(crate) struct Found {
    mine: Option<RowBuf>,
    undone: Option<Option<RowBuf>>,
}

impl Found {
    ghost use Rattle.std.specs.Prelude.{◌≡◌};
    ghost use Rattle.cs_pending.specs.Placing.{standing_found};

    /// The row that stands there, if there is one.
    pub(crate) fn mine(&self) -> Option<Row<'_>>
        ensures { result ≡ (standing_found self.now).mine }
    {
        lent(&self.mine)
    }

    /// The row that stood there before what is pending, if there was one.
    pub(crate) fn base(&self) -> Option<Row<'_>>
        ensures { result ≡ (standing_found self.now).base }
    {
        match &self.undone {
            None => lent(&self.mine),
            Some(base) => lent(base),
        }
    }
}

/// The row of so many values that the whole of the bytes spells, if they spell one. It takes no memory.
fn spelled_row(bytes: Vec<u8>, columns: usize) -> Option<RowBuf>
    ensures found { IfSome result (λ row. FitsRow columns row × (bytes.items ≡ row_bytes row)) }
    ensures only { (row : List Value) → FitsRow columns row → bytes.items ≡ row_bytes row → result ≡ Some row }
{
    cs_record::laws::rows();
    if whole_row(bytes.as_slice(), columns).is_none() {
        return None;
    }
    Some(RowBuf::from_vec(bytes))
}

/// Whether an edit is of a place.
fn is_of(edit: &PlaceEdit<'_>, place: &RowPlace<'_>) -> bool
    ensures { IsTrue result ↔ ((edit.now.table ≡ place.now.number) × (edit.now.key ≡ place.now.key.now)) }
{
    edit.table() == place.number && edit.key() == place.key
}

/// The body or none that edits leave at a place, if one of them is of it.
fn edited_at<'a>(edits: &LentEdits<'a>, place: &RowPlace<'_>) -> Option<Option<&'a [u8]>>
    ensures { (stood : Option (List ℕ)) → row_after edits.now place.now.number place.now.key.now stood ≡ body_found result stood }
{
    let mut found = None;
    for at in 0..edits.len() {
        let edit = edits.get(at);
        if is_of(&edit, place) {
            found = Some(edit.body());
        }
    }
    found
}

/// The bytes of the row at a place of a store behind edits of its rows.
fn row_at<S: RowStore>(
    alloc: Global,
    store: &mut S,
    edits: &PlaceEdits,
    place: &RowPlace<'_>,
) -> Result<Option<Vec<u8>>, StoreFault>
    ensures reads { ReadsStore S.RowStore Device (Unit {0}) store.old store.new result }
    ensures found { S.honest store.new → IfOk result (λ body.
        optional_bytes body ≡ row_after edits.now place.now.number place.now.key.now (stored_tables (S.contents store.old) place.now.number place.now.key.now)) }
{
    match edited_at(&edits.lend(), place) {
        Some(None) => Ok(None),
        Some(Some(body)) => Ok(Some(Vec::from_slice(alloc, body)?)),
        None => store.get(place.number, place.key),
    }
}

/// The bytes of the pending change there, behind edits of these.
fn change_at<S: RowStore>(
    alloc: Global,
    store: &mut S,
    edits: &PlaceEdits,
    place: &RowPlace<'_>,
) -> Result<Option<Vec<u8>>, StoreFault>
    ensures reads { ReadsStore S.RowStore Device (Unit {0}) store.old store.new result }
    ensures found { S.honest store.new → IfOk result (λ body.
        optional_bytes body ≡ row_after edits.now place.now.number place.now.key.now (stored_pending (S.contents store.old) place.now.number place.now.key.now)) }
{
    match edited_at(&edits.lend(), place) {
        Some(None) => Ok(None),
        Some(Some(body)) => Ok(Some(Vec::from_slice(alloc, body)?)),
        None => store.pend_get(place.number, place.key),
    }
}

/// The row or none at a place of a store behind edits of its rows. What is no row of the table is told to the store.
fn own_at<S: RowStore>(
    alloc: Global,
    store: &mut S,
    edits: &PlaceEdits,
    place: &RowPlace<'_>,
) -> Result<Option<RowBuf>, StoreFault>
    ensures reads { ReadsStore S.RowStore Device
        (StoresSome (length place.now.table.now.key_marks) (row_after edits.now place.now.number place.now.key.now (stored_tables (S.contents store.old) place.now.number place.now.key.now))) store.old store.new result }
    ensures found { S.honest store.new → (row : Place)
        → IsStored (length place.now.table.now.key_marks) (row_after edits.now place.now.number place.now.key.now (stored_tables (S.contents store.old) place.now.number place.now.key.now)) row
        → IfOk result (λ found. found ≡ row) }
{
    let Some(bytes) = row_at(alloc, store, edits, place)? else {
        return Ok(None);
    };
    let Some(row) = spelled_row(bytes, place.table.key_marks.as_slice().len()) else {
        return Err(store.misread());
    };
    Ok(Some(row))
}

/// The row or none before what is pending at a place where this stands, if something is pending, behind edits of pending changes. What is
/// no change of the table is told to the store.
fn undone_at<S: RowStore>(
    alloc: Global,
    store: &mut S,
    edits: &PlaceEdits,
    place: &RowPlace<'_>,
    mine: Option<&Row<'_>>,
) -> Result<Option<Option<RowBuf>>, StoreFault>
    ensures reads { ReadsStore S.RowStore Device
        (StoresSomeChange place.now.table.now.key_marks (row_after edits.now place.now.number place.now.key.now (stored_pending (S.contents store.old) place.now.number place.now.key.now))) store.old store.new result }
    ensures found { S.honest store.new → (change : Option OneChange)
        → row_after edits.now place.now.number place.now.key.now (stored_pending (S.contents store.old) place.now.number place.now.key.now) ≡ option_map change_spelling change
        → IfSome change (FitsChange place.now.table.now.key_marks)
        → IfOk result (λ undone. base_found (option_copied mine.entry) undone ≡ undo (action_any change) (option_copied mine.entry)) }
{
    let Some(body) = change_at(alloc, store, edits, place)? else {
        return Ok(None);
    };
    let marks = mark_bytes(alloc, place.table.key_marks.as_slice())?;
    let Some(change) = read_one(marks.as_slice(), body.as_slice()) else {
        return Err(store.misread());
    };
    Ok(Some(undone(alloc, &change, mine)?))
}

/// What is found at a place of a store behind edits in the making. What the store has there that is no row or no change of the table is
/// told to it.
pub(crate) fn found_behind<S: RowStore>(
    alloc: Global,
    store: &mut S,
    catalog: &Catalog,
    settling: &Settling,
    place: &RowPlace<'_>,
) -> Result<Found, StoreFault>
    requires { slice_get catalog.now place.now.number ≡ Some place.now.table.now }
    ensures reads { ReadsStore S.RowStore Device
        (SettlesSome catalog.now (S.contents store.old) settling.now) store.old store.new result }
    ensures found { S.honest store.new → (begun : ℕ) (view : View) → Settles catalog.now (S.contents store.old) begun settling.now view
        → IfOk result (λ found. StandsIn view place.now.table.now place.now.key.now (standing_found found)) }
{
    cs_value::laws::catalogs();
    let _tables = catalog.tables();
    let mine = match own_at(alloc, store, &settling.rows, place) {
        Ok(mine) => mine,
        Err(fault) => return Err(fault),
    };
    let row = lent(&mine);
    let undone = match undone_at(alloc, store, &settling.pending, place, row.as_ref()) {
        Ok(undone) => undone,
        Err(fault) => return Err(fault),
    };
    Ok(Found { mine, undone })
}

/// What is found at a place.
fn found_at<S: RowStore>(
    alloc: Global,
    store: &mut S,
    catalog: &Catalog,
    place: &RowPlace<'_>,
) -> Result<Found, StoreFault>
    requires { slice_get catalog.now place.now.number ≡ Some place.now.table.now }
    ensures reads { ReadsStore S.RowStore Device
        (ShowsSome catalog.now (S.contents store.old)) store.old store.new result }
    ensures found { S.honest store.new → IfOk result (λ found. IsStandingAt catalog.now (S.contents store.old) place.now.table.now place.now.key.now (standing_found found)) }
{
    let none = Settling::new(alloc, 0);
    found_behind(alloc, store, catalog, &none, place)
}

/// What stands at a place, and what stood there before what is pending. What the store has there that is no row or no change of the
/// table is told to the store.
pub fn standing_at<S: RowStore>(
    alloc: Global,
    store: &mut S,
    catalog: &Catalog,
    place: &RowPlace<'_>,
) -> Result<Standing, StoreFault>
    requires { slice_get catalog.now place.now.number ≡ Some place.now.table.now }

    // The store is only read.
    ensures reads { ReadsStore S.RowStore Device
        (ShowsSome catalog.now (S.contents store.old)) store.old store.new result }

    // It is what the store shows there.
    ensures found { S.honest store.new → IfOk result (IsStandingAt catalog.now (S.contents store.old) place.now.table.now place.now.key.now) }
{
    let Found { mine, undone } = match found_at(alloc, store, catalog, place) {
        Ok(found) => found,
        Err(fault) => return Err(fault),
    };
    let base = match undone {
        Some(base) => base,
        None => copied(alloc, lent(&mine).as_ref())?,
    };
    Ok(Standing { mine, base })
}
