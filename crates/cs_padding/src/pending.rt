//! The pending changes of a table that gets more columns.

ghost use Rattle.std.specs.Prelude.{◌≡◌, ◌++◌, IfOk, IfSome, IsSome, OnOk, replicate};
ghost use Rattle.std.specs.List.{AllByRecursion};
ghost use Rattle.cs_change.specs.Spelling.{FitsChange, change_spelling, flag_byte, marks_of};
ghost use Rattle.cs_pending.specs.Calls.{ReadsStore};
ghost use Rattle.cs_pending.specs.Shows.{Pends};
ghost use Rattle.cs_pending.specs.View.{Changed};
ghost use Rattle.cs_record.specs.Spelling.{null_type, undefined_type};
ghost use Rattle.cs_store.specs.Contents.{IsListing, stored_pending};
ghost use Rattle.cs_store.specs.Written.{pairs_of};
ghost use Rattle.cs_store.specs.declared.fault.StoreFault.TheVariants.{Device};
ghost use Rattle.cs_widening.specs.Widening.{widened_tables};
ghost use Rattle.cs_padding.specs.Pending.{ArePendingEdits, PendsSome, widened_pending};
ghost use Rattle.cs_padding.specs.Steps.{ArePadded, IsChangeBody, padded_change};

use crate::padding::{put_padded, repeated};
use cs_change::{Change, DELETE, INSERT, UPDATE};
use cs_changeset::read_one;
use cs_record::NULL;
use cs_store::edits::{PlaceEdit, PlaceEdits};
use cs_store::{RowStore, StoreFault, StoredBody, mark_bytes};
use cs_value::{Catalog, Memory};
use std::alloc::Global;

/// The byte of a field that isn't defined.
const UNDEFINED: u8 = 0;

/// The bytes of new columns: those of a row, and those of an UPDATE's record.
#[derive(Drop)]
pub(crate) struct NewColumns {
    pub nulls: Vec<u8>,
    pub undefined: Vec<u8>,
}

/// The bytes of so many columns.
pub(crate) fn new_columns(alloc: Global, count: usize) -> Result<NewColumns, Memory>
    ensures { IfOk result (λ made. (made.nulls.items ≡ replicate count null_type) × (made.undefined.items ≡ replicate count undefined_type)) }
{
    let nulls = repeated(alloc, NULL, count)?;
    let undefined = repeated(alloc, UNDEFINED, count)?;
    Ok(NewColumns { nulls, undefined })
}

/// Appends a change with new columns.
pub(crate) fn put_change(
    change: &Change<'_>,
    columns: &NewColumns,
    out: &mut Vec<u8>,
) -> Result<(), Memory>
    ensures { OnOk result (out.new.items ≡ out.old.items ++ padded_change columns.now.nulls.items columns.now.undefined.items change.now) }
{
    match change {
        Change::Insert { flag, new_row } => {
            out.extend_from_slice(&[INSERT, u8::from(*flag)])?;
            put_padded(new_row.bytes(), columns.nulls.as_slice(), out)
        }
        Change::Delete { flag, old_row } => {
            out.extend_from_slice(&[DELETE, u8::from(*flag)])?;
            put_padded(old_row.bytes(), columns.nulls.as_slice(), out)
        }
        Change::Update {
            flag,
            old_fields,
            new_fields,
        } => {
            out.extend_from_slice(&[UPDATE, u8::from(*flag)])?;
            put_padded(old_fields.bytes(), columns.undefined.as_slice(), out)?;
            put_padded(new_fields.bytes(), columns.undefined.as_slice(), out)
        }
    }
}

/// The change that a stored body is, if it is one.
fn change_in<'a>(marks: &[u8], stored: &'a StoredBody) -> Option<Change<'a>>
    ensures found { IfSome result (λ change. FitsChange (marks_of marks.now) change × (stored.now.body.items ≡ change_spelling change)) }
    ensures only { IsChangeBody (marks_of marks.now) stored.now → IsSome result }
{
    read_one(marks, stored.body.as_slice())
}

/// The edits of stored bodies by which each has new columns, if they are all changes.
fn padded_listing(
    alloc: Global,
    number: u32,
    marks: &[u8],
    listed: &[StoredBody],
    columns: &NewColumns,
) -> Result<Option<PlaceEdits>, Memory>
    ensures found { IfOk result (λ made. IfSome made (λ edits.
        ArePadded (marks_of marks.now) columns.now.nulls.items columns.now.undefined.items number listed.now edits)) }
    ensures only { AllByRecursion (IsChangeBody (marks_of marks.now)) listed.now → IfOk result (λ made. IsSome made) }
{
    let mut edits = PlaceEdits::new(alloc);
    let mut body = Vec::new(alloc);
    for stored in listed {
        let Some(change) = change_in(marks, stored) else {
            return Ok(None);
        };
        body.clear();
        put_change(&change, columns, &mut body)?;
        edits.push(&PlaceEdit::new(number, stored.key.as_slice(), Some(body.as_slice())))?;
    }
    Ok(Some(edits))
}

/// The edits by which the changes of a table with these marks have so many columns more, if the bodies are all changes of it.
fn padded_changes(
    alloc: Global,
    number: u32,
    marks: &[bool],
    listed: &[StoredBody],
    count: usize,
) -> Result<Option<PlaceEdits>, Memory>
    ensures found { IfOk result (λ made. IfSome made (λ edits.
        ArePadded marks.now (replicate count null_type) (replicate count undefined_type) number listed.now edits)) }
    ensures only { AllByRecursion (IsChangeBody marks.now) listed.now → IfOk result (λ made. IsSome made) }
{
    let bytes = mark_bytes(alloc, marks)?;
    let columns = new_columns(alloc, count)?;
    let made = padded_listing(alloc, number, bytes.as_slice(), listed, &columns)?;
    Ok(made)
}

/// The pending changes of a table, by its number.
fn list_changes<S: RowStore>(store: &mut S, number: u32) -> Result<Vec<StoredBody>, StoreFault>
    ensures reads { ReadsStore S.RowStore Device (Unit {0}) store.old store.new result }
    ensures listed { S.honest store.new → IfOk result (λ listed. IsListing (stored_pending (S.contents store.old) number) (pairs_of listed.items)) }
{
    match store.pend_list(number) {
        Ok(listed) => Ok(listed),
        Err(fault) => Err(fault),
    }
}

/// The edits of a table's pending changes, where the table gets so many columns. INSERTs and DELETEs have NULL in those that they lack, and
/// UPDATEs don't define them. There are none where no table of the catalog has the name, or where it has as many columns or more.
/// What the store has that is no change of the table is told to the store.
///
/// # Errors
///
/// `Memory` and `Device`.
pub fn widen_pending<S: RowStore>(
    alloc: Global,
    store: &mut S,
    catalog: &Catalog,
    name: &str,
    width: usize,
) -> Result<PlaceEdits, StoreFault>
    // The store is only read.
    ensures reads { ReadsStore S.RowStore Device (PendsSome catalog.now (S.contents store.old)) store.old store.new result }

    // A commit of the edits makes of what is pending in the store that with the new columns.
    ensures widened { S.honest store.new → (pending : Changed) → Pends catalog.now (S.contents store.old) pending
        → IfOk result (λ edits. ArePendingEdits (widened_tables name.now width catalog.now) (S.contents store.old) edits (widened_pending name.now width pending)) }
{
    cs_value::laws::catalogs();
    cs_changeset::laws::changesets();
    cs_widening::laws::bytes_widen();
    let tables = catalog.tables();
    let Some(number) = catalog.find(name) else {
        return Ok(PlaceEdits::new(alloc));
    };
    let marks = tables[number].key_marks.as_slice();
    if width <= marks.len() {
        return Ok(PlaceEdits::new(alloc));
    }
    let listed = match list_changes(store, number as u32) {
        Ok(listed) => listed,
        Err(fault) => return Err(fault),
    };
    match padded_changes(
        alloc,
        number as u32,
        marks,
        listed.as_slice(),
        width - marks.len(),
    )? {
        Some(edits) => Ok(edits),
        None => Err(store.misread()),
    }
}
