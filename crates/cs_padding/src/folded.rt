//! Edits of pending changes that aren't committed yet, of a table that gets more columns.

ghost use Rattle.std.specs.Prelude.{◌≡◌, ◌++◌, ◌∷◌, [], IfOk, OnOk, replicate};
ghost use Rattle.cs_change.specs.Spelling.{marks_of};
ghost use Rattle.cs_pending.specs.Calls.{ReadsStore};
ghost use Rattle.cs_pending.specs.Shows.{Pends};
ghost use Rattle.cs_pending.specs.View.{Changed};
ghost use Rattle.cs_record.specs.Spelling.{null_type, undefined_type};
ghost use Rattle.cs_store.specs.declared.fault.StoreFault.TheVariants.{Device};
ghost use Rattle.cs_store.specs.edits.Edits.{BodyEdit};
ghost use Rattle.cs_widening.specs.Widening.{CanWiden, widened_tables};
ghost use Rattle.cs_padding.specs.Pending.{MakesPending, PendsSome, pending_after, widened_pending};
ghost use Rattle.cs_padding.specs.Steps.{ArePaddedBehind, IsPaddedEdit};

use crate::pending::{NewColumns, new_columns, put_change, widen_pending};
use cs_changeset::read_one;
use cs_store::edits::{LentEdits, PlaceEdit, PlaceEdits};
use cs_store::{RowStore, StoreFault, mark_bytes};
use cs_value::{Catalog, Memory};
use std::alloc::Global;

/// Appends an edit of a pending change with new columns, where it is one of the table with this number.
fn push_padded(
    alloc: Global,
    number: u32,
    marks: &[u8],
    columns: &NewColumns,
    edit: &PlaceEdit<'_>,
    out: &mut PlaceEdits,
) -> Result<(), Memory>
    ensures { OnOk result ((wide : BodyEdit) × (out.new ≡ out.old ++ wide ∷ [])
        × IsPaddedEdit (marks_of marks.now) columns.now.nulls.items columns.now.undefined.items number edit.now wide) }
{
    if edit.table() != number {
        return out.push(edit);
    }
    let Some(body) = edit.body() else {
        return out.push(edit);
    };
    let Some(change) = read_one(marks, body) else {
        return out.push(edit);
    };
    let mut wide = Vec::new(alloc);
    put_change(&change, columns, &mut wide)?;
    out.push(&PlaceEdit::new(number, edit.key(), Some(wide.as_slice())))
}

/// Appends edits of pending changes, those of the table with this number with new columns.
fn push_all_padded(
    alloc: Global,
    number: u32,
    marks: &[u8],
    columns: &NewColumns,
    edits: &LentEdits<'_>,
    out: &mut PlaceEdits,
) -> Result<(), Memory>
    ensures { OnOk result (ArePaddedBehind (marks_of marks.now) columns.now.nulls.items columns.now.undefined.items number edits.now out.old out.new) }
{
    for at in 0..edits.len() {
        let edit = edits.get(at);
        push_padded(alloc, number, marks, columns, &edit, out)?;
    }
    Ok(())
}

/// Appends edits of pending changes, where the table with this number and these marks gets so many columns more.
fn push_widened(
    alloc: Global,
    number: u32,
    marks: &[bool],
    count: usize,
    edits: &PlaceEdits,
    out: &mut PlaceEdits,
) -> Result<(), Memory>
    ensures { OnOk result (ArePaddedBehind marks.now (replicate count null_type) (replicate count undefined_type) number edits.now out.old out.new) }
{
    let bytes = mark_bytes(alloc, marks)?;
    let columns = new_columns(alloc, count)?;
    push_all_padded(
        alloc,
        number,
        bytes.as_slice(),
        &columns,
        &edits.lend(),
        out,
    )
}

/// The edits of a table's pending changes as `widen_pending` gives them, and behind them edits that were to be made of what is pending:
/// those of the table have the new columns too. What is pending after all of them is what those edits alone would have left, with the new
/// columns.
///
/// # Errors
///
/// `Memory` and `Device`.
pub fn widen_pending_with<S: RowStore>(
    alloc: Global,
    store: &mut S,
    catalog: &Catalog,
    name: &str,
    width: usize,
    edits: &PlaceEdits,
) -> Result<PlaceEdits, StoreFault>
    requires can { CanWiden catalog.now name.now width }

    // The store is only read.
    ensures reads { ReadsStore S.RowStore Device (PendsSome catalog.now (S.contents store.old)) store.old store.new result }

    // A commit makes what the edits make, with the new columns. As many changes are pending then.
    ensures widened { S.honest store.new → (pending end : Changed) → Pends catalog.now (S.contents store.old) pending
        → MakesPending catalog.now (S.contents store.old) edits.now end
        → IfOk result (λ made. MakesPending (widened_tables name.now width catalog.now) (S.contents store.old) made (widened_pending name.now width end)
        × (pending_after (S.contents store.old) made ≡ pending_after (S.contents store.old) edits.now)) }
{
    cs_value::laws::catalogs();
    cs_changeset::laws::changesets();
    cs_widening::laws::bytes_widen();
    cs_store::laws::commits();
    let tables = catalog.tables();
    let Some(number) = catalog.find(name) else {
        unreachable!()
    };
    let marks = tables[number].key_marks.as_slice();
    let mut made = match widen_pending(alloc, store, catalog, name, width) {
        Ok(made) => made,
        Err(fault) => return Err(fault),
    };
    push_widened(
        alloc,
        number as u32,
        marks,
        width.saturating_sub(marks.len()),
        edits,
        &mut made,
    )?;
    Ok(made)
}
