//! What an edit leaves of the row at its place.

ghost use Rattle.std.specs.Prelude.{◌≡◌, ◌⊎◌, IfOk, IfErr, Ok, Err};
ghost use Rattle.std.specs.Option.{option_copied};
ghost use Rattle.cs_pending.specs.Edits.{after_edit};
ghost use Rattle.cs_pending.specs.declared.fault.EditFault.TheVariants.{Memory};

use crate::fault::EditFault;
use crate::places::row_with_room;
use cs_change::put_set_columns;
use cs_record::{RecordBuf, Row, RowBuf};
use std::alloc::Global;

/// What is asked of the row at a place.
#[derive(Drop)]
pub(crate) enum Wanted {
    /// That this row is put where there is none.
    Insert(RowBuf),
    /// That these fields are put into it.
    Update(RecordBuf),
    /// That it goes.
    Delete,
}

/// What an edit leaves where this row is, or none.
pub(crate) fn left_by(
    alloc: Global,
    wanted: &Wanted,
    mine: Option<&Row<'_>>,
) -> Result<Option<RowBuf>, EditFault>
    ensures left { IfOk result (λ left. after_edit wanted.now (option_copied mine.entry) ≡ Ok left) }
    ensures refused { IfErr result (λ fault. (fault ≡ Memory) ⊎ (after_edit wanted.now (option_copied mine.entry) ≡ Err fault)) }
{
    match (wanted, mine) {
        (Wanted::Insert(row), None) => Ok(Some(row.copy(alloc)?)),
        (Wanted::Insert(_), Some(_)) => Err(EditFault::Exists),
        (_, None) => Err(EditFault::Missing),
        (Wanted::Update(fields), Some(row)) => {
            let fields = fields.as_record();
            // At most what both take.
            let room = fields.bytes().len().saturating_add(row.bytes().len());
            let mut updated = row_with_room(alloc, room)?;
            put_set_columns(&fields, row, &mut updated)?;
            Ok(Some(updated))
        }
        (Wanted::Delete, Some(_)) => Ok(None),
    }
}
