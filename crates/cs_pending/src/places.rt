//! Rows or none, in their bytes: what a change is taken back to, and how a row and a change are stored.

ghost use Rattle.std.specs.Prelude.{◌≡◌, [], Some, option_map, IfOk};
ghost use Rattle.std.specs.Option.{option_copied};
ghost use Rattle.cs_value.specs.Same.{same_place};
ghost use Rattle.cs_record.specs.Spelling.{row_bytes};
ghost use Rattle.cs_change.specs.Action.{action_any};
ghost use Rattle.cs_change.specs.Spelling.{change_spelling};
ghost use Rattle.cs_store.specs.Written.{optional_bytes};
ghost use Rattle.cs_pending.specs.View.{direct_net, undo};

use cs_change::netting::net_change;
use cs_change::{Change, Scratch, put_set_columns, spell_change};
use cs_record::{RecordBuf, Row, RowBuf};
use cs_value::{Memory, TableDef};
use std::alloc::Global;

/// The row or none, where it stands.
pub fn lent(row: &Option<RowBuf>) -> Option<Row<'_>>
    ensures { result ≡ row.now }
{
    match row {
        None => None,
        Some(row) => Some(row.as_row()),
    }
}

/// A row or none, in memory of its own.
pub fn copied(alloc: Global, row: Option<&Row<'_>>) -> Result<Option<RowBuf>, Memory>
    ensures { IfOk result (λ copied. copied ≡ option_copied row.entry) }
{
    match row {
        None => Ok(None),
        Some(row) => Ok(Some(RowBuf::of_row(alloc, row)?)),
    }
}

/// A row without a value, with room for so many bytes.
pub(crate) fn row_with_room(alloc: Global, bytes: usize) -> Result<RowBuf, Memory>
    ensures { IfOk result (λ row. row ≡ []) }
{
    cs_record::laws::rows();
    let room = Vec::with_capacity(alloc, bytes)?;
    Ok(RowBuf::from_vec(room))
}

/// A record without a field, with room for so many bytes.
pub(crate) fn record_with_room(alloc: Global, bytes: usize) -> Result<RecordBuf, Memory>
    ensures { IfOk result (λ made. made ≡ []) }
{
    cs_record::laws::records();
    let room = Vec::with_capacity(alloc, bytes)?;
    Ok(RecordBuf::from_vec(room))
}

/// Whether it is the same row, or none twice.
#[tactic(auto, unfolding(cs_value::specs::Same::same_place))]
pub(crate) fn are_same(some: Option<&Row<'_>>, other: Option<&Row<'_>>) -> bool
    ensures { result ≡ same_place (option_copied some.entry) (option_copied other.entry) }
{
    match (some, other) {
        (None, None) => true,
        (Some(row), Some(next)) => row.same(next),
        _ => false,
    }
}

/// What a place held before a change that left this there.
#[tactic(auto, unfolding(crate::specs::View::undo))]
pub fn undone(
    alloc: Global,
    change: &Change<'_>,
    row: Option<&Row<'_>>,
) -> Result<Option<RowBuf>, Memory>
    ensures { IfOk result (λ before. before ≡ undo (action_any (Some change.now)) (option_copied row.entry)) }
{
    match (change, row) {
        (Change::Insert { .. }, _) => Ok(None),
        (Change::Delete { old_row, .. }, _) => Ok(Some(RowBuf::of_row(alloc, old_row)?)),
        (Change::Update { .. }, None) => Ok(None),
        (Change::Update { old_fields, .. }, Some(row)) => {
            let mut before = RowBuf::new(alloc);
            put_set_columns(old_fields, row, &mut before)?;
            Ok(Some(before))
        }
    }
}

/// The bytes of a row or none.
pub(crate) fn row_body<'a>(row: Option<&Row<'a>>) -> Option<&'a [u8]>
    ensures { option_map (λ body. body.now) result ≡ option_map row_bytes (option_copied row.entry) }
{
    match row {
        None => None,
        Some(row) => Some(row.bytes()),
    }
}

/// The bytes that are there, or none.
pub(crate) fn lent_body(body: &Option<Vec<u8>>) -> Option<&[u8]>
    ensures { option_map (λ bytes. bytes.now) result ≡ optional_bytes body.now }
{
    match body {
        None => None,
        Some(bytes) => Some(bytes.as_slice()),
    }
}

/// What the net change of two rows or none is made in, with room for it.
fn scratch_for(
    alloc: Global,
    base: Option<&Row<'_>>,
    mine: Option<&Row<'_>>,
) -> Result<Scratch, Memory> {
    match (base, mine) {
        (Some(old), Some(new)) => Ok(Scratch {
            old_fields: record_with_room(alloc, old.bytes().len())?,
            new_fields: record_with_room(alloc, new.bytes().len())?,
            row: RowBuf::new(alloc),
        }),
        _ => Ok(Scratch::new(alloc)),
    }
}

/// The bytes of the net change of two rows or none, if there is one. It is not indirect.
pub(crate) fn net_body(
    alloc: Global,
    table: &TableDef,
    base: Option<&Row<'_>>,
    mine: Option<&Row<'_>>,
) -> Result<Option<Vec<u8>>, Memory>
    ensures { IfOk result (λ body. optional_bytes body
        ≡ option_map change_spelling (direct_net table.now (option_copied base.entry) (option_copied mine.entry))) }
{
    let mut scratch = scratch_for(alloc, base, mine)?;
    let Some(change) = net_change(table.key_marks.as_slice(), base, mine, &mut scratch)? else {
        return Ok(None);
    };
    Ok(Some(spell_change(alloc, &change)?))
}
