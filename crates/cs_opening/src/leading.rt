//! Whether a change is the net change that leads to what stands at its place.

ghost use Rattle.std.specs.Prelude.{◌≡◌, ◌↔◌, false, Option, Some, IfOk, IsTrue};
ghost use Rattle.std.specs.Option.{option_copied};
ghost use Rattle.cs_change.specs.Action.{Action, Updates};
ghost use Rattle.cs_change.specs.Columns.{set_columns};
ghost use Rattle.cs_change.specs.Listed.{listed};
ghost use Rattle.cs_change.specs.Net.{net};
ghost use Rattle.cs_change.specs.Spelling.{marks_of};
ghost use Rattle.cs_change.specs.netting.Combine.{with_flag_any};
ghost use Rattle.cs_store.specs.Written.{optional_bytes};
ghost use Rattle.cs_opening.specs.Steps.{IsLeading, IsNetTo};

use cs_change::netting::push_net;
use cs_change::{Change, ChangesBuf, Scratch, put_set_columns};
use cs_changeset::read_one;
use cs_record::{Record, Row, RowBuf};
use cs_store::whole_row;
use cs_value::{Memory, TableDef};
use std::alloc::Global;

/// Room for what updates are judged by; each that comes after overwrites it.
#[derive(Drop)]
pub(crate) struct Room {
    /// The row before the update.
    base: RowBuf,
    /// The records of the net change.
    scratch: Scratch,
    /// The net change.
    made: ChangesBuf,
}

impl Room {
    /// Nothing yet. It takes no memory.
    pub(crate) fn new(alloc: Global) -> Room {
        Room {
            base: RowBuf::new(alloc),
            scratch: Scratch::new(alloc),
            made: ChangesBuf::new(alloc),
        }
    }
}

/// Whether two rows are the same.
fn are_same(row: &Row<'_>, other: &Row<'_>) -> bool
    ensures { IsTrue result ↔ (row.now ≡ other.now) }
{
    row.same(other)
}

/// Whether what was made is the update with these records.
fn is_made(made: &ChangesBuf, old: &Record<'_>, new: &Record<'_>) -> bool
    ensures { (change : Option Action) → made.now ≡ listed (with_flag_any false change)
        → (IsTrue result ↔ (change ≡ Some (Updates old.now new.now))) }
{
    match made.get(0) {
        Some(
            Change::Update {
                old_fields,
                new_fields,
                ..
            },
        ) => old_fields.same(old) && new_fields.same(new),
        _ => false,
    }
}

/// Whether an update with these records is the net change from the row before it to this one.
fn is_update(
    marks: &[bool],
    old: &Record<'_>,
    new: &Record<'_>,
    row: &Row<'_>,
    room: &mut Room,
) -> Result<bool, Memory>
    ensures { IfOk result (λ is. IsTrue is
        ↔ (net marks.now (Some (set_columns old.now row.now)) (Some row.now) ≡ Some (Updates old.now new.now))) }
{
    room.base.clear();
    room.made.clear();
    put_set_columns(old, row, &mut room.base)?;
    let base = room.base.as_row();
    push_net(false, marks, &base, row, &mut room.scratch, &mut room.made)?;
    Ok(is_made(&room.made, old, new))
}

/// Whether a change is the net change to what stands at its place, from what it says that stood there. An INSERT and a DELETE are
/// judged without memory.
#[tactic(auto, unfolding(cs_change::specs::Net::net, cs_pending::specs::View::undo))]
pub(crate) fn is_net_to(
    marks: &[bool],
    change: &Change<'_>,
    place: Option<&Row<'_>>,
    room: &mut Room,
) -> Result<bool, Memory>
    ensures { IfOk result (λ is. IsTrue is ↔ IsNetTo marks.now change.now (option_copied place.entry)) }
{
    match (change, place) {
        (Change::Insert { new_row, .. }, Some(row)) => Ok(are_same(row, new_row)),
        (Change::Delete { .. }, None) => Ok(true),
        (
            Change::Update {
                old_fields,
                new_fields,
                ..
            },
            Some(row),
        ) => is_update(marks, old_fields, new_fields, row, room),
        _ => Ok(false),
    }
}

/// Whether bytes spell a change of a table that leads to the row, or to none, that others spell.
pub(crate) fn leads(
    table: &TableDef,
    columns: &[u8],
    row: &Option<Vec<u8>>,
    body: &[u8],
    room: &mut Room,
) -> Result<bool, Memory>
    requires { marks_of columns.now ≡ table.now.key_marks }
    ensures { IfOk result (λ is. IsTrue is ↔ IsLeading table.now (optional_bytes row.now) body.now) }
{
    let marks = table.key_marks.as_slice();
    let Some(change) = read_one(columns, body) else {
        return Ok(false);
    };
    let Some(bytes) = row else {
        return is_net_to(marks, &change, None, room);
    };
    let Some(place) = whole_row(bytes.as_slice(), marks.len()) else {
        return Ok(false);
    };
    is_net_to(marks, &change, Some(&place), room)
}
