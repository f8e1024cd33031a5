//! Rows or none, in their bytes: what a change is taken back to, what it leaves where it replaces, and the net change of two.

ghost use Rattle.std.specs.Prelude.{◌≡◌, ◌++◌, Some, false, IfOk};
ghost use Rattle.std.specs.Option.{option_copied};
ghost use Rattle.cs_change.specs.Action.{action, action_any};
ghost use Rattle.cs_change.specs.Listed.{listed};
ghost use Rattle.cs_change.specs.Net.{net};
ghost use Rattle.cs_conflict.specs.Conflict.{replaced};
ghost use Rattle.cs_change.specs.netting.Combine.{with_flag_any};
ghost use Rattle.cs_normal.specs.Normal.{change_of};
ghost use Rattle.cs_pending.specs.View.{undo};
ghost use Rattle.cs_pending.specs.position.Shows.{flown};

use cs_change::netting::net_into;
use cs_change::{Change, ChangesBuf, Scratch, put_set_columns};
use cs_normal::Normal;
use cs_pending::{copied, lent, undone};
use cs_record::{Row, RowBuf};
use cs_value::{Memory, TableDef};
use std::alloc::Global;

/// The change at a place of what is under way, if there is one.
fn flown_at<'a>(flight: &'a Option<Normal>, table: &TableDef, key: &[u8]) -> Option<Change<'a>>
    ensures { result ≡ change_of table.now.name key.now (flown flight.now) }
{
    match flight {
        None => None,
        Some(changes) => changes.find(table.name.as_str(), key),
    }
}

/// What a place held before what is under way, which left this there.
#[tactic(auto, unfolding(cs_pending::specs::View::undo))]
pub(crate) fn before_flight(
    alloc: Global,
    flight: &Option<Normal>,
    table: &TableDef,
    key: &[u8],
    row: Option<&Row<'_>>,
) -> Result<Option<RowBuf>, Memory>
    ensures { IfOk result (λ before. before ≡ undo (action_any (change_of table.now.name key.now (flown flight.now))) (option_copied row.entry)) }
{
    match flown_at(flight, table, key) {
        None => copied(alloc, row),
        Some(change) => undone(alloc, &change, row),
    }
}

/// What a change leaves where it replaces; none where it may not.
#[tactic(auto, unfolding(cs_conflict::specs::Conflict::replaced))]
pub(crate) fn replacing(
    alloc: Global,
    change: &Change<'_>,
    row: Option<&Row<'_>>,
) -> Result<Option<Option<RowBuf>>, Memory>
    ensures { IfOk result (λ left. left ≡ replaced (action change.now) (option_copied row.entry)) }
{
    match (change, row) {
        (Change::Insert { new_row, .. }, _) => Ok(Some(Some(RowBuf::of_row(alloc, new_row)?))),
        (_, None) => Ok(None),
        (Change::Delete { .. }, Some(_)) => Ok(Some(None)),
        (Change::Update { new_fields, .. }, Some(row)) => {
            let mut updated = RowBuf::new(alloc);
            put_set_columns(new_fields, row, &mut updated)?;
            Ok(Some(Some(updated)))
        }
    }
}

/// The net change of two rows or none, as a list of one, or of none.
pub(crate) fn local_of(
    alloc: Global,
    table: &TableDef,
    base: &Option<RowBuf>,
    mine: &Option<RowBuf>,
) -> Result<ChangesBuf, Memory>
    ensures { IfOk result (λ made. made ≡ listed (with_flag_any false (net table.now.key_marks base.now mine.now))) }
{
    let mut scratch = Scratch::new(alloc);
    let mut changes = ChangesBuf::new(alloc);
    let before = lent(base);
    let after = lent(mine);
    net_into(
        table.key_marks.as_slice(),
        before.as_ref(),
        after.as_ref(),
        &mut scratch,
        &mut changes,
    )?;
    Ok(changes)
}
