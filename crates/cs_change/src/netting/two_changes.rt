//! Two changes of one key taken together, in their bytes.

ghost use Rattle.std.specs.Prelude.{◌≡◌, ◌++◌, ◌∷◌, [], IfOk, OnErr, OnOk, Some};
ghost use Rattle.cs_change.specs.Action.{action};
ghost use Rattle.cs_change.specs.Listed.{listed};
ghost use Rattle.cs_change.specs.Net.{net};
ghost use Rattle.cs_change.specs.Then.{then_old_fields, then_new_fields, update_if_any};
ghost use Rattle.cs_change.specs.netting.Combine.{then_change, with_flag, with_flag_any};

use crate::netting::record_columns::{put_net_columns, put_then_columns};
use crate::{Change, ChangesBuf, Scratch};
use cs_record::{Record, Row};
use cs_value::Memory;

/// Appends the existing change and then the new one, as one change, if one is left. It is indirect where both are. An `Err` appends
/// nothing. (SQLite's "Session Extension", changegroup; the pairs that don't follow on one another are this project's profile.)
#[tactic(auto, unfolding(crate::specs::Then::then_one))]
pub fn then_into(
    marks: &[bool],
    earlier: &Change<'_>,
    later: &Change<'_>,
    scratch: &mut Scratch,
    out: &mut ChangesBuf,
) -> Result<(), Memory>
    ensures ok { OnOk result (out.new ≡ out.old ++ listed (then_change marks.now earlier.now later.now)) }
    ensures err { OnErr result (out.new ≡ out.old) }
{
    let flag = earlier.is_indirect() && later.is_indirect();
    match (earlier, later) {
        (Change::Insert { new_row, .. }, Change::Update { new_fields, .. }) => {
            scratch.push_set_insert(flag, new_fields, new_row, out)
        }
        (Change::Insert { .. }, Change::Delete { .. }) => Ok(()),
        (
            Change::Update {
                old_fields,
                new_fields,
                ..
            },
            Change::Update {
                old_fields: old_later,
                new_fields: new_later,
                ..
            },
        ) => push_updates(
            flag, old_fields, new_fields, old_later, new_later, scratch, out,
        ),
        (Change::Update { old_fields, .. }, Change::Delete { old_row, .. }) => {
            scratch.push_set_delete(flag, old_fields, old_row, out)
        }
        (Change::Delete { old_row, .. }, Change::Insert { new_row, .. }) => {
            push_net(flag, marks, old_row, new_row, scratch, out)
        }
        (existing, _) => push_flagged(flag, existing, out),
    }
}

/// Appends the change with this flag.
fn push_flagged(flag: bool, change: &Change<'_>, out: &mut ChangesBuf) -> Result<(), Memory>
    ensures ok { OnOk result (out.new ≡ out.old ++ with_flag flag (action change.now) ∷ []) }
    ensures err { OnErr result (out.new ≡ out.old) }
{
    match change {
        Change::Insert { new_row, .. } => {
            let new_row = new_row.again();
            out.push(&Change::Insert { flag, new_row })
        }
        Change::Delete { old_row, .. } => {
            let old_row = old_row.again();
            out.push(&Change::Delete { flag, old_row })
        }
        Change::Update {
            old_fields,
            new_fields,
            ..
        } => {
            let old_fields = old_fields.again();
            let new_fields = new_fields.again();
            out.push(&Change::Update {
                flag,
                old_fields,
                new_fields,
            })
        }
    }
}

/// Appends two updates as one, if a column is left.
fn push_updates(
    flag: bool,
    old_earlier: &Record<'_>,
    new_earlier: &Record<'_>,
    old_later: &Record<'_>,
    new_later: &Record<'_>,
    scratch: &mut Scratch,
    out: &mut ChangesBuf,
) -> Result<(), Memory>
    ensures ok { OnOk result (out.new ≡ out.old ++ listed (with_flag_any flag
        (update_if_any (then_old_fields old_earlier.now new_earlier.now old_later.now new_later.now)
        (then_new_fields old_earlier.now new_earlier.now old_later.now new_later.now)))) }
    ensures err { OnErr result (out.new ≡ out.old) }
{
    let olds = &mut scratch.old_fields;
    let news = &mut scratch.new_fields;
    olds.clear();
    news.clear();
    let left = put_then_columns(old_earlier, new_earlier, old_later, new_later, olds, news)?;
    if !left {
        return Ok(());
    }
    scratch.push_update(flag, out)
}

/// The update from one row to another, if they differ. Its records are made in `scratch`.
#[tactic(auto, unfolding(crate::specs::Net::net))]
pub(crate) fn net_update<'a>(
    flag: bool,
    marks: &[bool],
    before: &Row<'_>,
    after: &Row<'_>,
    scratch: &'a mut Scratch,
) -> Result<Option<Change<'a>>, Memory>
    ensures { IfOk result (λ change. change ≡ with_flag_any flag (net marks.now (Some before.now) (Some after.now))) }
{
    if before.same(after) {
        return Ok(None);
    }
    let olds = &mut scratch.old_fields;
    let news = &mut scratch.new_fields;
    olds.clear();
    news.clear();
    put_net_columns(marks, before, after, olds, news)?;
    Ok(Some(Change::Update {
        flag,
        old_fields: scratch.old_fields.as_record(),
        new_fields: scratch.new_fields.as_record(),
    }))
}

/// Appends the update from one row to another, if they differ. An `Err` appends nothing.
pub fn push_net(
    flag: bool,
    marks: &[bool],
    before: &Row<'_>,
    after: &Row<'_>,
    scratch: &mut Scratch,
    out: &mut ChangesBuf,
) -> Result<(), Memory>
    ensures ok { OnOk result (out.new
        ≡ out.old ++ listed (with_flag_any flag (net marks.now (Some before.now) (Some after.now)))) }
    ensures err { OnErr result (out.new ≡ out.old) }
{
    let Some(change) = net_update(flag, marks, before, after, scratch)? else {
        return Ok(());
    };
    out.push(&change)
}
