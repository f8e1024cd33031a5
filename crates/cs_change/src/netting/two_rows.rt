//! The net change of two rows or none, in its bytes.

ghost use Rattle.std.specs.Prelude.{◌≡◌, ◌++◌, false, IfOk, OnOk, OnErr, Some, slice_get};
ghost use Rattle.std.specs.Option.{option_copied};
ghost use Rattle.cs_change.specs.Action.{action_any, after_any, IsDirect};
ghost use Rattle.cs_change.specs.Listed.{listed};
ghost use Rattle.cs_change.specs.Net.{net as the_net};
ghost use Rattle.cs_change.specs.netting.Combine.{with_flag_any};
ghost use Rattle.cs_change.specs.netting.OneKey.{HaveOneKey};

use crate::netting::two_changes::net_update;
use crate::{Change, ChangesBuf, Scratch};
use cs_record::Row;
use cs_value::{Memory, TableDef};
use std::alloc::Global;
use std::marker::Model;

/// A net change, if there is one, in the bytes that spell it. Contracts see it as a change or none.
#[derive(Drop)]
pub struct NetChange {
    changes: ChangesBuf,
}

impl Model for NetChange {
    ghost use Rattle.std.specs.Prelude.{Option, slice_get};
    ghost use Rattle.cs_change.specs.declared.change.Change.{Change as One};

    ghost Value = { Option One };

    ghost view = { λ net. slice_get net.changes 0 };
}

impl NetChange {
    /// The first of these changes, if there is one.
    fn of_first(changes: ChangesBuf) -> NetChange
        ensures { result ≡ slice_get changes 0 }
    {
        NetChange { changes }
    }

    /// The change, if there is one.
    pub fn get(&self) -> Option<Change<'_>>
        ensures { result ≡ self.now }
    {
        self.changes.get(0)
    }
}

/// The net change of two rows of one key, or none. None and a row give its INSERT, a row and none its DELETE. Two rows
/// that differ give the UPDATE of the columns that differ, and equal sides nothing. It is not indirect. (Profile of
/// this project over SQLite's "Session Extension", what a session records.)
pub fn net(
    alloc: Global,
    table: &TableDef,
    before: Option<&Row<'_>>,
    after: Option<&Row<'_>>,
) -> Result<NetChange, Memory>
    // The rows have the table's width and one key.
    requires { HaveOneKey table.now.key_marks (option_copied before) (option_copied after) }

    ensures net { IfOk result (λ change. action_any change
        ≡ the_net table.now.key_marks (option_copied before.entry) (option_copied after.entry)) }
    ensures direct { IfOk result IsDirect }

    // Applied to what was there, it leaves what is there.
    ensures takes { IfOk result (λ change. after_any (action_any change) (option_copied before.entry)
        ≡ Some (option_copied after.entry)) }
{
    crate::laws::net_takes();
    let mut scratch = Scratch::new(alloc);
    let mut changes = ChangesBuf::new(alloc);
    let marks = table.key_marks.as_slice();
    net_into(marks, before, after, &mut scratch, &mut changes)?;
    Ok(NetChange::of_first(changes))
}

/// The net change of two rows or none, if there is one, whatever their keys are: rows that come of a store may have any. It is not
/// indirect. An UPDATE's records are made in `scratch`.
#[tactic(auto, unfolding(crate::specs::Net::net))]
pub fn net_change<'a>(
    marks: &[bool],
    before: Option<&Row<'a>>,
    after: Option<&Row<'a>>,
    scratch: &'a mut Scratch,
) -> Result<Option<Change<'a>>, Memory>
    ensures { IfOk result (λ change. change
        ≡ with_flag_any false (the_net marks.now (option_copied before.entry) (option_copied after.entry))) }
{
    match (before, after) {
        (None, None) => Ok(None),
        (None, Some(new)) => {
            let new_row = new.again();
            Ok(Some(Change::Insert {
                flag: false,
                new_row,
            }))
        }
        (Some(old), None) => {
            let old_row = old.again();
            Ok(Some(Change::Delete {
                flag: false,
                old_row,
            }))
        }
        (Some(old), Some(new)) => net_update(false, marks, old, new, scratch),
    }
}

/// Appends the net change of two rows or none, if there is one, whatever their keys are. It is not indirect. An `Err` changes nothing.
pub fn net_into(
    marks: &[bool],
    before: Option<&Row<'_>>,
    after: Option<&Row<'_>>,
    scratch: &mut Scratch,
    out: &mut ChangesBuf,
) -> Result<(), Memory>
    ensures ok { OnOk result (out.new ≡ out.old
        ++ listed (with_flag_any false (the_net marks.now (option_copied before.entry) (option_copied after.entry)))) }
    ensures err { OnErr result (out.new ≡ out.old) }
{
    let Some(change) = net_change(marks, before, after, scratch)? else {
        return Ok(());
    };
    out.push(&change)
}
