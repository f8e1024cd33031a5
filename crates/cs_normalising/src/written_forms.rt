//! The normal forms of a table's changes, written one behind another.

ghost use Rattle.std.specs.Prelude.{◌≡◌, ◌++◌, ◌∷◌, [], IfOk, OnOk, length};
ghost use Rattle.std.specs.Map.{keys_of};
ghost use Rattle.cs_normal.specs.keyed.Keyed.{beside};
ghost use Rattle.cs_normal.specs.keyed.Prepared.{kept};
ghost use Rattle.cs_normalising.specs.Steps.Lent.{entries_at, entries_of, AreBeside};
ghost use Rattle.cs_normalising.specs.Lent.{nth_entry};

use crate::key_order::KeyOrder;
use cs_change::{Change, ChangesBuf, Scratch};
use cs_normal::keyed::{KeyedChanges, all_normal, pick_form};
use cs_order::{Keys, PickedKeys};
use cs_value::Memory;
use std::alloc::Global;

/// Appends the normal form of the change at a place, if one is left, and picks its key.
#[inline(always)]
fn keep_at(
    marks: &[bool],
    changes: &[Change<'_>],
    place: usize,
    scratch: &mut Scratch,
    keys: &mut PickedKeys,
    made: &mut ChangesBuf,
) -> Result<(), Memory>
    requires keys { keys.old.0 ≡ keys_of (entries_of marks.now changes.now) }
    requires as_many { length keys.old.1 ≡ length made.old }
    ensures keys { keys.new.0 ≡ keys.old.0 }
    ensures as_many { OnOk result (length keys.new.1 ≡ length made.new) }
    ensures kept { OnOk result (beside keys.new.1 made.new
        ≡ beside keys.old.1 made.old ++ kept (nth_entry (entries_of marks.now changes.now) place ∷ [])) }
{
    if place < changes.len() {
        return pick_form(marks, &changes[place], place, scratch, keys, made);
    }
    Ok(())
}

/// The normal forms that are left, in this order, behind their keys, which stay in the bytes where they were gathered.
fn keep(
    alloc: Global,
    marks: &[bool],
    keys: Keys,
    changes: &[Change<'_>],
    order: &KeyOrder,
) -> Result<KeyedChanges, Memory>
    requires { keys ≡ keys_of (entries_of marks.now changes.now) }
    ensures { IfOk result (λ made. made ≡ kept (entries_at marks.now changes.now order.now)) }
{
    let mut scratch = Scratch::new(alloc);
    let mut picked = PickedKeys::of_keys(alloc, keys, order.len())?;
    let mut made = ChangesBuf::with_room_for(alloc, changes)?;
    for at in 0..order.len() {
        keep_at(
            marks,
            changes,
            order.place(at),
            &mut scratch,
            &mut picked,
            &mut made,
        )?;
    }
    Ok(KeyedChanges::from_parts(picked.finish(), made))
}

/// The changes as they stand, behind these keys.
fn as_they_stand(alloc: Global, keys: Keys, changes: &[Change<'_>]) -> Result<KeyedChanges, Memory>
    requires { length keys ≡ length changes.now }
    ensures { IfOk result (λ made. made ≡ beside keys changes.now) }
{
    let changes = ChangesBuf::of_changes(alloc, changes)?;
    Ok(KeyedChanges::from_parts(keys, changes))
}

/// The normal forms that are left, in this order, behind their keys. Where the changes are in normal form and in order already,
/// they are copied as they stand.
pub(crate) fn write_forms(
    alloc: Global,
    marks: &[bool],
    keys: Keys,
    changes: &[Change<'_>],
    order: &KeyOrder,
) -> Result<KeyedChanges, Memory>
    requires { AreBeside marks.now keys order.now changes.now }
    ensures { IfOk result (λ made. made ≡ kept (entries_at marks.now changes.now order.now)) }
{
    if order.stands() && all_normal(marks, changes) {
        return as_they_stand(alloc, keys, changes);
    }
    keep(alloc, marks, keys, changes, order)
}
