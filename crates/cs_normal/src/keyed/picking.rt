//! Normal forms of changes, whose keys are picked out of those that were gathered.

ghost use Rattle.std.specs.Prelude.{◌≡◌, ◌++◌, ◌∷◌, [], OnOk, length};
ghost use Rattle.cs_order.specs.Order.{key_at};
ghost use Rattle.cs_normal.specs.keyed.Keyed.{beside};
ghost use Rattle.cs_normal.specs.keyed.NormalForm.{normal_form};
ghost use Rattle.cs_normal.specs.keyed.Prepared.{kept};

use crate::keyed::one_form::push_form;
use cs_change::{Change, ChangesBuf, Scratch};
use cs_order::PickedKeys;
use cs_value::Memory;

/// Appends the normal form of a change, if one is left, and picks the key at a place for it.
#[inline(always)]
pub fn pick_form(
    marks: &[bool],
    change: &Change<'_>,
    place: usize,
    scratch: &mut Scratch,
    keys: &mut PickedKeys,
    changes: &mut ChangesBuf,
) -> Result<(), Memory>
    requires { length keys.old.1 ≡ length changes.old }
    ensures keys { keys.new.0 ≡ keys.old.0 }
    ensures as_many { OnOk result (length keys.new.1 ≡ length changes.new) }
    ensures pushed { OnOk result (beside keys.new.1 changes.new
        ≡ beside keys.old.1 changes.old ++ kept ((key_at keys.old.0 place, normal_form marks.now change.now) ∷ [])) }
{
    let before = changes.len();
    push_form(marks, change, scratch, changes)?;
    if changes.len() > before {
        keys.push(place)?;
    }
    Ok(())
}
