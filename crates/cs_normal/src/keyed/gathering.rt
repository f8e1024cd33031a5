//! The keys of a table's changes, gathered.

ghost use Rattle.std.specs.Prelude.{◌≡◌, ◌++◌, [], IfOk, OnErr, OnOk};
ghost use Rattle.std.specs.Map.{keys_of};
ghost use Rattle.cs_normal.specs.keyed.Prepared.{all_keyed, prepared};

use crate::keyed::builder::KeysBuilder;
use crate::keyed::key_of_change::key_front;
use cs_change::Change;
use cs_order::Keys;
use cs_value::Memory;
use std::alloc::Global;

/// How many bytes the key of one number has.
const NUMBER: usize = 9;

/// Appends the keys of the changes before the first one without a key, and tells whether these are all. An `Err` leaves no key.
pub fn push_keys(
    marks: &[bool],
    changes: &[Change<'_>],
    keys: &mut KeysBuilder,
) -> Result<bool, Memory>
    ensures keys { OnOk result (keys.new ≡ keys.old ++ keys_of (prepared marks.now changes.now)) }
    ensures whole { IfOk result (λ whole. whole ≡ all_keyed marks.now changes.now) }
    ensures err { OnErr result (keys.new ≡ []) }
{
    let front = key_front(marks);
    let mut at = 0;
    while at < changes.len() {
        if !keys.push_of(front, &changes[at])? {
            return Ok(false);
        }
        at += 1;
    }
    Ok(true)
}

/// No key, with room for those of so many changes. Keys of a number are the most common ones; more room is taken where keys are
/// longer.
pub fn keys_for(alloc: Global, changes: usize) -> Result<KeysBuilder, Memory>
    ensures { IfOk result (λ made. made ≡ []) }
{
    KeysBuilder::with_capacity(alloc, changes, changes.saturating_mul(NUMBER))
}

/// The keys of the changes before the first one without a key, and whether these are all.
pub fn gather_keys(
    alloc: Global,
    marks: &[bool],
    changes: &[Change<'_>],
) -> Result<(Keys, bool), Memory>
    ensures keys { IfOk result (λ found. found.0 ≡ keys_of (prepared marks.now changes.now)) }
    ensures whole { IfOk result (λ found. found.1 ≡ all_keyed marks.now changes.now) }
{
    let mut keys = keys_for(alloc, changes.len())?;
    let whole = push_keys(marks, changes, &mut keys)?;
    Ok((keys.finish(), whole))
}
