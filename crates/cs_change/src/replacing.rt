//! An update put in the place of a change that has as many bytes, and a change turned where it stands.

ghost use Rattle.std.specs.Prelude.{◌≡◌, ◌+◌, ◌<◌, ◌≤◌, ◌++◌, ◌∷◌, List, Some, length, slice_get, slice_index, slice_set};
ghost use Rattle.cs_change.specs.Held.{AreHeld, IsChangeIn, overwritten, turned_byte};
ghost use Rattle.cs_change.specs.Spelling.{HasLength, flag_byte, update_byte};
ghost use Rattle.cs_change.specs.Then.{turned};
ghost use Rattle.cs_change.specs.declared.change.Change.{Change as One};

use crate::first_bytes::{DELETE, INSERT, UPDATE};
use crate::place::Place;

/// Writes these bytes over as many that stand there.
#[inline(always)]
fn write_over(bytes: &mut [u8], at: usize, written: &[u8])
    requires { at + length written.now ≤ length bytes.old }
    ensures { bytes.new ≡ overwritten bytes.old at written.now }
{
    bytes[at..at + written.len()].copy_from_slice(written);
}

/// Writes an update with these records over as many bytes.
#[inline(always)]
fn write_update(bytes: &mut [u8], at: usize, flag: bool, old: &[u8], new: &[u8])
    requires { at + (2 + length old.now + length new.now) ≤ length bytes.old }
    ensures { bytes.new ≡ overwritten bytes.old at (update_byte ∷ flag_byte flag ∷ (old.now ++ new.now)) }
{
    write_over(bytes, at, &[UPDATE, u8::from(flag)]);
    write_over(bytes, at + 2, old);
    write_over(bytes, at + 2 + old.len(), new);
}

/// Puts the update with the records that these bytes spell in the place of the change there.
#[inline(always)]
pub(crate) fn put_over(
    bytes: &mut Vec<u8>,
    places: &mut Vec<Place>,
    index: usize,
    flag: bool,
    old: &[u8],
    new: &[u8],
)
    requires { (changes : List One) × AreHeld bytes.old.items places.old.items changes
        × HasLength changes index (2 + length old.now + length new.now) }
    ensures { (changes : List One) (change : One) → AreHeld bytes.old.items places.old.items changes
        → IsChangeIn (update_byte ∷ flag_byte flag ∷ (old.now ++ new.now)) (2 + length old.now) change
        → AreHeld bytes.new.items places.new.items (slice_set changes index change) }
{
    let start = places[index].start;
    let split = 2 + old.len();
    write_update(bytes.as_mut_slice(), start, flag, old, new);
    places[index] = Place { start, split };
}

/// Exchanges INSERT and DELETE in the byte there; another byte stays.
#[inline(always)]
fn turn_byte(bytes: &mut [u8], at: usize)
    requires { at < length bytes.old }
    ensures { bytes.new ≡ slice_set bytes.old at (turned_byte (slice_index bytes.old at)) }
{
    let operation = bytes[at];
    if operation == INSERT {
        bytes[at] = DELETE;
    } else if operation == DELETE {
        bytes[at] = INSERT;
    }
}

/// Makes a DELETE of the INSERT there, and an INSERT of the DELETE; an UPDATE stays.
#[inline(always)]
pub(crate) fn turn_over(bytes: &mut Vec<u8>, places: &[Place], index: usize)
    requires { (changes : List One) × AreHeld bytes.old.items places.now changes × (index < length changes) }
    ensures { (changes : List One) (change : One) → AreHeld bytes.old.items places.now changes
        → slice_get changes index ≡ Some change
        → AreHeld bytes.new.items places.now (slice_set changes index (turned change)) }
{
    if let Some(place) = places.get(index) {
        turn_byte(bytes.as_mut_slice(), place.start);
    }
}
