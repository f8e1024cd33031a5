//! The edits of a batch in the order of their places, each place once.

ghost use Rattle.std.specs.Prelude.{◌≡◌, ◌<◌, length, drop, fold, IfOk, OnOk};
ghost use Rattle.cs_store.specs.Contents.{Bodies, place_cmp};
ghost use Rattle.cs_store.specs.Written.{edit_body};
ghost use Rattle.cs_leaf.specs.Edits.{Rise, store_place};
ghost use Rattle.cs_map_store.specs.Leaves.{DontFall, is_last_of};

use cs_order::compare_bytes;
use cs_store::edits::{LentEdits, PlaceEdit, PlaceEdits};
use std::alloc::{AllocError, Global};
use std::cmp::Ordering;

/// Compares the places of two edits.
fn compare(some: &PlaceEdit<'_>, other: &PlaceEdit<'_>) -> Ordering
    ensures { result ≡ place_cmp (store_place some.now) (store_place other.now) }
{
    match some.table().cmp(&other.table()) {
        Ordering::Equal => compare_bytes(some.key(), other.key()),
        apart => apart,
    }
}

/// Whether no edit of the same place follows the one there.
fn is_last(edits: &[PlaceEdit<'_>], at: usize) -> bool
    requires { at < length edits.now }
    ensures { result ≡ is_last_of (drop at edits.now) }
{
    if at + 1 >= edits.len() {
        return true;
    }
    !compare(&edits[at], &edits[at + 1]).is_eq()
}

/// Of edits whose places don't fall the last of each place.
fn last_of_each(alloc: Global, edits: &[PlaceEdit<'_>]) -> Result<PlaceEdits, AllocError>
    requires { DontFall edits.now }
    ensures rise { IfOk result (λ latest. Rise latest) }
    ensures same { IfOk result (λ latest. (rows : Bodies) → fold edit_body rows latest ≡ fold edit_body rows edits.now) }
{
    let mut latest = PlaceEdits::new(alloc);
    for at in 0..edits.len() {
        if is_last(edits, at) {
            latest.push(&edits[at])?;
        }
    }
    Ok(latest)
}

/// The edits, each lent.
fn listed<'a>(alloc: Global, edits: &LentEdits<'a>) -> Result<Vec<PlaceEdit<'a>>, AllocError>
    ensures { IfOk result (λ list. list.items ≡ edits.now) }
{
    let mut list = Vec::with_capacity(alloc, edits.len())?;
    for at in 0..edits.len() {
        list.push(edits.get(at))?;
    }
    Ok(list)
}

/// Sorts the edits by their places; those of one place stay in order.
fn sort(edits: &mut Vec<PlaceEdit<'_>>) -> Result<(), AllocError>
    ensures order { OnOk result (DontFall edits.new.items) }
    ensures same { OnOk result ((rows : Bodies) → fold edit_body rows edits.new.items ≡ fold edit_body rows edits.old.items) }
{
    edits.sort_by(|some, other| compare(some, other))?;
    Ok(())
}

/// The edits in the order of their places, of each place the last, in memory of their own.
pub fn in_order(alloc: Global, edits: &LentEdits<'_>) -> Result<PlaceEdits, AllocError>
    ensures rise { IfOk result (λ sorted. Rise sorted) }
    ensures same { IfOk result (λ sorted. (rows : Bodies) → fold edit_body rows sorted ≡ fold edit_body rows edits.now) }
{
    let mut all = listed(alloc, edits)?;
    sort(&mut all)?;
    last_of_each(alloc, all.as_slice())
}
