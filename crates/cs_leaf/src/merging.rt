//! Edits that are merged into rows.

ghost use Rattle.std.specs.Prelude.{◌≡◌, ◌≤◌, ◌<◌, ◌++◌, T, length, drop, fold, option_map, IfOk, OnOk};
ghost use Rattle.std.specs.FinMap.{is_sorted};
ghost use Rattle.cs_store.specs.Contents.{place_cmp};
ghost use Rattle.cs_leaf.specs.Edits.{IsMerged, Rise, edited};
ghost use Rattle.cs_leaf.specs.Entries.{written};

use crate::leaf::{Leaf, Place};
use cs_store::edits::{LentEdits, PlaceEdit};
use std::alloc::{AllocError, Global};

/// Appends the row that an edit sets at its place, if it sets one.
#[inline(always)]
fn push_edit(merged: &mut Leaf, place: &Place, body: Option<&[u8]>) -> Result<(), AllocError>
    ensures { OnOk result (merged.new ≡ merged.old ++ written place.now (option_map (λ row. row.now) body.entry)) }
{
    match body {
        Some(row) => merged.push(place, row),
        None => Ok(()),
    }
}

/// Appends the rows of a leaf before an edit, from one place on, and then the edit's row, and answers where the leaf goes on.
#[inline(always)]
fn merge_edit(
    merged: &mut Leaf,
    leaf: &Leaf,
    from: usize,
    edit: &PlaceEdit<'_>,
) -> Result<usize, AllocError>
    requires from { from ≤ length leaf.now }
    requires sorted { T (is_sorted place_cmp leaf.now) }
    ensures bound { IfOk result (λ next. next ≤ length leaf.now) }
    ensures merged { IfOk result (λ next. IsMerged leaf.now from edit.now next merged.old merged.new) }
{
    let place = Place::of_edit(edit);
    let (at, next) = leaf.pass(from, &place);
    merged.push_rows(leaf, from, at)?;
    push_edit(merged, &place, edit.body())?;
    Ok(next)
}

/// The rows of a leaf after an edit, in memory of their own.
pub(crate) fn merged_one(
    alloc: Global,
    leaf: &Leaf,
    edit: &PlaceEdit<'_>,
) -> Result<Leaf, AllocError>
    requires sorted { T (is_sorted place_cmp leaf.now) }
    ensures { IfOk result (λ merged. merged ≡ edited leaf.now edit.now) }
{
    let mut merged = Leaf::with_room(alloc, leaf, leaf.len().saturating_add(1))?;
    let from = merge_edit(&mut merged, leaf, 0, edit)?;
    merged.push_rows(leaf, from, leaf.len())?;
    Ok(merged)
}

/// The rows of a leaf after edits, in memory of their own. They are put together in place of what is in `room`, and copied, since
/// how much memory they take is known then alone. With all that they may take, leaves would take twice as much.
pub(crate) fn merged(
    alloc: Global,
    leaf: &Leaf,
    edits: &LentEdits<'_>,
    room: &mut Leaf,
) -> Result<Leaf, AllocError>
    requires sorted { T (is_sorted place_cmp leaf.now) }
    requires rise { Rise edits.now }
    ensures { IfOk result (λ merged. merged ≡ fold edited leaf.now edits.now) }
{
    room.clear();
    let mut from = 0;
    for at in 0..edits.len() {
        from = merge_edit(room, leaf, from, &edits.get(at))?;
    }
    room.push_rows(leaf, from, leaf.len())?;
    room.copied(alloc)
}

/// Puts the rows of a leaf after edits, from a row and an edit on, in place of what is in `merged`. They go up to the edit with which
/// there are so many, or are all that are left. It answers which row and which edit are next.
pub fn merge_some(
    merged: &mut Leaf,
    leaf: &Leaf,
    from: (usize, usize),
    edits: &LentEdits<'_>,
    most: usize,
) -> Result<(usize, usize), AllocError>
    requires sorted { T (is_sorted place_cmp leaf.now) }
    requires rise { Rise edits.now }
    requires row { from.0 ≤ length leaf.now }
    requires edit { from.1 < length edits.now }
    requires some { 0 < most }
    ensures bound { IfOk result (λ next. (next.0 ≤ length leaf.now) × (from.1 < next.1) × (next.1 ≤ length edits.now)) }
    ensures merged { IfOk result (λ next. merged.new ++ fold edited (drop next.0 leaf.now) (drop next.1 edits.now)
        ≡ fold edited (drop from.0 leaf.now) (drop from.1 edits.now)) }
    ensures end { IfOk result (λ next. next.1 ≡ length edits.now → next.0 ≡ length leaf.now) }
    ensures enough { IfOk result (λ next. next.1 < length edits.now → most ≤ length merged.new) }
{
    merged.clear();
    let (mut row, mut at) = from;
    while at < edits.len() && merged.len() < most {
        row = merge_edit(merged, leaf, row, &edits.get(at))?;
        at += 1;
    }
    if at < edits.len() {
        return Ok((row, at));
    }
    merged.push_rows(leaf, row, leaf.len())?;
    Ok((leaf.len(), at))
}
