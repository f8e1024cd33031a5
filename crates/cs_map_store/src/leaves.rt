//! The rows of a `MapStore`, and its pending changes: leaves whose places rise, none of them empty. A commit first prepares
//! what it makes of each leaf, and takes all the memory that it needs. Then it makes it or takes it back, which takes none.

ghost use Rattle.std.specs.Prelude.{◌≡◌, true, false, ◌≤◌, ◌<◌, ◌+◌, ◌⊎◌, List, [], ◌++◌, ◌∷◌, T, pos, length, take, drop, fold, map, filter, slice_set, option_map, Some, None, IfOk, IfSome, OnOk, OnErr, MatchBool, vec_len, vec_capacity};
ghost use Rattle.std.specs.List.{All};
ghost use Rattle.std.specs.Ordering.{int_eq, is_gt};
ghost use Rattle.std.specs.FinMap.{get, is_sorted};
ghost use Rattle.cs_leaf.specs.Entries.{Entry};
ghost use Rattle.cs_leaf.specs.Edits.{Rise, edited, store_place};
ghost use Rattle.cs_store.specs.Contents.{IsListing, place_cmp};
ghost use Rattle.cs_store.specs.Written.{edit_body, if_there, optional_bytes, pairs_of};
ghost use Rattle.cs_map_store.specs.Leaves.{AreBefore, AreLeaves, ArePatches, BeginsBy, BeginsBehind, CanBePut, ReachLeaf, after_staged, before_staged, first_place, flat, in_table, nth_leaf, patched, restored, undone, bodies_in};

use crate::anew::{make_leaves, push_edited};
use crate::edits::in_order;
use cs_leaf::{Change, Leaf, Place, laws};
use cs_store::StoredBody;
use cs_store::edits::{LentEdits, PlaceEdit};
use std::alloc::{AllocError, Global};
use std::mem;

/// A leaf that comes to have twice as many rows is cut into leaves of so many.
pub(crate) const LEAF: usize = 64;

/// A commit of so many edits for each leaf there is makes all leaves anew: where they are spread, it changes most of them.
const MANY: usize = 32;

/// So many leaves further a look-up looks at most before it halves all that are left.
const NEARBY: usize = 64;

/// A change of one of the leaves, which is taken out of them meanwhile.
#[derive(Drop)]
pub struct Patch {
    at: usize,
    change: Change,
}

/// What a commit is to make of the leaves.
#[derive(Drop)]
pub enum Staged {
    Patches(Vec<Patch>),
    Fresh(Vec<Leaf>),
}

/// Whether a leaf begins above a place.
fn begins_above(leaves: &[Leaf], at: usize, place: &Place) -> bool
    requires in_bounds { at < length leaves.now }
    ensures { result ≡ is_gt (place_cmp (first_place leaves.now at) place.now) }
{
    leaves[at].compare_first(place).is_gt()
}

/// Whether a place is before the leaf there: that begins above it, or isn't there.
#[inline(always)]
pub(crate) fn is_before(leaves: &[Leaf], at: usize, place: &Place) -> bool
    requires in_bounds { at ≤ length leaves.now }
    ensures before { result ≡ true → BeginsBehind leaves.now at place.now }
    ensures reaches { result ≡ false → (at < length leaves.now) × (is_gt (place_cmp (first_place leaves.now at) place.now) ≡ false) }
{
    at >= leaves.len() || begins_above(leaves, at, place)
}

/// A leaf that begins above a place, which the leaf at `from` doesn't: one near that, or where none does, the end.
#[inline(always)]
fn limit(leaves: &[Leaf], from: usize, place: &Place) -> usize
    requires in_bounds { from < length leaves.now }
    ensures bound { (from < result) × (result ≤ length leaves.now) }
    ensures next { BeginsBehind leaves.now result place.now }
{
    let mut step = 1;
    while step <= NEARBY && step < leaves.len() - from {
        if begins_above(leaves, from + step, place) {
            return from + step;
        }
        step *= 8;
    }
    leaves.len()
}

/// The leaf in which a place stands or would stand, not before `from`, and before `to`.
fn leaf_between(leaves: &[Leaf], from: usize, to: usize, place: &Place) -> usize
    requires bound { (from < to) × (to ≤ length leaves.now) }
    requires begins { BeginsBy leaves.now from place.now }
    requires next { BeginsBehind leaves.now to place.now }
    ensures bound { (from ≤ result) × (result < length leaves.now) }
    ensures begins { BeginsBy leaves.now result place.now }
    ensures next { BeginsBehind leaves.now (result + 1) place.now }
{
    let mut low = from;
    let mut high = to;
    while high - low > 1 {
        let middle = low + (high - low) / 2;
        if begins_above(leaves, middle, place) {
            high = middle;
        } else {
            low = middle;
        }
    }
    low
}

/// The leaf in which a place stands or would stand, not before `from`, near which it is looked for first.
fn leaf_for(leaves: &[Leaf], from: usize, place: &Place) -> usize
    requires in_bounds { from < length leaves.now }
    requires begins { BeginsBy leaves.now from place.now }
    ensures bound { (from ≤ result) × (result < length leaves.now) }
    ensures begins { BeginsBy leaves.now result place.now }
    ensures next { BeginsBehind leaves.now (result + 1) place.now }
{
    let to = limit(leaves, from, place);
    leaf_between(leaves, from, to, place)
}

/// A leaf before one that begins above a place, which doesn't: one near that, or where each does, the first.
#[inline(always)]
fn limit_back(leaves: &[Leaf], to: usize, place: &Place) -> usize
    requires some { 0 < to }
    requires in_bounds { to < length leaves.now }
    ensures bound { result < to }
    ensures begins { BeginsBy leaves.now result place.now }
{
    let mut step = 1;
    while step <= NEARBY && step < to {
        if !begins_above(leaves, to - step, place) {
            return to - step;
        }
        step *= 8;
    }
    0
}

/// The leaf in which a place stands or would stand. It is looked for on both sides of `at`.
fn leaf_about(leaves: &[Leaf], at: usize, place: &Place) -> usize
    requires in_bounds { at < length leaves.now }
    ensures bound { result < length leaves.now }
    ensures begins { BeginsBy leaves.now result place.now }
    ensures next { BeginsBehind leaves.now (result + 1) place.now }
{
    if at == 0 || !begins_above(leaves, at, place) {
        return leaf_for(leaves, at, place);
    }
    let from = limit_back(leaves, at, place);
    leaf_between(leaves, from, at, place)
}

/// Whether a place stands or would stand in the leaf there or in the next.
#[inline(always)]
fn is_about(leaves: &[Leaf], at: usize, place: &Place) -> bool
    ensures { result ≡ true → (at < length leaves.now) × BeginsBy leaves.now at place.now }
{
    at < leaves.len()
        && !begins_above(leaves, at, place)
        && (leaves.len() - at <= 2 || begins_above(leaves, at + 2, place))
}

/// The leaf in which a place would stand if keys were spread evenly; none, where leaves are of several tables.
#[inline(always)]
fn guess_leaf(leaves: &[Leaf], place: &Place) -> Option<usize>
    requires some { 0 < length leaves.now }
    ensures { IfSome result (λ at. at < length leaves.now) }
{
    let last = leaves.len() - 1;
    match leaves[0].share_before(&leaves[last], last, place) {
        Some(before) => Some(before.min(last)),
        None => None,
    }
}

/// The leaf in which a place stands or would stand. The one at `near` is looked at first.
fn leaf_near(leaves: &[Leaf], near: usize, place: &Place) -> usize
    requires some { 0 < length leaves.now }
    ensures bound { result < length leaves.now }
    ensures begins { BeginsBy leaves.now result place.now }
    ensures next { BeginsBehind leaves.now (result + 1) place.now }
{
    if is_about(leaves, near, place) {
        return leaf_for(leaves, near, place);
    }
    match guess_leaf(leaves, place) {
        Some(at) => leaf_about(leaves, at, place),
        None => leaf_between(leaves, 0, leaves.len(), place),
    }
}

/// The leaf in which the place of an edit stands or would stand, not before `from`.
fn leaf_of(leaves: &[Leaf], from: usize, edit: &PlaceEdit<'_>) -> usize
    requires in_bounds { from < length leaves.now }
    requires begins { BeginsBy leaves.now from (store_place edit.now) }
    ensures bound { (from ≤ result) × (result < length leaves.now) }
    ensures begins { BeginsBy leaves.now result (store_place edit.now) }
    ensures next { BeginsBehind leaves.now (result + 1) (store_place edit.now) }
{
    leaf_for(leaves, from, &Place::of_edit(edit))
}

/// How many edits are before the leaf there, of which the first is; none, where the places of these don't rise. Behind the last
/// leaf all are.
pub(crate) fn edits_before(leaves: &[Leaf], next: usize, edits: &LentEdits<'_>) -> Option<usize>
    requires in_bounds { next ≤ length leaves.now }
    requires some { 0 < length edits.now }
    requires first { AreBefore leaves.now next (take 1 edits.now) }
    ensures bound { IfSome result (λ count. (0 < count) × (count ≤ length edits.now)) }
    ensures before { IfSome result (λ count. AreBefore leaves.now next (take count edits.now)) }
    ensures behind { IfSome result (λ count. ReachLeaf leaves.now next (drop count edits.now)) }
    ensures rise { IfSome result (λ count. Rise (take count edits.now)) }
    ensures falls { result ≡ None → Rise edits.now → ⊥ }
{
    let mut last = Place::of_edit(&edits.get(0));
    let mut count = 1;
    while count < edits.len() {
        let place = Place::of_edit(&edits.get(count));
        if !is_before(leaves, next, &place) {
            return Some(count);
        }
        if !last.compare(&place).is_lt() {
            return None;
        }
        last = place;
        count += 1;
    }
    Some(count)
}

/// Whether each edit's place is below that of the next.
fn rise(edits: &LentEdits<'_>) -> bool
    ensures yes { result ≡ true → Rise edits.now }
    ensures no { result ≡ false → Rise edits.now → ⊥ }
{
    edits.len() <= 1 || edits_before(&[], 0, edits).is_some()
}

/// Where to begin to look for the leaves of edits whose places rise. It is `near`, or the first leaf, where that at `near`
/// begins above the first edit.
fn begin_at(leaves: &[Leaf], near: usize, edits: &LentEdits<'_>) -> usize
    ensures { (result ≡ 0) ⊎ ReachLeaf leaves.now result edits.now }
{
    if near >= leaves.len() || edits.len() == 0 {
        return 0;
    }
    if begins_above(leaves, near, &Place::of_edit(&edits.get(0))) {
        0
    } else {
        near
    }
}

/// Takes the leaf there out, and prepares what edits make of it, in place of what is in `room` first. At `Err` nothing has changed.
fn stage_leaf(
    alloc: Global,
    leaves: &mut Vec<Leaf>,
    at: usize,
    edits: &LentEdits<'_>,
    room: &mut Leaf,
) -> Result<Change, AllocError>
    requires in_bounds { at < length leaves.old.items }
    requires sorted { T (is_sorted place_cmp (nth_leaf leaves.old.items at)) }
    requires rise { Rise edits.now }
    ensures left { IfOk result (λ change. leaves.new.items ≡ slice_set leaves.old.items at []) }
    ensures before { IfOk result (λ change. change.0 ≡ nth_leaf leaves.old.items at) }
    ensures made { IfOk result (λ change. change.1 ≡ fold edited (nth_leaf leaves.old.items at) edits.now) }
    ensures err { OnErr result (leaves.new.items ≡ leaves.old.items) }
{
    let leaf = mem::replace(&mut leaves[at], Leaf::new(alloc));
    match cs_leaf::stage(alloc, leaf, edits, room) {
        Ok(change) => Ok(change),
        Err(leaf) => {
            leaves[at] = leaf;
            Err(AllocError)
        }
    }
}

/// Near which position to look for a place in its leaf. It is where the last look-up ended, if that was there. Else it is where
/// the place would be if keys were spread evenly.
#[inline(always)]
fn row_near(leaves: &[Leaf], at: usize, near: Near, place: &Place) -> usize
    requires { at < length leaves.now }
{
    if at == near.leaf {
        return near.row;
    }
    if at + 1 >= leaves.len() {
        return 0;
    }
    let leaf = &leaves[at];
    match leaf.share_before(&leaves[at + 1], leaf.len(), place) {
        Some(before) => before.saturating_add(1),
        None => 0,
    }
}

/// Takes the leaf of an edit's place out, and prepares what the edit makes of it. At `Err` nothing has changed. It is looked for
/// near where the last look-up ended.
fn stage_one(
    alloc: Global,
    leaves: &mut Vec<Leaf>,
    near: Near,
    edit: &PlaceEdit<'_>,
) -> Result<Patch, AllocError>
    requires some { 0 < length leaves.old.items }
    requires leaves { AreLeaves leaves.old.items }
    ensures place { IfOk result (λ patch. patch.at < length leaves.new.items) }
    ensures restored { IfOk result (λ patch. undone leaves.new.items patch ≡ leaves.old.items) }
    ensures same { IfOk result (λ patch. patched leaves.new.items (patch ∷ []) ≡ patched leaves.old.items (patch ∷ [])) }
    ensures made { IfOk result (λ patch. flat (patched leaves.old.items (patch ∷ [])) ≡ edited (flat leaves.old.items) edit.now) }
    ensures err { OnErr result (leaves.new.items ≡ leaves.old.items) }
{
    laws::edited_entries();
    let place = Place::of_edit(edit);
    let at = leaf_near(leaves.as_slice(), near.leaf, &place);
    let row = row_near(leaves.as_slice(), at, near, &place);
    let leaf = mem::replace(&mut leaves[at], Leaf::new(alloc));
    match cs_leaf::stage_one(alloc, leaf, row, &place, edit) {
        Ok(change) => Ok(Patch { at, change }),
        Err(leaf) => {
            leaves[at] = leaf;
            Err(AllocError)
        }
    }
}

/// Prepares what edits make of the leaves, adds it to the patches, and answers true. It answers false where places of edits are
/// found not to rise. Then, as at `Err`, some of it may be prepared. The leaf at `near` is looked at first.
fn stage_patches(
    alloc: Global,
    leaves: &mut Vec<Leaf>,
    near: usize,
    edits: &LentEdits<'_>,
    patches: &mut Vec<Patch>,
) -> Result<bool, AllocError>
    requires some { 0 < length leaves.old.items }
    requires leaves { AreLeaves leaves.old.items }
    requires none { patches.old.items ≡ [] }
    ensures places { ArePatches (length leaves.new.items) patches.new.items }
    ensures restored { restored leaves.new.items patches.new.items ≡ leaves.old.items }
    ensures same { patched leaves.new.items patches.new.items ≡ patched leaves.old.items patches.new.items }
    ensures made { IfOk result (λ rise. rise ≡ true → flat (patched leaves.old.items patches.new.items) ≡ fold edited (flat leaves.old.items) edits.now) }
    ensures falls { IfOk result (λ rise. rise ≡ false → Rise edits.now → ⊥) }
{
    let mut room = Leaf::new(alloc);
    let mut start = 0;
    let mut from = begin_at(leaves.as_slice(), near, edits);
    laws::edited_entries();
    while start < edits.len() {
        let at = leaf_of(leaves.as_slice(), from, &edits.get(start));
        let rest = edits.part(start, edits.len());
        let Some(count) = edits_before(leaves.as_slice(), at + 1, &rest) else {
            return Ok(false);
        };
        let end = start + count;
        patches.reserve(1)?;
        let change = stage_leaf(alloc, leaves, at, &edits.part(start, end), &mut room)?;
        patches.push_reserved(Patch { at, change });
        start = end;
        from = at + 1;
    }
    Ok(true)
}

/// The rows of a leaf, in leaves of at most so many.
fn pieces_of(alloc: Global, leaf: &Leaf) -> Result<Vec<Leaf>, AllocError>
    ensures same { IfOk result (λ pieces. flat pieces.items ≡ leaf.now) }
    ensures full { IfOk result (λ pieces. All (λ piece. 0 < length piece) pieces.items) }
{
    let mut pieces = Vec::new(alloc);
    let mut from = 0;
    while from < leaf.len() {
        let to = from.saturating_add(LEAF).min(leaf.len());
        let mut piece = Leaf::with_room(alloc, leaf, to - from)?;
        piece.push_rows(leaf, from, to)?;
        pieces.push(piece)?;
        from = to;
    }
    Ok(pieces)
}

/// Takes back what is prepared for a leaf.
fn undo(leaves: &mut Vec<Leaf>, patch: Patch)
    requires { patch.at < length leaves.old.items }
    ensures { leaves.new.items ≡ undone leaves.old.items patch }
{
    let Patch { at, change } = patch;
    leaves[at] = change.leave();
}

/// Takes back all that is prepared, the last first.
fn undo_all(leaves: &mut Vec<Leaf>, patches: Vec<Patch>)
    requires { ArePatches (length leaves.old.items) patches.items }
    ensures { leaves.new.items ≡ restored leaves.old.items patches.items }
{
    let mut patches = patches;
    while let Some(patch) = patches.pop() {
        undo(leaves, patch);
    }
}

/// New leaves of what edits whose places rise make of none; none, where they don't rise.
fn stage_fresh(alloc: Global, edits: &LentEdits<'_>) -> Result<Option<Staged>, AllocError>
    ensures can { IfOk result (λ found. IfSome found (λ staged. (leaves : List (List Entry)) → CanBePut staged leaves)) }
    ensures before { IfOk result (λ found. IfSome found (λ staged. (leaves : List (List Entry)) → before_staged staged leaves ≡ leaves)) }
    ensures made { IfOk result (λ found. IfSome found (λ staged. (leaves : List (List Entry)) → flat (after_staged staged leaves) ≡ fold edited [] edits.now)) }
    ensures falls { IfOk result (λ found. found ≡ None → Rise edits.now → ⊥) }
{
    if !rise(edits) {
        return Ok(None);
    }
    let mut made = Vec::new(alloc);
    let none = Leaf::new(alloc);
    push_edited(alloc, &mut made, &none, edits, &mut Leaf::new(alloc))?;
    Ok(Some(Staged::Fresh(made)))
}

/// New leaves of what edits whose places rise make of all leaves; none, where they don't rise.
fn stage_anew(
    alloc: Global,
    leaves: &[Leaf],
    edits: &LentEdits<'_>,
) -> Result<Option<Staged>, AllocError>
    requires some { 0 < length leaves.now }
    requires leaves { AreLeaves leaves.now }
    ensures can { IfOk result (λ found. IfSome found (λ staged. (others : List (List Entry)) → CanBePut staged others)) }
    ensures before { IfOk result (λ found. IfSome found (λ staged. (others : List (List Entry)) → before_staged staged others ≡ others)) }
    ensures made { IfOk result (λ found. IfSome found (λ staged. (others : List (List Entry)) → flat (after_staged staged others) ≡ fold edited (flat leaves.now) edits.now)) }
    ensures falls { IfOk result (λ found. found ≡ None → Rise edits.now → ⊥) }
{
    match make_leaves(alloc, leaves, edits)? {
        Some(made) => Ok(Some(Staged::Fresh(made))),
        None => Ok(None),
    }
}

/// Prepares what edits whose places rise make of the leaves; none, where they don't rise. Then, as at `Err`, nothing has changed.
/// The leaf at `near` is looked at first.
fn stage(
    alloc: Global,
    leaves: &mut Vec<Leaf>,
    near: usize,
    edits: &LentEdits<'_>,
) -> Result<Option<Staged>, AllocError>
    requires leaves { AreLeaves leaves.old.items }
    ensures can { IfOk result (λ found. IfSome found (λ staged. CanBePut staged leaves.new.items)) }
    ensures before { IfOk result (λ found. IfSome found (λ staged. before_staged staged leaves.new.items ≡ leaves.old.items)) }
    ensures made { IfOk result (λ found. IfSome found (λ staged. flat (after_staged staged leaves.new.items) ≡ fold edited (flat leaves.old.items) edits.now)) }
    ensures falls { IfOk result (λ found. found ≡ None → Rise edits.now → ⊥) }
    ensures none { IfOk result (λ found. found ≡ None → leaves.new.items ≡ leaves.old.items) }
    ensures err { OnErr result (leaves.new.items ≡ leaves.old.items) }
{
    if leaves.is_empty() {
        return stage_fresh(alloc, edits);
    }
    if edits.len() / MANY >= leaves.len() {
        return stage_anew(alloc, leaves.as_slice(), edits);
    }
    let mut patches = Vec::with_capacity(alloc, edits.len().min(leaves.len()))?;
    match stage_patches(alloc, leaves, near, edits, &mut patches) {
        Ok(true) => Ok(Some(Staged::Patches(patches))),
        Ok(false) => {
            undo_all(leaves, patches);
            Ok(None)
        }
        Err(e) => {
            undo_all(leaves, patches);
            Err(e)
        }
    }
}

/// Prepares what an edit makes of the leaves. At `Err` nothing has changed. It is looked for near where the last look-up ended.
fn stage_single(
    alloc: Global,
    leaves: &mut Vec<Leaf>,
    near: Near,
    edit: &PlaceEdit<'_>,
) -> Result<Staged, AllocError>
    requires some { 0 < length leaves.old.items }
    requires leaves { AreLeaves leaves.old.items }
    ensures can { IfOk result (λ staged. CanBePut staged leaves.new.items) }
    ensures before { IfOk result (λ staged. before_staged staged leaves.new.items ≡ leaves.old.items) }
    ensures made { IfOk result (λ staged. flat (after_staged staged leaves.new.items) ≡ edited (flat leaves.old.items) edit.now) }
    ensures err { OnErr result (leaves.new.items ≡ leaves.old.items) }
{
    // A list is moved faster than what it holds.
    let mut patches = Vec::with_capacity(alloc, 1)?;
    let patch = stage_one(alloc, leaves, near, edit)?;
    patches.push_reserved(patch);
    Ok(Staged::Patches(patches))
}

/// Prepares what edits in any order make of the leaves. At `Err` nothing has changed. The leaf of the first place is looked for
/// near where the last look-up ended.
pub fn stage_edits(
    alloc: Global,
    leaves: &mut Vec<Leaf>,
    near: Near,
    edits: &LentEdits<'_>,
) -> Result<Staged, AllocError>
    requires { AreLeaves leaves.old.items }
    ensures can { IfOk result (λ staged. CanBePut staged leaves.new.items) }
    ensures before { IfOk result (λ staged. before_staged staged leaves.new.items ≡ leaves.old.items) }
    ensures rise { IfOk result (λ staged. T (is_sorted place_cmp (flat (after_staged staged leaves.new.items)))) }
    ensures made { IfOk result (λ staged. bodies_in (after_staged staged leaves.new.items) ≡ fold edit_body (bodies_in leaves.old.items) edits.now) }
    ensures err { OnErr result (leaves.new.items ≡ leaves.old.items) }
{
    laws::edited_entries();
    match edits.len() {
        0 => Ok(Staged::Patches(Vec::new(alloc))),
        1 if !leaves.is_empty() => {
            let staged = stage_single(alloc, leaves, near, &edits.get(0))?;
            Ok(staged)
        }
        // As `apply` answers them, places rise: no list of them is made.
        _ => match stage(alloc, leaves, near.leaf, edits)? {
            Some(staged) => Ok(staged),
            None => {
                let sorted = in_order(alloc, edits)?;
                let staged = stage(alloc, leaves, near.leaf, &sorted.lend())?;
                let Some(staged) = staged else { unreachable!() };
                Ok(staged)
            }
        },
    }
}

/// Takes back what is prepared.
pub fn take_back(leaves: &mut Vec<Leaf>, staged: Staged)
    requires { CanBePut staged leaves.old.items }
    ensures { leaves.new.items ≡ before_staged staged leaves.old.items }
{
    if let Staged::Patches(patches) = staged {
        undo_all(leaves, patches);
    }
}

/// Which leaves were changed in a way that asks for more. It says whether one has no row left, how many have too many, and which
/// of these is the last. `more` is how many leaves more there are at most once these are cut.
#[derive(Clone, Copy)]
struct Uneven {
    has_empty: bool,
    large: usize,
    last: usize,
    more: usize,
}

impl Uneven {
    /// No leaf.
    fn none() -> Uneven
        ensures { result.has_empty ≡ false }
    {
        Uneven {
            has_empty: false,
            large: 0,
            last: 0,
            more: 0,
        }
    }

    /// Notes a leaf of so many rows.
    fn note(&mut self, at: usize, rows: usize)
        ensures { self.new.has_empty ≡ false → (self.old.has_empty ≡ false) × (0 < rows) }
    {
        if rows == 0 {
            self.has_empty = true;
        }
        if rows >= 2 * LEAF {
            self.large = self.large.saturating_add(1);
            self.last = at;
            self.more = self.more.saturating_add(rows / LEAF);
        }
    }
}

/// Makes what is prepared.
fn write_patches(leaves: &mut Vec<Leaf>, patches: Vec<Patch>) -> Uneven
    requires { ArePatches (length leaves.old.items) patches.items }
    ensures made { leaves.new.items ≡ patched leaves.old.items patches.items }
    ensures full { result.has_empty ≡ false → All (λ patch. 0 < length patch.change.1) patches.items }
{
    let mut uneven = Uneven::none();
    for patch in patches {
        let Patch { at, change } = patch;
        let leaf = change.make();
        uneven.note(at, leaf.len());
        leaves[at] = leaf;
    }
    uneven
}

/// Cuts the leaf there, if it has too many rows.
fn cut_leaf(alloc: Global, leaves: &mut Vec<Leaf>, at: usize) -> Result<(), AllocError>
    ensures same { flat leaves.new.items ≡ flat leaves.old.items }
    ensures full { All (λ leaf. 0 < length leaf) leaves.old.items → All (λ leaf. 0 < length leaf) leaves.new.items }
{
    if at >= leaves.len() || leaves[at].len() < 2 * LEAF {
        return Ok(());
    }
    let pieces = pieces_of(alloc, &leaves[at])?;
    let _old = leaves.splice(at..at + 1, pieces)?;
    Ok(())
}

/// Appends the pieces of a leaf, and leaves room for so many more leaves. At `Err` nothing is appended.
fn push_pieces(
    alloc: Global,
    cut: &mut Vec<Leaf>,
    leaf: &Leaf,
    rest: usize,
) -> Result<(), AllocError>
    requires { vec_len cut.old + rest < vec_capacity cut.old }
    ensures room { OnOk result (vec_len cut.new + rest ≤ vec_capacity cut.new) }
    ensures same { OnOk result (flat cut.new.items ≡ flat cut.old.items ++ leaf.now) }
    ensures full { OnOk result (All (λ leaf. 0 < length leaf) cut.old.items → All (λ leaf. 0 < length leaf) cut.new.items) }
    ensures err { OnErr result ((cut.new.items ≡ cut.old.items) × (vec_len cut.new ≡ vec_len cut.old)) }
    ensures capacity { vec_capacity cut.old ≤ vec_capacity cut.new }
{
    let mut pieces = pieces_of(alloc, leaf)?;
    cut.reserve(pieces.len() + rest)?;
    cut.append(&mut pieces)?;
    Ok(())
}

/// Appends a leaf, in pieces if it has too many rows and there is memory for these, and leaves room for so many more leaves.
fn push_cut(alloc: Global, cut: &mut Vec<Leaf>, leaf: Leaf, rest: usize)
    requires { vec_len cut.old + rest < vec_capacity cut.old }
    ensures room { vec_len cut.new + rest ≤ vec_capacity cut.new }
    ensures same { flat cut.new.items ≡ flat cut.old.items ++ leaf }
    ensures full { 0 < length leaf → All (λ leaf. 0 < length leaf) cut.old.items → All (λ leaf. 0 < length leaf) cut.new.items }
{
    if leaf.len() < 2 * LEAF {
        cut.push_reserved(leaf);
        return;
    }
    match push_pieces(alloc, cut, &leaf, rest) {
        Ok(()) => {}
        Err(_) => cut.push_reserved(leaf),
    }
}

/// Cuts the leaves that have too many rows, of which there are so many more then. All leaves are moved once, since a splice for
/// each that is cut would move those behind it each time. A leaf for whose pieces there is no memory stays as it is, and at
/// `Err` all do.
fn cut_leaves(alloc: Global, leaves: &mut Vec<Leaf>, more: usize) -> Result<(), AllocError>
    ensures same { flat leaves.new.items ≡ flat leaves.old.items }
    ensures full { All (λ leaf. 0 < length leaf) leaves.old.items → All (λ leaf. 0 < length leaf) leaves.new.items }
{
    let mut rest = leaves.len();
    let mut cut = Vec::with_capacity(alloc, rest.saturating_add(more))?;
    for leaf in mem::replace(leaves, Vec::new(alloc)) {
        rest -= 1;
        push_cut(alloc, &mut cut, leaf, rest);
    }
    *leaves = cut;
    Ok(())
}

/// Cuts the leaves that have too many rows. Where memory is refused they stay as they are.
fn cut_large(alloc: Global, leaves: &mut Vec<Leaf>, uneven: Uneven) -> Result<(), AllocError>
    ensures same { flat leaves.new.items ≡ flat leaves.old.items }
    ensures full { All (λ leaf. 0 < length leaf) leaves.old.items → All (λ leaf. 0 < length leaf) leaves.new.items }
{
    if uneven.large == 0 {
        return Ok(());
    }
    // Where leaves went, this one may stand further to the front now, and all were moved already.
    if uneven.large == 1 && !uneven.has_empty {
        return cut_leaf(alloc, leaves, uneven.last);
    }
    cut_leaves(alloc, leaves, uneven.more)
}

/// Takes out the leaves that have no row.
fn drop_empty(leaves: &mut Vec<Leaf>)
    ensures same { flat leaves.new.items ≡ flat leaves.old.items }
    ensures full { All (λ leaf. 0 < length leaf) leaves.new.items }
{
    leaves.retain(|leaf| leaf.len() > 0);
}

/// Takes out the leaves that have no row, and cuts those that have too many, so far as there is memory.
fn even_out(alloc: Global, leaves: &mut Vec<Leaf>, uneven: Uneven)
    ensures same { flat leaves.new.items ≡ flat leaves.old.items }
    ensures full { (uneven.has_empty ≡ false → All (λ leaf. 0 < length leaf) leaves.old.items)
        → All (λ leaf. 0 < length leaf) leaves.new.items }
{
    if uneven.has_empty {
        drop_empty(leaves);
    }
    let _ = cut_large(alloc, leaves, uneven);
}

/// Makes what is prepared. Where there is no memory to cut a leaf, it stays as it is until a later commit changes it.
pub fn put_staged(alloc: Global, leaves: &mut Vec<Leaf>, staged: Staged)
    requires { CanBePut staged leaves.old.items }
    ensures same { flat leaves.new.items ≡ flat (after_staged staged leaves.old.items) }
    ensures full { All (λ leaf. 0 < length leaf) leaves.new.items }
{
    match staged {
        Staged::Fresh(made) => *leaves = made,
        Staged::Patches(patches) => {
            let uneven = write_patches(leaves, patches);
            even_out(alloc, leaves, uneven);
        }
    }
}

/// Where a look-up ended: behind the row that it found, or where that would stand. The next one begins there, so that
/// look-ups of places that rise are short.
#[derive(Clone, Copy)]
pub struct Near {
    leaf: usize,
    row: usize,
}

impl Near {
    /// The first row.
    pub fn start() -> Near {
        Near { leaf: 0, row: 0 }
    }

    /// One row further in the leaf.
    #[inline(always)]
    fn next(self) -> Near {
        Near {
            leaf: self.leaf,
            row: self.row.saturating_add(1),
        }
    }
}

/// The row there, if it is that of a place.
#[inline(always)]
fn row_if_at<'a>(leaves: &'a [Leaf], at: Near, place: &Place) -> Option<&'a [u8]>
    requires { AreLeaves leaves.now }
    ensures { IfSome result (λ row. get (bodies_in leaves.now) place.now ≡ Some row.now) }
{
    if at.leaf >= leaves.len() {
        return None;
    }
    let leaf = &leaves[at.leaf];
    if at.row < leaf.len() && leaf.compare(at.row, place).is_eq() {
        Some(leaf.row(at.row))
    } else {
        None
    }
}

/// The row at a place, if it is the one there or the one behind it.
fn row_beside<'a>(leaves: &'a [Leaf], near: &mut Near, place: &Place) -> Option<&'a [u8]>
    requires { AreLeaves leaves.now }
    ensures { IfSome result (λ row. get (bodies_in leaves.now) place.now ≡ Some row.now) }
{
    let next = near.next();
    if let Some(row) = row_if_at(leaves, *near, place) {
        *near = next;
        return Some(row);
    }
    let row = row_if_at(leaves, next, place)?;
    *near = next.next();
    Some(row)
}

/// The row at a place, if there is one.
fn row_at<'a>(leaves: &'a [Leaf], near: &mut Near, place: &Place) -> Option<&'a [u8]>
    requires leaves { AreLeaves leaves.now }
    requires some { 0 < length leaves.now }
    ensures { option_map (λ row. row.now) result ≡ get (bodies_in leaves.now) place.now }
{
    let its = leaf_near(leaves, near.leaf, place);
    let from = row_near(leaves, its, *near, place);
    let (row, next) = leaves[its].look_up(from, place);
    *near = Near {
        leaf: its,
        row: next,
    };
    row
}

/// The row at a place, if there is one. It is looked for near where the last one was.
#[inline(always)]
fn row_for<'a>(leaves: &'a [Leaf], near: &mut Near, place: &Place) -> Option<&'a [u8]>
    requires { AreLeaves leaves.now }
    ensures { option_map (λ row. row.now) result ≡ get (bodies_in leaves.now) place.now }
{
    if let Some(row) = row_beside(leaves, near, place) {
        return Some(row);
    }
    if leaves.is_empty() {
        return None;
    }
    row_at(leaves, near, place)
}

/// The same in a list of its own.
pub fn find_row(
    alloc: Global,
    leaves: &[Leaf],
    near: &mut Near,
    place: &Place,
) -> Result<Option<Vec<u8>>, AllocError>
    requires { AreLeaves leaves.now }
    ensures { IfOk result (λ row. optional_bytes row ≡ get (bodies_in leaves.now) place.now) }
{
    match row_for(leaves, near, place) {
        Some(row) => Ok(Some(Vec::from_slice(alloc, row)?)),
        None => Ok(None),
    }
}

/// The same in place of what is in a list, and whether there is one.
pub fn put_row(
    leaves: &[Leaf],
    near: &mut Near,
    place: &Place,
    out: &mut Vec<u8>,
) -> Result<bool, AllocError>
    requires { AreLeaves leaves.now }
    ensures { IfOk result (λ there. get (bodies_in leaves.now) place.now ≡ if_there there out.new.items) }
{
    let Some(row) = row_for(leaves, near, place) else {
        return Ok(false);
    };
    out.clear();
    out.extend_from_slice(row)?;
    Ok(true)
}

/// Appends the rows of a table in a leaf.
fn list_leaf(
    alloc: Global,
    rows: &mut Vec<StoredBody>,
    leaf: &Leaf,
    table: u32,
) -> Result<(), AllocError>
    ensures { OnOk result (pairs_of rows.new.items ≡ pairs_of rows.old.items ++ in_table (pos table) leaf.now) }
{
    for at in 0..leaf.len() {
        if leaf.table(at) == table {
            rows.push(StoredBody {
                key: Vec::from_slice(alloc, leaf.key(at))?,
                body: Vec::from_slice(alloc, leaf.row(at))?,
            })?;
        }
    }
    Ok(())
}

/// The rows of a table.
pub fn list_rows(alloc: Global, leaves: &[Leaf], table: u32) -> Result<Vec<StoredBody>, AllocError>
    ensures { IfOk result (λ rows. pairs_of rows.items ≡ in_table (pos table) (flat leaves.now)) }
{
    let mut rows = Vec::new(alloc);
    for leaf in leaves {
        list_leaf(alloc, &mut rows, leaf, table)?;
    }
    Ok(rows)
}
