//! Commits of many edits, for which all leaves are made anew. The rows of each are merged with the edits that fall among them, and cut
//! where there are enough. So a long run of new rows is copied once, and nothing has to be taken back.

ghost use Rattle.std.specs.Prelude.{◌≡◌, ◌≤◌, ◌<◌, ◌++◌, List, [], T, length, take, drop, fold, None, IfOk, IfSome, OnOk};
ghost use Rattle.std.specs.List.{All};
ghost use Rattle.std.specs.FinMap.{is_sorted};
ghost use Rattle.cs_leaf.specs.Entries.{Entry};
ghost use Rattle.cs_leaf.specs.Edits.{Rise, edited};
ghost use Rattle.cs_store.specs.Contents.{place_cmp};
ghost use Rattle.cs_map_store.specs.Leaves.{AreBefore, AreLeaves, ReachLeaf, flat};

use crate::leaves::{LEAF, edits_before, is_before};
use cs_leaf::{Leaf, Place, laws, merge_some};
use cs_store::edits::LentEdits;
use std::alloc::{AllocError, Global};

/// How many of these edits are before the leaf there; none, where the places of those don't rise. Behind the last leaf all are.
fn count_before(leaves: &[Leaf], next: usize, edits: &LentEdits<'_>) -> Option<usize>
    requires in_bounds { next ≤ length leaves.now }
    ensures bound { IfSome result (λ count. count ≤ length edits.now) }
    ensures before { IfSome result (λ count. AreBefore leaves.now next (take count edits.now)) }
    ensures behind { IfSome result (λ count. ReachLeaf leaves.now next (drop count edits.now)) }
    ensures rise { IfSome result (λ count. Rise (take count edits.now)) }
    ensures falls { result ≡ None → Rise edits.now → ⊥ }
{
    if edits.len() == 0 || !is_before(leaves, next, &Place::of_edit(&edits.get(0))) {
        return Some(0);
    }
    edits_before(leaves, next, edits)
}

/// Appends the rows of a leaf in one of their own, if there are any.
fn push_copy(alloc: Global, made: &mut Vec<Leaf>, leaf: &Leaf) -> Result<(), AllocError>
    ensures same { OnOk result (flat made.new.items ≡ flat made.old.items ++ leaf.now) }
    ensures full { OnOk result (All (λ leaf. 0 < length leaf) made.old.items → All (λ leaf. 0 < length leaf) made.new.items) }
{
    if leaf.len() == 0 {
        return Ok(());
    }
    made.push(leaf.copied(alloc)?)?;
    Ok(())
}

/// Appends what edits whose places rise make of a leaf, cut where there are enough rows. They are put together in place of what is in
/// `room` first.
pub(crate) fn push_edited(
    alloc: Global,
    made: &mut Vec<Leaf>,
    leaf: &Leaf,
    edits: &LentEdits<'_>,
    room: &mut Leaf,
) -> Result<(), AllocError>
    requires sorted { T (is_sorted place_cmp leaf.now) }
    requires rise { Rise edits.now }
    ensures same { OnOk result (flat made.new.items ≡ flat made.old.items ++ fold edited leaf.now edits.now) }
    ensures full { OnOk result (All (λ leaf. 0 < length leaf) made.old.items → All (λ leaf. 0 < length leaf) made.new.items) }
{
    if edits.len() == 0 {
        return push_copy(alloc, made, leaf);
    }
    let mut next = (0, 0);
    while next.1 < edits.len() {
        next = merge_some(room, leaf, next, edits, LEAF)?;
        push_copy(alloc, made, room)?;
    }
    Ok(())
}

/// New leaves of what edits make of these; none, where places of edits are found not to rise.
pub(crate) fn make_leaves(
    alloc: Global,
    leaves: &[Leaf],
    edits: &LentEdits<'_>,
) -> Result<Option<Vec<Leaf>>, AllocError>
    requires some { 0 < length leaves.now }
    requires leaves { AreLeaves leaves.now }
    ensures full { IfOk result (λ found. IfSome found (λ made. All (λ leaf. 0 < length leaf) made.items)) }
    ensures made { IfOk result (λ found. IfSome found (λ made. flat made.items ≡ fold edited (flat leaves.now) edits.now)) }
    ensures falls { IfOk result (λ found. found ≡ None → Rise edits.now → ⊥) }
{
    laws::edited_entries();
    let mut made = Vec::new(alloc);
    let mut room = Leaf::new(alloc);
    let mut start = 0;
    for at in 0..leaves.len() {
        let rest = edits.part(start, edits.len());
        let Some(count) = count_before(leaves, at + 1, &rest) else {
            return Ok(None);
        };
        let end = start + count;
        push_edited(
            alloc,
            &mut made,
            &leaves[at],
            &edits.part(start, end),
            &mut room,
        )?;
        start = end;
    }
    Ok(Some(made))
}
