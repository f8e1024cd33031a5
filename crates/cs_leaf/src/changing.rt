//! What edits make of a leaf, prepared to be made or left.

ghost use Rattle.std.specs.Prelude.{◌≡◌, T, fold, Ok, IfOk, IfErr};
ghost use Rattle.std.specs.FinMap.{is_sorted};
ghost use Rattle.cs_store.specs.Contents.{place_cmp};
ghost use Rattle.cs_leaf.specs.Edits.{Rise, edited, store_place};

use crate::leaf::{Amendment, Leaf, Place, Why};
use crate::merging::{merged, merged_one};
use cs_store::edits::{LentEdits, PlaceEdit};
use std::alloc::{AllocError, Global};
use std::marker::Model;

/// How a leaf is changed: with one edit made in it, or for another in its place.
#[derive(Drop)]
enum Way {
    InPlace(Amendment),
    Anew { old: Leaf, new: Leaf },
}

/// A leaf, and what edits make of it: neither to make that nor to leave it takes memory. Contracts see the rows before it and
/// after it.
#[derive(Drop)]
pub struct Change {
    way: Way,
}

impl Model for Change {
    ghost use Rattle.std.specs.Prelude.{List};
    ghost use Rattle.cs_leaf.specs.Entries.{Entry};
    ghost use Rattle.cs_leaf.specs.Changes.{ends_of};

    ghost Value = { List Entry × List Entry };

    ghost view = { λ change. ends_of change.way };
}

impl Change {
    ghost use Rattle.std.specs.Prelude.{◌≡◌};

    /// The leaf without the edits.
    #[inline(always)]
    pub fn leave(self) -> Leaf
        ensures { result ≡ self.0 }
    {
        let Change { way } = self;
        match way {
            Way::InPlace(amendment) => amendment.leave(),
            Way::Anew { old, .. } => old,
        }
    }

    /// The leaf with the edits.
    #[inline(always)]
    pub fn make(self) -> Leaf
        ensures { result ≡ self.1 }
    {
        let Change { way } = self;
        match way {
            Way::InPlace(amendment) => amendment.make(),
            Way::Anew { new, .. } => new,
        }
    }
}

/// Puts another leaf, if there was memory for it, in the place of this one.
fn anew(leaf: Leaf, made: Result<Leaf, AllocError>) -> Result<Change, Leaf>
    ensures before { IfOk result (λ change. change.0 ≡ leaf) }
    ensures after { IfOk result (λ change. made ≡ Ok change.1) }
    ensures err { IfErr result (λ kept. kept ≡ leaf) }
{
    match made {
        Ok(new) => Ok(Change {
            way: Way::Anew { old: leaf, new },
        }),
        Err(_) => Err(leaf),
    }
}

/// Prepares what an edit makes of a leaf, whose place is looked for from `near` on first. It is made in place, unless rows that
/// are gone would come to take more than half of the bytes. Where memory is refused, the leaf comes back.
#[inline(always)]
pub fn stage_one(
    alloc: Global,
    leaf: Leaf,
    near: usize,
    place: &Place,
    edit: &PlaceEdit<'_>,
) -> Result<Change, Leaf>
    requires sorted { T (is_sorted place_cmp leaf) }
    requires place { place.now ≡ store_place edit.now }
    ensures before { IfOk result (λ change. change.0 ≡ leaf) }
    ensures after { IfOk result (λ change. change.1 ≡ edited leaf edit.now) }
    ensures err { IfErr result (λ kept. kept ≡ leaf) }
{
    match leaf.amend(near, place, edit) {
        Ok(amendment) => Ok(Change {
            way: Way::InPlace(amendment),
        }),
        Err(unamended) => match unamended.why {
            Why::NoMemory => Err(unamended.leaf),
            Why::TooLoose => {
                let made = merged_one(alloc, &unamended.leaf, edit);
                anew(unamended.leaf, made)
            }
        },
    }
}

/// Prepares what edits whose places rise make of a leaf. A single one is made in place, unless rows that are gone would come to
/// take more than half of the bytes. With more edits the rows are put together in place of what is in `room`. Where memory is
/// refused, the leaf comes back.
#[inline(always)]
pub fn stage(
    alloc: Global,
    leaf: Leaf,
    edits: &LentEdits<'_>,
    room: &mut Leaf,
) -> Result<Change, Leaf>
    requires sorted { T (is_sorted place_cmp leaf) }
    requires rise { Rise edits.now }
    ensures before { IfOk result (λ change. change.0 ≡ leaf) }
    ensures after { IfOk result (λ change. change.1 ≡ fold edited leaf edits.now) }
    ensures err { IfErr result (λ kept. kept ≡ leaf) }
{
    if edits.len() != 1 {
        let made = merged(alloc, &leaf, edits, room);
        return anew(leaf, made);
    }
    let edit = edits.get(0);
    let place = Place::of_edit(&edit);
    stage_one(alloc, leaf, 0, &place, &edit)
}
