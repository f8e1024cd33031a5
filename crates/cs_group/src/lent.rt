//! Changes that stay where they stand.

ghost use Rattle.std.specs.Prelude.{◌≡◌, ◌++◌, ◌∷◌, [], IfOk, IsTrue, List, MatchOption, OnOk, map, slice_get};
ghost use Rattle.std.specs.List.{flat_map};
ghost use Rattle.cs_change.specs.declared.change.Change.{Change as One};
ghost use Rattle.cs_group.specs.Steps.Gathering.{AreLent, lent_changes, lent_numbers};
ghost use Rattle.cs_group.specs.Steps.Numbering.{changes_in_group, numbered_behind, numbers_in_group, NumberedGroup};

use cs_change::{Change, Group};
use cs_value::Memory;
use std::alloc::Global;
use std::marker::Model;

/// What lends changes by their places.
pub(crate) trait Lends {
    /// The changes that are lent.
    ghost seen: { Self → List One };

    /// The change at a place, in its bytes; none past the end.
    fn get(&self, place: usize) -> Option<Change<'_>>
        ensures { result ≡ slice_get (seen self.now) place };
}

impl<'a> Lends for Vec<Change<'a>> {
    ghost seen = { λ changes. changes.items };

    #[inline(always)]
    fn get(&self, place: usize) -> Option<Change<'_>> {
        match self.as_slice().get(place) {
            Some(change) => Some(change.again()),
            None => None,
        }
    }
}

/// The changes of a group, among those of others.
#[derive(Drop)]
pub(crate) struct Part<'a> {
    /// The number of the group's changeset.
    number: usize,
    /// The place of the first change.
    first: usize,
    changes: &'a [Change<'a>],
}

/// The changes of groups, one group's behind another's, which stay where they are. Beside each stands its group's place in 32 bits, and
/// nothing else. So what is asked for out of order is a quarter of what a change's place in memory and a number would take.
#[derive(Drop)]
pub(crate) struct LentChanges<'a> {
    parts: Vec<Part<'a>>,
    /// For each change the place of its part.
    of: Vec<u32>,
}

impl<'a> Model for LentChanges<'a> {
    ghost use Rattle.std.specs.Prelude.{List};
    ghost use Rattle.cs_group.specs.Steps.Gathering.{ArePlaced};
    ghost use Rattle.cs_group.specs.declared.lent.Part.{Part as Stretch};

    ghost Value = { List Stretch };

    ghost view = { λ lent. lent.parts.items };

    ghost invariant = { λ lent. ArePlaced lent.parts.items lent.of.items };
}

impl<'a> LentChanges<'a> {
    ghost use Rattle.std.specs.Prelude.{◌≡◌, MatchOption, slice_get, slice_index_or};
    ghost use Rattle.cs_group.specs.Steps.Gathering.{lent_changes, lent_numbers};

    /// How many changes there are.
    #[inline(always)]
    pub(crate) fn len(&self) -> usize {
        self.of.len()
    }

    /// The part of the change at a place, and where the change stands in it; none past the end.
    #[inline(always)]
    fn find(&self, place: usize) -> Option<(&Part<'a>, usize)>
        ensures changes { MatchOption result (slice_get (lent_changes self.now) place ≡ None)
            (λ found. slice_get (lent_changes self.now) place ≡ slice_get found.0.now.changes.now found.1) }
        ensures numbers { MatchOption result (slice_index_or (lent_numbers self.now) place 0 ≡ 0)
            (λ found. slice_index_or (lent_numbers self.now) place 0 ≡ found.0.now.number) }
    {
        if place >= self.of.len() {
            return None;
        }
        let part = &self.parts[self.of[place] as usize];
        Some((part, place - part.first))
    }

    /// The number of the changeset of the change at a place; 0 past the end.
    #[inline(always)]
    pub(crate) fn number(&self, place: usize) -> usize
        ensures { result ≡ slice_index_or (lent_numbers self.now) place 0 }
    {
        match self.find(place) {
            Some((part, _)) => part.number,
            None => 0,
        }
    }

    /// The first byte and the last one of where the change at a place stands.
    #[inline(always)]
    pub(crate) fn ends(&self, place: usize) -> (u8, u8) {
        if let Some((part, at)) = self.find(place) {
            if let Some(change) = part.changes.get(at) {
                return change.ends();
            }
        }
        (0, 0)
    }
}

impl<'a> Lends for LentChanges<'a> {
    ghost seen = { λ lent. lent_changes lent };

    #[inline(always)]
    fn get(&self, place: usize) -> Option<Change<'_>> {
        let (part, at) = self.find(place)?;
        match part.changes.get(at) {
            Some(change) => Some(change.again()),
            None => None,
        }
    }
}

/// Puts the place of a part behind the others, once for each of its changes.
fn put_part(part: u32, changes: &[Change<'_>], of: &mut Vec<u32>) -> Result<(), Memory>
    ensures { OnOk result (of.new.items ≡ of.old.items ++ map (λ _. part) changes.now) }
{
    for _change in changes {
        of.push(part)?;
    }
    Ok(())
}

/// Lends the changes of one more group, whose changeset has this number. `false` where there are so many that its place has no 32 bits.
fn lend_group<'a>(
    number: usize,
    group: &'a Group<'a>,
    parts: &mut Vec<Part<'a>>,
    of: &mut Vec<u32>,
) -> Result<bool, Memory>
    ensures { IfOk result (λ done. IsTrue done → (groups : List NumberedGroup) → AreLent groups parts.old.items of.old.items
        → AreLent (groups ++ (number, group.now) ∷ []) parts.new.items of.new.items) }
{
    let changes = group.changes.as_slice();
    let Ok(place) = u32::try_from(parts.len()) else {
        return Ok(false);
    };
    let first = of.len();
    put_part(place, changes, of)?;
    parts.push(Part {
        number,
        first,
        changes,
    })?;
    Ok(true)
}

/// Lends the changes of these groups, each behind the number of its changeset, so many in all. `None` where there are so many groups
/// that their places have no 32 bits.
pub(crate) fn lend_changes<'a>(
    alloc: Global,
    groups: &[(usize, &'a Group<'a>)],
    count: usize,
) -> Result<Option<LentChanges<'a>>, Memory>
    ensures { IfOk result (λ found. MatchOption found (Unit {0}) (λ lent.
        (lent_changes lent ≡ flat_map changes_in_group (numbered_behind groups.now))
        × (lent_numbers lent ≡ flat_map numbers_in_group (numbered_behind groups.now)))) }
{
    let mut parts = Vec::with_capacity(alloc, groups.len())?;
    let mut of = Vec::with_capacity(alloc, count)?;
    for (number, group) in groups {
        if !lend_group(*number, group, &mut parts, &mut of)? {
            return Ok(None);
        }
    }
    Ok(Some(LentChanges { parts, of }))
}
