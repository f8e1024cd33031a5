//! The groups of changesets as read, which stay where they are, each with the number of its changeset. Where there are many
//! tables, each table's groups are found by the places of their names.

ghost use Rattle.std.specs.Prelude.{◌≡◌, ◌++◌, IfOk, MatchOption, OnOk, map, slice_get};
ghost use Rattle.std.specs.List.{flat_map};
ghost use Rattle.cs_order.specs.Order.{keys_behind};
ghost use Rattle.cs_group.specs.Steps.Numbering.{groups_at, listed_group, named, numbered_behind, numbered_from, numbered_names};

use cs_change::{Changeset, Group};
use cs_normal::{FEW_NAMES, NamePlaces};
use cs_value::{Memory, TableDef};
use std::alloc::Global;
use std::marker::Model;

/// Puts the groups of one more changeset, which has this number, behind the others.
fn number_groups<'b, 'a>(
    number: usize,
    groups: &'b [Group<'a>],
    numbered: &mut Vec<(usize, &'b Group<'a>)>,
) -> Result<(), Memory>
    ensures { OnOk result (numbered_behind numbered.new.items
        ≡ numbered_behind numbered.old.items ++ map (λ group. (number, group)) groups.now) }
{
    for group in groups {
        numbered.push((number, group))?;
    }
    Ok(())
}

/// The groups of all changesets, one changeset after another.
fn number_all<'b, 'a>(
    alloc: Global,
    changesets: &'b [Changeset<'a>],
) -> Result<Vec<(usize, &'b Group<'a>)>, Memory>
    ensures { IfOk result (λ numbered. numbered_behind numbered.items ≡ numbered_from 1 changesets.now) }
{
    let mut numbered = Vec::new(alloc);
    for (index, changeset) in changesets.iter().enumerate() {
        number_groups(index + 1, changeset.as_slice(), &mut numbered)?;
    }
    Ok(numbered)
}

/// The names of the groups, which are lent.
fn lend_names<'b>(alloc: Global, groups: &[(usize, &'b Group<'_>)]) -> Result<Vec<&'b [u8]>, Memory>
    ensures { IfOk result (λ names. keys_behind names.items ≡ numbered_names (numbered_behind groups.now)) }
{
    let mut names = Vec::with_capacity(alloc, groups.len())?;
    for (_, group) in groups {
        names.push(group.name.as_str().as_bytes())?;
    }
    Ok(names)
}

/// The groups that have this name.
fn groups_named<'b, 'a>(
    alloc: Global,
    groups: &[(usize, &'b Group<'a>)],
    name: &str,
) -> Result<Vec<(usize, &'b Group<'a>)>, Memory>
    ensures { IfOk result (λ found. numbered_behind found.items ≡ named name.now (numbered_behind groups.now)) }
{
    let mut found = Vec::new(alloc);
    for (number, group) in groups {
        if group.name.as_str() == name {
            found.push((*number, *group))?;
        }
    }
    Ok(found)
}

/// Appends the group at a place; none past the end.
fn push_at<'b, 'a>(
    groups: &[(usize, &'b Group<'a>)],
    place: usize,
    found: &mut Vec<(usize, &'b Group<'a>)>,
) -> Result<(), Memory>
    ensures { OnOk result (numbered_behind found.new.items
        ≡ numbered_behind found.old.items ++ listed_group (slice_get (numbered_behind groups.now) place)) }
{
    if place < groups.len() {
        let (number, group) = groups[place];
        found.push((number, group))?;
    }
    Ok(())
}

/// The groups at these places.
fn groups_placed<'b, 'a>(
    alloc: Global,
    groups: &[(usize, &'b Group<'a>)],
    places: &[usize],
) -> Result<Vec<(usize, &'b Group<'a>)>, Memory>
    ensures { IfOk result (λ found. numbered_behind found.items ≡ groups_at (numbered_behind groups.now) places.now) }
{
    let mut found = Vec::with_capacity(alloc, places.len())?;
    for place in places {
        push_at(groups, *place, &mut found)?;
    }
    Ok(found)
}

/// The places of the groups' names, where there are so many tables that it is worth it. Where there are few, each table looks
/// at each group.
fn places_for<'b>(
    alloc: Global,
    groups: &[(usize, &'b Group<'_>)],
    tables: usize,
) -> Result<Option<NamePlaces<'b>>, Memory>
    ensures { IfOk result (λ found. MatchOption found (Unit {0})
        (λ names. names ≡ numbered_names (numbered_behind groups.now))) }
{
    if tables <= FEW_NAMES {
        return Ok(None);
    }
    Ok(Some(NamePlaces::new(alloc, lend_names(alloc, groups)?)?))
}

/// The groups of changesets, each with the number of its changeset, and the places of their names, where these were sought.
#[derive(Drop)]
pub(crate) struct NumberedGroups<'b, 'a> {
    groups: Vec<(usize, &'b Group<'a>)>,
    names: Option<NamePlaces<'b>>,
}

impl<'b, 'a> Model for NumberedGroups<'b, 'a> {
    ghost use Rattle.std.specs.Prelude.{◌≡◌, List, MatchOption};
    ghost use Rattle.cs_group.specs.Steps.Numbering.{numbered_behind, numbered_names, NumberedGroup};

    ghost Value = { List NumberedGroup };

    ghost view = { λ numbered. numbered_behind numbered.groups.items };

    ghost invariant = { λ numbered. MatchOption numbered.names (Unit {0})
        (λ names. names ≡ numbered_names (numbered_behind numbered.groups.items)) };
}

impl<'b, 'a> NumberedGroups<'b, 'a> {
    ghost use Rattle.std.specs.Prelude.{◌≡◌, IfOk};
    ghost use Rattle.cs_group.specs.Steps.Numbering.{named, numbered_behind, numbered_from};

    /// The groups of these changesets, the first of which has the number 1, for so many tables.
    pub(crate) fn new(
        alloc: Global,
        changesets: &'b [Changeset<'a>],
        tables: usize,
    ) -> Result<NumberedGroups<'b, 'a>, Memory>
        ensures { IfOk result (λ numbered. numbered ≡ numbered_from 1 changesets.now) }
    {
        let groups = number_all(alloc, changesets)?;
        let names = places_for(alloc, groups.as_slice(), tables)?;
        Ok(NumberedGroups { groups, names })
    }

    /// The table's groups.
    pub(crate) fn of_table(
        &self,
        alloc: Global,
        table: &TableDef,
    ) -> Result<Vec<(usize, &'b Group<'a>)>, Memory>
        ensures { IfOk result (λ found. numbered_behind found.items ≡ named table.now.name self.now) }
    {
        let name = table.name.as_str();
        let groups = self.groups.as_slice();
        match &self.names {
            None => groups_named(alloc, groups, name),
            Some(names) => groups_placed(alloc, groups, names.of(name.as_bytes())),
        }
    }
}
