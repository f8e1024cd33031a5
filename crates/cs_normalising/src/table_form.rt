//! The changes of one table as read, which stay in their bytes, and the order of their keys.

ghost use Rattle.std.specs.Prelude.{◌≡◌, ◌<◌, ◌++◌, IfOk, IfErr, MatchOption, OnOk, length};
ghost use Rattle.std.specs.List.{All, flat_map};
ghost use Rattle.std.specs.Map.{keys_of};
ghost use Rattle.std.specs.Str.{bytes_eq};
ghost use Rattle.cs_record.specs.Spelling.{Extends};
ghost use Rattle.cs_normalising.specs.UnfitChanges.{AreUnfit};
ghost use Rattle.cs_normalising.specs.NormalFormOf.{changes_of};
ghost use Rattle.cs_normalising.specs.Steps.Named.{changes_at, names_of};
ghost use Rattle.cs_normalising.specs.Steps.Lent.{entries_at, ordered_entries, AreBeside, IsKeptOf, IsOrderedBy};
ghost use Rattle.cs_normal.specs.keyed.Prepared.{all_keyed, kept, prepared};
ghost use Rattle.cs_normalising.specs.Steps.TableByTable.{IsTableOf};

use crate::key_order::KeyOrder;
use crate::lent_list::LentList;
use crate::lent_table::Ordered;
use crate::unfit::Unfit;
use cs_change::{Change, Group};
use cs_normal::NamePlaces;
use cs_normal::keyed::gather_keys;
use cs_order::Keys;
use cs_value::{Memory, TableDef};
use std::alloc::Global;

/// The order of these keys of changes, or what is wrong with the first change that is wrong.
fn sort_keys(
    alloc: Global,
    marks: &[bool],
    keys: &Keys,
    whole: bool,
    changes: &[Change<'_>],
) -> Result<KeyOrder, Unfit>
    requires keys { keys.now ≡ keys_of (prepared marks.now changes.now) }
    requires whole { whole ≡ all_keyed marks.now changes.now }
    ensures beside { IfOk result (λ order. AreBeside marks.now keys.now order changes.now) }
    ensures kept { IfOk result (λ order. IsKeptOf marks.now changes.now (kept (entries_at marks.now changes.now order))) }
    ensures fault { IfErr result (λ fault. AreUnfit fault marks.now changes.now) }
{
    cs_order::laws::orders();
    let found = keys.distinct_order(alloc)?;
    match found {
        None => Err(Unfit::KeyTwice),
        Some(_) if !whole => Err(Unfit::NullKey),
        Some(order) => Ok(KeyOrder::of_places(order)),
    }
}

/// The keys of these changes of one table, as they stand, and their order; or what is wrong with the first change that is
/// wrong. Keys that rise are put in no order.
fn order_keys(
    alloc: Global,
    marks: &[bool],
    changes: &[Change<'_>],
) -> Result<(Keys, KeyOrder), Unfit>
    ensures beside { IfOk result (λ found. AreBeside marks.now found.0 found.1 changes.now) }
    ensures kept { IfOk result (λ found. IsKeptOf marks.now changes.now (kept (entries_at marks.now changes.now found.1))) }
    ensures fault { IfErr result (λ fault. AreUnfit fault marks.now changes.now) }
{
    let (keys, whole) = gather_keys(alloc, marks, changes)?;
    if whole && keys.rise() {
        return Ok((keys, KeyOrder::as_they_stand(changes.len())));
    }
    let order = sort_keys(alloc, marks, &keys, whole, changes)?;
    Ok((keys, order))
}

/// Whether the group has the table's name.
fn is_named(group: &Group<'_>, table: &TableDef) -> bool
    ensures { result ≡ bytes_eq group.now.name table.now.name }
{
    group.name.as_str() == table.name.as_str()
}

/// Appends the changes of a group, which stay where they are.
fn lend_group<'a>(group: &Group<'a>, lent: &mut Vec<Change<'a>>) -> Result<(), Memory>
    ensures ok { OnOk result (lent.new.items ≡ lent.old.items ++ group.now.changes) }
    ensures kept { Extends lent.old.items lent.new.items }
{
    for change in group.changes.as_slice() {
        lent.push(change.again())?;
    }
    Ok(())
}

/// Appends the table's changes over all groups, which stay where they are.
fn lend_changes<'a>(
    table: &TableDef,
    groups: &[Group<'a>],
    lent: &mut Vec<Change<'a>>,
) -> Result<(), Memory>
    ensures ok { OnOk result (lent.new.items ≡ lent.old.items ++ changes_of table.now.name groups.now) }
    ensures kept { Extends lent.old.items lent.new.items }
{
    for group in groups {
        if is_named(group, table) {
            lend_group(group, lent)?;
        }
    }
    Ok(())
}

/// Appends the changes of the group at a place, which stay where they are; none past the end.
fn lend_at<'a>(groups: &[Group<'a>], place: usize, lent: &mut Vec<Change<'a>>) -> Result<(), Memory>
    ensures { OnOk result (lent.new.items ≡ lent.old.items ++ changes_at groups.now place) }
{
    if place < groups.len() {
        return lend_group(&groups[place], lent);
    }
    Ok(())
}

/// The changes of the groups at these places, which stay where they are.
fn lend_places<'a>(
    alloc: Global,
    groups: &[Group<'a>],
    places: &[usize],
) -> Result<Vec<Change<'a>>, Memory>
    ensures { IfOk result (λ lent. lent.items ≡ flat_map (changes_at groups.now) places.now) }
{
    let mut lent = Vec::new(alloc);
    for place in places {
        lend_at(groups, *place, &mut lent)?;
    }
    Ok(lent)
}

/// The table's changes over all groups, by the places of their names where these were sought.
fn lend_named<'a>(
    alloc: Global,
    table: &TableDef,
    groups: &[Group<'a>],
    names: Option<&NamePlaces<'_>>,
) -> Result<Vec<Change<'a>>, Memory>
    requires { MatchOption names (Unit {0}) (λ names. names.now ≡ names_of groups.now) }
    ensures { IfOk result (λ lent. lent.items ≡ changes_of table.now.name groups.now) }
{
    if let Some(names) = names {
        let places = names.of(table.name.as_str().as_bytes());
        return lend_places(alloc, groups, places);
    }
    let mut lent = Vec::new(alloc);
    lend_changes(table, groups, &mut lent)?;
    Ok(lent)
}

/// The table's changes over all its groups, by the places of the groups' names where these were sought.
fn lend_list<'b, 'a>(
    alloc: Global,
    table: &TableDef,
    groups: &'b [Group<'a>],
    names: Option<&NamePlaces<'_>>,
) -> Result<LentList<'b, 'a>, Memory>
    requires { MatchOption names (Unit {0}) (λ names. names.now ≡ names_of groups.now) }
    ensures { IfOk result (λ list. list ≡ changes_of table.now.name groups.now) }
{
    if groups.len() == 1 {
        let group = &groups[0];
        if is_named(group, table) {
            return Ok(LentList::of_group(alloc, group.changes.as_slice()));
        }
    }
    Ok(LentList::of_groups(lend_named(alloc, table, groups, names)?))
}

/// A table's changes over all its groups in the order of their keys, or what is wrong with the first change that is wrong. The
/// groups' names are those whose places were sought, if they were.
pub(crate) fn order_table<'b, 'a>(
    alloc: Global,
    table: &TableDef,
    groups: &'b [Group<'a>],
    names: Option<&NamePlaces<'_>>,
) -> Result<Ordered<'b, 'a>, Unfit>
    requires { MatchOption names (Unit {0}) (λ names. names.now ≡ names_of groups.now) }
    ensures ordered { IfOk result (IsOrderedBy table.now.key_marks) }
    ensures normal { IfOk result (λ lent. IsTableOf groups.now table.now (kept (ordered_entries table.now.key_marks lent))) }
    ensures fault { IfErr result (λ fault. AreUnfit fault table.now.key_marks (changes_of table.now.name groups.now)) }
{
    let changes = lend_list(alloc, table, groups, names)?;
    let (keys, order) = order_keys(alloc, table.key_marks.as_slice(), changes.as_slice())?;
    Ok(Ordered {
        changes,
        keys,
        order,
    })
}
