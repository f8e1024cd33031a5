//! How the entries of a blob are found.

ghost use Rattle.std.specs.Prelude.{◌≡◌, ◌<◌, length, slice_get, None, Some, IfOk, IfErr, MatchOption};
ghost use Rattle.cs_changeset.specs.Reading.{HasNoZero};
ghost use Rattle.cs_normal.specs.keyed.NormalForm.{HaveSameKeys};
ghost use Rattle.cs_blob.specs.Spelling.{FitsBlob};
ghost use Rattle.cs_rebaser.specs.Faults.{IsConfigureFault};
ghost use Rattle.cs_rebaser.specs.Rebased.{entry_at, placed, placed_in, HasEachOnce};
ghost use Rattle.cs_rebaser.specs.Steps.{first_named, AreOrders, Finds, IsIndex, IsOrderOf};

use crate::faults::ConfigureFault;
use crate::keys::compare_key;
use crate::orders::{GroupOrder, are_apart, group_orders};
use crate::places::{PlaceIndex, at_from_high, at_from_low, entry_in, place_index_of, put_place};
use cs_blob::{BlobGroup, Entry};
use cs_normal::keyed::key_front;
use cs_value::Memory;
use std::alloc::Global;
use std::cmp::Ordering;

/// How the entries of a blob are found.
#[derive(Drop)]
pub(crate) enum Index {
    /// By their keys: no two groups have one name.
    ByKeys(Vec<GroupOrder>),
    /// By their places: a name comes twice.
    ByPlaces(PlaceIndex),
}

/// Where the entries of a table are sought.
#[derive(Drop)]
pub(crate) enum Sought<'b, 'a> {
    /// Nowhere: there is none.
    Nowhere,
    /// In the table's group, by their keys; and the marks up to the last key column.
    InGroup(&'b BlobGroup<'a>, &'b GroupOrder, &'b [bool]),
    /// Among the entries of all groups, by their places.
    AmongAll(&'b PlaceIndex),
}

/// Where the last search ended, and room for a place.
#[derive(Drop)]
pub(crate) struct Finger {
    pub near: usize,
    pub room: Vec<u8>,
}

/// The index of a blob's entries.
pub(crate) fn index_of(alloc: Global, groups: &[BlobGroup<'_>]) -> Result<Index, ConfigureFault>
    requires { FitsBlob groups.now }
    ensures index { IfOk result (IsIndex groups.now) }
    ensures once { IfOk result (λ index. HasEachOnce groups.now) }
    ensures fault { IfErr result (λ fault. IsConfigureFault fault groups.now) }
{
    cs_order::laws::orders();
    let apart = are_apart(alloc, groups)?;
    if !apart {
        let places = place_index_of(alloc, groups)?;
        return Ok(Index::ByPlaces(places));
    }
    let found = group_orders(alloc, groups)?;
    match found {
        None => Err(ConfigureFault::KeyTwice),
        Some(orders) => Ok(Index::ByKeys(orders)),
    }
}

/// The place of the first group with this name.
fn place_named(groups: &[BlobGroup<'_>], name: &str) -> Option<usize>
    ensures { MatchOption result (first_named name.now groups.now ≡ None)
        (λ at. (at < length groups.now) × (first_named name.now groups.now ≡ slice_get groups.now at)) }
{
    for at in 0..groups.len() {
        if groups[at].name.as_str() == name {
            return Some(at);
        }
    }
    None
}

/// Where the entries of the table with this name are sought.
pub(crate) fn sought_in<'b, 'a>(
    index: &'b Index,
    groups: &'b [BlobGroup<'a>],
    name: &str,
) -> Sought<'b, 'a>
    requires { IsIndex groups.now index.now }
    ensures { Finds result groups.now name.now }
{
    match index {
        Index::ByPlaces(places) => Sought::AmongAll(places),
        Index::ByKeys(orders) => match place_named(groups, name) {
            None => Sought::Nowhere,
            Some(at) => {
                let order = &orders[at];
                Sought::InGroup(&groups[at], order, key_front(order.marks.as_slice()))
            }
        },
    }
}

/// The entry of a key in a group. The search begins where the last one ended, since keys that are sought rise. It goes on from
/// there in growing steps, and then by halves.
// It stands alone, so that what it holds doesn't weigh on keys that are found at once.
#[inline(never)]
fn entry_in_group<'b, 'a>(
    group: &'b BlobGroup<'a>,
    order: &GroupOrder,
    front: &[bool],
    key: &[u8],
    finger: &mut Finger,
) -> Result<Option<&'b Entry<'a>>, Memory>
    requires ordered { IsOrderOf group.now order.now }
    requires front { HaveSameKeys front.now order.now.marks }
    ensures { IfOk result (λ found. MatchOption found (entry_at (group.now.name, key.now) (placed_in group.now) ≡ None)
        (λ entry. entry_at (group.now.name, key.now) (placed_in group.now) ≡ Some entry.now)) }
{
    let entries = group.entries.as_slice();
    let mut low = 0;
    let mut high = order.order.len();
    let mut at = finger.near.min(high.saturating_sub(1));
    let mut next_step = 0usize;
    while low < high {
        let step = next_step;
        next_step = step.saturating_mul(2).saturating_add(1);
        let entry = &entries[order.order[at]];
        let compared = compare_key(front, &entry.fields, key, &mut finger.room)?;
        match compared {
            Ordering::Less => {
                low = at + 1;
                at = at_from_low(low, high, step);
            }
            Ordering::Greater => {
                high = at;
                at = at_from_high(low, high, step);
            }
            Ordering::Equal => {
                finger.near = at + 1;
                return Ok(Some(entry));
            }
        }
    }
    finger.near = low;
    Ok(None)
}

/// The same. Most keys have the entry where the last search ended, or come before all.
#[inline(always)]
fn entry_near<'b, 'a>(
    group: &'b BlobGroup<'a>,
    order: &GroupOrder,
    front: &[bool],
    key: &[u8],
    finger: &mut Finger,
) -> Result<Option<&'b Entry<'a>>, Memory>
    requires ordered { IsOrderOf group.now order.now }
    requires front { HaveSameKeys front.now order.now.marks }
    ensures { IfOk result (λ found. MatchOption found (entry_at (group.now.name, key.now) (placed_in group.now) ≡ None)
        (λ entry. entry_at (group.now.name, key.now) (placed_in group.now) ≡ Some entry.now)) }
{
    let near = finger.near;
    if near < order.order.len() {
        let entry = &group.entries.as_slice()[order.order[near]];
        match compare_key(front, &entry.fields, key, &mut finger.room)? {
            Ordering::Equal => {
                finger.near = near + 1;
                return Ok(Some(entry));
            }
            Ordering::Greater if near == 0 => return Ok(None),
            _ => {}
        }
    }
    entry_in_group(group, order, front, key, finger)
}

/// The entry of a key of the table with this name, sought from where the last search ended.
#[inline(always)]
pub(crate) fn entry_sought<'b, 'a>(
    sought: &Sought<'b, 'a>,
    groups: &'b [BlobGroup<'a>],
    name: &str,
    key: &[u8],
    finger: &mut Finger,
) -> Result<Option<&'b Entry<'a>>, Memory>
    requires name { HasNoZero name.now }
    requires finds { Finds sought.now groups.now name.now }
    ensures { IfOk result (λ found. MatchOption found (entry_at (name.now, key.now) (placed groups.now) ≡ None)
        (λ entry. entry_at (name.now, key.now) (placed groups.now) ≡ Some entry.now)) }
{
    match sought {
        Sought::Nowhere => Ok(None),
        Sought::InGroup(group, order, front) => entry_near(*group, *order, *front, key, finger),
        Sought::AmongAll(index) => {
            put_place(name, key, &mut finger.room)?;
            Ok(entry_in(*index, groups, finger.room.as_slice(), &mut finger.near))
        }
    }
}
