//! The order of the entries of each group by their keys. The entries and the keys stay in the blob.

ghost use Rattle.std.specs.Prelude.{◌≡◌, map, IfOk, IsTrue, MatchOption};
ghost use Rattle.std.specs.List.{range_with_len};
ghost use Rattle.cs_order.specs.Groups.{HasTwins};
ghost use Rattle.cs_order.specs.Order.{keys_behind};
ghost use Rattle.cs_rebaser.specs.Rebased.{entry_key};
ghost use Rattle.cs_rebaser.specs.Steps.{entry_keys, names_in, AreApart, AreInOrder, AreOrders, HasTwinsIn, IsOrderOf};

use crate::keys::{copy_keys, lend_keys, rise};
use cs_blob::{BlobGroup, Entry};
use cs_normal::keyed::key_front;
use cs_normal::read_marks;
use cs_order::{Keys, distinct_order};
use cs_value::{Marks, Memory};
use std::alloc::Global;

/// The order of a group's entries by their keys, and which columns are in a key.
#[derive(Drop)]
pub(crate) struct GroupOrder {
    pub marks: Marks,
    pub order: Vec<usize>,
}

/// The numbers from 0 on.
fn as_they_stand(alloc: Global, count: usize) -> Result<Vec<usize>, Memory>
    ensures { IfOk result (λ order. order.items ≡ range_with_len 0 count) }
{
    let mut order = Vec::with_capacity(alloc, count)?;
    for at in 0..count {
        order.push(at)?;
    }
    Ok(order)
}

/// The places of keys in their order; `None` where a key comes twice. Where they stand in that order already, as in a blob
/// that applying a changeset in normal form leaves, it isn't sought.
fn order_of_keys(alloc: Global, keys: &[&[u8]]) -> Result<Option<Vec<usize>>, Memory>
    ensures { IfOk result (λ found. MatchOption found (HasTwins (keys_behind keys.now))
        (λ order. AreInOrder (keys_behind keys.now) order.items)) }
{
    if rise(keys) {
        return Ok(Some(as_they_stand(alloc, keys.len())?));
    }
    distinct_order(alloc, keys)
}

/// The same of keys that are kept together.
pub(crate) fn order_of(alloc: Global, keys: &Keys) -> Result<Option<Vec<usize>>, Memory>
    ensures { IfOk result (λ found. MatchOption found (HasTwins keys.now) (λ order. AreInOrder keys.now order.items)) }
{
    let slices = keys.slices(alloc)?;
    order_of_keys(alloc, slices.as_slice())
}

/// The places of a group's entries in the order of their keys; `None` where a key comes twice.
fn places_in_order(
    alloc: Global,
    marks: &[bool],
    entries: &[Entry<'_>],
) -> Result<Option<Vec<usize>>, Memory>
    ensures { IfOk result (λ found. MatchOption found (HasTwins (map (entry_key marks.now) entries.now))
        (λ order. AreInOrder (map (entry_key marks.now) entries.now) order.items)) }
{
    let front = key_front(marks);
    let lent = lend_keys(alloc, front, entries)?;
    if let Some(keys) = lent {
        return order_of_keys(alloc, keys.as_slice());
    }
    let keys = copy_keys(alloc, front, entries)?;
    order_of(alloc, &keys)
}

/// The order of a group's entries; `None` where a key comes twice.
fn group_order(alloc: Global, group: &BlobGroup<'_>) -> Result<Option<GroupOrder>, Memory>
    ensures { IfOk result (λ found. MatchOption found (HasTwins (entry_keys group.now)) (IsOrderOf group.now)) }
{
    let marks = read_marks(alloc, group.marks.as_slice())?;
    let found = places_in_order(alloc, marks.as_slice(), group.entries.as_slice())?;
    match found {
        None => Ok(None),
        Some(order) => Ok(Some(GroupOrder { marks, order })),
    }
}

/// The order of each group's entries; `None` where a key comes twice in a group.
pub(crate) fn group_orders(
    alloc: Global,
    groups: &[BlobGroup<'_>],
) -> Result<Option<Vec<GroupOrder>>, Memory>
    ensures { IfOk result (λ found. MatchOption found (HasTwinsIn groups.now) (λ orders. AreOrders groups.now orders.items)) }
{
    let mut orders = Vec::with_capacity(alloc, groups.len())?;
    for group in groups {
        let found = group_order(alloc, group)?;
        let Some(order) = found else {
            return Ok(None);
        };
        orders.push(order)?;
    }
    Ok(Some(orders))
}

/// The names of the groups, which are lent.
fn lend_names<'b>(alloc: Global, groups: &'b [BlobGroup<'_>]) -> Result<Vec<&'b [u8]>, Memory>
    ensures { IfOk result (λ names. keys_behind names.items ≡ names_in groups.now) }
{
    let mut names = Vec::with_capacity(alloc, groups.len())?;
    for group in groups {
        names.push(group.name.as_str().as_bytes())?;
    }
    Ok(names)
}

/// Whether no two groups have one name.
pub(crate) fn are_apart(alloc: Global, groups: &[BlobGroup<'_>]) -> Result<bool, Memory>
    ensures { IfOk result (λ apart. IsTrue apart → AreApart groups.now) }
{
    let names = lend_names(alloc, groups)?;
    let found = distinct_order(alloc, names.as_slice())?;
    Ok(found.is_some())
}
