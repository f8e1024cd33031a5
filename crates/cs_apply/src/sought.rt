//! The places that are to be looked up next.
//!
//! The changes of a changeset are written in no order of their keys, and their places are looked up in that order. So each
//! place would wait for its change, and then for the change's bytes, to come out of memory. For the places of several
//! groups they are reached first, in one short loop, where these waits overlap.

ghost use Rattle.std.specs.Prelude.{◌<◌, ◌≤◌, length};
ghost use Rattle.std.specs.List.{All};
ghost use Rattle.cs_order.specs.Groups.{IsGrouping};
ghost use Rattle.cs_order.specs.Order.{key_at};
ghost use Rattle.cs_apply.specs.Found.{ArePlacesOf};
ghost use Rattle.cs_apply.specs.Sought.{IsSought};

use cs_order::Groups;
use cs_tasks::Tasks;
use cs_value::{Catalog, Memory};
use std::alloc::Global;

/// How many places are reached at once.
const AT_ONCE: usize = 64;

/// A place that is to be looked up. Its key is lent.
#[derive(Drop)]
pub(crate) struct SoughtPlace<'t> {
    /// The table's place in the catalog.
    pub table: u32,
    /// How many columns the table has.
    pub columns: usize,
    /// The bytes of the key.
    pub key: &'t [u8],
}

/// The place of a change.
#[inline(always)]
fn place_of<'t>(catalog: &Catalog, tasks: &'t Tasks<'_>, change: usize) -> SoughtPlace<'t>
    requires tables { All (λ table. table < length catalog.now) tasks.now.places.0 }
    requires places { ArePlacesOf catalog.now tasks.now.changes tasks.now.places.0 tasks.now.places.1 }
    requires within { change < length tasks.now.places.1 }
    ensures { IsSought catalog.now (key_at tasks.now.places.1 change) result }
{
    let table = tasks.places.table(change);
    SoughtPlace {
        table,
        columns: catalog.tables()[table as usize].key_marks.as_slice().len(),
        key: tasks.places.key(change),
    }
}

/// Where the groups end whose places are reached at once, of so many groups from this one on.
fn end_of(from: usize, count: usize) -> usize
    requires { from < count }
    ensures some { from < result }
    ensures within { result ≤ count }
{
    if count - from < AT_ONCE {
        count
    } else {
        from + AT_ONCE
    }
}

/// Reaches, in one short loop, the first change of each of these groups, at both ends of its bytes. It reaches its place too, where
/// that isn't lent by the change. What was reached is listed, so that it surely is, and isn't looked at.
// It stands alone, since within a caller of many variables it keeps its own on the stack.
#[inline(never)]
fn reach(
    tasks: &Tasks<'_>,
    groups: &Groups,
    from: usize,
    end: usize,
    reached: &mut Vec<u8>,
) -> Result<(), Memory>
    requires { end ≤ length groups.now }
{
    let changes = tasks.changes.as_slice();
    reached.clear();
    for number in from..end {
        if let [change, ..] = groups.group(number) {
            if *change < changes.len() {
                let (first, last) = changes[*change].ends();
                reached.push(first ^ last ^ tasks.places.end(*change))?;
            }
        }
    }
    Ok(())
}

/// How far places are reached.
#[derive(Drop)]
pub(crate) struct Reached {
    /// The number of the first group whose place isn't.
    end: usize,
    /// What was reached of the last ones.
    last: Vec<u8>,
}

impl Reached {
    ghost use Rattle.std.specs.Prelude.{◌<◌, [], length, slice_index_or, IfOk};
    ghost use Rattle.std.specs.List.{All};
    ghost use Rattle.cs_order.specs.Groups.{IsGrouping};
    ghost use Rattle.cs_order.specs.Order.{key_at};
    ghost use Rattle.cs_apply.specs.Found.{ArePlacesOf};
    ghost use Rattle.cs_apply.specs.Sought.{IsSought};
    ghost use Rattle.cs_apply.specs.Waiting.{first_of};

    /// No place is, and there is room for those that are at once.
    pub(crate) fn none(alloc: Global) -> Result<Reached, Memory> {
        Ok(Reached {
            end: 0,
            last: Vec::with_capacity(alloc, AT_ONCE)?,
        })
    }

    /// The place of the group of this number. Where it isn't reached yet, it is with those of the groups behind it.
    #[inline(always)]
    pub(crate) fn place_at<'t>(
        &mut self,
        catalog: &Catalog,
        tasks: &'t Tasks<'_>,
        groups: &Groups,
        number: usize,
    ) -> Result<SoughtPlace<'t>, Memory>
        requires tables { All (λ table. table < length catalog.now) tasks.now.places.0 }
        requires behind { ArePlacesOf catalog.now tasks.now.changes tasks.now.places.0 tasks.now.places.1 }
        requires groups { IsGrouping tasks.now.places.1 groups.now }
        requires number { number < length groups.now }
        ensures { IfOk result (λ place. IsSought catalog.now
            (key_at tasks.now.places.1 (first_of (slice_index_or groups.now number []))) place) }
    {
        if self.end <= number {
            self.end = end_of(number, groups.len());
            reach(tasks, groups, number, self.end, &mut self.last)?;
        }
        Ok(place_of(catalog, tasks, groups.group(number)[0]))
    }
}
