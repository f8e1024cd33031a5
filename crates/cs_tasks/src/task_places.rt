//! The places of the changes that are applied.

ghost use Rattle.std.specs.Prelude.{◌≡◌, drop};

use crate::lending::ChangeKeys;
use cs_order::{Groups, Keys, group_keys};
use cs_value::Memory;
use std::alloc::Global;
use std::marker::Model;

/// How many bytes of a place name its table.
const TABLE: usize = 4;

/// How places are held.
#[derive(Drop)]
enum Held<'a> {
    /// Those of one table, whose keys are lent by the changes.
    Lent { table: u32, keys: ChangeKeys<'a> },
    /// Each as its table's place in the catalog, and as bytes: those of that number, and then the key's.
    Own { tables: Vec<u32>, places: Keys },
}

/// For each change its table's place in the catalog, and its place: the bytes of that number, and then the key's. The keys of one
/// table's changes are lent by these, where they stand there in one piece. Contracts see the numbers, and the bytes of the places.
#[derive(Drop)]
pub struct TaskPlaces<'a> {
    held: Held<'a>,
}

impl<'a> Model for TaskPlaces<'a> {
    ghost use Rattle.std.specs.Prelude.{List, ℕ};
    ghost use Rattle.cs_order.specs.Order.{Keys};
    ghost use Rattle.cs_tasks.specs.Places.{places_held};

    ghost Value = { List ℕ × Keys };

    ghost view = { λ places. places_held places.held };
}

/// The key's bytes in those of a place.
#[inline(always)]
fn key_in(place: &[u8]) -> &[u8]
    ensures { result.now ≡ drop 4 place.now }
{
    if place.len() < TABLE {
        &[]
    } else {
        &place[TABLE..]
    }
}

/// The last byte, if there is one.
#[inline(always)]
fn last_of(bytes: &[u8]) -> u8 {
    match bytes {
        [.., last] => *last,
        [] => 0,
    }
}

impl<'a> TaskPlaces<'a> {
    ghost use Rattle.std.specs.Prelude.{◌≡◌, drop, length, map, slice_index_or, IfOk};
    ghost use Rattle.cs_order.specs.Groups.{IsGrouping};
    ghost use Rattle.cs_order.specs.Order.{key_at};
    ghost use Rattle.cs_store.specs.States.{place_bytes};

    /// The places of these keys of one table. It takes no memory.
    pub(crate) fn lent(table: u32, keys: ChangeKeys<'a>) -> TaskPlaces<'a>
        ensures tables { result.0 ≡ map (λ key. table) keys.entry }
        ensures places { result.1 ≡ map (place_bytes table) keys.entry }
    {
        TaskPlaces {
            held: Held::Lent { table, keys },
        }
    }

    /// These places, each of the table of this number. It takes no memory.
    pub(crate) fn own(tables: Vec<u32>, places: Keys) -> TaskPlaces<'a>
        ensures { result ≡ (tables.items, places) }
    {
        TaskPlaces {
            held: Held::Own { tables, places },
        }
    }

    /// How many places there are.
    #[inline(always)]
    pub fn len(&self) -> usize
        ensures { result ≡ length self.now.1 }
    {
        match &self.held {
            Held::Lent { keys, .. } => keys.len(),
            Held::Own { places, .. } => places.len(),
        }
    }

    /// The place in the catalog of the table there; 0 past the last.
    #[inline(always)]
    pub fn table(&self, at: usize) -> u32
        ensures { result ≡ slice_index_or self.now.0 at 0 }
    {
        match &self.held {
            Held::Lent { table, keys } if at < keys.len() => *table,
            Held::Own { tables, .. } if at < tables.len() => tables[at],
            _ => 0,
        }
    }

    /// The bytes of the key there; none past the last.
    #[inline(always)]
    pub fn key(&self, at: usize) -> &[u8]
        ensures { result.now ≡ drop 4 (key_at self.now.1 at) }
    {
        match &self.held {
            Held::Lent { keys, .. } if at < keys.len() => keys.get(at),
            Held::Own { places, .. } if at < places.len() => key_in(places.get(at)),
            _ => &[],
        }
    }

    /// The last byte of the place there, or any where it is lent by the change. Who is about to go over many places out of order asks
    /// it of each first, as he asks `ends` of the changes. It is no part of a result.
    #[inline(always)]
    pub fn end(&self, at: usize) -> u8 {
        match &self.held {
            Held::Own { places, .. } if at < places.len() => last_of(places.get(at)),
            _ => 0,
        }
    }

    /// The places of one key together, in the order of the keys.
    pub fn group(&self, alloc: Global) -> Result<Groups, Memory>
        ensures { IfOk result (λ groups. IsGrouping self.now.1 groups) }
    {
        match &self.held {
            // A front that all have in common leaves their order.
            Held::Lent { keys, .. } => group_keys(alloc, keys.as_slice()),
            Held::Own { places, .. } => places.group(alloc),
        }
    }
}
