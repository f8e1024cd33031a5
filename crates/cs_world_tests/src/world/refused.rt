//! Worlds of which one store refuses one call.

use crate::given::{Store, bare};
use crate::world::again::refused_in;
use crate::world::given::opened;
use cs_store_cases::catalog;
use cs_value::Catalog;
use cs_world::World;
use std::alloc::Global;

/// The most calls that are refused in turn.
const CALLS: u64 = 1000;

/// How many calls are passed on of the store with a number, where it is that of this one that refuses.
fn passes_of(number: u32, which: u32, passes: u64) -> u64 {
    if number == which { passes } else { u64::MAX }
}

/// A world of two replicas, where the hub's store (0) or a replica's (1 and 2) refuses the call behind so many. None where that call was
/// one of its making.
fn world(alloc: Global, catalog: &Catalog, which: u32, passes: u64) -> Option<World<Store>> {
    let hub = bare(alloc, passes_of(0, which, passes));
    let one = bare(alloc, passes_of(1, which, passes));
    let other = bare(alloc, passes_of(2, which, passes));
    opened(alloc, catalog, hub, one, other).ok()
}

/// How many lines were refused where this store refuses the call behind so many; one where no world was made.
fn refused_at(alloc: Global, catalog: &Catalog, which: u32, passes: u64) -> Option<usize> {
    match world(alloc, catalog, which, passes) {
        Some(mut world) => refused_in(alloc, catalog, &mut world),
        None => Some(1),
    }
}

/// Whether each call of a store, refused in turn, refuses one line, which is then made, until there is none.
fn survives(alloc: Global, which: u32) -> Option<bool> {
    let catalog = catalog(alloc)?;
    for passes in 0..CALLS {
        match refused_at(alloc, &catalog, which, passes)? {
            0 => return Some(passes > 20),
            1 => {}
            _ => return Some(false),
        }
    }
    Some(false)
}

/// The hub's store, a replica's, and the other's.
#[test]
fn refused_calls_of_each_store(rt: HostRuntime) {
    let alloc = rt.alloc();
    for which in 0..3u32 {
        assert!(rt; survives(alloc, which) == Some(true));
    }
}
