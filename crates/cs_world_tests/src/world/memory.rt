//! Memory that is refused to a world.

use crate::world::again::refused_in;
use cs_map_store::MapStore;
use cs_store_cases::catalog;
use cs_value::Catalog;
use cs_world::World;
use std::alloc::Global;

/// The tables; where memory is refused they are made once more.
fn tables(alloc: Global) -> Option<Catalog> {
    match catalog(alloc) {
        Some(tables) => Some(tables),
        None => catalog(alloc),
    }
}

/// A world of two replicas, likewise.
fn made(alloc: Global, catalog: &Catalog) -> Option<World<MapStore>> {
    match World::in_memory(alloc, catalog, 2) {
        Ok(world) => Some(world),
        Err(_) => World::in_memory(alloc, catalog, 2).ok(),
    }
}

/// Whether each line is made, the first time or the second, and all have the same rows then.
fn survives(alloc: Global) -> Option<bool> {
    let catalog = tables(alloc)?;
    let mut world = made(alloc, &catalog)?;
    Some(refused_in(alloc, &catalog, &mut world).is_some())
}

/// `bench/refuse_tests.sh` refuses each allocation in turn here.
#[test]
fn refused_memory_leaves_everything(rt: HostRuntime) {
    assert!(rt; survives(rt.alloc()) == Some(true));
}
