//! Stores that hold nothing, opened.

ghost use Rattle.std.specs.Prelude.{◌≡◌, ◌<◌, ◌-◌, ◌^◌, [], All, IfOk, length};
ghost use Rattle.cs_hub.specs.Holding as hub;
ghost use Rattle.cs_store.specs.Contents.{nothing};
ghost use Rattle.cs_world.specs.Opened.{IsNewReplica, LeavesAlone};

use crate::fault::WorldFault;
use cs_hub::Hub;
use cs_map_store::MapStore;
use cs_opening::laws::tables_kept;
use cs_replica::Replica;
use cs_store::RowStore;
use cs_value::{Catalog, Memory};
use std::alloc::Global;

/// Stores in memory that hold nothing, so many.
pub(crate) fn bare_stores(alloc: Global, count: u32) -> Result<Vec<MapStore>, Memory>
    ensures bare { IfOk result (λ stores. All (λ store. ⟦<MapStore as RowStore>⟧.contents store ≡ nothing) stores.items) }
    ensures count { IfOk result (λ stores. length stores.items ≡ count) }
{
    let mut stores = Vec::with_capacity(alloc, count as usize)?;
    for number in 0..count {
        let _ = number;
        stores.push(MapStore::new(alloc))?;
    }
    Ok(stores)
}

/// A replica to which nothing has happened.
pub(crate) fn open_replica<S: RowStore + Drop>(
    alloc: Global,
    store: S,
    catalog: &Catalog,
    number: u32,
) -> Result<Replica<S>, WorldFault>
    requires bare { S.contents store ≡ nothing }
    requires small { number < 2 ^ 32 - 1 }
    ensures { IfOk result (IsNewReplica S.RowStore catalog.now number) }
{
    tables_kept();
    match Replica::open(alloc, store, catalog, number) {
        Ok(replica) => Ok(replica),
        Err((_, fault)) => Err(WorldFault::from(fault)),
    }
}

/// A hub whose log has no entry.
pub(crate) fn open_hub<S: RowStore + Drop>(
    alloc: Global,
    store: S,
    catalog: &Catalog,
) -> Result<Hub<S>, WorldFault>
    requires { S.contents store ≡ nothing }
    ensures catalog { IfOk result (λ opened. opened.catalog ≡ catalog.now) }
    ensures shown { IfOk result (λ opened. S.honest opened.store → hub.Shows S.contents opened []) }
    ensures alone { IfOk result (λ opened. LeavesAlone S.RowStore opened.store) }
{
    match Hub::open(alloc, store, catalog) {
        Ok(hub) => Ok(hub),
        Err((_, fault)) => Err(WorldFault::from(fault)),
    }
}
