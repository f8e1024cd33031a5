//! Opening a hub over any store.

ghost use Rattle.std.specs.Prelude.{◌≡◌, ◌≢◌, [], List, IfOk, IfErr};
ghost use Rattle.cs_store.specs.Contents.{log_count, nothing};
ghost use Rattle.cs_pending.specs.Calls.{ReadsStore, WritesStore};
ghost use Rattle.cs_opening.specs.declared.fault.OpenFault.TheVariants.{Device};
ghost use Rattle.cs_store.specs.declared.log.entry.LogEntry.{LogEntry as Entry};
ghost use Rattle.cs_store.specs.log.Widens.{widens_from};
ghost use Rattle.cs_hub.specs.log_store.Shows.{ShowsLog};
ghost use Rattle.cs_hub.specs.log_opening.Opens.{IsHubAt, IsHubFault, IsHubStore, IsSameOrFirst};

use crate::log_opening::fresh::open_fresh;
use crate::log_opening::judging::count_entries;
use crate::log_opening::owning::owner_of_hub_store;
use crate::log_opening::widens::read_catalogs;
use crate::log_store::Catalogs;
use cs_opening::{OpenFault, Owner};
use cs_store::RowStore;
use cs_value::Catalog;
use std::alloc::Global;

/// How many entries a store that holds something has as a hub's, or why it can't be opened.
fn count_there<S: RowStore>(
    alloc: Global,
    store: &mut S,
    catalog: &Catalog,
) -> Result<u32, OpenFault>
    ensures reads { ReadsStore S.RowStore Device (Unit {0}) store.old store.new result }
    ensures opened { S.honest store.new → IfOk result (λ count.
        IsHubStore catalog.now (S.contents store.old) × (count ≡ log_count (S.contents store.old))) }
    ensures refused { S.honest store.new → S.contents store.old ≢ nothing
        → IfErr result (IsHubFault catalog.now (S.contents store.old)) }
{
    let owner = match owner_of_hub_store(alloc, store, catalog) {
        Ok(owner) => owner,
        Err(fault) => return Err(OpenFault::from(fault)),
    };
    match owner {
        Owner::Unreadable => return Err(OpenFault::Damaged),
        Owner::Other => return Err(OpenFault::Mismatch),
        Owner::This => {}
    }
    match count_entries(store, catalog) {
        Ok(Some(count)) => Ok(count),
        Ok(None) => Err(OpenFault::Damaged),
        Err(fault) => Err(OpenFault::from(fault)),
    }
}

/// The tables at each version of a hub's log in a store that holds something, or why it can't be opened.
fn open_there<S: RowStore>(
    alloc: Global,
    store: &mut S,
    begun: Catalogs,
) -> Result<Catalogs, OpenFault>
    requires newest { begun.newest ≡ 0 }
    requires widens { begun.widens ≡ [] }
    ensures reads { ReadsStore S.RowStore Device (Unit {0}) store.old store.new result }
    ensures opened { S.honest store.new → IfOk result (λ read.
        IsHubStore begun.opening (S.contents store.old) × (read.newest ≡ log_count (S.contents store.old))) }
    ensures opening { IfOk result (λ read. read.opening ≡ begun.opening) }
    ensures widens { S.honest store.new → (log : List Entry) → ShowsLog begun.opening (S.contents store.old) log
        → IfOk result (λ read. read.widens ≡ widens_from 0 log) }
    ensures refused { S.honest store.new → S.contents store.old ≢ nothing
        → IfErr result (IsHubFault begun.opening (S.contents store.old)) }
{
    let count = match count_there(alloc, store, begun.opening()) {
        Ok(count) => count,
        Err(fault) => return Err(fault),
    };
    match read_catalogs(alloc, store, begun, count) {
        Ok(read) => Ok(read),
        Err(fault) => Err(OpenFault::from(fault)),
    }
}

/// Opens a store as that of a hub with these tables, and answers the tables that its log has at each version. A store that holds nothing
/// is laid out in one commit; any other is only read.
///
/// # Errors
///
/// `Damaged` where the store's id or tables can't be read; `Mismatch` where they are a replica's or another hub's; `Damaged` where it
/// is not what a hub's store is; `Memory` and `Device`. Nothing has changed then.
pub fn open_log<S: RowStore>(
    alloc: Global,
    store: &mut S,
    catalog: &Catalog,
) -> Result<Catalogs, OpenFault>
    // The store is as it was, or it held nothing and is laid out; at `Err` nothing has changed.
    ensures writes { WritesStore S.RowStore Device (Unit {0})
        (IsSameOrFirst catalog.now (S.contents store.old)) store.old store.new result }

    // It is a hub's.
    ensures opened { S.honest store.new → IfOk result (λ catalogs.
        IsHubAt catalog.now (S.contents store.old) (S.contents store.new) catalogs.newest) }

    // The tables are those of the log that it shows.
    ensures opening { IfOk result (λ catalogs. catalogs.opening ≡ catalog.now) }
    ensures widens { S.honest store.new → (log : List Entry) → ShowsLog catalog.now (S.contents store.new) log
        → IfOk result (λ catalogs. catalogs.widens ≡ widens_from 0 log) }

    // What is told holds of it.
    ensures refused { S.honest store.new → IfErr result (IsHubFault catalog.now (S.contents store.old)) }
{
    let begun = Catalogs::new(alloc, catalog)?;
    match open_fresh(alloc, store, catalog) {
        Ok(true) => return Ok(begun),
        Ok(false) => {}
        Err(fault) => return Err(OpenFault::from(fault)),
    }
    match open_there(alloc, store, begun) {
        Ok(catalogs) => Ok(catalogs),
        Err(fault) => Err(fault),
    }
}
