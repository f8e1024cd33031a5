//! The log from a version on, for a replica that asks to catch up.

ghost use Rattle.std.specs.Prelude.{◌≤◌, List, drop, IfOk};
ghost use Rattle.cs_pending.specs.Calls.{ReadsStore};
ghost use Rattle.cs_store.specs.declared.fault.StoreFault.TheVariants.{Device};
ghost use Rattle.cs_store.specs.declared.log.entry.LogEntry.{LogEntry as Entry};
ghost use Rattle.cs_store.specs.log.Log.{catalog_at};
ghost use Rattle.cs_hub.specs.catching.Catches.{Catches};
ghost use Rattle.cs_hub.specs.log_reading.Reading.{CanBeTold};
ghost use Rattle.cs_hub.specs.log_store.Versions.{ShowsBy, ShowsSomeBy};

use crate::catching::{Caught, take_run};
use crate::log_reading::others::others_at;
use crate::log_store::Catalogs;
use cs_store::log::laws::catalog_by_widens;
use cs_store::{RowStore, StoreFault};
use std::alloc::Global;

/// What a replica that asks to catch up is told of a log. Its entries from a version on, so many at most, are taken
/// together up to the first that is told alone. Where that is the first of them, it is told.
pub fn catch_at<S: RowStore>(
    alloc: Global,
    store: &mut S,
    catalogs: &Catalogs,
    asker: u32,
    first: u32,
    limit: u32,
) -> Result<Caught, StoreFault>
    requires { first ≤ catalogs.now.newest }

    // The store is only read.
    ensures reads { ReadsStore S.RowStore Device
        (ShowsSomeBy catalogs.now (S.contents store.old)) store.old store.new result }

    // What is told fits a message.
    ensures short { IfOk result CanBeTold }

    // It is what the log that the store shows has.
    ensures told { S.honest store.new → (log : List Entry) → ShowsBy catalogs.now (S.contents store.old) log
        → IfOk result (Catches (catalog_at catalogs.now.opening log first) asker limit (drop first log)) }
{
    cs_group::laws::one_join();
    catalog_by_widens();
    let catalog = catalogs.at(first as u64);
    let _tables = catalog.tables();
    let count = limit.min(catalogs.newest() - first);
    let others = match others_at(alloc, store, catalogs, asker, first, count) {
        Ok(others) => others,
        Err(fault) => return Err(fault),
    };
    if count > 0 && others.changesets.is_empty() {
        return Ok(Caught::Alone);
    }
    let (count, changes) = take_run(alloc, catalog, others.changesets.as_slice(), others.bytes)?;
    Ok(Caught::Merged {
        count: count as u32,
        changes,
    })
}
