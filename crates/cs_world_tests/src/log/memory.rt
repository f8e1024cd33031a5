//! Memory that is refused, at opening, at appending and at reading: it is told, leaves everything, and the same call is then made.

use crate::given::{
    INSERT, Push, ROW_1, ROW_2, Store, Told, UPDATE, appends, bare, entry_of, has, opens,
};
use cs_hub::log_reading::{entries_at, entries_told, has_entry};
use cs_hub::log_store::Catalogs;
use cs_opening::OpenFault;
use cs_store::{RowStore, StoreFault};
use cs_store_cases::catalog;
use cs_value::Catalog;
use std::alloc::Global;

const FIRST: Push = (1, INSERT);

const SECOND: Push = (2, UPDATE);

/// Whether a store opens with so many entries, the first time or, where memory was refused, the second.
fn opens_at_last(alloc: Global, store: &mut Store, catalog: &Catalog, count: u32) -> bool {
    let before = store.written();
    match opens(alloc, store, catalog) {
        Err(OpenFault::Memory) => {
            store.written() == before && opens(alloc, store, catalog) == Ok(count)
        }
        told => told == Ok(count),
    }
}

/// Whether the log has so many entries, and this row stands; where memory is refused to the looking, at the second look.
fn has_at_last(store: &mut Store, count: u32, row: Option<&[u8]>) -> bool {
    match has(store, count, row) {
        Ok(has) => has,
        Err(_) => has(store, count, row) == Ok(true),
    }
}

/// Whether a push is appended behind so many entries, at which this row stood, at the first time or the second.
fn appends_at_last(
    alloc: Global,
    store: &mut Store,
    catalogs: &mut Catalogs,
    push: Push,
    count: u32,
    row: Option<&[u8]>,
) -> Option<bool> {
    match appends(alloc, store, catalogs, push)? {
        Told::Done => Some(true),
        Told::Memory => {
            let kept = has(store, count, row) == Ok(true);
            let again = appends(alloc, store, catalogs, push)?;
            Some(kept && again == Told::Done)
        }
        _ => Some(false),
    }
}

/// Whether it stands at its version so.
fn stands_at_last(
    alloc: Global,
    store: &mut Store,
    catalogs: &Catalogs,
    push: Push,
    version: u32,
) -> Option<bool> {
    let entry = entry_of(alloc, catalogs.at(version as u64), push)?;
    match has_entry(alloc, store, catalogs, version, &entry) {
        Err(StoreFault::Memory) => {
            Some(has_entry(alloc, store, catalogs, version, &entry) == Ok(true))
        }
        told => Some(told == Ok(true)),
    }
}

/// How many of two entries are read.
fn reads_both(alloc: Global, store: &mut Store, catalogs: &Catalogs) -> Result<usize, StoreFault> {
    let entries = entries_at(alloc, store, catalogs, 0, 2)?;
    Ok(entries.len())
}

/// In how many bytes they are told: 13, and 17 with each changeset.
fn tells_both(alloc: Global, store: &mut Store, catalogs: &Catalogs) -> Result<usize, StoreFault> {
    let told = entries_told(alloc, store, catalogs.present(), 0, 2)?;
    Ok(told.len())
}

/// Whether both are read and told so.
fn shows_at_last(alloc: Global, store: &mut Store, catalogs: &Catalogs) -> bool {
    let read = match reads_both(alloc, store, catalogs) {
        Err(StoreFault::Memory) => reads_both(alloc, store, catalogs),
        read => read,
    };
    let told = match tells_both(alloc, store, catalogs) {
        Err(StoreFault::Memory) => tells_both(alloc, store, catalogs),
        told => told,
    };
    read == Ok(2) && told == Ok(96)
}

/// A hub's store that is laid out, appended to, read and opened again.
fn lives(alloc: Global) -> Option<bool> {
    let catalog = catalog(alloc)?;
    let mut store = bare(alloc, u64::MAX);
    let opened = opens_at_last(alloc, &mut store, &catalog, 0);
    let mut catalogs = Catalogs::new(alloc, &catalog).ok()?;
    let first = appends_at_last(alloc, &mut store, &mut catalogs, FIRST, 0, None)?;
    let second = appends_at_last(alloc, &mut store, &mut catalogs, SECOND, 1, Some(ROW_1))?;
    let stands = stands_at_last(alloc, &mut store, &catalogs, SECOND, 1)?;
    Some(
        opened
            && first
            && second
            && stands
            && shows_at_last(alloc, &mut store, &catalogs)
            && has_at_last(&mut store, 2, Some(ROW_2))
            && opens_at_last(alloc, &mut store, &catalog, 2)
            && store.failures() == 0,
    )
}

/// `bench/refuse_tests.sh` refuses each allocation in turn here; where it is refused to what stands around the calls, all is tried
/// again.
#[test]
fn refused_memory_leaves_everything(rt: HostRuntime) {
    let alloc = rt.alloc();
    let kept = match lives(alloc) {
        Some(kept) => kept,
        None => lives(alloc) == Some(true),
    };
    assert!(rt; kept);
}
