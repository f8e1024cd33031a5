//! Stores of a hub of `t1(a, b)`, whose first column is the key: what is appended there, and what they show.

ghost use Rattle.std.specs.Prelude.{◌≡◌, IfSome};
ghost use Rattle.cs_store.specs.log.Stored.{IsEntryOf};
ghost use Rattle.cs_store.specs.Contents.{nothing};

use cs_conflict::Kind;
use cs_hub::appending::{AppendFault, append};
use cs_hub::log_opening::open_log;
use cs_hub::log_store::Catalogs;
use cs_map_store::MapStore;
use cs_opening::OpenFault;
use cs_store::log::{LogEntry, read_body};
use cs_store::{RowStore, StoreFault, Trip};
use cs_store_cases::catalog;
use cs_value::Catalog;
use std::alloc::Global;

/// The store of a hub here: it refuses a call of the store in memory.
pub(crate) type Store = Trip<MapStore>;

/// A store that holds nothing, and refuses the call behind so many.
pub(crate) fn bare(alloc: Global, passes: u64) -> Store
    ensures { result.inner.held ≡ nothing }
{
    Trip::new(MapStore::new(alloc), passes)
}

/// The same store, which refuses the call behind so many.
pub(crate) fn refusing(store: Store, passes: u64) -> Store {
    Trip {
        inner: store.inner,
        passes: Some(passes),
        wrote: store.wrote,
    }
}

/// The tables of a hub, and its store, which was laid out.
pub(crate) fn opened(alloc: Global) -> Option<(Catalogs, Store)> {
    let catalog = catalog(alloc)?;
    let mut store = bare(alloc, u64::MAX);
    match open_log(alloc, &mut store, &catalog) {
        Ok(catalogs) => Some((catalogs, store)),
        Err(_) => None,
    }
}

/// How many entries the log of a store has as it is opened.
pub(crate) fn opens(alloc: Global, store: &mut Store, catalog: &Catalog) -> Result<u32, OpenFault> {
    match open_log(alloc, store, catalog) {
        Ok(catalogs) => Ok(catalogs.newest()),
        Err(fault) => Err(fault),
    }
}

/// What an entry does, as it is stored: a byte for its kind, and behind it the change. These are the INSERT of (1, 'v1'), its UPDATE to
/// 'v2', the DELETE of (1, 'v2'), and that of (2, 'x'). One more has no change.
pub(crate) const INSERT: &[u8] = &[
    0, 0x54, 2, 1, 0, 0x74, 0x31, 0, 18, 0, 1, 0, 0, 0, 0, 0, 0, 0, 1, 3, 2, 0x76, 0x31,
];

pub(crate) const UPDATE: &[u8] = &[
    0, 0x54, 2, 1, 0, 0x74, 0x31, 0, 23, 0, 1, 0, 0, 0, 0, 0, 0, 0, 1, 3, 2, 0x76, 0x31, 0, 3, 2,
    0x76, 0x32,
];

pub(crate) const DELETE: &[u8] = &[
    0, 0x54, 2, 1, 0, 0x74, 0x31, 0, 9, 0, 1, 0, 0, 0, 0, 0, 0, 0, 1, 3, 2, 0x76, 0x32,
];

pub(crate) const DELETE_2: &[u8] = &[
    0, 0x54, 2, 1, 0, 0x74, 0x31, 0, 9, 0, 1, 0, 0, 0, 0, 0, 0, 0, 2, 3, 1, 0x78,
];

pub(crate) const NO_CHANGE: &[u8] = &[0];

/// The key 1, and the rows (1, 'v1') and (1, 'v2').
pub(crate) const KEY: &[u8] = &[1, 0, 0, 0, 0, 0, 0, 0, 1];

pub(crate) const ROW_1: &[u8] = &[1, 0, 0, 0, 0, 0, 0, 0, 1, 3, 2, 0x76, 0x31];

pub(crate) const ROW_2: &[u8] = &[1, 0, 0, 0, 0, 0, 0, 0, 1, 3, 2, 0x76, 0x32];

/// A push of replica 7: its number, and what its entry does.
pub(crate) type Push = (u64, &'static [u8]);

/// The entry of a push, if what it does is done to these tables.
pub(crate) fn entry_of(alloc: Global, catalog: &Catalog, push: Push) -> Option<LogEntry>
    ensures { IfSome result (λ entry. IsEntryOf catalog.now entry) }
{
    let body = read_body(alloc, catalog, push.1).ok()?;
    Some(LogEntry {
        origin: 7,
        number: push.0,
        body,
    })
}

/// What becomes of an entry that is appended.
#[derive(Clone, Copy, Debug, PartialEq, Eq)]
pub(crate) enum Told {
    Done,
    Conflict(Kind),
    Memory,
    Device,
}

/// Appends a push.
pub(crate) fn appends(
    alloc: Global,
    store: &mut Store,
    catalogs: &mut Catalogs,
    push: Push,
) -> Option<Told> {
    let entry = entry_of(alloc, catalogs.present(), push)?;
    Some(match append(alloc, store, catalogs, &entry) {
        Ok(()) => Told::Done,
        Err(AppendFault::Conflict(conflict)) => Told::Conflict(conflict.as_conflict().kind),
        Err(AppendFault::Memory) => Told::Memory,
        Err(AppendFault::Device) => Told::Device,
    })
}

/// The tables of a hub, and its store, to which the INSERT was appended.
pub(crate) fn filled(alloc: Global) -> Option<(Catalogs, Store)> {
    let (mut catalogs, mut store) = opened(alloc)?;
    match appends(alloc, &mut store, &mut catalogs, (1, INSERT)) {
        Some(Told::Done) => Some((catalogs, store)),
        _ => None,
    }
}

/// Whether the log has so many entries, and these bytes stand as the row with the key 1, or none does.
pub(crate) fn has(store: &mut Store, count: u32, row: Option<&[u8]>) -> Result<bool, StoreFault> {
    let entries = store.log_len()?;
    let found = store.get(0, KEY)?;
    let is = match (&found, row) {
        (None, None) => true,
        (Some(found), Some(row)) => found.as_slice() == row,
        _ => false,
    };
    Ok(entries == count && is)
}
