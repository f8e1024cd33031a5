//! A log that is read again by calls that no request makes: for entries that no push can be, and past its end.

use crate::given::{
    DELETE, INSERT, NO_CHANGE, Push, Store, Told, UPDATE, appends, entry_of, opened,
};
use cs_hub::log_reading::{entries_at, entries_told, has_entry};
use cs_hub::log_store::Catalogs;
use cs_store::log::LogEntry;
use cs_store::{RowStore, StoreFault};
use cs_store_cases::commit_of;
use cs_value::Catalog;
use std::alloc::Global;

/// Pushes of the INSERT of (1, 'v1'), of its UPDATE to 'v2', and of the DELETE of (1, 'v2').
const PUSHES: [Push; 3] = [(1, INSERT), (5, UPDATE), (2, DELETE)];

/// The tables of a hub, and its store, to which they were appended.
fn filled(alloc: Global) -> Option<(Catalogs, Store)> {
    let (mut catalogs, mut store) = opened(alloc)?;
    for push in PUSHES {
        if appends(alloc, &mut store, &mut catalogs, push) != Some(Told::Done) {
            return None;
        }
    }
    Some((catalogs, store))
}

/// Whether the log has this entry at a version.
fn has(alloc: Global, version: u32, push: Push) -> Option<bool> {
    let (catalogs, mut store) = filled(alloc)?;
    let entry = entry_of(alloc, catalogs.at(version as u64), push)?;
    has_entry(alloc, &mut store, &catalogs, version, &entry).ok()
}

/// One at its version, one of no changes, one at the next version of the log, and at the last that there can be.
#[test]
fn an_entry_stands_at_its_version(rt: HostRuntime) {
    let alloc = rt.alloc();
    let cases: [(u32, &'static [u8], bool); 4] = [
        (0, INSERT, true),
        (0, NO_CHANGE, false),
        (3, INSERT, false),
        (u32::MAX, INSERT, false),
    ];
    for (version, does, wanted) in cases {
        assert!(rt; has(alloc, version, (1, does)) == Some(wanted));
    }
}

/// Whether these are the entries of the pushes.
fn are_of(alloc: Global, catalog: &Catalog, entries: &[LogEntry], pushes: &[Push]) -> Option<bool> {
    if entries.len() != pushes.len() {
        return Some(false);
    }
    for at in 0..pushes.len() {
        let entry = entry_of(alloc, catalog, *pushes.get(at)?)?;
        if !entries.get(at)?.same(&entry) {
            return Some(false);
        }
    }
    Some(true)
}

/// Whether so many entries are read, those of these pushes.
fn reads(alloc: Global, first: u16, count: u16, pushes: &[Push]) -> Option<bool> {
    let (catalogs, mut store) = filled(alloc)?;
    let entries = entries_at(alloc, &mut store, &catalogs, first as u32, count as u32).ok()?;
    let are = are_of(alloc, catalogs.present(), entries.as_slice(), pushes)?;
    Some(are && store.failures() == 0)
}

#[test]
fn entries_are_read(rt: HostRuntime) {
    let alloc = rt.alloc();
    let cases: [(u16, u16, &[Push]); 5] = [
        (0, 3, &PUSHES),
        (0, 1, &PUSHES[..1]),
        (1, 2, &PUSHES[1..]),
        (0, 0, &[]),
        (3, 0, &[]),
    ];
    for (first, count, pushes) in cases {
        assert!(rt; reads(alloc, first, count, pushes) == Some(true));
    }
}

/// Whether entries that aren't there are told to the store, by each of the two.
fn misreads(alloc: Global, store: &mut Store, catalogs: &Catalogs, first: u16, count: u16) -> bool {
    let read = entries_at(alloc, store, catalogs, first as u32, count as u32);
    let once = store.failures() == 1;
    let told = entries_told(alloc, store, catalogs.present(), first as u32, count as u32);
    once && store.failures() == 2
        && matches!(read, Err(StoreFault::Device))
        && matches!(told, Err(StoreFault::Device))
}

/// The same store, with an entry behind the three that is stored with this body.
fn filled_with(alloc: Global, body: &[u8]) -> Option<(Catalogs, Store)> {
    let (catalogs, mut store) = filled(alloc)?;
    let entry = Some((7, 3, body));
    commit_of(alloc, &mut store, &(&[], &[], &[], entry)).ok()?;
    Some((catalogs, store))
}

fn are_past_the_end(alloc: Global, first: u16, count: u16) -> Option<bool> {
    let (catalogs, mut store) = filled(alloc)?;
    Some(misreads(alloc, &mut store, &catalogs, first, count) && store.inner.failures() == 2)
}

/// Whether an entry that is stored without a body can neither be read nor told.
fn is_untold(alloc: Global) -> Option<bool> {
    let (catalogs, mut store) = filled_with(alloc, &[])?;
    Some(misreads(alloc, &mut store, &catalogs, 2, 2))
}

/// Whether an entry that is stored with this body isn't read, and that is told to the store.
fn is_unread(alloc: Global, body: &[u8]) -> Option<bool> {
    let (catalogs, mut store) = filled_with(alloc, body)?;
    let read = entries_at(alloc, &mut store, &catalogs, 2, 2);
    Some(matches!(read, Err(StoreFault::Device)) && store.failures() == 1)
}

/// Past the end, and an entry that is stored without a body. Then bodies of another kind, of no changeset, and of a changeset without its
/// kind.
#[test]
fn what_is_no_entry_is_misread(rt: HostRuntime) {
    let alloc = rt.alloc();
    let cases: [(u16, u16); 4] = [(0, 4), (2, 2), (3, 1), (7, 1)];
    for (first, count) in cases {
        assert!(rt; are_past_the_end(alloc, first, count) == Some(true));
    }
    assert!(rt; is_untold(alloc) == Some(true));
    let bodies: [&'static [u8]; 3] = [&[1], &[0, 0x50], &INSERT[1..8]];
    for body in bodies {
        assert!(rt; is_unread(alloc, body) == Some(true));
    }
}
