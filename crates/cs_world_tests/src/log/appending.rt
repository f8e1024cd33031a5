//! Entries that are appended: with their rows, without a change, and such that conflict, which is told by its kind.

use crate::given::{DELETE, DELETE_2, INSERT, NO_CHANGE, ROW_1, Store, Told, appends, filled, has};
use cs_conflict::Kind;
use cs_store::{RowStore, Written};
use std::alloc::Global;

/// One entry, its row, and the value of a hub.
const ONE_ENTRY: Written = Written {
    rows: 1,
    pending: 0,
    meta: 1,
    log: 1,
};

/// Whether the store is as the INSERT left it.
fn is_kept(store: &mut Store) -> bool {
    store.written() == ONE_ENTRY && has(store, 1, Some(ROW_1)) == Ok(true) && store.failures() == 0
}

/// Whether an entry behind the INSERT conflicts so, and changes nothing.
fn conflicts(alloc: Global, does: &'static [u8], kind: Kind) -> Option<bool> {
    let (mut catalogs, mut store) = filled(alloc)?;
    let told = appends(alloc, &mut store, &mut catalogs, (2, does))?;
    Some(told == Told::Conflict(kind) && is_kept(&mut store))
}

/// Whether an entry without a change is appended behind the INSERT.
fn takes_none(alloc: Global) -> Option<bool> {
    let (mut catalogs, mut store) = filled(alloc)?;
    let told = appends(alloc, &mut store, &mut catalogs, (2, NO_CHANGE))?;
    Some(told == Told::Done && has(&mut store, 2, Some(ROW_1)) == Ok(true))
}

/// A row that is there, the DELETE of it with another value, and that of one that isn't there.
const CONFLICTS: [(&'static [u8], Kind); 3] = [
    (INSERT, Kind::KeyConflict),
    (DELETE, Kind::DataDiffers),
    (DELETE_2, Kind::NotFound),
];

#[test]
fn entries_are_appended_or_change_nothing(rt: HostRuntime) {
    let alloc = rt.alloc();
    for (does, kind) in CONFLICTS {
        assert!(rt; conflicts(alloc, does, kind) == Some(true));
    }
    assert!(rt; takes_none(alloc) == Some(true));
}
