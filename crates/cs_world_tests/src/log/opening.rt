//! A store that is opened as a hub's. It is laid out where it held nothing, or is as it was left, another's, or damaged in each of
//! its parts.

use crate::given::{INSERT, KEY, ROW_1, bare, opened, opens};
use cs_opening::OpenFault;
use cs_store::{MetaName, RowStore, StoreFault, Written};
use cs_store_cases::{Spelled, commit_of};
use std::alloc::Global;

/// The one value of a hub.
const LAID_OUT: Written = Written {
    rows: 0,
    pending: 0,
    meta: 1,
    log: 0,
};

/// Whether a store that was laid out has the tables' value and nothing but that, and opens again so.
fn opens_again(alloc: Global) -> Option<bool> {
    let (catalogs, mut store) = opened(alloc)?;
    let again = opens(alloc, &mut store, catalogs.opening());
    let tables = store.meta(MetaName::Catalog).ok()??;
    Some(
        again == Ok(0)
            && tables.as_slice() == &INSERT[1..8]
            && store.written() == LAID_OUT
            && store.failures() == 0,
    )
}

/// What is told of a store that was laid out, and in which this was written then. It is only read.
fn told_with(alloc: Global, written: &Spelled<'_>) -> Option<OpenFault> {
    let (catalogs, mut store) = opened(alloc)?;
    commit_of(alloc, &mut store, written).ok()?;
    let before = store.written();
    let told = opens(alloc, &mut store, catalogs.opening());
    if store.written() != before || store.failures() != 0 {
        return None;
    }
    told.err()
}

/// The INSERT of (1, 'v1'), as it is pending.
const CHANGE: &[u8] = &[18, 0, 1, 0, 0, 0, 0, 0, 0, 0, 1, 3, 2, 0x76, 0x31];

/// A replica's id, bytes that are no tables, an entry that is none, a row of no table, and a pending change.
const FOUND: [(Spelled<'static>, OpenFault); 5] = [
    (
        (&[], &[], &[(MetaName::Id, Some(&[0, 0, 0, 7]))], None),
        OpenFault::Mismatch,
    ),
    (
        (&[], &[], &[(MetaName::Catalog, Some(&[0x50]))], None),
        OpenFault::Damaged,
    ),
    ((&[], &[], &[], Some((7, 1, &[1]))), OpenFault::Damaged),
    (
        (&[(1, KEY, Some(ROW_1))], &[], &[], None),
        OpenFault::Damaged,
    ),
    (
        (&[], &[(0, KEY, Some(CHANGE))], &[], None),
        OpenFault::Damaged,
    ),
];

#[test]
fn a_store_is_opened_as_what_it_holds(rt: HostRuntime) {
    let alloc = rt.alloc();
    assert!(rt; opens_again(alloc) == Some(true));
    for (written, fault) in &FOUND {
        assert!(rt; told_with(alloc, written) == Some(*fault));
    }
}
