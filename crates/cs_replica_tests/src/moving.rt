//! A store that keeps what is pending as one value. Where the device refuses a call, the value stays and nothing is written. The same
//! opening then moves it to the places of its changes, in one commit.

use crate::given::*;
use cs_opening::OpenFault;
use cs_store::edits::{PlaceEdit, PlaceEdits};
use cs_store::{Batch, MetaEdit, MetaName, RowStore, StoreFault, Trip, Written};
use std::alloc::Global;

/// The INSERT of (2, 'x'), as a changeset.
const VALUE: Parts = &[&H1, &INSERT, &K2, &X];

/// Takes the pending change of key 2 away, and makes it the value.
fn put_value(alloc: Global, store: &mut Store) -> Result<(), StoreFault> {
    let mut pending = PlaceEdits::new(alloc);
    pending.push(&PlaceEdit::new(0, &K2, None))?;
    let value = Some(joined(alloc, VALUE)?);
    let mut meta = Vec::new(alloc);
    let name = MetaName::Pending;
    meta.push(MetaEdit { name, value })?;
    store.commit(&Batch {
        rows: PlaceEdits::new(alloc),
        pending,
        meta,
        log: None,
    })
}

/// The store of a replica that shows (1, 'v1'), which is pushed, and (2, 'x') by the value, which refuses the call behind so many.
fn kept(alloc: Global, passes: u64) -> Option<Store> {
    let mut store = filled(alloc)?;
    put_value(alloc, &mut store).ok()?;
    Some(Trip {
        inner: store.inner,
        passes: Some(passes),
        wrote: store.wrote,
    })
}

/// Whether a store wrote so many edits of pending changes and of values, and has the value or none.
fn wrote(alloc: Global, store: &mut Store, pending: u64, meta: u64, has_value: bool) -> bool {
    let counts = Written {
        rows: 2,
        pending,
        meta,
        log: 0,
    };
    let found = match store.meta(MetaName::Pending) {
        Ok(Some(value)) => has_value && are(alloc, value.as_slice(), VALUE),
        Ok(None) => !has_value,
        Err(_) => false,
    };
    found && store.written() == counts
}

/// Whether a store is opened, shows both rows, and wrote one edit of pending changes more, and one of values.
fn is_moved(alloc: Global, store: Store) -> Option<bool> {
    let mut replica = opened(alloc, store)?;
    let shown = shows_both(alloc, &mut replica);
    Some(shown && wrote(alloc, &mut replica.close(), 5, 8, false))
}

/// Whether a call that is refused behind so many leaves the value, and the same opening then moves it.
fn is_moved_again(alloc: Global, passes: u64) -> Option<bool> {
    let (mut store, fault) = unopened(alloc, kept(alloc, passes)?)?;
    let stays = fault == OpenFault::Device && wrote(alloc, &mut store, 4, 7, true);
    Some(stays && is_moved(alloc, store)?)
}

/// Whether no call is refused where so many pass.
fn is_moved_at_once(alloc: Global, passes: u64) -> Option<bool> {
    Some(opened(alloc, kept(alloc, passes)?).is_some())
}

/// A store is asked fourteen times: for its tables, its id and the value, for two signs of damage, and for six values. It is asked for
/// the rows and pending changes of the table, which are copied, and for the commit.
#[test]
fn a_value_stays_where_the_device_refuses(rt: HostRuntime) {
    let alloc = rt.alloc();
    for passes in 0..14u64 {
        assert!(rt; is_moved_again(alloc, passes).unwrap_or(false));
    }
    assert!(rt; is_moved_at_once(alloc, 14).unwrap_or(false));
}
