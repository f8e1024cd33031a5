//! Calls that the device refuses, one after another: each is told, leaves everything, and is made when it comes again.

use crate::given::*;
use cs_exchange::pulling::AnswerFault;
use cs_exchange::pushing::PushFault;
use cs_map_store::MapStore;
use cs_opening::OpenFault;
use cs_pending::EditFault;
use cs_replica::Told;
use cs_store::Trip;
use std::alloc::Global;

const EDIT: Edit = Edit::Insert(1, "v1");

const REQUEST: Parts = &[&PUSH_1, &H1, &INSERT, &K1, &V1];

/// Whether an edit is told to be refused, and is made then.
fn is_edited_again(alloc: Global, replica: &mut Seven) -> bool {
    make(alloc, replica, &EDIT) == Err(EditFault::Device)
        && is_at(replica, 0, 0)
        && make(alloc, replica, &EDIT) == Ok(())
        && is_at(replica, 0, 1)
}

/// Whether a push is.
fn is_pushed_again(alloc: Global, replica: &mut Seven) -> bool {
    make(alloc, replica, &EDIT) == Ok(())
        && pushes(alloc, replica, REQUEST) == Err(PushFault::Device)
        && is_at(replica, 0, 1)
        && pushes(alloc, replica, REQUEST) == Ok(true)
}

/// Whether its answer is.
fn is_confirmed_again(alloc: Global, replica: &mut Seven) -> bool {
    make(alloc, replica, &EDIT) == Ok(())
        && pushes(alloc, replica, REQUEST) == Ok(true)
        && accepted(alloc, replica) == Err(AnswerFault::Device(0))
        && is_at(replica, 0, 0)
        && accepted(alloc, replica) == Ok(Told::Confirmed(1))
        && is_at(replica, 1, 0)
}

/// A store is asked eleven times where it is laid out, three times by an edit, twice by a push and once by its answer. Whether the step is
/// refused where so many calls are passed on, and then made.
fn is_done_again(alloc: Global, passes: u64) -> bool {
    let Some(mut replica) = passing(alloc, passes) else {
        return false;
    };
    match passes {
        11..14 => is_edited_again(alloc, &mut replica),
        14..16 => is_pushed_again(alloc, &mut replica),
        _ => is_confirmed_again(alloc, &mut replica),
    }
}

#[test]
fn what_the_device_refuses_changes_nothing(rt: HostRuntime) {
    let alloc = rt.alloc();
    for passes in 11..17u64 {
        assert!(rt; is_done_again(alloc, passes));
    }
}

/// Whether a new store isn't opened, and then is laid out.
fn is_laid_out_again(alloc: Global, passes: u64) -> bool {
    match unopened(alloc, Trip::new(MapStore::new(alloc), passes)) {
        Some((store, fault)) => fault == OpenFault::Device && opened(alloc, store).is_some(),
        None => false,
    }
}

/// Whether a filled store isn't opened, and then opens as it was.
fn is_opened_again(alloc: Global, passes: u64) -> Option<bool> {
    let store = Trip::new(filled(alloc)?.inner, passes);
    let (store, fault) = unopened(alloc, store)?;
    let mut replica = opened(alloc, store)?;
    Some(fault == OpenFault::Device && shows_both(alloc, &mut replica))
}

/// A store is asked eleven times where it is laid out. A filled one is asked for its tables, a value of pending changes, whether it holds
/// nothing, for five values, and for three signs of damage. Then it is asked for the pending changes and the row of one, and the row and
/// the pending change of a place under way.
#[test]
fn what_the_device_refuses_is_not_opened(rt: HostRuntime) {
    let alloc = rt.alloc();
    for passes in 0..11u64 {
        assert!(rt; is_laid_out_again(alloc, passes));
    }
    for passes in 0..16u64 {
        assert!(rt; is_opened_again(alloc, passes).unwrap_or(false));
    }
}
