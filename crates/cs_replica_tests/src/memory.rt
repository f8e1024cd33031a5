//! Memory that is refused, at opening, edits, a push and its answer: it is told, leaves everything, and the same call is then made.

use crate::given::*;
use cs_exchange::pulling::AnswerFault;
use cs_exchange::pushing::PushFault;
use cs_map_store::MapStore;
use cs_opening::OpenFault;
use cs_pending::EditFault;
use cs_replica::{Replica, Told};
use cs_store::Trip;
use cs_store_cases::catalog;
use std::alloc::Global;

/// The replica over a store, whose first opening may be refused for memory.
fn opens_at_last(alloc: Global, store: Store) -> Option<Seven> {
    let catalog = catalog(alloc)?;
    match Replica::open(alloc, store, &catalog, 7) {
        Ok(replica) => Some(replica),
        Err((store, OpenFault::Memory)) => opened(alloc, store),
        Err(_) => None,
    }
}

/// Whether an edit is made, the first time or, where memory was refused, the second.
fn is_made_at_last(alloc: Global, replica: &mut Seven, edit: &Edit) -> bool {
    let before = replica.pending_len();
    match make(alloc, replica, edit) {
        Ok(()) => true,
        Err(EditFault::Memory) => {
            replica.pending_len() == before && make(alloc, replica, edit) == Ok(())
        }
        Err(_) => false,
    }
}

/// Whether a push is made so.
fn pushes_at_last(alloc: Global, replica: &mut Seven) -> bool {
    match replica.make_push(alloc) {
        Ok(_) => true,
        Err(PushFault::Memory) => {
            is_at(replica, 0, 1)
                && replica.in_flight().is_none()
                && replica.make_push(alloc).is_ok()
        }
        Err(_) => false,
    }
}

/// Whether its answer is taken so.
fn confirms_at_last(alloc: Global, replica: &mut Seven) -> bool {
    match accepted(alloc, replica) {
        Err(AnswerFault::Memory(0)) => {
            is_at(replica, 0, 1) && accepted(alloc, replica) == Ok(Told::Confirmed(1))
        }
        told => told == Ok(Told::Confirmed(1)),
    }
}

/// Whether a replica shows what it owes; where memory is refused to the looking, at the second look.
fn shows_at_last(alloc: Global, replica: &mut Seven) -> bool {
    shows_both(alloc, replica) || shows_both(alloc, replica)
}

/// A replica that is opened, edited, pushed, edited, opened again and told of its push.
fn lives(alloc: Global) -> Option<bool> {
    let mut replica = opens_at_last(alloc, Trip::new(MapStore::new(alloc), u64::MAX))?;
    let edited = is_made_at_last(alloc, &mut replica, &Edit::Insert(1, "v1"))
        && pushes_at_last(alloc, &mut replica)
        && is_made_at_last(alloc, &mut replica, &Edit::Insert(2, "x"));
    let mut again = opens_at_last(alloc, replica.close())?;
    Some(
        edited
            && shows_at_last(alloc, &mut again)
            && confirms_at_last(alloc, &mut again)
            && is_at(&again, 1, 1),
    )
}

/// `bench/refuse_tests.sh` refuses each allocation in turn here; where it is refused to what stands around the calls, all is tried
/// again.
#[test]
fn refused_memory_leaves_everything(rt: HostRuntime) {
    let alloc = rt.alloc();
    assert!(rt; lives(alloc).or_else(|| lives(alloc)) == Some(true));
}
