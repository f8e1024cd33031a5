//! Events that are made at once.

use cs_exchange::pushing::PushFault;
use cs_store_cases::catalog;
use cs_world::{Event, Outcome, World};
use std::alloc::Global;

/// Whether events that are made at once come to this, one behind another, and a replica that isn't there has no rows.
fn runs(alloc: Global) -> Option<bool> {
    let catalog = catalog(alloc)?;
    let mut world = World::in_memory(alloc, &catalog, 1).ok()?;
    let events = [
        Event::MakePush { replica: 0 },
        Event::AskPull {
            replica: 0,
            limit: 10,
        },
        Event::Restart { replica: 1 },
    ];
    let outcomes = world.run(&events).ok()?;
    let wanted = [
        Outcome::NotPushed(PushFault::Nothing),
        Outcome::Sent(0),
        Outcome::NoReplica,
    ];
    let none = world.rows(1, 0).ok()?;
    Some(outcomes.as_slice() == wanted.as_slice() && none.is_empty())
}

#[test]
fn events_are_made_at_once(rt: HostRuntime) {
    assert!(rt; runs(rt.alloc()) == Some(true));
}
