//! Events that are made once more where they were refused.

use cs_conflict::Wish;
use cs_exchange::pulling::AnswerFault;
use cs_exchange::pushing::PushFault;
use cs_opening::OpenFault;
use cs_pending::EditFault;
use cs_replica::Told;
use cs_script::read_event;
use cs_store::{RowStore, StoreFault};
use cs_value::{Catalog, Memory};
use cs_world::{Event, Outcome, WishList, World};
use std::alloc::Global;

/// Two replicas that clash, each of which keeps its own, an entry that is deleted, and both read their stores again. What is sent is
/// delivered at once, and so is the answer.
const LINES: &[&str] = &[
    "edit 0 insert t1 1 t=a",
    "edit 1 insert t1 1 t=b",
    "edit 1 insert t1 2 t=c",
    "push 0",
    "push 1",
    "pull 1 10",
    "push 1",
    "edit 0 update t1 1 t=d",
    "pull 0 10",
    "push 0",
    "restart 1",
    "pull 1 10",
    "edit 1 delete t1 2",
    "push 1",
    "restart 0",
    "pull 0 10",
];

/// The one row that all have then: (1, 'd').
const AT_REST: &[u8] = &[1, 0, 0, 0, 0, 0, 0, 0, 1, 3, 1, 0x64];

/// Whether this says that memory was refused, or that a device failed.
fn is_refused(outcome: Outcome) -> bool {
    match outcome {
        Outcome::Memory
        | Outcome::NotEdited(EditFault::Memory | EditFault::Device)
        | Outcome::NotPushed(PushFault::Memory | PushFault::Device)
        | Outcome::NotHeard(AnswerFault::Memory(_) | AnswerFault::Device(_))
        | Outcome::NotReloaded(OpenFault::Memory | OpenFault::Device) => true,
        Outcome::Heard(Told::Refused(code)) => code == 44,
        _ => false,
    }
}

/// A message that reaches whom it is for, who keeps his own at a clash.
fn delivery(alloc: Global, message: usize) -> Result<Event, Memory> {
    let wishes = Vec::from_slice(alloc, &[Wish::Keep])?;
    Ok(Event::Deliver {
        message,
        wishes: WishList::from_vec(wishes),
    })
}

/// What comes of an event once what it sends was delivered, and the answer to that.
fn comes_to<S: RowStore>(alloc: Global, world: &mut World<S>, event: &Event) -> Outcome {
    let mut outcome = world.step(event);
    for _ in 0..2 {
        let Outcome::Sent(message) = outcome else {
            return outcome;
        };
        let Ok(next) = delivery(alloc, message) else {
            return Outcome::Memory;
        };
        outcome = world.step(&next);
    }
    outcome
}

/// The same once more: the push that is under way, where one is.
fn comes_again<S: RowStore>(alloc: Global, world: &mut World<S>, event: &Event) -> Outcome {
    if let Event::MakePush { replica } = event {
        let resent = comes_to(alloc, world, &Event::Resend { replica: *replica });
        if resent != Outcome::NotPushed(PushFault::Nothing) {
            return resent;
        }
    }
    comes_to(alloc, world, event)
}

/// What comes of a line, for the first time or once more.
fn line_comes_to<S: RowStore>(
    alloc: Global,
    catalog: &Catalog,
    world: &mut World<S>,
    line: &str,
    again: bool,
) -> Outcome {
    match read_event(alloc, catalog, line.as_bytes()) {
        Ok(Some(event)) if again => comes_again(alloc, world, &event),
        Ok(Some(event)) => comes_to(alloc, world, &event),
        _ => Outcome::Memory,
    }
}

/// How many lines were refused, each of which wasn't when it was made once more; none where one was.
fn refusals<S: RowStore>(alloc: Global, catalog: &Catalog, world: &mut World<S>) -> Option<usize> {
    let mut refused = 0usize;
    for line in LINES {
        if is_refused(line_comes_to(alloc, catalog, world, *line, false)) {
            refused = refused.saturating_add(1);
            if is_refused(line_comes_to(alloc, catalog, world, *line, true)) {
                return None;
            }
        }
    }
    Some(refused)
}

/// Whether a replica, or the hub, has the row that all have at the end, and no other.
fn has_row<S: RowStore>(world: &mut World<S>, whose: Option<usize>) -> Result<bool, StoreFault> {
    let rows = match whose {
        Some(replica) => world.rows(replica, 0)?,
        None => world.hub_rows(0)?,
    };
    Ok(match rows.as_slice() {
        [(_, row)] => row.as_row().bytes() == AT_REST,
        _ => false,
    })
}

/// The same. Where the rows aren't listed, they are asked for once more.
fn is_at_rest<S: RowStore>(world: &mut World<S>, whose: Option<usize>) -> bool {
    match has_row(world, whose) {
        Ok(has) => has,
        Err(_) => has_row(world, whose) == Ok(true),
    }
}

/// How many lines were refused, where each was made in the end and all have the same rows then.
pub(crate) fn refused_in<S: RowStore>(
    alloc: Global,
    catalog: &Catalog,
    world: &mut World<S>,
) -> Option<usize> {
    let refused = refusals(alloc, catalog, world)?;
    for whose in [None, Some(0), Some(1)] {
        if !is_at_rest(world, whose) {
            return None;
        }
    }
    Some(refused)
}
