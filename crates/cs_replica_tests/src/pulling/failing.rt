//! A store that refuses one of the calls that a take makes: everything is as before, and the same take is made then.

use crate::given::*;
use cs_conflict::{Clash, Guard, Wish};
use cs_exchange::pulling::{AnswerFault, PullFault};
use cs_replica::Told;
use cs_store::{RowStore, Trip};
use cs_wire::Answer;
use std::alloc::Global;

/// What the log's rows are made by, the edits that are pushed, the edits that are made then, and an entry, that of an origin.
/// Besides, what is shown before and after it is taken.
struct Case {
    base: Parts,
    flown: &'static [Edit],
    edits: &'static [Edit],
    origin: u32,
    entry: Parts,
    before: Shown,
    after: Shown,
}

/// The replica over a store that refuses the call behind so many of those that opening doesn't make.
fn tripping(
    alloc: Global,
    base: &[&[u8]],
    flown: &[Edit],
    later: &[Edit],
    calls: u64,
) -> Option<Seven> {
    let replica = flying(alloc, base, flown, later)?;
    let trip = Trip::new(replica.close().inner, u64::MAX);
    let trip = opened(alloc, trip)?.close();
    let opening = u64::MAX - trip.passes?;
    opened(alloc, Trip::new(trip.inner, opening.saturating_add(calls)))
}

/// Takes the entry of a case, the own row first: whether it was taken, or else the device failed.
fn is_taken(alloc: Global, replica: &mut Seven, case: &Case) -> Option<bool> {
    let entry = entry(alloc, case.origin, case.entry)?;
    let mut kinds = [0; 6];
    let index = replica.version();
    match take(alloc, replica, index, &entry, &[Wish::Keep], &mut kinds) {
        Ok(()) => Some(true),
        Err(fault) if names(alloc, &fault, "Device") => Some(false),
        Err(_) => None,
    }
}

/// Whether everything is as before, and the entry of a case is then taken.
fn goes_on(alloc: Global, replica: &mut Seven, case: &Case) -> bool {
    let version = replica.version();
    keeps(alloc, replica, version, &case.before)
        && is_taken(alloc, replica, case) == Some(true)
        && keeps(alloc, replica, version.saturating_add(1), &case.after)
}

/// Whether the entry isn't taken where this call is refused, everything is as before then, and the same take is then made.
fn is_taken_again(alloc: Global, case: &Case, calls: u64) -> bool {
    let Some(mut replica) = tripping(alloc, case.base, case.flown, case.edits, calls) else {
        return false;
    };
    is_taken(alloc, &mut replica, case) == Some(false)
        && goes_on(alloc, &mut replica, case)
        && replica.close().failures() == 1
}

/// Whether a take makes so many calls and no more, and each that is refused changes nothing.
fn makes_calls(alloc: Global, case: &Case, count: u64) -> bool {
    for calls in 0..count {
        if !is_taken_again(alloc, case, calls) {
            return false;
        }
    }
    match tripping(alloc, case.base, case.flown, case.edits, count) {
        Some(mut replica) => is_taken(alloc, &mut replica, case) == Some(true),
        None => false,
    }
}

/// Another's entry over an own row, and beside it.
const OTHERS: Case = Case {
    base: &[&H1, &INSERT, &K2, &V1],
    flown: &[],
    edits: &[Edit::Insert(1, "v1")],
    origin: 9,
    entry: &[&H1, &INSERT, &K1, &V2, &UPDATE, &K2, &V1, &NONE, &V2],
    before: Shown {
        rows: &[&K1, &V1, &K2, &V1],
        pending: &[&H1, &INSERT, &K1, &V1],
        count: 1,
        flight: &[],
    },
    after: Shown {
        rows: &[&K1, &V1, &K2, &V2],
        pending: &[&H1, &UPDATE, &K1, &V2, &NONE, &V1],
        count: 1,
        flight: &[],
    },
};

/// Another's entry while a push is under way at another place, which was changed once more.
const WHILE_FLYING: Case = Case {
    base: &[],
    flown: &[Edit::Insert(1, "v1")],
    edits: &[Edit::Update(1, "v9")],
    origin: 9,
    entry: &[&H1, &INSERT, &K2, &V2],
    before: Shown {
        rows: &[&K1, &V9],
        pending: &[&H1, &UPDATE, &K1, &V1, &NONE, &V9],
        count: 1,
        flight: &[&H1, &INSERT, &K1, &V1],
    },
    after: Shown {
        rows: &[&K1, &V9, &K2, &V2],
        pending: &[&H1, &INSERT, &K1, &V9],
        count: 1,
        flight: &[],
    },
};

/// The own entry.
const OWN: Case = Case {
    base: &[],
    flown: &[Edit::Insert(1, "v1")],
    edits: &[Edit::Update(1, "v9")],
    origin: 7,
    entry: &[&H1, &INSERT, &K1, &V1],
    before: Shown {
        rows: &[&K1, &V9],
        pending: &[&H1, &UPDATE, &K1, &V1, &NONE, &V9],
        count: 1,
        flight: &[&H1, &INSERT, &K1, &V1],
    },
    after: Shown {
        rows: &[&K1, &V9],
        pending: &[&H1, &UPDATE, &K1, &V1, &NONE, &V9],
        count: 1,
        flight: &[],
    },
};

/// A take asks for the row and the pending change at each place of the entry and of what is under way, and commits once. That of the own
/// entry only commits.
#[test]
fn a_take_that_the_device_refuses_changes_nothing(rt: HostRuntime) {
    let alloc = rt.alloc();
    assert!(rt; makes_calls(alloc, &OTHERS, 5));
    assert!(rt; makes_calls(alloc, &WHILE_FLYING, 5));
    assert!(rt; makes_calls(alloc, &OWN, 1));
}

/// Two entries of another, of one row each, from version 0 on: the first over an own row, and beside it.
const TWO_FROM_0: [u8; 13] = [0x14, 0, 0, 0, 0, 0, 0, 0, 0, 0, 0, 0, 2];

const OF_22: [u8; 17] = [0, 0, 0, 0, 9, 0, 0, 0, 0, 0, 0, 0, 1, 0, 0, 0, 22];

const ENTRIES: Parts = &[
    &TWO_FROM_0,
    &OF_22,
    &H1,
    &INSERT,
    &K1,
    &V2,
    &OF_22,
    &H1,
    &INSERT,
    &K2,
    &V2,
];

/// The own edit under them.
const EDIT: &[Edit] = &[Edit::Insert(1, "v1")];

/// What is shown before them, behind the first and behind both.
const NONE_TAKEN: Shown = Shown {
    rows: &[&K1, &V1],
    pending: &[&H1, &INSERT, &K1, &V1],
    count: 1,
    flight: &[],
};

const ONE_TAKEN: Shown = Shown {
    rows: &[&K1, &V1],
    pending: &[&H1, &UPDATE, &K1, &V2, &NONE, &V1],
    count: 1,
    flight: &[],
};

const BOTH_TAKEN: Shown = Shown {
    rows: &[&K1, &V1, &K2, &V2],
    pending: &[&H1, &UPDATE, &K1, &V2, &NONE, &V1],
    count: 1,
    flight: &[],
};

/// What is told of the entries, the own row first; none where memory is refused to their bytes.
fn answer(alloc: Global, replica: &mut Seven) -> Option<Result<Told, AnswerFault>> {
    let bytes = joined(alloc, ENTRIES).ok()?;
    let answer = Answer::decode(bytes.as_slice()).ok()?;
    let mut guard = Guard::new(|_clash: &Clash<'_>| -> Wish { Wish::Keep });
    Some(replica.answer(alloc, &answer, &mut guard))
}

/// Whether this is.
fn is_told(alloc: Global, replica: &mut Seven, told: Result<Told, AnswerFault>) -> bool {
    answer(alloc, replica) == Some(told)
}

/// Whether so many entries were taken, and the same answer then takes the others.
fn goes_on_behind(
    alloc: Global,
    replica: &mut Seven,
    taken: u64,
    left: u64,
    shown: &Shown,
) -> bool {
    keeps(alloc, replica, taken, shown)
        && is_told(alloc, replica, Ok(Told::Taken(left)))
        && keeps(alloc, replica, 2, &BOTH_TAKEN)
}

/// Whether the answer ends where this call is refused, what was taken before that stays, and the same answer then takes the others.
fn is_answered_again(alloc: Global, calls: u64, taken: u64, left: u64, shown: &Shown) -> bool {
    let Some(mut replica) = tripping(alloc, &[], &[], EDIT, calls) else {
        return false;
    };
    is_told(alloc, &mut replica, Err(AnswerFault::Device(taken)))
        && goes_on_behind(alloc, &mut replica, taken, left, shown)
        && replica.close().failures() == 1
}

/// Each entry takes three calls.
#[test]
fn an_answer_that_the_device_refuses_keeps_what_was_taken(rt: HostRuntime) {
    let alloc = rt.alloc();
    for calls in 0..3u64 {
        assert!(rt; is_answered_again(alloc, calls, 0, 2, &NONE_TAKEN));
        assert!(rt; is_answered_again(alloc, calls + 3, 1, 1, &ONE_TAKEN));
    }
}

/// Takes the entry of a case; where memory is refused to that, whether everything is as before, and the same take is then made.
fn keeps_at_take(alloc: Global, case: &Case) -> Option<bool> {
    let mut replica = flying(alloc, case.base, case.flown, case.edits)?;
    let entry = entry(alloc, case.origin, case.entry)?;
    let mut kinds = [0; 6];
    match take(alloc, &mut replica, 1, &entry, &[Wish::Keep], &mut kinds) {
        Ok(()) => Some(true),
        Err(PullFault::Memory) => Some(goes_on(alloc, &mut replica, case)),
        Err(_) => Some(false),
    }
}

/// Takes the two entries; where memory is refused to that, whether so many as are told stay, and the others are then taken.
fn keeps_at_answer(alloc: Global) -> Option<bool> {
    let mut replica = flying(alloc, &[], &[], EDIT)?;
    match answer(alloc, &mut replica)? {
        Ok(told) => Some(told == Told::Taken(2)),
        Err(AnswerFault::Memory(0)) => {
            Some(goes_on_behind(alloc, &mut replica, 0, 2, &NONE_TAKEN))
        }
        Err(AnswerFault::Memory(1)) => Some(goes_on_behind(alloc, &mut replica, 1, 1, &ONE_TAKEN)),
        Err(_) => Some(false),
    }
}

/// Everything is as it was where memory is refused, or behind the entries that were taken, and the same call then goes on. Where it is
/// refused to what stands around the call, all is tried again.
#[test]
fn refused_memory_leaves_everything(rt: HostRuntime) {
    let alloc = rt.alloc();
    assert!(rt;
        keeps_at_take(alloc, &OTHERS).or_else(|| keeps_at_take(alloc, &OTHERS)) == Some(true)
    );
    assert!(rt; keeps_at_answer(alloc).or_else(|| keeps_at_answer(alloc)) == Some(true));
}
