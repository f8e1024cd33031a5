//! Entries that are told together, as one changeset: what is told of them, and what is shown then.

use crate::given::*;
use cs_conflict::{Clash, Guard, Wish};
use cs_exchange::pulling::AnswerFault;
use cs_replica::Told;
use cs_wire::Answer;
use std::alloc::Global;

/// What stands before a changeset of so many bytes that replica 7 or 8 is told, from a version up to another.
const ALL_22: [u8; 25] = [
    21, 0, 0, 0, 7, 0, 0, 0, 0, 0, 0, 0, 0, 0, 0, 0, 0, 0, 0, 0, 3, 0, 0, 0, 22,
];

const OTHERS_22: [u8; 25] = [
    21, 0, 0, 0, 8, 0, 0, 0, 0, 0, 0, 0, 0, 0, 0, 0, 0, 0, 0, 0, 3, 0, 0, 0, 22,
];

const ALL_0: [u8; 25] = [
    21, 0, 0, 0, 7, 0, 0, 0, 0, 0, 0, 0, 0, 0, 0, 0, 0, 0, 0, 0, 3, 0, 0, 0, 0,
];

const ALL_1: [u8; 25] = [
    21, 0, 0, 0, 7, 0, 0, 0, 0, 0, 0, 0, 0, 0, 0, 0, 0, 0, 0, 0, 3, 0, 0, 0, 1,
];

const NONE_1: [u8; 25] = [
    21, 0, 0, 0, 7, 0, 0, 0, 0, 0, 0, 0, 0, 0, 0, 0, 0, 0, 0, 0, 0, 0, 0, 0, 1,
];

const LATER_0: [u8; 25] = [
    21, 0, 0, 0, 7, 0, 0, 0, 0, 0, 0, 0, 1, 0, 0, 0, 0, 0, 0, 0, 3, 0, 0, 0, 0,
];

const BACK_0: [u8; 25] = [
    21, 0, 0, 0, 7, 0, 0, 0, 0, 0, 0, 0, 3, 0, 0, 0, 0, 0, 0, 0, 2, 0, 0, 0, 0,
];

/// Whether the replica is told so what these bytes say, each clash answered by the wish.
fn hears(
    alloc: Global,
    replica: &mut Seven,
    parts: &[&[u8]],
    wish: Wish,
    wanted: Result<Told, AnswerFault>,
) -> bool {
    let Ok(bytes) = joined(alloc, parts) else {
        return false;
    };
    let Ok(answer) = Answer::decode(bytes.as_slice()) else {
        return false;
    };
    let mut guard = Guard::new(move |_clash: &Clash<'_>| -> Wish { wish });
    replica.answer(alloc, &answer, &mut guard) == wanted
}

/// One row comes, at version 3.
const CAME: Shown = Shown {
    rows: &[&K2, &V2],
    pending: &[],
    count: 0,
    flight: &[],
};

/// Whether it comes once, and is ignored where it comes again, is for another replica, or begins at another version.
fn comes_once(alloc: Global) -> Option<bool> {
    let mut replica = flying(alloc, &[], &[], &[])?;
    let others = [&OTHERS_22[..], &H1, &INSERT, &K2, &V2];
    let all = [&ALL_22[..], &H1, &INSERT, &K2, &V2];
    let told = hears(alloc, &mut replica, &others, Wish::Stop, Ok(Told::Ignored))
        && hears(
            alloc,
            &mut replica,
            &[&LATER_0],
            Wish::Stop,
            Ok(Told::Ignored),
        )
        && is_at(&replica, 0, 0)
        && hears(alloc, &mut replica, &all, Wish::Stop, Ok(Told::Taken(3)))
        && keeps(alloc, &mut replica, 3, &CAME)
        && hears(alloc, &mut replica, &all, Wish::Stop, Ok(Told::Ignored));
    Some(told && keeps(alloc, &mut replica, 3, &CAME))
}

/// Whether a changeset without changes brings the version alone, and none are taken where there is no entry.
fn comes_empty(alloc: Global) -> Option<bool> {
    let mut replica = flying(alloc, &[], &[], &[Edit::Insert(1, "v1")])?;
    let none = [&NONE_1[..], &[9]];
    let told = hears(alloc, &mut replica, &none, Wish::Stop, Ok(Told::Taken(0)))
        && is_at(&replica, 0, 1)
        && hears(
            alloc,
            &mut replica,
            &[&ALL_0],
            Wish::Stop,
            Ok(Told::Taken(3)),
        );
    Some(told && keeps(alloc, &mut replica, 3, &OWN))
}

/// The own row alone.
const OWN: Shown = Shown {
    rows: &[&K1, &V1],
    pending: FIRST,
    count: 1,
    flight: &[],
};

/// Whether bytes that are no changeset are bad, and a version below that of the replica.
fn are_bad(alloc: Global) -> Option<bool> {
    let bad = Err(AnswerFault::BadEntry(0));
    let mut replica = flying(alloc, &[], &[], &[Edit::Insert(1, "v1")])?;
    let odd = [&ALL_1[..], &[9]];
    let told = hears(alloc, &mut replica, &odd, Wish::Stop, bad)
        && is_at(&replica, 0, 1)
        && hears(
            alloc,
            &mut replica,
            &[&ALL_0],
            Wish::Stop,
            Ok(Told::Taken(3)),
        )
        && hears(alloc, &mut replica, &[&BACK_0], Wish::Stop, bad);
    Some(told && keeps(alloc, &mut replica, 3, &OWN))
}

/// The own push is pending again, with the edit behind it, over the row that came.
const OVER: Shown = Shown {
    rows: &[&K1, &V1, &K2, &X],
    pending: &[&H1, &INSERT, &K1, &V1, &UPDATE, &K2, &V2, &NONE, &X],
    count: 2,
    flight: &[],
};

/// Whether a push that is under way becomes pending, beside the edit that was made then, which a clash keeps. Or nothing changes, where
/// the picker stops.
fn comes_behind_a_push(alloc: Global, wish: Wish, wanted: Told) -> Option<bool> {
    let mut replica = flying(
        alloc,
        &[],
        &[Edit::Insert(1, "v1")],
        &[Edit::Insert(2, "x")],
    )?;
    let all = [&ALL_22[..], &H1, &INSERT, &K2, &V2];
    let stops = wish == Wish::Stop;
    let told = hears(alloc, &mut replica, &all, wish, Ok(wanted));
    Some(
        told && if stops {
            shows_both(alloc, &mut replica)
        } else {
            keeps(alloc, &mut replica, 3, &OVER)
        },
    )
}

/// Whether a changeset that begins at one version and leads to another is taken at version 1, or refused so.
fn is_merged(alloc: Global, first: u64, next: u64, name: &str) -> Option<bool> {
    let mut replica = flying(alloc, &[&H1, &INSERT, &K1, &V1], &[], &[])?;
    let bytes = joined(alloc, &[&H1, &UPDATE, &K1, &V1, &NONE, &V2]).ok()?;
    let changes = normal_of(alloc, bytes.as_slice())?;
    let mut guard = Guard::new(|_clash: &Clash<'_>| -> Wish { Wish::Stop });
    Some(
        match replica.take_merged(alloc, first, next, &changes, &mut guard) {
            Ok(()) => name.is_empty() && is_at(&replica, next, 0),
            Err(fault) => names(alloc, &fault, name) && is_at(&replica, 1, 0),
        },
    )
}

#[test]
fn a_changeset_is_taken_at_once(rt: HostRuntime) {
    let alloc = rt.alloc();
    assert!(rt; is_merged(alloc, 1, 5, "").unwrap_or(false));
    assert!(rt; is_merged(alloc, 0, 5, "Behind").unwrap_or(false));
    assert!(rt; is_merged(alloc, 2, 5, "Gap").unwrap_or(false));
    assert!(rt; is_merged(alloc, 1, 1, "BadEntry").unwrap_or(false));
}

#[test]
fn entries_come_together(rt: HostRuntime) {
    let alloc = rt.alloc();
    assert!(rt; comes_once(alloc).unwrap_or(false));
    assert!(rt; comes_empty(alloc).unwrap_or(false));
    assert!(rt; are_bad(alloc).unwrap_or(false));
    assert!(rt; comes_behind_a_push(alloc, Wish::Keep, Told::Taken(3)).unwrap_or(false));
    assert!(rt; comes_behind_a_push(alloc, Wish::Stop, Told::Stopped(0)).unwrap_or(false));
}
