//! Pickers over closures as callers write them, each used through `take`. The tests show what they are told of each clash, what is told
//! where they stop, and what their answers leave.

use crate::choosing::{take_always, take_own_first};
use crate::given::*;
use cs_change::Change;
use cs_conflict::{Clash, ConflictBuf, Guard, Kind, Wish};
use cs_exchange::pulling::PullFault;
use cs_record::Row;
use cs_store::log::LogEntry;
use std::alloc::Global;

/// A row that both sides insert, and one that the own side takes away and the other changes.
const BASE: Parts = &[&H1, &INSERT, &K2, &V1];

const EDITS: &[Edit] = &[Edit::Insert(1, "v1"), Edit::Delete(2)];

const ENTRY: Parts = &[&H1, &INSERT, &K1, &V2, &UPDATE, &K2, &V1, &NONE, &V2];

/// What is shown before, after the own rows came first, and after the other's changes did where they could.
const BEFORE: Shown = Shown {
    rows: &[&K1, &V1],
    pending: &[&H1, &INSERT, &K1, &V1, &DELETE, &K2, &V1],
    count: 2,
    flight: &[],
};

const OWN: Shown = Shown {
    rows: &[&K1, &V1],
    pending: &[&H1, &UPDATE, &K1, &V2, &NONE, &V1, &DELETE, &K2, &V2],
    count: 2,
    flight: &[],
};

const OTHERS: Shown = Shown {
    rows: &[&K1, &V2],
    pending: &[&H1, &DELETE, &K2, &V2],
    count: 1,
    flight: &[],
};

/// Whether a chooser is asked twice, and the own rows stay.
fn is_chosen(alloc: Global) -> Option<bool> {
    let mut replica = flying(alloc, BASE, &[], EDITS)?;
    let entry = entry(alloc, 9, ENTRY)?;
    let mut asked = 0;
    let taken = take_own_first(alloc, &mut replica, 1, &entry, &mut asked).is_ok() && asked == 2;
    Some(taken && keeps(alloc, &mut replica, 2, &OWN))
}

/// Whether a guard whose closure always answers so takes the entry, or stops where that is its answer, and leaves this.
fn is_guarded(alloc: Global, wish: Wish, version: u64, shown: &Shown) -> Option<bool> {
    let mut replica = flying(alloc, BASE, &[], EDITS)?;
    let entry = entry(alloc, 9, ENTRY)?;
    let told = match take_always(alloc, &mut replica, 1, &entry, wish) {
        Ok(()) => wish != Wish::Stop,
        Err(fault) => wish == Wish::Stop && names(alloc, &fault, "Stopped"),
    };
    Some(told && keeps(alloc, &mut replica, version, shown))
}

#[test]
fn closures_pick(rt: HostRuntime) {
    let alloc = rt.alloc();
    assert!(rt; is_chosen(alloc).unwrap_or(false));
    assert!(rt; is_guarded(alloc, Wish::Keep, 2, &OWN).unwrap_or(false));
    assert!(rt; is_guarded(alloc, Wish::Take, 2, &OTHERS).unwrap_or(false));
    assert!(rt; is_guarded(alloc, Wish::Stop, 1, &BEFORE).unwrap_or(false));
}

/// Whether the own change is shown beside the conflict, not indirect.
fn is_shown(alloc: Global, clash: &Clash<'_>) -> bool {
    match (clash.conflict.kind, &clash.local) {
        (Kind::KeyConflict, Change::Insert { flag, new_row }) => {
            !*flag && are(alloc, new_row.bytes(), &[&K1, &V1])
        }
        (Kind::NotFound, Change::Delete { flag, old_row }) => {
            !*flag && are(alloc, old_row.bytes(), &[&K2, &V1])
        }
        _ => false,
    }
}

/// Takes an entry, and counts how often the own change was shown.
fn look(
    alloc: Global,
    replica: &mut Seven,
    entry: &LogEntry,
    seen: &mut u64,
) -> Result<(), PullFault> {
    let mut guard = Guard::new(|clash: &Clash<'_>| -> Wish {
        if is_shown(alloc, clash) {
            *seen = seen.saturating_add(1);
        }
        Wish::Keep
    });
    replica.take(alloc, 1, entry, &mut guard)
}

fn are_seen(alloc: Global) -> Option<bool> {
    let mut replica = flying(alloc, BASE, &[], EDITS)?;
    let entry = entry(alloc, 9, ENTRY)?;
    let mut seen = 0;
    Some(look(alloc, &mut replica, &entry, &mut seen).is_ok() && seen == 2)
}

#[test]
fn the_own_change_is_shown(rt: HostRuntime) {
    assert!(rt; are_seen(rt.alloc()).unwrap_or(false));
}

/// The integers 4, 5 and 6.
const K4: [u8; 9] = [1, 0, 0, 0, 0, 0, 0, 0, 4];

const K5: [u8; 9] = [1, 0, 0, 0, 0, 0, 0, 0, 5];

const K6: [u8; 9] = [1, 0, 0, 0, 0, 0, 0, 0, 6];

/// Rows of the log, of which the last is taken away by a push under way; and at each key an own change and another's.
const FIVE: Parts = &[
    &H1, &INSERT, &K2, &V1, &INSERT, &K3, &V1, &INSERT, &K4, &V1, &INSERT, &K5, &V1, &INSERT, &K6,
    &V1,
];

const OWN_SIX: &[Edit] = &[
    Edit::Insert(1, "v1"),
    Edit::Update(2, "v9"),
    Edit::Delete(3),
    Edit::Delete(4),
    Edit::Update(5, "v9"),
    Edit::Insert(6, "v9"),
];

const OTHER_SIX: Parts = &[
    &H1, &INSERT, &K1, &V2, &UPDATE, &K2, &V1, &NONE, &V2, &UPDATE, &K3, &V1, &NONE, &V2, &DELETE,
    &K4, &V1, &DELETE, &K5, &V1, &UPDATE, &K6, &V1, &NONE, &V2,
];

/// What is left where each own change is kept.
const SIX_KEPT: Shown = Shown {
    rows: &[&K1, &V1, &K2, &V9, &K5, &V9, &K6, &V9],
    pending: &[
        &H1, &UPDATE, &K1, &V2, &NONE, &V1, &UPDATE, &K2, &V2, &NONE, &V9, &DELETE, &K3, &V2,
        &INSERT, &K5, &V9, &UPDATE, &K6, &V2, &NONE, &V9,
    ],
    count: 5,
    flight: &[],
};

/// Whether each pair of changes is the conflict that it has to be. They are an INSERT of a row that is there, and an UPDATE of one with
/// other values or of none. Then come a DELETE of none or of one with other values, and an UPDATE of one that went and came again.
fn six_clash(alloc: Global) -> Option<bool> {
    let mut replica = flying(alloc, FIVE, &[Edit::Delete(6)], OWN_SIX)?;
    let kinds = [3, 1, 2, 2, 1, 1];
    let taken = takes(alloc, &mut replica, OTHER_SIX, &[Wish::Keep; 6], &kinds);
    Some(taken && keeps(alloc, &mut replica, 2, &SIX_KEPT))
}

#[test]
fn clashes_have_their_kinds(rt: HostRuntime) {
    assert!(rt; six_clash(rt.alloc()).unwrap_or(false));
}

/// Whether the change is the INSERT of a row.
fn is_insert(alloc: Global, change: &Change<'_>, parts: &[&[u8]]) -> bool {
    match change {
        Change::Insert { new_row, .. } => are(alloc, new_row.bytes(), parts),
        _ => false,
    }
}

fn is_row(alloc: Global, row: Option<&Row<'_>>, parts: &[&[u8]]) -> bool {
    match row {
        Some(row) => are(alloc, row.bytes(), parts),
        None => false,
    }
}

/// Whether this is the conflict of the INSERT of (3, 'v2') with the row (3, 'x').
fn is_third(alloc: Global, stop: &ConflictBuf) -> bool {
    let conflict = stop.as_conflict();
    conflict.kind == Kind::KeyConflict
        && conflict.table == 0
        && is_insert(alloc, &conflict.change, &[&K3, &V2])
        && is_row(alloc, conflict.row.as_ref(), &[&K3, &X])
}

/// Three rows that both sides insert.
const THREE: &[Edit] = &[
    Edit::Insert(1, "x"),
    Edit::Insert(2, "x"),
    Edit::Insert(3, "x"),
];

const OTHER_THREE: Parts = &[&H1, &INSERT, &K1, &V2, &INSERT, &K2, &V2, &INSERT, &K3, &V2];

/// Whether the picker is asked three times, and the third conflict is told where it stops.
fn stops_at_third(alloc: Global) -> Option<bool> {
    let mut replica = flying(alloc, &[], &[], THREE)?;
    let entry = entry(alloc, 9, OTHER_THREE)?;
    let mut kinds = [0; 6];
    let wishes = [Wish::Keep, Wish::Take, Wish::Stop];
    match take(alloc, &mut replica, 0, &entry, &wishes, &mut kinds) {
        Err(PullFault::Stopped(stop)) => {
            Some(kinds == [3, 3, 3, 0, 0, 0] && is_third(alloc, &stop))
        }
        _ => None,
    }
}

#[test]
fn the_conflict_is_told_where_a_picker_stops(rt: HostRuntime) {
    assert!(rt; stops_at_third(rt.alloc()).unwrap_or(false));
}
