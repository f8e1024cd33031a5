//! Each call of a replica, its answer, and what it shows then; and how much its store is written.

use crate::given::*;
use cs_map_store::MapStore;
use cs_pending::EditFault;
use cs_replica::{Replica, Told};
use cs_store::log::LogEntry;
use cs_store::{RowStore, Written};
use cs_value::{Field, Value};
use std::alloc::Global;

/// Whether rows are inserted, updated and deleted, and none gets another key.
fn is_edited<S: RowStore>(alloc: Global, replica: &mut Replica<S>) -> bool {
    let made = [
        Edit::Insert(1, "x"),
        Edit::Insert(2, "x"),
        Edit::Update(1, "v1"),
        Edit::Delete(2),
    ];
    edits(alloc, replica, &made)
        && update(alloc, replica, 1, Field::Is(Value::Int(1)), "x") == Err(EditFault::KeyColumn)
        && is_at(replica, 0, 1)
}

/// Whether the entry is the first push.
fn is_first(alloc: Global, entry: &LogEntry) -> bool {
    let Some(changes) = entry.body.changes() else {
        return false;
    };
    entry.origin == 7 && entry.number == 1 && spells(alloc, changes, FIRST)
}

fn would_be_first<S: RowStore>(alloc: Global, replica: &Replica<S>) -> bool {
    match replica.flight_entry(alloc) {
        Ok(Some(entry)) => is_first(alloc, &entry),
        _ => false,
    }
}

const REQUEST: Parts = &[&PUSH_1, &H1, &INSERT, &K1, &V1];

/// Whether the push is made, given again, and would be the first entry.
fn is_pushed<S: RowStore>(alloc: Global, replica: &mut Replica<S>) -> bool {
    pushes(alloc, replica, REQUEST) == Ok(true)
        && resends(alloc, replica, REQUEST) == Ok(true)
        && would_be_first(alloc, replica)
}

/// Behind another's entry at version 1.
const BEHIND: Shown = Shown {
    rows: &[&K1, &V1, &K2, &V2],
    pending: &[],
    count: 0,
    flight: &[],
};

/// Whether the push is confirmed, and another's entry taken behind it.
fn is_told<S: RowStore>(alloc: Global, replica: &mut Replica<S>) -> bool {
    accepted(alloc, replica) == Ok(Told::Confirmed(1))
        && is_at(replica, 1, 0)
        && takes(alloc, replica, &[&H1, &INSERT, &K2, &V2], &[], &[0; 6])
        && keeps(alloc, replica, 2, &BEHIND)
}

/// Whether a replica over a new store lives so, and its store opens as it was left.
fn lives<S: RowStore + Drop>(alloc: Global, store: S) -> Option<bool> {
    let mut replica = opened(alloc, store)?;
    let told = is_edited(alloc, &mut replica)
        && is_pushed(alloc, &mut replica)
        && is_told(alloc, &mut replica);
    let mut again = opened(alloc, replica.close())?;
    Some(told && shows(alloc, &mut again, 2, &BEHIND))
}

#[test]
fn a_replica_is_edited_pushed_and_told(rt: HostRuntime) {
    let alloc = rt.alloc();
    assert!(rt; lives(alloc, MapStore::new(alloc)).unwrap_or(false));
}

/// Two rows, three edits of pending changes, and the values are written; to open it again and to read it again writes nothing.
const WROTE: Written = Written {
    rows: 2,
    pending: 3,
    meta: 6,
    log: 0,
};

fn writes_once(alloc: Global) -> Option<bool> {
    let store = filled(alloc)?;
    let wrote = store.written() == WROTE;
    let mut replica = opened(alloc, store)?;
    let shown = shows_both(alloc, &mut replica)
        && replica.reload(alloc) == Ok(())
        && shows_both(alloc, &mut replica);
    Some(wrote && shown && replica.close().written() == WROTE)
}

#[test]
fn a_store_is_written_by_edits_and_pushes(rt: HostRuntime) {
    assert!(rt; writes_once(rt.alloc()).unwrap_or(false));
}
