//! What an edit and a take write, where much is pending.

use crate::given::*;
use cs_conflict::Wish;
use cs_store::Written;
use std::alloc::Global;

/// An entry with the wishes at its clashes and the numbers of their kinds, and what had been written then.
struct Write {
    entry: Parts,
    wishes: &'static [Wish],
    kinds: Kinds,
    written: Written,
}

/// Three rows of the log, two of them changed.
const BASE: Parts = &[&H1, &INSERT, &K1, &V1, &INSERT, &K2, &V1, &INSERT, &K3, &V1];

const CHANGED: &[Edit] = &[Edit::Update(1, "v9"), Edit::Update(2, "v9")];

/// Behind those and a thousand edits more: entries whose place has no own change, one that is kept, and one that goes.
const WRITES: [Write; 3] = [
    Write {
        entry: &[&H1, &UPDATE, &K3, &V1, &NONE, &V2],
        wishes: &[],
        kinds: [0; 6],
        written: Written {
            rows: 1007,
            pending: 1003,
            meta: 8,
            log: 0,
        },
    },
    Write {
        entry: &[&H1, &UPDATE, &K1, &V1, &NONE, &V2],
        wishes: &[Wish::Keep],
        kinds: [1, 0, 0, 0, 0, 0],
        written: Written {
            rows: 1007,
            pending: 1004,
            meta: 10,
            log: 0,
        },
    },
    Write {
        entry: &[&H1, &UPDATE, &K2, &V1, &NONE, &V2],
        wishes: &[Wish::Take],
        kinds: [1, 0, 0, 0, 0, 0],
        written: Written {
            rows: 1008,
            pending: 1005,
            meta: 12,
            log: 0,
        },
    },
];

/// What the edit behind the thousand has written.
const EDITED: Written = Written {
    rows: 1006,
    pending: 1003,
    meta: 6,
    log: 0,
};

/// Inserts a thousand rows and one.
fn inserts_thousand(alloc: Global, replica: &mut Seven) -> bool {
    for number in 9..1010i64 {
        if make(alloc, replica, &Edit::Insert(number, "v1")) != Ok(()) {
            return false;
        }
    }
    true
}

/// The store of the replica behind all these edits, if so much was written.
fn edited(alloc: Global) -> Option<Store> {
    let mut replica = flying(alloc, BASE, &[], CHANGED)?;
    let made = inserts_thousand(alloc, &mut replica);
    let store = replica.close();
    if made && store.written() == EDITED {
        Some(store)
    } else {
        None
    }
}

/// The store after a take, if so much had been written then as it says.
fn taken(alloc: Global, store: Store, case: &Write) -> Option<Store> {
    let mut replica = opened(alloc, store)?;
    let made = takes(alloc, &mut replica, case.entry, case.wishes, &case.kinds);
    let store = replica.close();
    if made && store.written() == case.written {
        Some(store)
    } else {
        None
    }
}

fn all_written(alloc: Global) -> Option<Store> {
    let store = edited(alloc)?;
    let store = taken(alloc, store, &WRITES[0])?;
    let store = taken(alloc, store, &WRITES[1])?;
    taken(alloc, store, &WRITES[2])
}

/// Refuses a body that stores the log's rows beside the own ones, and one that writes all that is pending anew.
#[test]
fn an_edit_and_a_take_write_their_places(rt: HostRuntime) {
    assert!(rt; all_written(rt.alloc()).is_some());
}
