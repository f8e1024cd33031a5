//! Entries before and behind the version, and one that widens a table: nobody is asked, and nothing changes.

use crate::given::*;
use cs_conflict::Wish;
use cs_store::log::{Body, LogEntry};
use cs_value::Text;
use std::alloc::Global;

/// The row (2, 'v2') of the log, and the own row (1, 'v1').
const BOTH_ROWS: Shown = Shown {
    rows: &[&K1, &V1, &K2, &V2],
    pending: FIRST,
    count: 1,
    flight: &[],
};

/// The own row alone.
const OWN_ROW: Shown = Shown {
    rows: &[&K1, &V1],
    pending: FIRST,
    count: 1,
    flight: &[],
};

const ROW_2: Parts = &[&H1, &INSERT, &K2, &V2];

/// Another's entry, which inserts the row (1, 'v2').
fn inserting(alloc: Global) -> Option<LogEntry> {
    entry(alloc, 9, &[&H1, &INSERT, &K1, &V2])
}

/// Another's entry, which gives a table so many columns.
fn widening(alloc: Global, table: &str, width: u32) -> Option<LogEntry> {
    let table = Text::from_string(String::from_str(alloc, table).ok()?);
    Some(LogEntry {
        origin: 9,
        number: 1,
        body: Body::Widen { table, width },
    })
}

/// Whether the entry with this index is refused so behind these rows of the log and the own row, which stay.
fn is_refused(
    alloc: Global,
    base: Parts,
    index: u64,
    entry: Option<LogEntry>,
    name: &str,
    shown: &Shown,
) -> Option<bool> {
    let mut replica = flying(alloc, base, &[], &[Edit::Insert(1, "v1")])?;
    let entry = entry?;
    let version = replica.version();
    let mut kinds = [0; 6];
    let wishes = [Wish::Keep];
    let told = match take(alloc, &mut replica, index, &entry, &wishes, &mut kinds) {
        Ok(()) => false,
        Err(fault) => names(alloc, &fault, name) && kinds == [0; 6],
    };
    Some(told && keeps(alloc, &mut replica, version, shown))
}

#[test]
fn entries_out_of_turn_are_refused(rt: HostRuntime) {
    let alloc = rt.alloc();
    assert!(rt;
        is_refused(alloc, ROW_2, 0, inserting(alloc), "Behind", &BOTH_ROWS).unwrap_or(false)
    );
    assert!(rt; is_refused(alloc, ROW_2, 2, inserting(alloc), "Gap", &BOTH_ROWS).unwrap_or(false));
    assert!(rt; is_refused(alloc, &[], 1, inserting(alloc), "Gap", &OWN_ROW).unwrap_or(false));
}

/// No more columns than the table has, more than one may have, and a table that isn't there.
#[test]
fn a_table_that_may_not_be_widened_is_refused(rt: HostRuntime) {
    let alloc = rt.alloc();
    for (table, width) in [("t1", 2), ("t1", 2001), ("t9", 3)] {
        let entry = widening(alloc, table, width);
        assert!(rt; is_refused(alloc, &[], 0, entry, "BadEntry", &OWN_ROW).unwrap_or(false));
    }
}
