//! Bodies of entries beside bytes that were written by hand, and entries.

use crate::given::catalog;
use cs_store::Present;
use cs_store::log::{Body, BodyFault, LogEntry, put_body, read_body};
use cs_value::{Memory, Text};
use std::alloc::Global;

/// What the bytes are read as, by the catalog.
fn body(alloc: Global, bytes: &[u8]) -> Result<Body, BodyFault> {
    match catalog(alloc) {
        Some(catalog) => read_body(alloc, &catalog, bytes),
        None => Err(BodyFault::Memory),
    }
}

/// The body that inserts a row with the key 1 and the text `v1` into `t1`, as it is stored.
const INSERT: &[u8] = b"\0\x54\x02\x01\0t1\0\x12\0\x01\0\0\0\0\0\0\0\x01\x03\x02v1";

/// Whether the bytes are read as a body that is stored as these bytes.
fn stays(alloc: Global, bytes: &[u8]) -> Result<bool, BodyFault> {
    let body = body(alloc, bytes)?;
    let mut stored = Vec::new(alloc);
    put_body(&body, &mut stored)?;
    Ok(stored.as_slice() == bytes)
}

/// Whether the bytes are told to be the body of a log's first entry.
fn told(alloc: Global, bytes: &[u8]) -> Option<bool> {
    let catalog = catalog(alloc)?;
    Present::new(&catalog).judge_body(alloc, bytes).ok()
}

/// The body that widens `t1` to three columns, as it is stored.
const WIDEN: &[u8] = b"\x01\0\0\0\x03t1";

/// A body with a change, with two, and one without. Others give `t1` a third column, and as many as a table may have.
const BODIES: [&[u8]; 5] = [
    INSERT,
    b"\0\x54\x02\x01\0t1\0\x12\0\x01\0\0\0\0\0\0\0\x01\x03\x02v1\x12\0\x01\0\0\0\0\0\0\0\x02\x03\x02v1",
    b"\0",
    WIDEN,
    b"\x01\0\0\x07\xd0t1",
];

#[test]
fn bodies_are_read_and_stored(rt: HostRuntime) {
    for bytes in BODIES {
        assert!(rt; stays(rt.alloc(), bytes).unwrap_or(false));
        assert!(rt; told(rt.alloc(), bytes) == Some(true));
    }
}

/// Whether the bytes are refused as no body.
fn is_refused(alloc: Global, bytes: &[u8]) -> bool {
    matches!(body(alloc, bytes), Err(BodyFault::NoBody))
}

/// No byte, another kind, another table, a key column's mark 2 in place of the normal form's 1, one byte too few, keys that fall. Others
/// would give `t1` the two columns that it has, or 2,001, or `t9` three, and one lacks a byte of the width.
const NO_BODIES: [&[u8]; 10] = [
    b"",
    b"\x01\0\0\0\x02t1",
    b"\x01\0\0\x07\xd1t1",
    b"\x01\0\0\0\x03t9",
    b"\x01\0\0\x03",
    b"\x01\x54\x02\x01\0t1\0\x12\0\x01\0\0\0\0\0\0\0\x01\x03\x02v1",
    b"\0\x54\x02\x01\0t9\0\x12\0\x01\0\0\0\0\0\0\0\x01\x03\x02v1",
    b"\0\x54\x02\x02\0t1\0\x12\0\x01\0\0\0\0\0\0\0\x01\x03\x02v1",
    b"\0\x54\x02\x01\0t1\0\x12\0\x01\0\0\0\0\0\0\0\x01\x03\x02v",
    b"\0\x54\x02\x01\0t1\0\x12\0\x01\0\0\0\0\0\0\0\x02\x03\x02v1\x12\0\x01\0\0\0\0\0\0\0\x01\x03\x02v1",
];

#[test]
fn refused_bodies(rt: HostRuntime) {
    for bytes in NO_BODIES {
        assert!(rt; is_refused(rt.alloc(), bytes));
        assert!(rt; told(rt.alloc(), bytes) == Some(false));
    }
}

/// The entry with this body.
fn entry(alloc: Global, bytes: &[u8]) -> Result<LogEntry, BodyFault> {
    Ok(LogEntry {
        origin: 7,
        number: 1,
        body: body(alloc, bytes)?,
    })
}

/// The entry that widens `t1` to so many columns.
fn widening(alloc: Global, width: u32) -> Result<LogEntry, Memory> {
    let table = Text::from_string(String::from_str(alloc, "t1")?);
    Ok(LogEntry {
        origin: 7,
        number: 1,
        body: Body::Widen { table, width },
    })
}

/// Whether such an entry has no changeset, is stored as it should be, and is the same as its copy, and not as one of another width.
fn widens(alloc: Global) -> Result<bool, Memory> {
    let entry = widening(alloc, 3)?;
    let mut stored = Vec::new(alloc);
    put_body(&entry.body, &mut stored)?;
    let is_stored = stored.as_slice() == WIDEN && entry.body.changes().is_none();
    Ok(is_stored && is_itself(alloc, &entry, &widening(alloc, 4)?)?)
}

#[test]
fn entries_that_widen(rt: HostRuntime) {
    assert!(rt; widens(rt.alloc()).unwrap_or(false));
}

/// Whether the entry is the same as its copy, and not as another.
fn is_itself(alloc: Global, entry: &LogEntry, other: &LogEntry) -> Result<bool, Memory> {
    Ok(entry.same(&entry.copy(alloc)?) && !entry.same(other))
}

/// Whether it is so of an entry with changes and one without.
fn are_themselves(alloc: Global) -> Result<bool, BodyFault> {
    let inserting = entry(alloc, INSERT)?;
    let empty = entry(alloc, b"\0")?;
    let is_changes = matches!(inserting.body, Body::Changes(_));
    Ok(is_changes && is_itself(alloc, &inserting, &empty)?)
}

#[test]
fn entries_are_copied_and_compared(rt: HostRuntime) {
    assert!(rt; are_themselves(rt.alloc()).unwrap_or(false));
}
