//! A replica that makes five calls over any store, and what a store shows in memory after each commit. An answer of three entries makes one
//! an entry, in order.

use crate::messages::ACCEPTED;
use cs_conflict::{Clash, Guard, Wish};
use cs_map_store::MapStore;
use cs_replica::Replica;
use cs_store::RowStore;
use cs_store_cases::image;
use cs_value::{Catalog, Items, Memory, Row, Text, Value};
use cs_wire::Answer;
use std::alloc::Global;

/// The row of a number and the text `v1`.
fn row(alloc: Global, number: i64) -> Result<Row, Memory> {
    let mut values = Vec::new(alloc);
    values.push(Value::Int(number))?;
    values.push(Value::Text(Text::from_string(String::from_str(alloc, "v1")?)))?;
    Ok(Items::from_vec(values))
}

/// Entries of replica 9: the INSERT of (2, 'v1'), of (3, 'v1') and of (4, 'v1').
const SECOND: &[u8] =
    b"\0\0\0\0\x09\0\0\0\0\0\0\0\x01\0\0\0\x16\x54\x02\x01\0\x74\x31\0\x12\0\x01\0\0\0\0\0\0\0\x02\x03\x02\x76\x31";

const THIRD: &[u8] =
    b"\0\0\0\0\x09\0\0\0\0\0\0\0\x02\0\0\0\x16\x54\x02\x01\0\x74\x31\0\x12\0\x01\0\0\0\0\0\0\0\x03\x03\x02\x76\x31";

const FOURTH: &[u8] =
    b"\0\0\0\0\x09\0\0\0\0\0\0\0\x03\0\0\0\x16\x54\x02\x01\0\x74\x31\0\x12\0\x01\0\0\0\0\0\0\0\x04\x03\x02\x76\x31";

/// The bytes of an answer of entries, of which the first has this version.
fn entries(alloc: Global, first: u8, parts: &[&[u8]]) -> Result<Vec<u8>, Memory> {
    let mut bytes = Vec::new(alloc);
    bytes.extend_from_slice(&[0x14, 0, 0, 0, 0, 0, 0, 0, first, 0, 0, 0])?;
    bytes.push(u8::try_from(parts.len()).unwrap_or(0))?;
    for part in parts {
        bytes.extend_from_slice(part)?;
    }
    Ok(bytes)
}

fn inserts<S: RowStore>(alloc: Global, replica: &mut Replica<S>, number: i64) -> bool {
    match row(alloc, number) {
        Ok(row) => replica.insert(alloc, "t1", &row).is_ok(),
        Err(_) => false,
    }
}

fn pushes<S: RowStore>(alloc: Global, replica: &mut Replica<S>) -> bool {
    replica.make_push(alloc).is_ok()
}

fn answer<S: RowStore>(alloc: Global, replica: &mut Replica<S>, answer: &Answer<'_>) -> bool {
    let mut guard = Guard::new(|_clash: &Clash<'_>| -> Wish { Wish::Keep });
    replica.answer(alloc, answer, &mut guard).is_ok()
}

/// Whether the answer in these bytes is taken.
fn answers<S: RowStore>(alloc: Global, replica: &mut Replica<S>, bytes: &[u8]) -> bool {
    match Answer::decode(bytes) {
        Ok(decoded) => answer(alloc, replica, &decoded),
        Err(_) => false,
    }
}

fn answers_entries<S: RowStore>(
    alloc: Global,
    replica: &mut Replica<S>,
    first: u8,
    parts: &[&[u8]],
) -> bool {
    match entries(alloc, first, parts) {
        Ok(bytes) => answers(alloc, replica, bytes.as_slice()),
        Err(_) => false,
    }
}

/// A call of the replica, the first being 0, and whether it succeeded. The calls are an edit, a push, its answer, an answer of
/// three entries, and an edit.
fn call<S: RowStore>(alloc: Global, replica: &mut Replica<S>, at: usize) -> bool {
    match at {
        0 => inserts(alloc, replica, 1),
        1 => pushes(alloc, replica),
        2 => answers(alloc, replica, ACCEPTED),
        3 => answers_entries(alloc, replica, 1, &[SECOND, THIRD, FOURTH]),
        _ => inserts(alloc, replica, 5),
    }
}

/// How many calls of a replica there are.
const CALLS: usize = 5;

/// The same in commits, of which the three entries are one each.
fn step<S: RowStore>(alloc: Global, replica: &mut Replica<S>, at: usize) -> bool {
    match at {
        0 => inserts(alloc, replica, 1),
        1 => pushes(alloc, replica),
        2 => answers(alloc, replica, ACCEPTED),
        3 => answers_entries(alloc, replica, 1, &[SECOND]),
        4 => answers_entries(alloc, replica, 2, &[THIRD]),
        5 => answers_entries(alloc, replica, 3, &[FOURTH]),
        _ => inserts(alloc, replica, 5),
    }
}

/// How many commits there were before a call that comes behind so many calls, and how many behind it. The first call opens the
/// replica.
pub(crate) fn commits_around(calls: usize) -> (usize, usize) {
    match calls {
        0 => (0, 1),
        1 => (1, 2),
        2 => (2, 3),
        3 => (3, 4),
        4 => (4, 7),
        5 => (7, 8),
        _ => (8, 8),
    }
}

/// What a store in memory shows after so many commits of the replica, the first of which lays it out.
pub(crate) fn shown_after(alloc: Global, catalog: &Catalog, commits: usize) -> Option<Vec<u8>> {
    let mut store = MapStore::new(alloc);
    if commits == 0 {
        return image(alloc, &mut store).ok();
    }
    let Ok(mut replica) = Replica::open(alloc, store, catalog, 7) else {
        return None;
    };
    for at in 0..commits - 1 {
        if !step(alloc, &mut replica, at) {
            return None;
        }
    }
    image(alloc, &mut replica.close()).ok()
}

/// How many calls of the replica succeed one after another.
fn calls_made<S: RowStore>(alloc: Global, replica: &mut Replica<S>) -> usize {
    for at in 0..CALLS {
        if !call(alloc, replica, at) {
            return at;
        }
    }
    CALLS
}

/// How many calls succeed over a store that holds nothing, of which the first opens the replica, and the store then.
pub(crate) fn made_over<S: RowStore>(alloc: Global, store: S, catalog: &Catalog) -> (usize, S) {
    match Replica::open(alloc, store, catalog, 7) {
        Ok(mut replica) => {
            let made = calls_made(alloc, &mut replica);
            (made.saturating_add(1), replica.close())
        }
        Err((store, _)) => (0, store),
    }
}
