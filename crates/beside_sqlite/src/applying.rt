//! Applies changesets to rows in a `MapStore`, for `bench/apply.sh`.
//!
//! Standard input holds parts, each behind its length in eight bytes, four parts a case. They are headers of all tables, the rows
//! as a changeset of INSERTs, the changeset, and the answers to its conflicts in order. An answer is a digit, where OMIT is 0,
//! REPLACE 1 and ABORT 2. Behind the last one it answers OMIT. A case that is checked has a line for each conflict, one of how
//! applying ended, and one for each row behind it. One that is timed has the nanoseconds of reading the changeset, least of all
//! rounds. It has those of applying it in the first round, and the least of all, and the conflicts and edits.

use crate::drawn::{
    Wrong, answer_at, catalog_in, changeset_of, commit_edits, put_conflict, put_hex, put_number,
    put_rows, store_of, take_part,
};
use cs_apply::{Applied, ApplyFault, apply};
use cs_blob::{BlobGroup, put_entry};
use cs_change::{Changeset, put_header};
use cs_conflict::{Conflict, Resolution};
use cs_map_store::MapStore;
use cs_value::Catalog;
use std::alloc::{AllocError, Global};
use std::rt::Clock;
use std::time::Instant;

/// The parts of a case.
#[derive(Clone, Copy)]
struct Parts<'a> {
    declared: &'a [u8],
    rows: &'a [u8],
    changeset: &'a [u8],
    answers: &'a [u8],
}

/// What a case is made of.
#[derive(Drop)]
struct Case<'a> {
    catalog: Catalog,
    rows: Changeset<'a>,
    changeset: Changeset<'a>,
    answers: &'a [u8],
}

fn case_of<'a>(alloc: Global, parts: &Parts<'a>) -> Result<Case<'a>, Wrong> {
    Ok(Case {
        catalog: catalog_in(alloc, parts.declared)?,
        rows: changeset_of(alloc, parts.rows)?,
        changeset: changeset_of(alloc, parts.changeset)?,
        answers: parts.answers,
    })
}

fn put_end(
    alloc: Global,
    ended: &Result<Applied, ApplyFault>,
    out: &mut Vec<u8>,
) -> Result<(), AllocError> {
    match ended {
        Ok(applied) => {
            out.extend_from_slice(b"applied ")?;
            put_number(alloc, applied.skipped as u64, out)?;
        }
        Err(fault) => {
            let text = format!(in alloc; "{fault}")?;
            out.extend_from_slice(text.as_str().as_bytes())?;
        }
    }
    out.push(b'\n')?;
    Ok(())
}

/// Applies the case's changeset, and puts a line of each conflict there.
fn apply_case(
    alloc: Global,
    store: &mut MapStore,
    case: &Case<'_>,
    lines: &mut Vec<u8>,
) -> Result<Applied, ApplyFault> {
    let mut asked = 0usize;
    apply(
        alloc,
        store,
        &case.catalog,
        &case.changeset,
        &mut |conflict: &Conflict<'_>| {
            let _ = put_conflict(alloc, conflict, lines);
            asked = asked.saturating_add(1);
            answer_at(case.answers, asked.saturating_sub(1))
        },
    )
}

/// The entries of a group of a rebase blob, each in a line behind the header that it stands under.
fn put_entries(alloc: Global, group: &BlobGroup<'_>, out: &mut Vec<u8>) -> Result<(), AllocError> {
    let mut header = Vec::new(alloc);
    put_header(group.marks.as_slice(), group.name.as_str(), &mut header)?;
    let mut bytes = Vec::new(alloc);
    for entry in group.entries.as_slice() {
        out.extend_from_slice(b"entry ")?;
        put_hex(alloc, header.as_slice(), out)?;
        out.push(b' ')?;
        bytes.clear();
        put_entry(entry, &mut bytes)?;
        put_hex(alloc, bytes.as_slice(), out)?;
        out.push(b'\n')?;
    }
    Ok(())
}

/// The entries of a rebase blob.
fn put_blob(alloc: Global, blob: &[u8], out: &mut Vec<u8>) -> Result<(), Wrong> {
    let Ok(blob) = cs_blob::read(alloc, blob) else {
        return Err(Wrong::Case);
    };
    for group in blob.as_slice() {
        put_entries(alloc, group, out)?;
    }
    Ok(())
}

/// Puts the rebase blob there, and makes the edits.
fn keep(
    alloc: Global,
    store: &mut MapStore,
    applied: Applied,
    out: &mut Vec<u8>,
) -> Result<(), Wrong> {
    put_blob(alloc, applied.blob.as_slice(), out)?;
    commit_edits(alloc, store, applied.edits)
}

/// Puts what comes of a case there.
fn tell(alloc: Global, case: &Case<'_>, out: &mut Vec<u8>) -> Result<(), Wrong> {
    out.extend_from_slice(b"case\n")?;
    let mut store = store_of(alloc, &case.catalog, &case.rows)?;
    let ended = apply_case(alloc, &mut store, case, out);
    put_end(alloc, &ended, out)?;
    match ended {
        Ok(applied) => keep(alloc, &mut store, applied, out)?,
        Err(_fault) => {}
    }
    put_rows(alloc, "row", &mut store, &case.catalog, out)?;
    Ok(())
}

/// What a round took, in nanoseconds, and what came of it.
#[derive(Clone, Copy)]
struct Round {
    /// Reading the changeset.
    reading: u128,
    /// Applying it, and making the edits.
    applying: u128,
    conflicts: u64,
    edits: u64,
}

/// The nanoseconds since then.
fn nanoseconds_since<R: Clock>(rt: &R, start: Instant) -> Result<u128, Wrong> {
    match start.elapsed(rt) {
        Ok(taken) => Ok(taken.as_nanos()),
        Err(_) => Err(Wrong::Case),
    }
}

fn now<R: Clock>(rt: &R) -> Result<Instant, Wrong> {
    match Instant::now(rt) {
        Ok(now) => Ok(now),
        Err(_) => Err(Wrong::Case),
    }
}

/// Applies the changeset, answers conflicts as the case says, and makes the edits. How many conflicts and edits there were.
fn apply_and_commit(
    alloc: Global,
    store: &mut MapStore,
    case: &Case<'_>,
    changeset: &Changeset<'_>,
) -> Result<(u64, u64), Wrong> {
    let mut asked = 0usize;
    let ended = apply(
        alloc,
        store,
        &case.catalog,
        changeset,
        &mut |_conflict: &Conflict<'_>| {
            asked = asked.saturating_add(1);
            answer_at(case.answers, asked.saturating_sub(1))
        },
    );
    let Ok(applied) = ended else {
        return Err(Wrong::Case);
    };
    let edits = applied.edits.len() as u64;
    commit_edits(alloc, store, applied.edits)?;
    Ok((asked as u64, edits))
}

/// Reads the changeset, and applies it to the rows of this store.
fn timed<R: Clock>(
    rt: &R,
    alloc: Global,
    case: &Case<'_>,
    bytes: &[u8],
    store: &mut MapStore,
) -> Result<Round, Wrong> {
    let start = now(rt)?;
    let changeset = changeset_of(alloc, bytes)?;
    let reading = nanoseconds_since(rt, start)?;
    let start = now(rt)?;
    let (conflicts, edits) = apply_and_commit(alloc, store, case, &changeset)?;
    let applying = nanoseconds_since(rt, start)?;
    Ok(Round {
        reading,
        applying,
        conflicts,
        edits,
    })
}

/// So many stores of the case's rows.
fn stores_of(alloc: Global, case: &Case<'_>, count: u64) -> Result<Vec<MapStore>, Wrong> {
    let mut stores = Vec::new(alloc);
    for _ in 0..count {
        stores.push(store_of(alloc, &case.catalog, &case.rows)?)?;
    }
    Ok(stores)
}

/// The line of a case that is timed. The stores of all rounds are there before the first and stay to the end. So later rounds have
/// the memory that the first one gave back, as in a program that keeps its store.
fn put_times<R: Clock>(
    rt: &R,
    alloc: Global,
    case: &Case<'_>,
    bytes: &[u8],
    rounds: u64,
    out: &mut Vec<u8>,
) -> Result<(), Wrong> {
    let mut stores = stores_of(alloc, case, rounds)?;
    let mut first = None;
    let mut reading = u128::MAX;
    let mut applying = u128::MAX;
    for store in stores.as_mut_slice() {
        let round = timed(rt, alloc, case, bytes, store)?;
        reading = reading.min(round.reading);
        applying = applying.min(round.applying);
        if first.is_none() {
            first = Some(round);
        }
    }
    let Some(first) = first else {
        return Err(Wrong::Case);
    };
    let line = format!(in alloc;
        "{reading} {} {applying} {} {}\n",
        first.applying, first.conflicts, first.edits
    )?;
    out.extend_from_slice(line.as_str().as_bytes())?;
    Ok(())
}

/// The parts of the first case in these bytes, and what stands behind it.
fn take_case(bytes: &[u8]) -> Option<(Parts<'_>, &[u8])> {
    let (declared, rest) = take_part(bytes)?;
    let (rows, rest) = take_part(rest)?;
    let (changeset, rest) = take_part(rest)?;
    let (answers, rest) = take_part(rest)?;
    let parts = Parts {
        declared,
        rows,
        changeset,
        answers,
    };
    Some((parts, rest))
}

/// Runs a case.
fn run_case<R: Clock>(
    rt: &R,
    alloc: Global,
    parts: &Parts<'_>,
    rounds: Option<u64>,
    out: &mut Vec<u8>,
) -> Result<(), Wrong> {
    let case = case_of(alloc, parts)?;
    match rounds {
        Some(rounds) => put_times(rt, alloc, &case, parts.changeset, rounds, out),
        None => tell(alloc, &case, out),
    }
}

/// Runs all cases; `rounds` is none where each is checked.
pub fn run_cases<R: Clock>(
    rt: &R,
    alloc: Global,
    bytes: &[u8],
    rounds: Option<u64>,
    out: &mut Vec<u8>,
) -> Result<(), Wrong> {
    let mut rest = bytes;
    for _ in 0..bytes.len() {
        let Some((parts, more)) = take_case(rest) else {
            break;
        };
        run_case(rt, alloc, &parts, rounds, out)?;
        rest = more;
    }
    if rest.is_empty() {
        Ok(())
    } else {
        Err(Wrong::Case)
    }
}
