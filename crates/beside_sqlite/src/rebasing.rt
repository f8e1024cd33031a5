//! Rebases local changesets over the blobs that applying remote ones leaves, for `bench/rebase.sh`.
//!
//! Standard input holds parts, each behind its length in eight bytes. A case that is checked has six. They are headers of all
//! tables, the local rows and the remote rows as changesets of INSERTs, and the local changeset and the remote one. Each of these
//! two has been made to its rows. The last part is the answers to the conflicts of the remote one with the local rows. The lines of
//! the case tell how many conflicts there were, and the local rows with the remote changeset applied. Then come the remote rows
//! with the rebased local changeset applied, and how many conflicts that met. A case that is timed has two: a local changeset and a
//! rebase blob. Its line has the nanoseconds of the fastest round, and those of reading the local changeset and finding the order
//! of its keys. Then it has how many changes are left.

ghost use Rattle.std.specs.Prelude.{IfOk};
ghost use Rattle.cs_change.specs.Spelling.{FitsChangeset};

use crate::drawn::{
    Wrong, answer_at, catalog_in, changeset_of, commit_edits, put_count, put_rows, store_of,
    take_part,
};
use cs_apply::apply;
use cs_changeset::{Changeset, read};
use cs_conflict::{Conflict, Kind, Resolution};
use cs_group::lend_alone;
use cs_map_store::MapStore;
use cs_normal::Normal;
use cs_normalising::LentNormal;
use cs_rebaser::Rebaser;
use cs_value::Catalog;
use std::alloc::Global;
use std::rt::Clock;
use std::time::Instant;

/// The parts of a case that is checked, but for the headers.
#[derive(Clone, Copy)]
struct Case<'a> {
    local_rows: &'a [u8],
    remote_rows: &'a [u8],
    local: &'a [u8],
    remote: &'a [u8],
    answers: &'a [u8],
}

/// The changeset in these bytes.
fn local_of(alloc: Global, bytes: &[u8]) -> Result<Changeset<'_>, Wrong>
    ensures { IfOk result FitsChangeset }
{
    match read(alloc, bytes) {
        Ok(changeset) => Ok(changeset),
        Err(_) => Err(Wrong::Case),
    }
}

/// The changeset in normal form, lent.
fn normal_of<'b, 'a>(
    alloc: Global,
    changeset: &'b Changeset<'a>,
) -> Result<LentNormal<'b, 'a>, Wrong>
    requires { FitsChangeset changeset.now }
{
    match lend_alone(alloc, changeset) {
        Ok(normal) => Ok(normal),
        Err(_) => Err(Wrong::Case),
    }
}

/// The local changeset over this blob.
fn rebased(alloc: Global, local: LentNormal<'_, '_>, blob: &[u8]) -> Result<Normal, Wrong> {
    let Ok(blob) = cs_blob::read(alloc, blob) else {
        return Err(Wrong::Case);
    };
    let Ok(rebaser) = Rebaser::configure(alloc, blob) else {
        return Err(Wrong::Case);
    };
    match rebaser.rebase(alloc, local) {
        Ok(made) => Ok(made),
        Err(_) => Err(Wrong::Case),
    }
}

/// The bytes of the local changeset over this blob.
fn rebased_bytes(alloc: Global, local: &[u8], blob: &[u8]) -> Result<Vec<u8>, Wrong> {
    let changeset = local_of(alloc, local)?;
    let made = rebased(alloc, normal_of(alloc, &changeset)?, blob)?;
    let mut bytes = Vec::new(alloc);
    made.encode(&mut bytes)?;
    Ok(bytes)
}

/// Applies the remote changeset to the local rows with the case's answers, and gives the rebase blob.
fn apply_remote(
    alloc: Global,
    store: &mut MapStore,
    catalog: &Catalog,
    case: &Case<'_>,
    out: &mut Vec<u8>,
) -> Result<Vec<u8>, Wrong> {
    let remote = changeset_of(alloc, case.remote)?;
    let mut asked = 0usize;
    let ended = apply(
        alloc,
        store,
        catalog,
        &remote,
        &mut |_conflict: &Conflict<'_>| {
            asked = asked.saturating_add(1);
            answer_at(case.answers, asked.saturating_sub(1))
        },
    );
    let Ok(applied) = ended else {
        return Err(Wrong::Case);
    };
    put_count(alloc, "asked", asked as u64, out)?;
    commit_edits(alloc, store, applied.edits)?;
    Ok(applied.blob)
}

/// The answer that takes a change wherever that is allowed.
fn taking(conflict: &Conflict<'_>) -> Resolution {
    match conflict.kind {
        Kind::NotFound => Resolution::Omit,
        _ => Resolution::Replace,
    }
}

/// Applies the rebased changeset to the remote rows, and tells how many conflicts it met.
fn apply_rebased(
    alloc: Global,
    store: &mut MapStore,
    catalog: &Catalog,
    bytes: &[u8],
) -> Result<u64, Wrong> {
    let changeset = changeset_of(alloc, bytes)?;
    let mut met = 0u64;
    let ended = apply(
        alloc,
        store,
        catalog,
        &changeset,
        &mut |conflict: &Conflict<'_>| {
            met = met.saturating_add(1);
            taking(conflict)
        },
    );
    let Ok(applied) = ended else {
        return Err(Wrong::Case);
    };
    commit_edits(alloc, store, applied.edits)?;
    Ok(met)
}

/// A store with the rows that this changeset inserts.
fn store_with(alloc: Global, catalog: &Catalog, rows: &[u8]) -> Result<MapStore, Wrong> {
    store_of(alloc, catalog, &changeset_of(alloc, rows)?)
}

/// Tells of the local side, and gives the rebase blob.
fn tell_local(
    alloc: Global,
    catalog: &Catalog,
    case: &Case<'_>,
    out: &mut Vec<u8>,
) -> Result<Vec<u8>, Wrong> {
    let mut store = store_with(alloc, catalog, case.local_rows)?;
    let blob = apply_remote(alloc, &mut store, catalog, case, out)?;
    put_rows(alloc, "local", &mut store, catalog, out)?;
    Ok(blob)
}

/// Tells of the remote side, with these rows, over which the rebased changeset is applied.
fn tell_remote(
    alloc: Global,
    catalog: &Catalog,
    rows: &[u8],
    rebased: &[u8],
    out: &mut Vec<u8>,
) -> Result<(), Wrong> {
    let mut store = store_with(alloc, catalog, rows)?;
    let met = apply_rebased(alloc, &mut store, catalog, rebased)?;
    put_rows(alloc, "remote", &mut store, catalog, out)?;
    put_count(alloc, "met", met, out)?;
    Ok(())
}

/// Puts what comes of a case there.
fn tell(alloc: Global, declared: &[u8], case: &Case<'_>, out: &mut Vec<u8>) -> Result<(), Wrong> {
    let catalog = catalog_in(alloc, declared)?;
    out.extend_from_slice(b"case\n")?;
    let blob = tell_local(alloc, &catalog, case, out)?;
    let bytes = rebased_bytes(alloc, case.local, &blob)?;
    tell_remote(alloc, &catalog, case.remote_rows, &bytes, out)
}

/// The first case in these bytes, and what stands behind it.
fn take_case(bytes: &[u8]) -> Option<(&[u8], Case<'_>, &[u8])> {
    let (declared, rest) = take_part(bytes)?;
    let (local_rows, rest) = take_part(rest)?;
    let (remote_rows, rest) = take_part(rest)?;
    let (local, rest) = take_part(rest)?;
    let (remote, rest) = take_part(rest)?;
    let (answers, rest) = take_part(rest)?;
    let case = Case {
        local_rows,
        remote_rows,
        local,
        remote,
        answers,
    };
    Some((declared, case, rest))
}

/// Runs all cases.
fn check_cases(alloc: Global, bytes: &[u8], out: &mut Vec<u8>) -> Result<(), Wrong> {
    let mut rest = bytes;
    for _ in 0..bytes.len() {
        let Some((declared, case, more)) = take_case(rest) else {
            break;
        };
        tell(alloc, declared, &case, out)?;
        rest = more;
    }
    if rest.is_empty() {
        Ok(())
    } else {
        Err(Wrong::Case)
    }
}

/// What one round took.
#[derive(Clone, Copy)]
struct Taken {
    whole: u128,
    normal: u128,
    left: usize,
}

/// Times one round: from the bytes of the changeset and the blob to those of the rebased changeset.
fn timed<R: Clock>(rt: &R, alloc: Global, local: &[u8], blob: &[u8]) -> Result<Taken, Wrong> {
    let Ok(start) = Instant::now(rt) else {
        return Err(Wrong::Case);
    };
    let changeset = local_of(alloc, local)?;
    let local = normal_of(alloc, &changeset)?;
    let Ok(normal) = start.elapsed(rt) else {
        return Err(Wrong::Case);
    };
    let made = rebased(alloc, local, blob)?;
    let mut bytes = Vec::new(alloc);
    made.encode(&mut bytes)?;
    let Ok(whole) = start.elapsed(rt) else {
        return Err(Wrong::Case);
    };
    Ok(Taken {
        whole: whole.as_nanos(),
        normal: normal.as_nanos(),
        left: made.len(),
    })
}

/// Times a case so many times, and puts the line of its fastest round there.
fn time_case<R: Clock>(
    rt: &R,
    alloc: Global,
    bytes: &[u8],
    rounds: u64,
    out: &mut Vec<u8>,
) -> Result<(), Wrong> {
    let Some((local, rest)) = take_part(bytes) else {
        return Err(Wrong::Case);
    };
    let Some((blob, _)) = take_part(rest) else {
        return Err(Wrong::Case);
    };
    let mut best = timed(rt, alloc, local, blob)?;
    for _ in 1..rounds {
        let taken = timed(rt, alloc, local, blob)?;
        if taken.whole < best.whole {
            best = taken;
        }
    }
    let Taken {
        whole,
        normal,
        left,
    } = best;
    let line = format!(in alloc; "{whole} {normal} {left}\n")?;
    out.extend_from_slice(line.as_str().as_bytes())?;
    Ok(())
}

/// Runs all cases, or times the first where `rounds` is some.
pub fn run_cases<R: Clock>(
    rt: &R,
    alloc: Global,
    bytes: &[u8],
    rounds: Option<u64>,
    out: &mut Vec<u8>,
) -> Result<(), Wrong> {
    match rounds {
        Some(rounds) => time_case(rt, alloc, bytes, rounds, out),
        None => check_cases(alloc, bytes, out),
    }
}
