//! Local changes from bytes to bytes: of `t1` with a key column and another, and of `t2` with a key column and three others. They are
//! rebased where memory is refused, and over the blobs that lawful answers leave. What `sync rebase` shows stands in
//! `bench/check_tools.sh`.

ghost use Rattle.cs_change.specs.Spelling.{FitsChangeset};

use crate::lawful::{Sides, apply_by_kind, apply_by_row, apply_over_local};
use cs_apply::Applied;
use cs_changeset::{Changeset, read};
use cs_group::lend_alone;
use cs_map_store::MapStore;
use cs_normal::Normal;
use cs_normalising::normalise;
use cs_rebaser::*;
use cs_store::edits::PlaceEdits;
use cs_store::{Batch, RowStore};
use cs_store_cases::{Edit, catalog, commit_of, shows};
use cs_value::Catalog;
use std::alloc::Global;

/// A rebaser of the blob in these bytes. A call that is refused memory is made once more.
fn configured_at_last<'a>(alloc: Global, bytes: &'a [u8]) -> Option<Rebaser<'a>> {
    let blob = cs_blob::read(alloc, bytes).ok()?;
    match Rebaser::configure(alloc, blob) {
        Err((blob, ConfigureFault::Memory)) => Rebaser::configure(alloc, blob).ok(),
        other => other.ok(),
    }
}

/// The local changes, rebased. A call that is refused memory is made once more.
fn rebased_at_last(alloc: Global, rebaser: &Rebaser<'_>, local: &Changeset<'_>) -> Option<Normal>
    requires { FitsChangeset local.now }
{
    match rebaser.rebase(alloc, lend_alone(alloc, local).ok()?) {
        Err(RebaseFault::Memory) => rebaser.rebase(alloc, lend_alone(alloc, local).ok()?).ok(),
        other => other.ok(),
    }
}

/// The local changes, rebased over the blob.
fn rebased_of(alloc: Global, local: &[u8], blob: &[u8]) -> Option<Normal> {
    let changeset = read(alloc, local).ok()?;
    let rebaser = configured_at_last(alloc, blob)?;
    rebased_at_last(alloc, &rebaser, &changeset)
}

/// Whether this is left of the local changes over the blob; none where memory was refused.
fn leaves(alloc: Global, local: &[u8], blob: &[u8], left: &[u8]) -> Option<bool> {
    let rebased = rebased_of(alloc, local, blob)?;
    let mut bytes = Vec::new(alloc);
    rebased.encode(&mut bytes).ok()?;
    Some(bytes.as_slice() == left)
}

/// Changes of two tables: of t1 the INSERT of (1, 'v1') and the DELETE of (2, 'v2'), of t2 an UPDATE of two columns.
const TWO_TABLES: &[u8] = b"\x54\x02\x01\0t1\0\
    \x12\0\x01\0\0\0\0\0\0\0\x01\x03\x02v1\
    \x09\0\x01\0\0\0\0\0\0\0\x02\x03\x02v2\
    \x54\x04\x01\0\0\0t2\0\
    \x17\0\x01\0\0\0\0\0\0\0\x01\x03\x02b0\0\x03\x02d0\0\x03\x02b1\0\x03\x02d1";

/// A blob of both, each of whose conflicts was answered OMIT.
const TWO_OMITTED: &[u8] = b"\x54\x04\x01\0\0\0t2\0\
    \x12\0\x01\0\0\0\0\0\0\0\x01\x03\x02b2\0\0\
    \x54\x02\x01\0t1\0\
    \x12\0\x01\0\0\0\0\0\0\0\x02\x03\x02v9\
    \x12\0\x01\0\0\0\0\0\0\0\x01\x03\x02v2";

/// What is left over it.
const TWO_LEFT: &[u8] = b"\x54\x02\x01\0t1\0\
    \x17\0\x01\0\0\0\0\0\0\0\x01\x03\x02v2\0\x03\x02v1\
    \x09\0\x01\0\0\0\0\0\0\0\x02\x03\x02v9\
    \x54\x04\x01\0\0\0t2\0\
    \x17\0\x01\0\0\0\0\0\0\0\x01\x03\x02b2\0\x03\x02d0\0\x03\x02b1\0\x03\x02d1";

/// Whether what is left of two tables is what it has to be; once more where memory was refused.
fn leaves_two_at_last(alloc: Global) -> bool {
    match leaves(alloc, TWO_TABLES, TWO_OMITTED, TWO_LEFT) {
        Some(kept) => kept,
        None => leaves(alloc, TWO_TABLES, TWO_OMITTED, TWO_LEFT).unwrap_or(false),
    }
}

/// Everything is as it was where memory is refused, and the same call then succeeds. `bench/refuse_tests.sh` refuses each
/// allocation in turn here; what can't be made, or a read that is refused, is tried again with the rest.
#[test]
fn refused_memory_leaves_everything(rt: HostRuntime) {
    assert!(rt; leaves_two_at_last(rt.alloc()));
}

/// Whether the text is there, and is the name of want of memory.
fn is_memory(text: Result<String, std::alloc::AllocError>) -> bool {
    match text {
        Ok(text) => text.as_str() == "Memory",
        Err(_) => false,
    }
}

#[test]
fn want_of_memory_is_told_by_name(rt: HostRuntime) {
    assert!(rt; is_memory(ConfigureFault::Memory.to_string(rt.alloc())));
    assert!(rt; is_memory(RebaseFault::Memory.to_string(rt.alloc())));
}

/// The rows that the local changes left: (1, 'v2') and (3, 'v2').
const LEFT_ROWS: [Edit<'static>; 2] = [
    (
        0,
        b"\x01\0\0\0\0\0\0\0\x01",
        Some(b"\x01\0\0\0\0\0\0\0\x01\x03\x02v2"),
    ),
    (
        0,
        b"\x01\0\0\0\0\0\0\0\x03",
        Some(b"\x01\0\0\0\0\0\0\0\x03\x03\x02v2"),
    ),
];

/// A store with them.
fn left_rows(alloc: Global) -> Option<MapStore> {
    let mut store = MapStore::new(alloc);
    commit_of(alloc, &mut store, &(&LEFT_ROWS, &[], &[], None)).ok()?;
    Some(store)
}

/// The closure that answers.
#[derive(Clone, Copy)]
enum Answers {
    ByKind,
    ByRow,
    OverLocal,
}

/// The local side changed (1, 'v1') to 'v2', deleted (2, 'v1') and put (3, 'v2').
const LOCAL: &[u8] = b"\x54\x02\x01\0t1\0\
    \x17\0\x01\0\0\0\0\0\0\0\x01\x03\x02v1\0\x03\x02v2\
    \x09\0\x01\0\0\0\0\0\0\0\x02\x03\x02v1\
    \x12\0\x01\0\0\0\0\0\0\0\x03\x03\x02v2";

/// The remote side changed (1, 'v1') to 'v9', deleted (2, 'v1') and put (3, 'v9').
const REMOTE: &[u8] = b"\x54\x02\x01\0t1\0\
    \x17\0\x01\0\0\0\0\0\0\0\x01\x03\x02v1\0\x03\x02v9\
    \x09\0\x01\0\0\0\0\0\0\0\x02\x03\x02v1\
    \x12\0\x01\0\0\0\0\0\0\0\x03\x03\x02v9";

/// The normal form of these bytes, by the catalog.
fn normal_by(alloc: Global, catalog: &Catalog, bytes: &[u8]) -> Option<Normal> {
    let changeset = read(alloc, bytes).ok()?;
    normalise(alloc, catalog, &changeset).ok()
}

/// Applies the remote changes to the rows that the local ones left.
fn apply_remote(
    alloc: Global,
    store: &mut MapStore,
    catalog: &Catalog,
    local: &Normal,
    answers: Answers,
) -> Option<Applied> {
    let remote = normal_by(alloc, catalog, REMOTE)?;
    if !remote.fits(catalog) {
        return None;
    }
    let sides = Sides {
        local,
        remote: &remote,
    };
    match answers {
        Answers::ByKind => apply_by_kind(alloc, store, catalog, &sides).ok(),
        Answers::ByRow => apply_by_row(alloc, store, catalog, &sides).ok(),
        Answers::OverLocal => apply_over_local(alloc, store, catalog, &sides).ok(),
    }
}

fn commit(alloc: Global, store: &mut MapStore, applied: Applied) -> Option<Vec<u8>> {
    let batch = Batch {
        rows: applied.edits,
        pending: PlaceEdits::new(alloc),
        meta: Vec::new(alloc),
        log: None,
    };
    store.commit(&batch).ok()?;
    Some(applied.blob)
}

/// The blob that applying the remote changes leaves, which are made in the store.
fn blob_left(alloc: Global, store: &mut MapStore, answers: Answers) -> Option<Vec<u8>> {
    let catalog = catalog(alloc)?;
    let local = normal_by(alloc, &catalog, LOCAL)?;
    let applied = apply_remote(alloc, store, &catalog, &local, answers)?;
    commit(alloc, store, applied)
}

/// Whether a store with the rows shows this on the local side then, and these changes of its own are left over the blob.
fn meets(alloc: Global, answers: Answers, shown: &[u8], left: &[u8]) -> Option<bool> {
    let mut store = left_rows(alloc)?;
    let blob = blob_left(alloc, &mut store, answers)?;
    let is_left = leaves(alloc, LOCAL, &blob, left)?;
    Some(is_left && shows(alloc, &mut store, shown) == Ok(true))
}

/// The rows (1, 'v9') and (3, 'v9'), and (1, 'v9') and (3, 'v2'), behind their keys.
const THEIRS: &[u8] = b"\x01\0\0\0\0\0\0\0\x01=\x01\0\0\0\0\0\0\0\x01\x03\x02v9;\
    \x01\0\0\0\0\0\0\0\x03=\x01\0\0\0\0\0\0\0\x03\x03\x02v9;||||||||||.|.|.|.|.|.||";

const OVER: &[u8] = b"\x01\0\0\0\0\0\0\0\x01=\x01\0\0\0\0\0\0\0\x01\x03\x02v9;\
    \x01\0\0\0\0\0\0\0\x03=\x01\0\0\0\0\0\0\0\x03\x03\x02v2;||||||||||.|.|.|.|.|.||";

/// What is left where the own rows went over the other side's: the UPDATE of (3, 'v9') to 'v2'.
const OVER_LEFT: &[u8] = b"\x54\x02\x01\0t1\0\x17\0\x01\0\0\0\0\0\0\0\x03\x03\x02v9\0\x03\x02v2";

/// Answers, what the store shows then, and what is left.
const MEETINGS: [(Answers, &[u8], &[u8]); 3] = [
    (Answers::ByKind, THEIRS, b""),
    (Answers::ByRow, THEIRS, b""),
    (Answers::OverLocal, OVER, OVER_LEFT),
];

#[test]
fn lawful_answers_close_the_diamond(rt: HostRuntime) {
    for (answers, shown, left) in &MEETINGS {
        assert!(rt; meets(rt.alloc(), *answers, shown, left).unwrap_or(false));
    }
}
