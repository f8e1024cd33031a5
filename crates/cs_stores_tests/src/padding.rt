//! Edits by which a table gets more columns (`cs_padding`), committed to a store in memory, beside bytes that were written by hand. What is
//! refused, by the device or for want of memory, leaves everything.

use crate::pending::{B_TO_C, INSERT_X, ONE, ONE_X, TWO, TWO_C, are_bytes, catalog};
use cs_map_store::MapStore;
use cs_padding::{widen_pending, widen_pending_with, widen_rows};
use cs_store::edits::{PlaceEdit, PlaceEdits};
use cs_store::{Batch, RowStore, StoreFault, Trip};
use cs_store_cases::{Edit, commit_of, nothing};
use cs_value::Catalog;
use cs_widening::widen as widened_catalog;
use std::alloc::Global;

/// Rows, and pending changes.
type Held = (&'static [Edit<'static>], &'static [Edit<'static>]);

/// The key 3.
const THREE: &[u8] = &[1, 0, 0, 0, 0, 0, 0, 0, 3];

/// The DELETE of (3, 'b'), indirect.
const DELETE_THREE: &[u8] = &[9, 1, 1, 0, 0, 0, 0, 0, 0, 0, 3, 3, 1, 0x62];

/// Two rows of `t` and one of `s`. The row 1 came, the row 2 changed, and the row 3 went.
const NARROW: Held = (
    &[
        (0, ONE, Some(ONE_X)),
        (0, TWO, Some(TWO_C)),
        (1, ONE, Some(ONE_X)),
    ],
    &[
        (0, ONE, Some(INSERT_X)),
        (0, TWO, Some(B_TO_C)),
        (0, THREE, Some(DELETE_THREE)),
        (1, ONE, Some(INSERT_X)),
    ],
);

/// The rows (1, 'x', NULL, NULL) and (2, 'c', NULL, NULL).
const WIDE_X: &[u8] = &[1, 0, 0, 0, 0, 0, 0, 0, 1, 3, 1, 0x78, 5, 5];

const WIDE_C: &[u8] = &[1, 0, 0, 0, 0, 0, 0, 0, 2, 3, 1, 0x63, 5, 5];

/// The INSERT of (1, 'x', NULL, NULL), the UPDATE that defines no new column, and the DELETE of (3, 'b', NULL, NULL).
const WIDE_INSERT: &[u8] = &[18, 0, 1, 0, 0, 0, 0, 0, 0, 0, 1, 3, 1, 0x78, 5, 5];

const WIDE_UPDATE: &[u8] = &[
    23, 0, 1, 0, 0, 0, 0, 0, 0, 0, 2, 3, 1, 0x62, 0, 0, 0, 3, 1, 0x63, 0, 0,
];

const WIDE_DELETE: &[u8] = &[9, 1, 1, 0, 0, 0, 0, 0, 0, 0, 3, 3, 1, 0x62, 5, 5];

/// The same where `t` has two columns more.
const WIDE: Held = (
    &[
        (0, ONE, Some(WIDE_X)),
        (0, TWO, Some(WIDE_C)),
        (1, ONE, Some(ONE_X)),
    ],
    &[
        (0, ONE, Some(WIDE_INSERT)),
        (0, TWO, Some(WIDE_UPDATE)),
        (0, THREE, Some(WIDE_DELETE)),
        (1, ONE, Some(INSERT_X)),
    ],
);

/// Whether the store has these rows and these pending changes.
fn holds<S: RowStore>(store: &mut S, held: &Held) -> Result<bool, StoreFault> {
    for (table, key, body) in held.0 {
        if !are_bytes(store.get(*table, key)?, *body) {
            return Ok(false);
        }
    }
    for (table, key, body) in held.1 {
        if !are_bytes(store.pend_get(*table, key)?, *body) {
            return Ok(false);
        }
    }
    Ok(true)
}

/// Gives the rows and the pending changes of a table so many columns, and tells how many of each get some.
fn widen<S: RowStore>(
    alloc: Global,
    store: &mut S,
    catalog: &Catalog,
    name: &str,
    width: usize,
) -> Result<(usize, usize), StoreFault> {
    let rows = widen_rows(alloc, store, catalog, name, width)?;
    let pending = widen_pending(alloc, store, catalog, name, width)?;
    let counts = (rows.len(), pending.len());
    store.commit(&Batch {
        rows,
        pending,
        ..nothing(alloc)
    })?;
    Ok(counts)
}

/// The catalog, and a store that has these rows and these pending changes.
fn begun(alloc: Global, held: &Held) -> Option<(Catalog, MapStore)> {
    let catalog = catalog(alloc)?;
    let mut store = MapStore::new(alloc);
    commit_of(alloc, &mut store, &(held.0, held.1, &[], None)).ok()?;
    Some((catalog, store))
}

/// Whether one table gets its columns, and no other changes.
fn widens_one(alloc: Global) -> Option<bool> {
    let (catalog, mut store) = begun(alloc, &NARROW)?;
    let counts = widen(alloc, &mut store, &catalog, "t", 4).ok()?;
    Some(counts == (2, 3) && holds(&mut store, &WIDE) == Ok(true))
}

#[test]
fn rows_and_changes_get_columns(rt: HostRuntime) {
    assert!(rt; widens_one(rt.alloc()) == Some(true));
}

/// The changes that are pending where these edits came before: the row 2 is no longer changed, the row 3 came, and so did one of `s`.
const FOLDED: Held = (
    &[(0, ONE, Some(ONE_X))],
    &[
        (0, ONE, Some(WIDE_INSERT)),
        (0, TWO, None),
        (0, THREE, Some(WIDE_INSERT)),
        (1, ONE, Some(INSERT_X)),
        (1, TWO, Some(INSERT_X)),
    ],
);

/// Edits of pending changes that aren't committed yet. The last of two at one place counts.
fn uncommitted(alloc: Global) -> Result<PlaceEdits, StoreFault> {
    let mut edits = PlaceEdits::new(alloc);
    edits.push(&PlaceEdit::new(0, THREE, Some(B_TO_C)))?;
    edits.push(&PlaceEdit::new(0, TWO, None))?;
    edits.push(&PlaceEdit::new(1, TWO, Some(INSERT_X)))?;
    edits.push(&PlaceEdit::new(0, THREE, Some(INSERT_X)))?;
    Ok(edits)
}

/// Commits these edits of pending changes with two columns more for `t`, behind those of what is stored.
fn widen_with<S: RowStore>(
    alloc: Global,
    store: &mut S,
    catalog: &Catalog,
) -> Result<bool, StoreFault> {
    let edits = uncommitted(alloc)?;
    let Some(_) = widened_catalog(alloc, catalog, "t", 4)? else {
        return Ok(false);
    };
    let pending = widen_pending_with(alloc, store, catalog, "t", 4, &edits)?;
    store.commit(&Batch {
        pending,
        ..nothing(alloc)
    })?;
    Ok(true)
}

/// Whether edits that aren't committed yet get the columns too.
fn widens_folded(alloc: Global) -> Option<bool> {
    let (catalog, mut store) = begun(alloc, &NARROW)?;
    let made = widen_with(alloc, &mut store, &catalog).ok()?;
    Some(made && holds(&mut store, &FOLDED) == Ok(true))
}

#[test]
fn edits_on_their_way_get_columns(rt: HostRuntime) {
    assert!(rt; widens_folded(rt.alloc()) == Some(true));
}

/// Whether nothing is to be edited, and nothing is.
fn widens_none(alloc: Global, name: &str, width: usize) -> Option<bool> {
    let (catalog, mut store) = begun(alloc, &NARROW)?;
    let counts = widen(alloc, &mut store, &catalog, name, width).ok()?;
    Some(counts == (0, 0) && holds(&mut store, &NARROW) == Ok(true))
}

/// No table of the name, another case of one, as many columns as there are, and fewer.
const NONE: [(&str, usize); 4] = [("u", 4), ("T", 4), ("t", 2), ("t", 0)];

#[test]
fn tables_that_get_no_columns(rt: HostRuntime) {
    for (name, width) in &NONE {
        assert!(rt; widens_none(rt.alloc(), name, *width) == Some(true));
    }
}

/// Whether a call that the device refuses is told and leaves everything, and then is made.
fn is_made_again(
    alloc: Global,
    trip: &mut Trip<MapStore>,
    catalog: &Catalog,
) -> Result<bool, StoreFault> {
    let told = widen(alloc, trip, catalog, "t", 4) == Err(StoreFault::Device);
    let stays = trip.failures() == 1 && holds(&mut trip.inner, &NARROW)?;
    let made = widen(alloc, trip, catalog, "t", 4)? == (2, 3);
    Ok(told && stays && made && holds(&mut trip.inner, &WIDE)?)
}

/// The same of the call of this number: rows and changes are listed, and then the edits are committed.
fn call_is_refused(alloc: Global, refused: u64) -> Option<bool> {
    let (catalog, store) = begun(alloc, &NARROW)?;
    let mut trip = Trip::new(store, refused);
    is_made_again(alloc, &mut trip, &catalog).ok()
}

#[test]
fn a_refused_call_leaves_everything(rt: HostRuntime) {
    for refused in 0..3u64 {
        assert!(rt; call_is_refused(rt.alloc(), refused) == Some(true));
    }
}

/// A pending change that lacks its last byte.
const SHORT: Held = (&[], &[(0, TWO, Some(SHORT_UPDATE))]);

const SHORT_UPDATE: &[u8] = &[23, 0, 1, 0, 0, 0, 0, 0, 0, 0, 2, 3, 1, 0x62, 0, 3, 1];

/// Whether bytes that are no change are told as the device's, and counted.
fn is_misread(alloc: Global) -> Option<bool> {
    let (catalog, mut store) = begun(alloc, &SHORT)?;
    let told = widen_pending(alloc, &mut store, &catalog, "t", 4).is_err();
    Some(told && store.failures() == 1 && holds(&mut store, &SHORT) == Ok(true))
}

#[test]
fn what_is_no_change_is_told(rt: HostRuntime) {
    assert!(rt; is_misread(rt.alloc()) == Some(true));
}

/// Whether a table gets its columns, where memory may be refused once, and before that all stands as it did.
fn widens_at_last(alloc: Global) -> Option<bool> {
    let (catalog, mut store) = begun(alloc, &NARROW)?;
    let mut stays = true;
    if widen(alloc, &mut store, &catalog, "t", 4) == Err(StoreFault::Memory) {
        stays = holds(&mut store, &NARROW).ok()?;
        widen(alloc, &mut store, &catalog, "t", 4).ok()?;
    }
    Some(stays && holds(&mut store, &WIDE).ok()?)
}

/// Everything is as it was where memory is refused, and the same call then succeeds. `bench/refuse_tests.sh` refuses each
/// allocation in turn here; where it is refused to what stands around the calls, all is tried again.
#[test]
fn refused_memory_leaves_everything(rt: HostRuntime) {
    let alloc = rt.alloc();
    let kept = match widens_at_last(alloc) {
        Some(kept) => kept,
        None => widens_at_last(alloc) == Some(true),
    };
    assert!(rt; kept);
}
