//! Stores that are whole, and others that hold what isn't what its place says.

use crate::commits::FIRST_META;
use crate::parts::{Edit, commit_of};
use crate::table::catalog;
use cs_store::{RowStore, StoreFault};
use std::alloc::Global;

/// The key 1, another, and NULL.
const KEY: &[u8] = &[1, 0, 0, 0, 0, 0, 0, 0, 1];

const OTHER_KEY: &[u8] = &[1, 0, 0, 0, 0, 0, 0, 0, 2];

const NULL_KEY: &[u8] = &[5];

/// The row (1, 'v1'), the same with a byte behind it, and (NULL, 'v1').
const ROW: &[u8] = &[1, 0, 0, 0, 0, 0, 0, 0, 1, 3, 2, 0x76, 0x31];

const LONG_ROW: &[u8] = &[1, 0, 0, 0, 0, 0, 0, 0, 1, 3, 2, 0x76, 0x31, 5];

const NULL_ROW: &[u8] = &[5, 3, 2, 0x76, 0x31];

/// The INSERT of (1, 'v1'), an UPDATE of it to 'v2', and the INSERT with a byte behind it.
const INSERT: &[u8] = &[18, 0, 1, 0, 0, 0, 0, 0, 0, 0, 1, 3, 2, 0x76, 0x31];

const UPDATE: &[u8] = &[
    23, 0, 1, 0, 0, 0, 0, 0, 0, 0, 1, 3, 2, 0x76, 0x31, 0, 3, 2, 0x76, 0x32,
];

const LONG_INSERT: &[u8] = &[18, 0, 1, 0, 0, 0, 0, 0, 0, 0, 1, 3, 2, 0x76, 0x31, 5];

/// The body of an entry that inserts (1, 'v1') into `t1`, and one of no kind that there is.
const BODY: &[u8] = &[
    0, 0x54, 2, 1, 0, 0x74, 0x31, 0, 18, 0, 1, 0, 0, 0, 0, 0, 0, 0, 1, 3, 2, 0x76, 0x31,
];

const OTHER_BODY: &[u8] = &[7, 0x54, 2, 1, 0, 0x74, 0x31, 0];

/// The body of an entry that gives `t1` a third column.
const WIDEN_BODY: &[u8] = &[1, 0, 0, 0, 3, 0x74, 0x31];

/// A row, a pending change, the body of an entry, and whether a store that holds these is whole.
pub type Held = (Edit<'static>, Edit<'static>, &'static [u8], bool);

/// A row and a pending change of it.
const WHOLE: Edit<'static> = (0, KEY, Some(ROW));

const CHANGE: Edit<'static> = (0, KEY, Some(INSERT));

/// The same with a third column.
const LONG: Edit<'static> = (0, KEY, Some(LONG_ROW));

const LONG_CHANGE: Edit<'static> = (0, KEY, Some(LONG_INSERT));

/// Stores that are whole; rows, changes and bodies that aren't what their place says.
pub const HELD: [Held; 16] = [
    (WHOLE, CHANGE, BODY, true),
    (WHOLE, (0, KEY, Some(UPDATE)), &[0], true),
    ((1, KEY, Some(ROW)), CHANGE, BODY, false),
    ((u32::MAX, KEY, Some(ROW)), CHANGE, BODY, false),
    ((0, OTHER_KEY, Some(ROW)), CHANGE, BODY, false),
    (LONG, CHANGE, BODY, false),
    ((0, NULL_KEY, Some(NULL_ROW)), CHANGE, BODY, false),
    ((0, KEY, Some(INSERT)), CHANGE, BODY, false),
    (WHOLE, (1, KEY, Some(INSERT)), BODY, false),
    (WHOLE, (0, OTHER_KEY, Some(UPDATE)), BODY, false),
    (WHOLE, LONG_CHANGE, BODY, false),
    (WHOLE, (0, KEY, Some(ROW)), BODY, false),
    (WHOLE, CHANGE, OTHER_BODY, false),
    (WHOLE, CHANGE, WIDEN_BODY, false),
    (LONG, LONG_CHANGE, WIDEN_BODY, true),
    (WHOLE, CHANGE, &[], false),
];

/// Whether a store is found whole.
pub fn is_whole<S: RowStore>(alloc: Global, store: &mut S) -> Option<bool> {
    let catalog = catalog(alloc)?;
    store.check(&catalog).ok()
}

fn fill<S: RowStore>(alloc: Global, store: &mut S, held: &Held) -> Result<(), StoreFault> {
    let entry = Some((7, 1, held.2));
    commit_of(alloc, store, &(&[held.0], &[held.1], &FIRST_META, entry))
}

/// Whether a new store is found so once it holds these. It is then let go.
pub fn is_found<S: RowStore + Drop>(alloc: Global, store: S, held: &Held) -> bool {
    let mut store = store;
    fill(alloc, &mut store, held) == Ok(()) && is_whole(alloc, &mut store) == Some(held.3)
}
