//! Commits, and what a store shows behind each, written by hand.

use crate::images::shows;
use crate::parts::{Edit, Entry, Named, Spelled, commit_of};
use cs_store::{MetaName, RowStore, StoreFault};
use std::alloc::Global;

/// The last table.
pub const LAST: u32 = u32::MAX;

/// The one before it.
pub(crate) const BUT_LAST: u32 = u32::MAX - 1;

/// Places that stand twice, keys of which one begins the other, tables at both ends, and removals of nothing.
const FIRST_ROWS: [Edit<'static>; 8] = [
    (LAST, b"2", Some(b"b")),
    (LAST, b"1", Some(b"a")),
    (BUT_LAST, b"9", Some(b"z")),
    (0, b"10", Some(b"y")),
    (0, b"1", Some(b"x")),
    (LAST, b"2", Some(b"c")),
    (0, b"7", None),
    (1, b"1", Some(b"gone")),
];

/// Pending changes at a place with a row, at one without, and twice at one place.
pub const FIRST_PENDING: [Edit<'static>; 4] = [
    (7, b"1", Some(b"p")),
    (0, b"1", Some(b"q")),
    (LAST, b"2", Some(b"s")),
    (0, b"1", Some(b"r")),
];

/// A name that stands twice, and is without a value in the end, and one with a value.
pub const FIRST_META: [Named<'static>; 3] = [
    (MetaName::Flight, Some(b"f")),
    (MetaName::Id, Some(b"i")),
    (MetaName::Id, None),
];

/// A row that goes, one that is replaced, a new one, and one that comes and goes.
pub const NEXT_ROWS: [Edit<'static>; 5] = [
    (1, b"1", None),
    (0, b"1", Some(b"other")),
    (0, b"", Some(b"")),
    (7, b"1", Some(b"1")),
    (7, b"1", None),
];

const NEXT_PENDING: [Edit<'static>; 3] = [
    (LAST, b"2", None),
    (0, b"", Some(b"")),
    (1, b"1", Some(b"t")),
];

const NEXT_META: [Named<'static>; 2] = [(MetaName::Flight, None), (MetaName::Number, Some(b"n"))];

const FIRST_ENTRY: Entry<'static> = (7, 1, b"one");

/// The last origin and the last number.
const NEXT_ENTRY: Entry<'static> = (u32::MAX, u64::MAX, b"two");

/// The first commit.
pub const FIRST_BATCH: Spelled<'static> = (
    &FIRST_ROWS,
    &FIRST_PENDING,
    &FIRST_META,
    Some(FIRST_ENTRY),
);

/// The one behind it.
pub const NEXT_BATCH: Spelled<'static> = (&NEXT_ROWS, &NEXT_PENDING, &NEXT_META, Some(NEXT_ENTRY));

/// What a new store shows.
pub const NOTHING_SHOWN: &[u8] = b"||||||||||.|.|.|.|.|.||";

/// What it shows after the first commit.
pub const FIRST_SHOWN: &[u8] =
    b"1=x;10=y;|1=gone;||9=z;|1=a;2=c;|1=r;||1=p;||2=s;|.|.|.|f|.|.|7.1=one;|";

/// What it shows after both.
pub const NEXT_SHOWN: &[u8] =
    b"=;1=other;10=y;|||9=z;|1=a;2=c;|=;1=r;|1=t;|1=p;|||.|.|n|.|.|.|7.1=one;4294967295.18446744073709551615=two;|";

/// Batches, and what a store shows behind each.
const COMMITS: [(Spelled<'static>, &[u8]); 3] = [
    (FIRST_BATCH, FIRST_SHOWN),
    (NEXT_BATCH, NEXT_SHOWN),
    ((&[], &[], &[], None), NEXT_SHOWN),
];

fn shows_each<S: RowStore>(alloc: Global, store: &mut S) -> Result<bool, StoreFault> {
    let mut all = shows(alloc, store, NOTHING_SHOWN)?;
    for (spelled, shown) in &COMMITS {
        commit_of(alloc, store, spelled)?;
        all = shows(alloc, store, shown)? && all;
    }
    Ok(all && store.failures() == 0)
}

/// Whether a new store shows what was written by hand, as it is and after each of three commits. It is then let go.
pub fn shows_commits<S: RowStore + Drop>(alloc: Global, store: S) -> bool {
    let mut store = store;
    shows_each(alloc, &mut store) == Ok(true)
}
