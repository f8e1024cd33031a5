//! Each call over a store in memory, also through a caller that knows no store, beside answers that were written by hand.
//! Calls that are refused, by the device or for want of memory, leave everything as it was.

ghost use Rattle.std.specs.Prelude.{◌≡◌, IfErr};

use cs_map_store::MapStore;
use cs_store::edits::{LentEdits, PlaceEdit, PlaceEdits};
use cs_store::*;
use cs_store_cases::*;
use cs_value::Catalog;
use std::alloc::{AllocError, Global};

fn shows_in_memory(alloc: Global) -> bool {
    shows_commits(alloc, MapStore::new(alloc))
}

fn shows_through_a_trip(alloc: Global) -> bool {
    shows_commits(alloc, Trip::new(MapStore::new(alloc), u64::MAX))
}

#[test]
fn stores_show_what_was_committed(rt: HostRuntime) {
    assert!(rt; shows_in_memory(rt.alloc()));
    assert!(rt; shows_through_a_trip(rt.alloc()));
}

fn empty_is_whole(alloc: Global) -> bool {
    is_whole(alloc, &mut MapStore::new(alloc)) == Some(true)
}

fn all_are_found(alloc: Global) -> bool {
    for held in &HELD {
        if !is_found(alloc, MapStore::new(alloc), held) {
            return false;
        }
    }
    true
}

#[test]
fn a_store_is_whole_where_all_is_what_its_place_says(rt: HostRuntime) {
    assert!(rt; empty_is_whole(rt.alloc()));
    assert!(rt; all_are_found(rt.alloc()));
}

/// A call of each kind, by its number.
fn call<S: RowStore>(
    store: &mut S,
    catalog: &Catalog,
    next: &Batch,
    number: u64,
) -> Result<(), StoreFault> {
    match number {
        0 => store.get(0, b"1").map(|_row| ()),
        1 => store.list(0).map(|_rows| ()),
        2 => store.meta(MetaName::Flight).map(|_value| ()),
        3 => store.log_len().map(|_count| ()),
        4 => store.log_get(0).map(|_entry| ()),
        5 => store.pend_get(0, b"1").map(|_change| ()),
        6 => store.pend_list(0).map(|_changes| ()),
        7 => store.check(catalog).map(|_whole| ()),
        8 => store.log_list(0, 1).map(|_entries| ()),
        9 => store.log_is_whole().map(|_whole| ()),
        _ => store.commit(next),
    }
}

/// A store that holds what the first batch writes, and whose device refuses the call of this number.
fn first_trip(alloc: Global, refused: u64) -> Result<Trip<MapStore>, StoreFault> {
    let mut store = MapStore::new(alloc);
    commit_of(alloc, &mut store, &FIRST_BATCH)?;
    Ok(Trip::new(store, refused))
}

/// Whether the call of this number, behind those before it, is refused by the device, and counted.
fn is_refused<S: RowStore>(
    store: &mut S,
    catalog: &Catalog,
    next: &Batch,
    refused: u64,
) -> Result<bool, StoreFault> {
    for number in 0..refused {
        call(store, catalog, next, number)?;
    }
    Ok(call(store, catalog, next, refused) == Err(StoreFault::Device) && store.failures() == 1)
}

/// Whether a call of each kind is refused so, leaves everything, and then is made.
fn leaves_everything(
    alloc: Global,
    trip: &mut Trip<MapStore>,
    catalog: &Catalog,
    next: &Batch,
    refused: u64,
) -> Result<bool, StoreFault> {
    let is_told = is_refused(trip, catalog, next, refused)?;
    let stays = shows(alloc, &mut trip.inner, FIRST_SHOWN)?;
    call(trip, catalog, next, refused)?;
    Ok(is_told && stays && trip.failures() == 1)
}

/// The same of a store that holds the first batch.
fn trip_leaves_everything(
    alloc: Global,
    catalog: &Catalog,
    next: &Batch,
    refused: u64,
) -> Result<bool, StoreFault> {
    let mut trip = first_trip(alloc, refused)?;
    leaves_everything(alloc, &mut trip, catalog, next, refused)
}

fn refusal_leaves_everything(alloc: Global, refused: u64) -> Option<bool> {
    let catalog = catalog(alloc)?;
    let next = batch(alloc, &NEXT_BATCH).ok()?;
    trip_leaves_everything(alloc, &catalog, &next, refused).ok()
}

/// Whether the fault prints like this.
fn prints(alloc: Global, fault: StoreFault, printed: &str) -> bool {
    match fault.to_string(alloc) {
        Ok(text) => text.as_str() == printed,
        Err(_) => false,
    }
}

#[test]
fn a_call_that_the_device_refuses_leaves_everything(rt: HostRuntime) {
    for refused in 0..11u64 {
        assert!(rt; refusal_leaves_everything(rt.alloc(), refused) == Some(true));
    }
    assert!(rt; prints(rt.alloc(), StoreFault::Device, "Device"));
    assert!(rt; prints(rt.alloc(), StoreFault::Memory, "Memory"));
}

/// Whether a misread is told as the device's, is counted, and takes no call.
fn counts_a_misread(alloc: Global, trip: &mut Trip<MapStore>) -> bool {
    let is_told = trip.misread() == StoreFault::Device && trip.failures() == 1;
    let is_read = trip.log_len() == Ok(1) && trip.log_len() == Err(StoreFault::Device);
    let is_counted = trip.failures() == 2 && trip.inner.failures() == 1;
    is_told && is_read && is_counted && shows(alloc, trip, FIRST_SHOWN) == Ok(true)
}

fn misread_is_counted(alloc: Global) -> bool {
    match first_trip(alloc, 1) {
        Ok(mut trip) => counts_a_misread(alloc, &mut trip),
        Err(_) => false,
    }
}

#[test]
fn a_misread_counts_and_changes_nothing_else(rt: HostRuntime) {
    assert!(rt; misread_is_counted(rt.alloc()));
}

/// So many edits of rows, of pending changes and of values, and entries.
fn written(rows: u64, pending: u64, meta: u64, log: u64) -> Written {
    Written {
        rows,
        pending,
        meta,
        log,
    }
}

/// Whether the first batch is counted where it is committed, the next one where it isn't refused, and what a third one writes.
fn counts_commits<S: RowStore>(alloc: Global, trip: &mut Trip<S>) -> Result<bool, StoreFault> {
    let nothing = trip.written() == written(0, 0, 0, 0);
    commit_of(alloc, trip, &FIRST_BATCH)?;
    let is_refused = commit_of(alloc, trip, &NEXT_BATCH) == Err(StoreFault::Device);
    let first = trip.written() == written(8, 4, 3, 1);
    commit_of(alloc, trip, &NEXT_BATCH)?;
    commit_of(alloc, trip, &(&[], &FIRST_PENDING, &[], None))?;
    Ok(nothing && is_refused && first && trip.written() == written(13, 11, 5, 2))
}

fn counts_written(alloc: Global) -> bool {
    counts_commits(alloc, &mut Trip::new(MapStore::new(alloc), 1)) == Ok(true)
}

#[test]
fn what_is_written_is_counted_where_a_commit_succeeds(rt: HostRuntime) {
    assert!(rt; counts_written(rt.alloc()));
}

/// A long row, a short one, an empty one, none, and one more, as they stand after both commits.
const FOUND: [Edit<'static>; 5] = [
    (0, b"1", Some(b"other")),
    (0, b"10", Some(b"y")),
    (0, b"", Some(b"")),
    (0, b"7", None),
    (LAST, b"2", Some(b"c")),
];

/// Whether that is what a store puts in place of what is in the list.
fn puts_row<S: RowStore>(
    store: &mut S,
    row: &mut Vec<u8>,
    wanted: &Edit<'_>,
) -> Result<bool, StoreFault> {
    let there = store.get_into(wanted.0, wanted.1, row)?;
    Ok(match wanted.2 {
        Some(body) => there && row.as_slice() == body,
        None => !there,
    })
}

/// Whether a store puts each into one list.
fn puts_each<S: RowStore>(alloc: Global, store: &mut S) -> Result<bool, StoreFault> {
    commit_of(alloc, store, &FIRST_BATCH)?;
    commit_of(alloc, store, &NEXT_BATCH)?;
    let mut row = Vec::new(alloc);
    let mut all = true;
    for wanted in &FOUND {
        all = puts_row(store, &mut row, wanted)? && all;
    }
    Ok(all)
}

/// The same through a device that passes so many calls on.
fn puts_each_through(alloc: Global, passes: u64) -> Result<bool, StoreFault> {
    puts_each(alloc, &mut Trip::new(MapStore::new(alloc), passes))
}

#[test]
fn a_row_is_put_in_place_of_what_is_there(rt: HostRuntime) {
    assert!(rt; puts_each(rt.alloc(), &mut MapStore::new(rt.alloc())) == Ok(true));
    assert!(rt; puts_each_through(rt.alloc(), 7) == Ok(true));
    assert!(rt; puts_each_through(rt.alloc(), 6) == Err(StoreFault::Device));
}

/// Whether these are the edits that were put, and some of them come back too: a body of no byte is another one than none.
fn are_next_rows(made: &LentEdits<'_>) -> bool {
    made.len() >= 4 && are_edits(made, &NEXT_ROWS) && are_edits(&made.part(1, 4), &NEXT_ROWS[1..4])
}

/// Whether edits come back as they were put into too little room.
fn gives_edits_back(alloc: Global) -> Result<bool, AllocError> {
    let mut made = PlaceEdits::with_capacity(alloc, 2, 4)?;
    put_edits(&NEXT_ROWS, &mut made)?;
    Ok(are_next_rows(&made.lend()))
}

#[test]
fn edits_in_one_piece_of_memory_stay_apart(rt: HostRuntime) {
    assert!(rt; gives_edits_back(rt.alloc()).unwrap_or(false));
}

/// What is written over an edit, and longer than what stood there.
const WRITTEN: Edit<'static> = (7, b"key", Some(b"a body that is longer"));

/// Puts an edit in place of another, and one also at an earlier place, and takes those behind them out.
fn write_over(made: &mut PlaceEdits) -> Result<(), AllocError> {
    if made.len() >= 4 {
        made.set(1, &PlaceEdit::new(WRITTEN.0, WRITTEN.1, WRITTEN.2))?;
        made.copy_to(3, 0);
        made.truncate(3);
    }
    Ok(())
}

/// Whether these are the edits then.
fn are_written_over(made: &LentEdits<'_>) -> bool {
    are_edits(made, &[NEXT_ROWS[3], WRITTEN, NEXT_ROWS[2]])
}

fn writes_edits_over(alloc: Global) -> Result<bool, AllocError> {
    let mut made = PlaceEdits::new(alloc);
    put_edits(&NEXT_ROWS, &mut made)?;
    write_over(&mut made)?;
    Ok(are_written_over(&made.lend()))
}

#[test]
fn edits_are_written_over_one_another(rt: HostRuntime) {
    assert!(rt; writes_edits_over(rt.alloc()).unwrap_or(false));
}

/// How many bytes the body of this number has. Several fill a piece of memory, and each fourth is longer than one.
fn length_of(number: u8) -> usize {
    if number % 4 == 3 { 0x18_0000 } else { 0x4_b000 }
}

/// A body that has this number as each of its bytes.
fn body_of(alloc: Global, number: u8) -> Result<Vec<u8>, AllocError> {
    vec![in alloc; number; length_of(number)]
}

fn put_long(alloc: Global, number: u8, made: &mut PlaceEdits) -> Result<(), AllocError> {
    let body = body_of(alloc, number)?;
    made.push(&PlaceEdit::new(0, &[number], Some(body.as_slice())))
}

fn put_all_long(alloc: Global, made: &mut PlaceEdits) -> Result<(), AllocError> {
    for number in 0..12 {
        put_long(alloc, number, made)?;
    }
    Ok(())
}

/// Puts the edit of the number 12 in place of the second one.
fn set_long(alloc: Global, made: &mut PlaceEdits) -> Result<(), AllocError> {
    let body = body_of(alloc, 12)?;
    if made.len() > 1 {
        made.set(1, &PlaceEdit::new(0, &[12], Some(body.as_slice())))?;
    }
    Ok(())
}

fn is_long(edit: &PlaceEdit<'_>, number: u8) -> bool {
    let Some(body) = edit.body() else {
        return false;
    };
    edit.key() == [number].as_slice()
        && body.len() == length_of(number)
        && body.first() == Some(&number)
        && body.last() == Some(&number)
}

/// Whether these are the edits of these numbers.
fn are_long(lent: &LentEdits<'_>, numbers: &[u8]) -> bool {
    if lent.len() != numbers.len() {
        return false;
    }
    for at in 0..numbers.len() {
        if !is_long(&lent.get(at), numbers[at]) {
            return false;
        }
    }
    true
}

/// Whether long edits come back as they were put. One is written over another, one stands also at an earlier place, and the last
/// is taken out.
fn gives_long_edits_back(alloc: Global) -> Result<bool, AllocError> {
    let mut made = PlaceEdits::with_capacity(alloc, 2, 0x30_0000)?;
    put_all_long(alloc, &mut made)?;
    set_long(alloc, &mut made)?;
    if made.len() != 12 {
        return Ok(false);
    }
    made.copy_to(11, 0);
    made.truncate(11);
    Ok(are_long(&made.lend(), &[11, 12, 2, 3, 4, 5, 6, 7, 8, 9, 10]))
}

#[test]
fn edits_in_several_pieces_of_memory_stay_apart(rt: HostRuntime) {
    assert!(rt; gives_long_edits_back(rt.alloc()).unwrap_or(false));
}

/// Rows are so many of its first bytes.
const TEXT: &[u8] = b"abcdefghijklmnop";

const KEYS: [&[u8]; 5] = [b"0", b"1", b"2", b"3", b"4"];

/// The edit of this number at one of five keys: a row of another length than the one before it, and of each seven none.
fn edit_among_few(number: usize) -> PlaceEdit<'static> {
    let text = TEXT;
    let row = if number % 7 == 6 {
        None
    } else {
        Some(&text[..number % 17])
    };
    PlaceEdit::new(0, KEYS[number % 5], row)
}

fn one_among_few(alloc: Global, number: usize) -> Result<Batch, AllocError> {
    let mut made = nothing(alloc);
    made.rows.push(&edit_among_few(number))?;
    Ok(made)
}

fn edit_few_often(alloc: Global, store: &mut MapStore) -> Result<(), StoreFault> {
    for number in 0..4_000 {
        let batch = one_among_few(alloc, number)?;
        store.commit(&batch)?;
    }
    Ok(())
}

/// Whether the store then shows the last edit of each key, of which that of the second removes.
fn keeps_the_last(alloc: Global) -> Result<bool, StoreFault> {
    let mut store = MapStore::new(alloc);
    edit_few_often(alloc, &mut store)?;
    shows(
        alloc,
        &mut store,
        b"0=;2=ab;3=abc;4=abcd;||||||||||.|.|.|.|.|.||",
    )
}

/// A commit of one row is made in place until too many bytes would be of rows that are gone. Then the leaf is made anew.
#[test]
fn many_edits_of_few_keys_leave_the_last_of_each(rt: HostRuntime) {
    assert!(rt; keeps_the_last(rt.alloc()) == Ok(true));
}

const SPREAD: u16 = 1_200;

/// The row of this number: of those below `SPREAD` each fourth is there first, and three come between it and the one behind it.
fn spread_row(number: u16) -> &'static [u8] {
    if number % 4 == 0 || number >= SPREAD {
        b"first"
    } else {
        b"next"
    }
}

/// Edits of the numbers that have this row, of so many.
fn put_spread(count: u16, row: &[u8], made: &mut PlaceEdits) -> Result<(), AllocError> {
    for number in 0..count {
        if spread_row(number) == row {
            made.push(&PlaceEdit::new(0, &number.to_be_bytes(), Some(row)))?;
        }
    }
    Ok(())
}

fn spread(alloc: Global, count: u16, row: &[u8]) -> Result<Batch, AllocError> {
    let mut made = nothing(alloc);
    put_spread(count, row, &mut made.rows)?;
    Ok(made)
}

fn is_row(stored: &StoredBody, number: u16, row: &[u8]) -> bool {
    stored.key.as_slice() == number.to_be_bytes().as_slice() && stored.body.as_slice() == row
}

fn are_spread(rows: &[StoredBody], count: u16) -> bool {
    let mut number = 0;
    for row in rows {
        if !is_row(row, number, spread_row(number)) {
            return false;
        }
        number = number.wrapping_add(1);
    }
    number == count
}

/// Commits the edits of the numbers that have this row, of so many.
fn commit_spread(
    alloc: Global,
    store: &mut MapStore,
    count: u16,
    row: &[u8],
) -> Result<(), StoreFault> {
    let batch = spread(alloc, count, row)?;
    store.commit(&batch)
}

/// Makes so many rows by two commits.
fn spread_in(alloc: Global, store: &mut MapStore, count: u16) -> Result<(), StoreFault> {
    commit_spread(alloc, store, count, b"first")?;
    commit_spread(alloc, store, count, b"next")
}

/// Whether the store has these rows.
fn has_spread(store: &mut MapStore, count: u16) -> Result<bool, StoreFault> {
    let rows = store.list(0)?;
    Ok(are_spread(rows.as_slice(), count))
}

/// Whether two commits leave all rows.
fn spreads(alloc: Global, count: u16) -> Result<bool, StoreFault> {
    let mut store = MapStore::new(alloc);
    spread_in(alloc, &mut store, count)?;
    has_spread(&mut store, count)
}

/// The second commit has many edits a leaf, so that all leaves are made anew.
#[test]
fn rows_that_come_between_others_stay_in_order(rt: HostRuntime) {
    assert!(rt; spreads(rt.alloc(), SPREAD) == Ok(true));
}

/// The second commit makes five of many leaves so long that they are cut.
#[test]
fn rows_that_come_between_few_of_many_stay_in_order(rt: HostRuntime) {
    assert!(rt; spreads(rt.alloc(), 4 * SPREAD) == Ok(true));
}

/// Behind a third commit there are rows of numbers below this.
const CHANGED: u16 = SPREAD + 300;

/// The row of this number that a third commit leaves. A whole run of rows goes and each third of the others, each third is
/// replaced, and some come behind the last.
fn changed_row(number: u16) -> Option<&'static [u8]> {
    if number >= SPREAD {
        return Some(b"last");
    }
    if (400..700).contains(&number) {
        return None;
    }
    match number % 3 {
        0 => None,
        1 => Some(b"last"),
        _ => Some(spread_row(number)),
    }
}

/// The edits that leave these rows, where they aren't there.
fn put_changed(made: &mut PlaceEdits) -> Result<(), AllocError> {
    for number in 0..CHANGED {
        let row = changed_row(number);
        if number >= SPREAD || row != Some(spread_row(number)) {
            made.push(&PlaceEdit::new(0, &number.to_be_bytes(), row))?;
        }
    }
    Ok(())
}

fn are_changed(rows: &[StoredBody]) -> bool {
    let mut at = 0usize;
    for number in 0..CHANGED {
        if let Some(row) = changed_row(number) {
            if at >= rows.len() || !is_row(&rows[at], number, row) {
                return false;
            }
            at = at.wrapping_add(1);
        }
    }
    at == rows.len()
}

/// Makes the third commit.
fn change_spread(alloc: Global, store: &mut MapStore) -> Result<(), StoreFault> {
    let mut batch = nothing(alloc);
    put_changed(&mut batch.rows)?;
    store.commit(&batch)
}

fn has_changed(store: &mut MapStore) -> Result<bool, StoreFault> {
    let rows = store.list(0)?;
    Ok(are_changed(rows.as_slice()))
}

/// Whether a third commit leaves these rows.
fn changes(alloc: Global) -> Result<bool, StoreFault> {
    let mut store = MapStore::new(alloc);
    spread_in(alloc, &mut store, SPREAD)?;
    change_spread(alloc, &mut store)?;
    has_changed(&mut store)
}

#[test]
fn a_commit_of_many_edits_adds_replaces_and_removes(rt: HostRuntime) {
    assert!(rt; changes(rt.alloc()) == Ok(true));
}

/// Edits that remove so many rows.
fn put_removed(made: &mut PlaceEdits) -> Result<(), AllocError> {
    for number in 0..SPREAD {
        made.push(&PlaceEdit::new(0, &number.to_be_bytes(), None))?;
    }
    Ok(())
}

/// Removes all rows by one commit.
fn remove_spread(alloc: Global, store: &mut MapStore) -> Result<(), StoreFault> {
    let mut batch = nothing(alloc);
    put_removed(&mut batch.rows)?;
    store.commit(&batch)
}

fn has_no_row(store: &mut MapStore) -> Result<bool, StoreFault> {
    let rows = store.list(0)?;
    Ok(rows.is_empty())
}

/// Whether one commit removes all rows, and rows can come again behind it.
fn empties(alloc: Global) -> Result<bool, StoreFault> {
    let mut store = MapStore::new(alloc);
    spread_in(alloc, &mut store, SPREAD)?;
    remove_spread(alloc, &mut store)?;
    let is_empty = has_no_row(&mut store)?;
    spread_in(alloc, &mut store, SPREAD)?;
    Ok(is_empty && has_spread(&mut store, SPREAD)?)
}

#[test]
fn a_commit_that_removes_all_rows_leaves_none(rt: HostRuntime) {
    assert!(rt; empties(rt.alloc()) == Ok(true));
}

/// The edit of this number in two tables, of which each fifth removes.
fn put_one(number: u8, body: &[u8], made: &mut PlaceEdits) -> Result<(), AllocError> {
    let table = if number % 2 == 0 { 0 } else { LAST };
    let set = if number % 5 == 4 { None } else { Some(body) };
    made.push(&PlaceEdit::new(table, &[number.wrapping_mul(37)], set))
}

/// So many of them.
fn put_many(count: u8, body: &[u8], made: &mut PlaceEdits) -> Result<(), AllocError> {
    for number in 0..count {
        put_one(number, body, made)?;
    }
    Ok(())
}

fn put_many_all(alloc: Global, count: u8, body: &[u8], made: &mut Batch) -> Result<(), AllocError> {
    put_many(count, body, &mut made.rows)?;
    put_many(count, body, &mut made.pending)?;
    put_named(alloc, &[(MetaName::Number, Some(body))], &mut made.meta)?;
    made.log = entry_of(alloc, Some((1, 1, body)))?;
    Ok(())
}

/// A batch of so many rows and as many pending changes, with a value and an entry of the log.
fn many(alloc: Global, count: u8, body: &[u8]) -> Result<Batch, AllocError> {
    let mut made = nothing(alloc);
    put_many_all(alloc, count, body, &mut made)?;
    Ok(made)
}

/// A store in memory refuses for want of memory alone, as a caller sees from its clauses.
fn commit(store: &mut MapStore, batch: &Batch) -> Result<(), StoreFault>
    ensures { IfErr result (λ fault. fault ≡ StoreFault.Memory) }
{
    store.commit(batch)
}

/// Commits once more: whether the store showed this before that.
fn commits_again(
    alloc: Global,
    store: &mut MapStore,
    batch: &Batch,
    before: &[u8],
) -> Result<bool, StoreFault> {
    let stays = shows(alloc, store, before)?;
    store.commit(batch)?;
    Ok(stays)
}

/// Commits, and once more where that was refused: whether the refusal was for memory and left what was there.
fn commits_at_last(alloc: Global, store: &mut MapStore, batch: &Batch) -> Result<bool, StoreFault> {
    let before = image(alloc, store)?;
    match commit(store, batch) {
        Ok(()) => Ok(true),
        Err(StoreFault::Memory) => commits_again(alloc, store, batch, before.as_slice()),
        Err(StoreFault::Device) => Ok(false),
    }
}

/// The same of a batch of so many edits.
fn commits_many(
    alloc: Global,
    store: &mut MapStore,
    count: u8,
    body: &[u8],
) -> Result<bool, StoreFault> {
    let batch = many(alloc, count, body)?;
    commits_at_last(alloc, store, &batch)
}

/// Whether the store holds what all of them left.
fn holds_all(store: &mut MapStore) -> Result<bool, StoreFault> {
    let rows = store.list(0)?.len() + store.list(LAST)?.len();
    let changes = store.pend_list(0)?.len() + store.pend_list(LAST)?.len();
    Ok(rows == 128 && changes == 128 && store.log_len()? == 3)
}

/// Three commits of which one may be refused, and what is shown behind them. The second has so many edits that all leaves are made
/// anew, and the third few.
fn commits_three(alloc: Global, store: &mut MapStore) -> Result<bool, StoreFault> {
    let first = commits_many(alloc, store, 80, b"first")?;
    let next = commits_many(alloc, store, 160, b"next")?;
    let last = commits_many(alloc, store, 20, b"last")?;
    Ok(first && next && last && holds_all(store)?)
}

fn commits_thrice(alloc: Global) -> Result<bool, StoreFault> {
    commits_three(alloc, &mut MapStore::new(alloc))
}

/// Everything is as it was where memory is refused, and the same call then succeeds. `bench/refuse_tests.sh` refuses each
/// allocation in turn here; a batch that can't be made, or a read that is refused, is tried again with the rest.
#[test]
fn refused_memory_leaves_everything(rt: HostRuntime) {
    let alloc = rt.alloc();
    let kept = match commits_thrice(alloc) {
        Ok(kept) => kept,
        Err(fault) => fault == StoreFault::Memory && commits_thrice(alloc).unwrap_or(false),
    };
    assert!(rt; kept);
}
