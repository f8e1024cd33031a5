//! Edits as calls: refusals that no line can ask for, and what an edit writes. Calls that are refused, by the device, for want of memory or
//! for bytes that are no row, leave everything. What edits leave one after another is rows of `bench/check_node.sh`.

use cs_map_store::MapStore;
use cs_pending::outgoing::{Outgoing, gather};
use cs_pending::*;
use cs_record::{RowBuf, read_row};
use cs_store::edits::{PlaceEdit, PlaceEdits};
use cs_store::{Batch, RowStore, StoreFault, Trip, Written};
use cs_value::{Catalog, Field, Items, TableDef, Text, Value};
use std::alloc::{AllocError, Global};

/// A value.
#[derive(Clone, Copy)]
enum Cell {
    Null,
    Int(i64),
    Text(&'static str),
}

/// An edit of the table with this name: a row, a key and fields, or a key.
enum Step {
    Insert(&'static str, &'static [Cell]),
    Update(&'static str, &'static [Cell], &'static [Option<Cell>]),
    Delete(&'static str, &'static [Cell]),
}

/// A table of two columns, of which the first is the key.
fn table(alloc: Global, name: &str) -> Result<TableDef, AllocError> {
    Ok(TableDef {
        name: Text::from_string(String::from_str(alloc, name)?),
        key_marks: Items::from_vec(vec![in alloc; true, false]?),
    })
}

fn tables(alloc: Global) -> Result<Vec<TableDef>, AllocError> {
    let mut tables = Vec::new(alloc);
    tables.push(table(alloc, "t")?)?;
    tables.push(table(alloc, "s")?)?;
    Ok(tables)
}

pub(crate) fn catalog(alloc: Global) -> Option<Catalog> {
    Catalog::new(tables(alloc).ok()?).ok()
}

/// The catalog, and a store in which these bytes stand as the row with the key 2.
fn begun(alloc: Global, body: &[u8]) -> Option<(Catalog, MapStore)> {
    let catalog = catalog(alloc)?;
    let Ok(store) = store_of(alloc, body) else {
        return None;
    };
    Some((catalog, store))
}

fn value_of(alloc: Global, cell: Cell) -> Result<Value, AllocError> {
    Ok(match cell {
        Cell::Null => Value::Null,
        Cell::Int(number) => Value::Int(number),
        Cell::Text(text) => Value::Text(Text::from_string(String::from_str(alloc, text)?)),
    })
}

fn values_of(alloc: Global, cells: &[Cell]) -> Result<Items<Value>, AllocError> {
    let mut values = Vec::new(alloc);
    for cell in cells {
        values.push(value_of(alloc, *cell)?)?;
    }
    Ok(Items::from_vec(values))
}

fn field_of(alloc: Global, cell: Option<Cell>) -> Result<Field, AllocError> {
    match cell {
        None => Ok(Field::Undefined),
        Some(cell) => Ok(Field::Is(value_of(alloc, cell)?)),
    }
}

fn fields_of(alloc: Global, cells: &[Option<Cell>]) -> Result<Vec<Field>, AllocError> {
    let mut fields = Vec::new(alloc);
    for cell in cells {
        fields.push(field_of(alloc, *cell)?)?;
    }
    Ok(fields)
}

/// Makes an edit, where so many changes are pending.
fn make<S: RowStore>(
    alloc: Global,
    store: &mut S,
    catalog: &Catalog,
    step: &Step,
    pending: u64,
) -> Result<u64, EditFault> {
    match step {
        Step::Insert(name, row) => {
            let row = values_of(alloc, row)?;
            edit_row(alloc, store, catalog, name, &RowEdit::Insert(&row), pending)
        }
        Step::Update(name, key, fields) => {
            let key = values_of(alloc, key)?;
            let fields = fields_of(alloc, fields)?;
            let edit = RowEdit::Update(&key, fields.as_slice());
            edit_row(alloc, store, catalog, name, &edit, pending)
        }
        Step::Delete(name, key) => {
            let key = values_of(alloc, key)?;
            edit_row(alloc, store, catalog, name, &RowEdit::Delete(&key), pending)
        }
    }
}

/// The key 1, and the key 2.
pub(crate) const ONE: &[u8] = &[1, 0, 0, 0, 0, 0, 0, 0, 1];

pub(crate) const TWO: &[u8] = &[1, 0, 0, 0, 0, 0, 0, 0, 2];

/// The rows (1, 'x'), (1, 'y'), (2, 'b'), (2, 'c') and (2, 'd').
pub(crate) const ONE_X: &[u8] = &[1, 0, 0, 0, 0, 0, 0, 0, 1, 3, 1, 0x78];

const ONE_Y: &[u8] = &[1, 0, 0, 0, 0, 0, 0, 0, 1, 3, 1, 0x79];

const TWO_B: &[u8] = &[1, 0, 0, 0, 0, 0, 0, 0, 2, 3, 1, 0x62];

pub(crate) const TWO_C: &[u8] = &[1, 0, 0, 0, 0, 0, 0, 0, 2, 3, 1, 0x63];

const TWO_D: &[u8] = &[1, 0, 0, 0, 0, 0, 0, 0, 2, 3, 1, 0x64];

/// The INSERTs of (1, 'x') and (1, 'y').
pub(crate) const INSERT_X: &[u8] = &[18, 0, 1, 0, 0, 0, 0, 0, 0, 0, 1, 3, 1, 0x78];

const INSERT_Y: &[u8] = &[18, 0, 1, 0, 0, 0, 0, 0, 0, 0, 1, 3, 1, 0x79];

/// The UPDATEs of (2, 'b') to 'c' and to 'd', and its DELETE.
pub(crate) const B_TO_C: &[u8] = &[23, 0, 1, 0, 0, 0, 0, 0, 0, 0, 2, 3, 1, 0x62, 0, 3, 1, 0x63];

const B_TO_D: &[u8] = &[23, 0, 1, 0, 0, 0, 0, 0, 0, 0, 2, 3, 1, 0x62, 0, 3, 1, 0x64];

const DELETE_B: &[u8] = &[9, 0, 1, 0, 0, 0, 0, 0, 0, 0, 2, 3, 1, 0x62];

/// The UPDATE of (1, 'x') to 'y'.
const X_TO_Y: &[u8] = &[23, 0, 1, 0, 0, 0, 0, 0, 0, 0, 1, 3, 1, 0x78, 0, 3, 1, 0x79];

/// The edit that sets this body at a key.
fn set_body(alloc: Global, key: &[u8], body: &[u8]) -> Result<PlaceEdits, AllocError> {
    let mut edits = PlaceEdits::new(alloc);
    edits.push(&PlaceEdit::new(0, key, Some(body)))?;
    Ok(edits)
}

/// A store in which these bytes stand as the row with the key 2.
fn store_of(alloc: Global, body: &[u8]) -> Result<MapStore, StoreFault> {
    let rows = set_body(alloc, TWO, body)?;
    let mut store = MapStore::new(alloc);
    store.commit(&Batch {
        rows,
        pending: PlaceEdits::new(alloc),
        meta: Vec::new(alloc),
        log: None,
    })?;
    Ok(store)
}

/// Whether these are the bytes, or there are none.
pub(crate) fn are_bytes(found: Option<Vec<u8>>, wanted: Option<&[u8]>) -> bool {
    match (found, wanted) {
        (None, None) => true,
        (Some(found), Some(wanted)) => found.as_slice() == wanted,
        _ => false,
    }
}

/// Whether this row stands at a key and this change is pending there.
fn stands<S: RowStore>(
    store: &mut S,
    key: &[u8],
    row: Option<&[u8]>,
    change: Option<&[u8]>,
) -> Result<bool, StoreFault> {
    let is_row = are_bytes(store.get(0, key)?, row);
    Ok(are_bytes(store.pend_get(0, key)?, change) && is_row)
}

/// An edit, the key of its row, the row that stands there then, the change that is pending there, and how many are.
type Case = (
    Step,
    &'static [u8],
    Option<&'static [u8]>,
    Option<&'static [u8]>,
    u64,
);

const K1: &[Cell] = &[Cell::Int(1)];

const K2: &[Cell] = &[Cell::Int(2)];

/// A row that comes, changes and goes; and one that changes, changes back, goes and comes again, and stays as it is.
const CASES: [Case; 8] = [
    (
        Step::Insert("t", &[Cell::Int(1), Cell::Text("x")]),
        ONE,
        Some(ONE_X),
        Some(INSERT_X),
        1,
    ),
    (
        Step::Update("t", K1, &[None, Some(Cell::Text("y"))]),
        ONE,
        Some(ONE_Y),
        Some(INSERT_Y),
        1,
    ),
    (
        Step::Update("t", K2, &[None, Some(Cell::Text("c"))]),
        TWO,
        Some(TWO_C),
        Some(B_TO_C),
        2,
    ),
    (Step::Delete("t", K1), ONE, None, None, 1),
    (
        Step::Update("t", K2, &[None, Some(Cell::Text("b"))]),
        TWO,
        Some(TWO_B),
        None,
        0,
    ),
    (Step::Delete("t", K2), TWO, None, Some(DELETE_B), 1),
    (
        Step::Insert("t", &[Cell::Int(2), Cell::Text("d")]),
        TWO,
        Some(TWO_D),
        Some(B_TO_D),
        1,
    ),
    (
        Step::Update("t", K2, &[None, Some(Cell::Text("d"))]),
        TWO,
        Some(TWO_D),
        Some(B_TO_D),
        1,
    ),
];

/// Whether an edit leaves what the case says.
fn leaves<S: RowStore>(
    alloc: Global,
    store: &mut S,
    catalog: &Catalog,
    case: &Case,
    pending: u64,
) -> Result<bool, EditFault> {
    let count = make(alloc, store, catalog, &case.0, pending)?;
    Ok(stands(store, case.1, case.2, case.3)? && count == case.4)
}

const K9: &[Cell] = &[Cell::Int(9)];

const NULL: &[Cell] = &[Cell::Null];

const PAIR: &[Cell] = &[Cell::Int(2), Cell::Text("b")];

const NEW_TEXT: &[Option<Cell>] = &[None, Some(Cell::Text("c"))];

const NEW_KEY: &[Option<Cell>] = &[Some(Cell::Int(2)), None];

/// Edits that are refused, each for a reason that goes before another of its own. They name no table, have a wrong width or NULL in the
/// key, or have a field at a key column.
const REFUSED: [(Step, EditFault); 7] = [
    (Step::Update("u", PAIR, &[]), EditFault::NoTable),
    (Step::Delete("", PAIR), EditFault::NoTable),
    (Step::Update("t", PAIR, NEW_KEY), EditFault::Width),
    (
        Step::Update("t", NULL, &[Some(Cell::Int(2))]),
        EditFault::Width,
    ),
    (Step::Update("t", NULL, NEW_KEY), EditFault::NullKey),
    (Step::Update("t", K9, NEW_KEY), EditFault::KeyColumn),
    (Step::Update("t", K2, NEW_KEY), EditFault::KeyColumn),
];

/// Whether each of them is refused so.
fn are_refused<S: RowStore>(alloc: Global, store: &mut S, catalog: &Catalog) -> bool {
    for (step, fault) in &REFUSED {
        if make(alloc, store, catalog, step, 0) != Err(*fault) {
            return false;
        }
    }
    true
}

/// Whether the row (2, 'b') stands alone, and nothing is pending there.
fn is_untouched<S: RowStore>(store: &mut S) -> Result<bool, StoreFault> {
    let stays = stands(store, TWO, Some(TWO_B), None)?;
    Ok(stays && store.list(0)?.len() == 1)
}

/// Whether each of them is refused so, with nothing changed.
fn each_is_refused(alloc: Global) -> bool {
    match begun(alloc, TWO_B) {
        Some((catalog, mut store)) => {
            are_refused(alloc, &mut store, &catalog) && is_untouched(&mut store) == Ok(true)
        }
        None => false,
    }
}

/// Whether a fault prints like this.
fn prints(alloc: Global, fault: EditFault, printed: &str) -> bool {
    match fault.to_string(alloc) {
        Ok(text) => text.as_str() == printed,
        Err(AllocError) => false,
    }
}

#[test]
fn the_first_fault_is_told(rt: HostRuntime) {
    let alloc = rt.alloc();
    assert!(rt; each_is_refused(alloc));
    assert!(rt; prints(alloc, EditFault::KeyColumn, "KeyColumn"));
    assert!(rt; prints(alloc, EditFault::Device, "Device"));
}

/// What is written by so many edits of rows and of pending changes.
fn written(rows: u64, pending: u64) -> Written {
    Written {
        rows,
        pending,
        meta: 0,
        log: 0,
    }
}

/// A thousand rows with pending changes are put in, one after another.
fn put_thousand<S: RowStore>(
    alloc: Global,
    store: &mut S,
    catalog: &Catalog,
) -> Result<u64, EditFault> {
    let mut pending = 0;
    for number in 0..1000i64 {
        let mut values = Vec::new(alloc);
        values.push(Value::Int(number + 10))?;
        values.push(Value::Null)?;
        let row = Items::from_vec(values);
        pending = edit_row(alloc, store, catalog, "t", &RowEdit::Insert(&row), pending)?;
    }
    Ok(pending)
}

/// Whether an edit writes one row and one pending change whatever is pending, and one that changes nothing writes nothing.
fn writes_one_place(
    alloc: Global,
    trip: &mut Trip<MapStore>,
    catalog: &Catalog,
) -> Result<bool, EditFault> {
    let pending = put_thousand(alloc, trip, catalog)?;
    let many = trip.written() == written(1000, 1000);
    let changed = make(alloc, trip, catalog, &CASES[2].0, pending)?;
    let one = changed == 1001 && trip.written() == written(1001, 1001);
    let same = make(alloc, trip, catalog, &CASES[2].0, 1001)?;
    Ok(many && one && same == 1001 && trip.written() == written(1001, 1001))
}

fn edits_write_one_place(alloc: Global) -> bool {
    match begun(alloc, TWO_B) {
        Some((catalog, store)) => {
            let mut trip = Trip::new(store, u64::MAX);
            writes_one_place(alloc, &mut trip, &catalog) == Ok(true)
        }
        None => false,
    }
}

#[test]
fn an_edit_writes_one_place(rt: HostRuntime) {
    assert!(rt; edits_write_one_place(rt.alloc()));
}

/// An edit of each kind where only the row (2, 'b') stands.
const ALONE: [Case; 3] = [
    (
        Step::Insert("t", &[Cell::Int(1), Cell::Text("x")]),
        ONE,
        Some(ONE_X),
        Some(INSERT_X),
        1,
    ),
    (
        Step::Update("t", K2, NEW_TEXT),
        TWO,
        Some(TWO_C),
        Some(B_TO_C),
        1,
    ),
    (Step::Delete("t", K2), TWO, None, Some(DELETE_B), 1),
];

/// Whether an edit is refused where the device refuses this call, leaves everything, and then is made.
fn is_made_again(
    alloc: Global,
    trip: &mut Trip<MapStore>,
    catalog: &Catalog,
    case: &Case,
) -> Result<bool, EditFault> {
    let told = make(alloc, trip, catalog, &case.0, 0) == Err(EditFault::Device);
    let counts = trip.failures() == 1 && trip.written() == written(0, 0);
    let stays = stands(trip, TWO, Some(TWO_B), None)?;
    let made = leaves(alloc, trip, catalog, case, 0)?;
    Ok(told && counts && stays && made)
}

fn call_is_refused(alloc: Global, refused: u64, case: &Case) -> bool {
    match begun(alloc, TWO_B) {
        Some((catalog, store)) => {
            let mut trip = Trip::new(store, refused);
            is_made_again(alloc, &mut trip, &catalog, case) == Ok(true)
        }
        None => false,
    }
}

#[test]
fn an_edit_that_the_device_refuses_changes_nothing(rt: HostRuntime) {
    let alloc = rt.alloc();
    for refused in 0..3u64 {
        for case in &ALONE {
            assert!(rt; call_is_refused(alloc, refused, case));
        }
    }
}

/// Makes these bytes the change that is pending at the key 2.
fn put_change<S: RowStore>(alloc: Global, store: &mut S, change: &[u8]) -> Result<(), StoreFault> {
    let pending = set_body(alloc, TWO, change)?;
    store.commit(&Batch {
        rows: PlaceEdits::new(alloc),
        pending,
        meta: Vec::new(alloc),
        log: None,
    })
}

/// Whether bytes that are no row, or no change of the table, are told as the device's, and counted.
fn is_unread<S: RowStore>(
    alloc: Global,
    store: &mut S,
    catalog: &Catalog,
    row: &[u8],
    change: &[u8],
) -> Result<bool, StoreFault> {
    put_change(alloc, store, change)?;
    let told = make(alloc, store, catalog, &CASES[2].0, 1) == Err(EditFault::Device);
    let stays = stands(store, TWO, Some(row), Some(change))?;
    Ok(told && stays && store.failures() == 1)
}

fn is_told_unread(alloc: Global, row: &[u8], change: &[u8]) -> bool {
    match begun(alloc, row) {
        Some((catalog, mut store)) => {
            is_unread(alloc, &mut store, &catalog, row, change) == Ok(true)
        }
        None => false,
    }
}

#[test]
fn what_is_no_row_or_change_is_told(rt: HostRuntime) {
    let alloc = rt.alloc();
    assert!(rt; is_told_unread(alloc, &TWO_B[..11], B_TO_C));
    assert!(rt; is_told_unread(alloc, TWO_C, &B_TO_C[..17]));
    assert!(rt; is_told_unread(alloc, TWO_C, &[]));
}

/// A row that is spelled by these bytes.
fn row(alloc: Global, bytes: &[u8]) -> Result<RowBuf, StoreFault> {
    match read_row(bytes, 2) {
        Some((row, _len)) => Ok(RowBuf::of_row(alloc, &row)?),
        None => Err(StoreFault::Device),
    }
}

/// Settles a place that stands as the store has it: what stood there and what stands there are spelled so.
fn settle_at<S: RowStore>(
    alloc: Global,
    store: &mut S,
    catalog: &Catalog,
    settling: &mut Settling,
    key: &[u8],
    rows: (&[u8], &[u8]),
) -> Result<(), StoreFault> {
    let Some(table) = catalog.tables().get(0) else {
        return Err(StoreFault::Device);
    };
    let place = RowPlace {
        table,
        number: 0,
        key,
    };
    let before = standing_at(alloc, store, catalog, &place)?;
    let base = row(alloc, rows.0)?;
    let mine = row(alloc, rows.1)?;
    settling.settle(
        alloc,
        &place,
        &before,
        Some(&base.as_row()),
        Some(&mine.as_row()),
    )?;
    Ok(())
}

/// Edits of both places: at the first (1, 'y') over (1, 'x'), and at the second what stands there, over what stood there.
fn settled<S: RowStore>(
    alloc: Global,
    store: &mut S,
    catalog: &Catalog,
) -> Result<Settling, StoreFault> {
    let mut settling = Settling::new(alloc, 0);
    settle_at(alloc, store, catalog, &mut settling, ONE, (ONE_X, ONE_Y))?;
    settle_at(alloc, store, catalog, &mut settling, TWO, (TWO_B, TWO_B))?;
    Ok(settling)
}

/// Whether a commit of them leaves a row and a pending change at the first place, and edits nothing at the second.
fn settles_two<S: RowStore>(
    alloc: Global,
    store: &mut S,
    catalog: &Catalog,
) -> Result<bool, StoreFault> {
    let settling = settled(alloc, store, catalog)?;
    let counts = settling.count == 1 && settling.rows.len() == 1 && settling.pending.len() == 1;
    store.commit(&Batch {
        rows: settling.rows,
        pending: settling.pending,
        meta: Vec::new(alloc),
        log: None,
    })?;
    let first = stands(store, ONE, Some(ONE_Y), Some(X_TO_Y))?;
    Ok(counts && first && stands(store, TWO, Some(TWO_B), None)?)
}

fn two_are_settled(alloc: Global) -> bool {
    match begun(alloc, TWO_B) {
        Some((catalog, mut store)) => settles_two(alloc, &mut store, &catalog) == Ok(true),
        None => false,
    }
}

#[test]
fn places_are_settled_for_one_commit(rt: HostRuntime) {
    assert!(rt; two_are_settled(rt.alloc()));
}

/// Edits of which one may be refused for memory, and then is made.
fn edits_at_last(
    alloc: Global,
    store: &mut MapStore,
    catalog: &Catalog,
) -> Result<bool, EditFault> {
    let mut kept = true;
    let mut pending = 0;
    for case in &CASES {
        if let Err(fault) = make(alloc, store, catalog, &case.0, pending) {
            kept = kept && fault == EditFault::Memory;
            make(alloc, store, catalog, &case.0, pending)?;
        }
        kept = kept && stands(store, case.1, case.2, case.3)?;
        pending = case.4;
    }
    Ok(kept)
}

/// The edits over a store of their own.
fn edits_all(alloc: Global) -> Option<bool> {
    let (catalog, mut store) = begun(alloc, TWO_B)?;
    edits_at_last(alloc, &mut store, &catalog).ok()
}

/// Everything is as it was where memory is refused, and the same edit is then made. `bench/refuse_tests.sh` refuses each
/// allocation in turn here; where it is refused to what stands around the edits, all is tried again.
#[test]
fn refused_memory_leaves_everything(rt: HostRuntime) {
    let alloc = rt.alloc();
    let kept = match edits_all(alloc) {
        Some(kept) => kept,
        None => edits_all(alloc) == Some(true),
    };
    assert!(rt; kept);
}

/// Two groups: of `t` the INSERT of (1, 'x') and the UPDATE of (2, 'b') to 'c', and of `s` the INSERT of (1, 'x').
const GATHERED: &[u8] = &[
    0x54, 2, 1, 0, 0x74, 0, 18, 0, 1, 0, 0, 0, 0, 0, 0, 0, 1, 3, 1, 0x78, 23, 0, 1, 0, 0, 0, 0, 0,
    0, 0, 2, 3, 1, 0x62, 0, 3, 1, 0x63, 0x54, 2, 1, 0, 0x73, 0, 18, 0, 1, 0, 0, 0, 0, 0, 0, 0, 1,
    3, 1, 0x78,
];

/// Whether what is pending is spelled so; without bytes, whether nothing is pending.
fn gathers<S: RowStore>(
    alloc: Global,
    store: &mut S,
    catalog: &Catalog,
    wanted: &[u8],
) -> Result<bool, StoreFault> {
    match gather(alloc, store, catalog)? {
        Outgoing::Nothing => Ok(wanted.is_empty()),
        Outgoing::TooLarge => Ok(false),
        Outgoing::Changes(changes) => {
            let mut spelled = Vec::new(alloc);
            changes.encode(&mut spelled)?;
            Ok(spelled.as_slice() == wanted)
        }
    }
}

/// The edits that this changeset has, in another order.
const EDITS: [Step; 3] = [
    Step::Insert("s", &[Cell::Int(1), Cell::Text("x")]),
    Step::Update("t", K2, NEW_TEXT),
    Step::Insert("t", &[Cell::Int(1), Cell::Text("x")]),
];

/// Makes these edits.
fn make_all<S: RowStore>(alloc: Global, store: &mut S, catalog: &Catalog) -> Result<(), EditFault> {
    for step in &EDITS {
        make(alloc, store, catalog, step, 0)?;
    }
    Ok(())
}

/// Whether a listing that the device refuses is told, and then is made.
fn is_gathered_again(
    alloc: Global,
    trip: &mut Trip<MapStore>,
    catalog: &Catalog,
) -> Result<bool, StoreFault> {
    let told = gathers(alloc, trip, catalog, GATHERED) == Err(StoreFault::Device);
    let counts = trip.failures() == 1;
    Ok(told && counts && gathers(alloc, trip, catalog, GATHERED)?)
}

fn listing_is_refused(alloc: Global, refused: u64) -> bool {
    match begun(alloc, TWO_B) {
        Some((catalog, mut store)) => {
            if make_all(alloc, &mut store, &catalog) != Ok(()) {
                return false;
            }
            let mut trip = Trip::new(store, refused);
            is_gathered_again(alloc, &mut trip, &catalog) == Ok(true)
        }
        None => false,
    }
}

/// Whether bytes that are no change are told as the device's, and counted.
fn is_ungathered<S: RowStore>(
    alloc: Global,
    store: &mut S,
    catalog: &Catalog,
) -> Result<bool, StoreFault> {
    put_change(alloc, store, &B_TO_C[..17])?;
    let told = gathers(alloc, store, catalog, &[]) == Err(StoreFault::Device);
    Ok(told && store.failures() == 1)
}

fn is_told_ungathered(alloc: Global) -> bool {
    match begun(alloc, TWO_C) {
        Some((catalog, mut store)) => is_ungathered(alloc, &mut store, &catalog) == Ok(true),
        None => false,
    }
}

#[test]
fn what_cannot_be_gathered_is_told(rt: HostRuntime) {
    let alloc = rt.alloc();
    assert!(rt; listing_is_refused(alloc, 0));
    assert!(rt; listing_is_refused(alloc, 1));
    assert!(rt; is_told_ungathered(alloc));
}
