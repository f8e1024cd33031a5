//! What the programs share that run drawn cases: parts of a case, rows in a `MapStore`, answers, and lines.

use cs_apply::apply;
use cs_change::{ChangesBuf, Changeset};
use cs_changeset::read;
use cs_conflict::{Conflict, Resolution};
use cs_map_store::MapStore;
use cs_normal::catalog_of;
use cs_store::edits::PlaceEdits;
use cs_store::{Batch, RowStore};
use cs_value::Catalog;
use std::alloc::{AllocError, AllocFailed, Global};
use std::slice;

/// Why a case can't be run: its bytes are none, or there is no memory.
#[derive(Drop)]
pub enum Wrong {
    Case,
    Memory,
}

impl From<AllocError> for Wrong {
    fn from(_error: AllocError) -> Wrong {
        Wrong::Memory
    }
}

impl<T: Drop> From<AllocFailed<T>> for Wrong {
    fn from(_error: AllocFailed<T>) -> Wrong {
        Wrong::Memory
    }
}

/// The next part, behind its length in eight bytes, and what stands behind it.
pub fn take_part(bytes: &[u8]) -> Option<(&[u8], &[u8])> {
    let (length, rest) = bytes.split_first_chunk::<8>()?;
    let length = usize::try_from(u64::from_be_bytes(*length)).ok()?;
    rest.split_at_checked(length)
}

pub fn changeset_of(alloc: Global, bytes: &[u8]) -> Result<Changeset<'_>, Wrong> {
    match read(alloc, bytes) {
        Ok(changeset) => Ok(changeset),
        Err(_) => Err(Wrong::Case),
    }
}

/// The tables that these headers declare.
pub fn catalog_in(alloc: Global, declared: &[u8]) -> Result<Catalog, Wrong> {
    let declared = changeset_of(alloc, declared)?;
    match catalog_of(alloc, slice::from_ref(&declared)) {
        Ok(catalog) => Ok(catalog),
        Err(_) => Err(Wrong::Case),
    }
}

fn answer_of(digit: u8) -> Resolution {
    match digit {
        b'1' => Resolution::Replace,
        b'2' => Resolution::Abort,
        _ => Resolution::Omit,
    }
}

/// The answer to the conflict with this number: a digit each, where OMIT is 0, REPLACE 1 and ABORT 2; behind the last one
/// OMIT.
pub fn answer_at(answers: &[u8], number: usize) -> Resolution {
    match answers.get(number) {
        Some(digit) => answer_of(*digit),
        None => Resolution::Omit,
    }
}

fn batch_of(alloc: Global, rows: PlaceEdits) -> Batch {
    Batch {
        rows,
        pending: PlaceEdits::new(alloc),
        meta: Vec::new(alloc),
        log: None,
    }
}

pub fn commit_edits(alloc: Global, store: &mut MapStore, edits: PlaceEdits) -> Result<(), Wrong> {
    match store.commit(&batch_of(alloc, edits)) {
        Ok(()) => Ok(()),
        Err(_) => Err(Wrong::Memory),
    }
}

/// A store of rows, which are the INSERTs of a changeset.
pub fn store_of(alloc: Global, catalog: &Catalog, rows: &Changeset<'_>) -> Result<MapStore, Wrong> {
    let mut store = MapStore::new(alloc);
    let mut omit = |_conflict: &Conflict<'_>| Resolution::Omit;
    let Ok(applied) = apply(alloc, &mut store, catalog, rows, &mut omit) else {
        return Err(Wrong::Case);
    };
    commit_edits(alloc, &mut store, applied.edits)?;
    Ok(store)
}

pub fn put_number(alloc: Global, number: u64, out: &mut Vec<u8>) -> Result<(), AllocError> {
    let text = format!(in alloc; "{number}")?;
    out.extend_from_slice(text.as_str().as_bytes())
}

pub fn put_hex(alloc: Global, bytes: &[u8], out: &mut Vec<u8>) -> Result<(), AllocError> {
    let text = hex::encode(alloc, bytes)?;
    out.extend_from_slice(text.as_str().as_bytes())
}

/// A line of a word and a number.
pub fn put_count(
    alloc: Global,
    word: &str,
    count: u64,
    out: &mut Vec<u8>,
) -> Result<(), AllocError> {
    out.extend_from_slice(word.as_bytes())?;
    out.push(b' ')?;
    put_number(alloc, count, out)?;
    out.push(b'\n')?;
    Ok(())
}

/// A line of a conflict: its number, the table's place, the change and the row behind it.
pub fn put_conflict(
    alloc: Global,
    conflict: &Conflict<'_>,
    out: &mut Vec<u8>,
) -> Result<(), AllocError> {
    out.extend_from_slice(b"conflict ")?;
    put_number(alloc, u64::from(conflict.kind as u8), out)?;
    out.push(b' ')?;
    put_number(alloc, u64::from(conflict.table), out)?;
    out.push(b' ')?;
    let mut change = ChangesBuf::new(alloc);
    change.push(&conflict.change)?;
    put_hex(alloc, change.spelling(), out)?;
    out.push(b' ')?;
    match &conflict.row {
        Some(row) => put_hex(alloc, row.bytes(), out)?,
        None => out.push(b'-')?,
    }
    out.push(b'\n')?;
    Ok(())
}

/// A line of a row from this word on: the table's place, the key, the row.
pub fn put_row(
    alloc: Global,
    word: &str,
    table: u32,
    key: &[u8],
    row: &[u8],
    out: &mut Vec<u8>,
) -> Result<(), AllocError> {
    out.extend_from_slice(word.as_bytes())?;
    out.push(b' ')?;
    put_number(alloc, u64::from(table), out)?;
    out.push(b' ')?;
    put_hex(alloc, key, out)?;
    out.push(b' ')?;
    put_hex(alloc, row, out)?;
    out.push(b'\n')?;
    Ok(())
}

/// The rows of a table in the order of their keys, a line each.
fn put_table(
    alloc: Global,
    word: &str,
    store: &mut MapStore,
    table: u32,
    out: &mut Vec<u8>,
) -> Result<(), Wrong> {
    let Ok(rows) = store.list(table) else {
        return Err(Wrong::Memory);
    };
    for row in &rows {
        put_row(
            alloc,
            word,
            table,
            row.key.as_slice(),
            row.body.as_slice(),
            out,
        )?;
    }
    Ok(())
}

/// The rows of all tables.
pub fn put_rows(
    alloc: Global,
    word: &str,
    store: &mut MapStore,
    catalog: &Catalog,
    out: &mut Vec<u8>,
) -> Result<(), Wrong> {
    for table in 0..catalog.tables().len() as u32 {
        put_table(alloc, word, store, table, out)?;
    }
    Ok(())
}
