//! All that a store shows, as text.

use crate::commits::{BUT_LAST, LAST};
use cs_store::{MetaName, RowStore, StoreFault, StoredBody, StoredEntry};
use std::alloc::{AllocError, Global};

/// Writes a body that is listed, if a call for its key found the same.
fn put_body(
    image: &mut Vec<u8>,
    listed: &StoredBody,
    found: Option<Vec<u8>>,
) -> Result<(), AllocError> {
    image.extend_from_slice(listed.key.as_slice())?;
    image.push(b'=')?;
    if let Some(body) = found {
        if body.as_slice() == listed.body.as_slice() {
            image.extend_from_slice(body.as_slice())?;
        }
    }
    image.push(b';')?;
    Ok(())
}

fn put_row<S: RowStore>(
    image: &mut Vec<u8>,
    store: &mut S,
    table: u32,
    listed: &StoredBody,
) -> Result<(), StoreFault> {
    let found = store.get(table, listed.key.as_slice())?;
    Ok(put_body(image, listed, found)?)
}

/// The rows of a table, each also got by its key.
fn put_table<S: RowStore>(
    image: &mut Vec<u8>,
    store: &mut S,
    table: u32,
) -> Result<(), StoreFault> {
    for listed in &store.list(table)? {
        put_row(image, store, table, listed)?;
    }
    image.push(b'|')?;
    Ok(())
}

fn put_change<S: RowStore>(
    image: &mut Vec<u8>,
    store: &mut S,
    table: u32,
    listed: &StoredBody,
) -> Result<(), StoreFault> {
    let found = store.pend_get(table, listed.key.as_slice())?;
    Ok(put_body(image, listed, found)?)
}

/// The pending changes of a table, each also got by its key.
fn put_pending<S: RowStore>(
    image: &mut Vec<u8>,
    store: &mut S,
    table: u32,
) -> Result<(), StoreFault> {
    for listed in &store.pend_list(table)? {
        put_change(image, store, table, listed)?;
    }
    image.push(b'|')?;
    Ok(())
}

fn put_entry(image: &mut Vec<u8>, alloc: Global, entry: &StoredEntry) -> Result<(), AllocError> {
    let StoredEntry { origin, number, .. } = entry;
    image.extend_from_slice(format!(in alloc; "{origin}.{number}=")?.as_bytes())?;
    image.extend_from_slice(entry.body.as_slice())?;
    image.push(b';')?;
    Ok(())
}

/// The tables that are looked at.
const TABLES: [u32; 5] = [0, 1, 7, BUT_LAST, LAST];

/// The names of values.
const NAMES: [MetaName; 6] = [
    MetaName::Id,
    MetaName::Version,
    MetaName::Number,
    MetaName::Flight,
    MetaName::Pending,
    MetaName::Catalog,
];

/// The rows and the pending changes of all tables.
fn put_tables<S: RowStore>(image: &mut Vec<u8>, store: &mut S) -> Result<(), StoreFault> {
    for table in TABLES {
        put_table(image, store, table)?;
    }
    for table in TABLES {
        put_pending(image, store, table)?;
    }
    Ok(())
}

/// The values.
fn put_meta<S: RowStore>(image: &mut Vec<u8>, store: &mut S) -> Result<(), StoreFault> {
    for name in NAMES {
        match store.meta(name)? {
            Some(value) => image.extend_from_slice(value.as_slice())?,
            None => image.push(b'.')?,
        }
        image.push(b'|')?;
    }
    Ok(())
}

/// Whether the entry was found.
fn is_found(found: &Option<StoredEntry>, entry: &StoredEntry) -> bool {
    match found {
        Some(found) => {
            found.origin == entry.origin
                && found.number == entry.number
                && found.body.as_slice() == entry.body.as_slice()
        }
        None => false,
    }
}

/// A listed entry, and a mark where it isn't got by its version.
fn put_listed<S: RowStore>(
    image: &mut Vec<u8>,
    alloc: Global,
    store: &mut S,
    version: u32,
    entry: &StoredEntry,
) -> Result<(), StoreFault> {
    put_entry(image, alloc, entry)?;
    let found = store.log_get(version)?;
    if !is_found(&found, entry) {
        image.push(b'!')?;
    }
    Ok(())
}

/// The entries of the log, and a mark where there are more or fewer than are counted, or one is missing.
fn put_log<S: RowStore>(
    image: &mut Vec<u8>,
    alloc: Global,
    store: &mut S,
) -> Result<(), StoreFault> {
    let count = store.log_len()?;
    let listed = store.log_list(0, count.saturating_add(1))?;
    for version in 0..count {
        if let Some(entry) = listed.get(version as usize) {
            put_listed(image, alloc, store, version, entry)?;
        }
    }
    if listed.len() != count as usize || !store.log_is_whole()? {
        image.push(b'!')?;
    }
    image.push(b'|')?;
    Ok(())
}

fn put_image<S: RowStore>(
    image: &mut Vec<u8>,
    alloc: Global,
    store: &mut S,
) -> Result<(), StoreFault> {
    put_tables(image, store)?;
    put_meta(image, store)?;
    put_log(image, alloc, store)
}

/// All that a store shows, as text: the rows of five tables, their pending changes, the values, and the entries.
pub fn image<S: RowStore>(alloc: Global, store: &mut S) -> Result<Vec<u8>, StoreFault> {
    let mut image = Vec::new(alloc);
    put_image(&mut image, alloc, store)?;
    Ok(image)
}

/// The same of a store that is then let go; none where it can't be read.
// A store in SQLite is dear to let go in a proof, and any store is cheap.
pub fn image_of<S: RowStore + Drop>(alloc: Global, store: S) -> Option<Vec<u8>> {
    let mut store = store;
    image(alloc, &mut store).ok()
}

/// Whether the store shows this.
pub fn shows<S: RowStore>(alloc: Global, store: &mut S, shown: &[u8]) -> Result<bool, StoreFault> {
    Ok(image(alloc, store)?.as_slice() == shown)
}
