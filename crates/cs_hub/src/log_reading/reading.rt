//! Entries, read from a store.

ghost use Rattle.std.specs.Prelude.{◌≡◌, ◌↔◌, ◌+◌, ◌≤◌, ◌<◌, ◌^◌, List, Some, Err, length, take, drop, slice_get, IfOk, IsTrue};
ghost use Rattle.cs_store.specs.log.Stored.{IsEntryOf, stored_body};
ghost use Rattle.cs_store.specs.declared.log.entry.LogEntry.{LogEntry as Entry};
ghost use Rattle.cs_store.specs.declared.log.fault.BodyFault.TheVariants.{NoBody};
ghost use Rattle.cs_hub.specs.log_store.Shows.{item_of_entry};
ghost use Rattle.cs_hub.specs.log_store.Versions.{ShowsBy, ShowsSomeBy, tables_by};
ghost use Rattle.cs_hub.specs.log_reading.Reading.{ShowsEntriesBy};
ghost use Rattle.cs_hub.specs.log_reading.Steps.{AreStoredAs, HasRange, IsStoredAs, ReadsAs};
ghost use Rattle.cs_pending.specs.Calls.{ReadsStore};
ghost use Rattle.cs_store.specs.Contents.{log_range};
ghost use Rattle.cs_store.specs.Written.{item_of, items_of};
ghost use Rattle.cs_store.specs.declared.fault.StoreFault.TheVariants.{Device};

use crate::log_store::Catalogs;
use cs_store::log::laws::{catalog_by_widens, catalog_next, one_body};
use cs_store::log::{Body, BodyFault, LogEntry, put_body, read_body};
use cs_store::{RowStore, StoreFault, StoredEntry};
use cs_value::{Catalog, Memory};
use std::alloc::Global;

/// What is stored of so many entries, from a version on. That one isn't there is told to the store.
pub(crate) fn stored_from<S: RowStore>(
    store: &mut S,
    first: u32,
    count: u32,
) -> Result<Vec<StoredEntry>, StoreFault>
    requires { first + count < 2 ^ 32 }
    ensures reads { ReadsStore S.RowStore Device
        (HasRange (S.contents store.old) first count) store.old store.new result }
    ensures found { S.honest store.new → IfOk result (λ stored.
        items_of stored.items ≡ log_range (S.contents store.old) first count) }
    ensures counted { IfOk result (λ stored. length stored.items ≡ count) }
{
    let stored = match store.log_list(first, count) {
        Ok(stored) => stored,
        Err(fault) => return Err(fault),
    };
    if stored.len() != count as usize {
        return Err(store.misread());
    }
    Ok(stored)
}

/// Whether the bytes are those that the body is stored as.
fn is_stored_as(alloc: Global, body: &Body, bytes: &[u8]) -> Result<bool, Memory>
    ensures { IfOk result (λ is. IsTrue is ↔ (stored_body body.now ≡ bytes.now)) }
{
    let mut stored = Vec::with_capacity(alloc, bytes.len())?;
    put_body(body, &mut stored)?;
    Ok(stored.as_slice() == bytes)
}

/// Whether what is stored is the entry.
fn is_entry(alloc: Global, stored: &StoredEntry, entry: &LogEntry) -> Result<bool, Memory>
    ensures { IfOk result (λ is. IsTrue is ↔ (item_of stored.now ≡ item_of_entry entry.now)) }
{
    if stored.origin != entry.origin || stored.number != entry.number {
        return Ok(false);
    }
    let is = is_stored_as(alloc, &entry.body, stored.body.as_slice())?;
    Ok(is)
}

/// Whether the log has this entry at a version. Of a log without that version it says no. Nothing is decoded.
pub fn has_entry<S: RowStore>(
    alloc: Global,
    store: &mut S,
    catalogs: &Catalogs,
    version: u32,
    entry: &LogEntry,
) -> Result<bool, StoreFault>
    requires { IsEntryOf (tables_by catalogs.now version) entry.now }

    // The store is only read.
    ensures reads { ReadsStore S.RowStore Device
        (ShowsSomeBy catalogs.now (S.contents store.old)) store.old store.new result }

    // It says whether the log that the store shows has it there.
    ensures told { S.honest store.new → (log : List Entry) → ShowsBy catalogs.now (S.contents store.old) log
        → IfOk result (λ has. IsTrue has ↔ (slice_get log version ≡ Some entry.now)) }
{
    one_body();
    catalog_by_widens();
    let _tables = catalogs.at(version as u64).tables();
    let stored = match store.log_get(version) {
        Ok(Some(stored)) => stored,
        Ok(None) => return Ok(false),
        Err(fault) => return Err(fault),
    };
    let is = is_entry(alloc, &stored, entry)?;
    Ok(is)
}

/// The entry that is stored so.
pub(crate) fn read_entry(
    alloc: Global,
    catalog: &Catalog,
    stored: &StoredEntry,
) -> Result<LogEntry, BodyFault>
    ensures is { IfOk result (IsStoredAs catalog.now (item_of stored.now)) }
    ensures only { (entry : Entry) → IsStoredAs catalog.now (item_of stored.now) entry → ReadsAs entry result }
{
    one_body();
    let body = read_body(alloc, catalog, stored.body.as_slice())?;
    Ok(LogEntry {
        origin: stored.origin,
        number: stored.number,
        body,
    })
}

/// The entries that are stored so from a version on, each by the tables there.
fn read_each(
    alloc: Global,
    catalogs: &Catalogs,
    first: u32,
    stored: &[StoredEntry],
) -> Result<Vec<LogEntry>, BodyFault>
    ensures read { (entries : List Entry) → AreStoredAs (tables_by catalogs.now) first (items_of stored.now) entries → IfOk result (λ read. read.items ≡ entries) }
    ensures unread { (entries : List Entry) → AreStoredAs (tables_by catalogs.now) first (items_of stored.now) entries → result ≡ Err NoBody → ⊥ }
{
    let mut entries = Vec::with_capacity(alloc, stored.len())?;
    for (index, entry) in stored.iter().enumerate() {
        match read_entry(alloc, catalogs.at(first as u64 + index as u64), entry) {
            Ok(read) => entries.push(read)?,
            Err(fault) => return Err(fault),
        }
    }
    Ok(entries)
}

/// So many entries of the log, from a version on. An entry that isn't there, or is none of the tables', is told to the store.
pub fn entries_at<S: RowStore>(
    alloc: Global,
    store: &mut S,
    catalogs: &Catalogs,
    first: u32,
    count: u32,
) -> Result<Vec<LogEntry>, StoreFault>
    requires { first + count < 2 ^ 32 }

    // The store is only read.
    ensures reads { ReadsStore S.RowStore Device
        (ShowsEntriesBy catalogs.now (S.contents store.old) first count) store.old store.new result }

    // They are those of the log that the store shows.
    ensures found { S.honest store.new → (log : List Entry) → ShowsBy catalogs.now (S.contents store.old) log
        → first + count ≤ length log → IfOk result (λ entries. entries.items ≡ take count (drop first log)) }
{
    catalog_by_widens();
    catalog_next();
    let stored = match stored_from(store, first, count) {
        Ok(stored) => stored,
        Err(fault) => return Err(fault),
    };
    match read_each(alloc, catalogs, first, stored.as_slice()) {
        Ok(entries) => Ok(entries),
        Err(BodyFault::NoBody) => Err(store.misread()),
        Err(BodyFault::Memory) => Err(StoreFault::Memory),
    }
}
