//! The changesets of entries that may be told as one, read from a store.

ghost use Rattle.std.specs.Prelude.{◌≡◌, ◌+◌, ◌≤◌, ◌<◌, ◌^◌, ℕ, All, List, Err, length, take, drop, IfOk};
ghost use Rattle.std.specs.List.{sum_by};
ghost use Rattle.cs_normal.specs.Normal.{normal_spelling};
ghost use Rattle.cs_pending.specs.Calls.{ReadsStore};
ghost use Rattle.cs_store.specs.Written.{items_of};
ghost use Rattle.cs_store.specs.declared.fault.StoreFault.TheVariants.{Device};
ghost use Rattle.cs_store.specs.declared.log.entry.LogEntry.{LogEntry as Entry};
ghost use Rattle.cs_store.specs.declared.log.entry.TheConstants.{MAX_CHANGESET};
ghost use Rattle.cs_store.specs.declared.log.fault.BodyFault.TheVariants.{NoBody};
ghost use Rattle.cs_store.specs.log.Entry.{WidensNone, entry_changes};
ghost use Rattle.cs_store.specs.log.Stored.{AreChangesOf};
ghost use Rattle.cs_value.specs.declared.catalog.TableDef.{TableDef};
ghost use Rattle.cs_hub.specs.log_reading.Reading.{ShowsEntriesBy};
ghost use Rattle.cs_hub.specs.log_reading.Steps.{AreOthers, AreStoredAs};
ghost use Rattle.cs_hub.specs.log_store.Versions.{ShowsBy, tables_by};

use crate::catching::is_told_alone;
use crate::log_reading::reading::{read_entry, stored_from};
use crate::log_store::Catalogs;
use cs_normal::Normal;
use cs_store::log::laws::{catalog_by_widens, catalog_next, most_bytes};
use cs_store::log::{Body, BodyFault, LogEntry};
use cs_store::{RowStore, StoreFault, StoredEntry};
use cs_value::Catalog;
use std::alloc::Global;

/// Changesets of a log's entries, one behind another. `bytes` says that they have as many together, where one may have so many.
#[derive(Drop)]
pub(crate) struct Others {
    pub changesets: Vec<Normal>,
    pub bytes: u64,
}

/// The changeset of an entry.
fn into_changes(entry: LogEntry) -> Normal
    requires { WidensNone entry.body }
    ensures { result ≡ entry_changes entry }
{
    match entry.body {
        Body::Changes(changes) => changes,
        Body::Widen { .. } => unreachable!(),
    }
}

/// The changesets of the entries that are stored so, up to the first that is told alone. The tables are those at the first of them: no
/// entry that widens one is passed.
fn read_others(
    alloc: Global,
    catalog: &Catalog,
    asker: u32,
    stored: &[StoredEntry],
) -> Result<Others, BodyFault>
    ensures read { (entries : List Entry) → (tables : ℕ → List TableDef) (first : ℕ) → tables first ≡ catalog.now
        → AreStoredAs tables first (items_of stored.now) entries
        → IfOk result (λ others. AreOthers asker entries others.changesets.items) }
    ensures unread { (entries : List Entry) → (tables : ℕ → List TableDef) (first : ℕ) → tables first ≡ catalog.now
        → AreStoredAs tables first (items_of stored.now) entries → result ≡ Err NoBody → ⊥ }
    ensures fit { IfOk result (λ others. All (AreChangesOf catalog.now) others.changesets.items) }
    ensures few { IfOk result (λ others. length others.changesets.items ≤ length stored.now) }
    ensures counted { IfOk result (λ others. others.bytes ≤ MAX_CHANGESET
        → sum_by (λ changes. length (normal_spelling changes)) others.changesets.items ≤ MAX_CHANGESET) }
{
    most_bytes();
    let mut changesets = Vec::with_capacity(alloc, stored.len())?;
    let mut bytes: u64 = 0;
    for entry in stored {
        let read = match read_entry(alloc, catalog, entry) {
            Ok(read) => read,
            Err(fault) => return Err(fault),
        };
        if is_told_alone(asker, &read) {
            return Ok(Others { changesets, bytes });
        }
        bytes = bytes.saturating_add(entry.body.len() as u64);
        changesets.push(into_changes(read))?;
    }
    Ok(Others { changesets, bytes })
}

/// The changesets of so many entries of the log, from a version on, up to the first that is told alone. An entry that isn't there, or is
/// none of the tables', is told to the store.
pub(crate) fn others_at<S: RowStore>(
    alloc: Global,
    store: &mut S,
    catalogs: &Catalogs,
    asker: u32,
    first: u32,
    count: u32,
) -> Result<Others, StoreFault>
    requires { first + count < 2 ^ 32 }

    // The store is only read.
    ensures reads { ReadsStore S.RowStore Device
        (ShowsEntriesBy catalogs.now (S.contents store.old) first count) store.old store.new result }

    // They are those of the log that the store shows.
    ensures found { S.honest store.new → (log : List Entry) → ShowsBy catalogs.now (S.contents store.old) log
        → first + count ≤ length log → IfOk result (λ others. AreOthers asker (take count (drop first log)) others.changesets.items) }

    // Each is one of the tables there. There are as many as asked for at most, and their bytes are counted.
    ensures fit { IfOk result (λ others. All (AreChangesOf (tables_by catalogs.now first)) others.changesets.items) }
    ensures few { IfOk result (λ others. length others.changesets.items ≤ count) }
    ensures counted { IfOk result (λ others. others.bytes ≤ MAX_CHANGESET
        → sum_by (λ changes. length (normal_spelling changes)) others.changesets.items ≤ MAX_CHANGESET) }
{
    catalog_by_widens();
    catalog_next();
    let stored = match stored_from(store, first, count) {
        Ok(stored) => stored,
        Err(fault) => return Err(fault),
    };
    match read_others(alloc, catalogs.at(first as u64), asker, stored.as_slice()) {
        Ok(others) => Ok(others),
        Err(BodyFault::NoBody) => Err(store.misread()),
        Err(BodyFault::Memory) => Err(StoreFault::Memory),
    }
}
