//! Entries, written from a store into an answer.

ghost use Rattle.std.specs.Prelude.{◌≡◌, ◌+◌, ◌≤◌, ◌<◌, ◌^◌, ◌++◌, List, length, map, take, drop, IfOk, IsTrue};
ghost use Rattle.std.specs.List.{flat_map};
ghost use Rattle.cs_store.specs.declared.log.entry.LogEntry.{LogEntry as Entry};
ghost use Rattle.cs_hub.specs.log_store.Shows.{ShowsLog};
ghost use Rattle.cs_hub.specs.log_reading.Reading.{ShowsEntries};
ghost use Rattle.cs_hub.specs.log_reading.Steps.{AreToldAs, IsToldAs};
ghost use Rattle.cs_pending.specs.Calls.{ReadsStore};
ghost use Rattle.cs_store.specs.Written.{item_of, items_of};
ghost use Rattle.cs_store.specs.declared.fault.StoreFault.TheVariants.{Device};
ghost use Rattle.cs_wire.specs.Answers.{answer_spelling};
ghost use Rattle.cs_wire.specs.Entries.{ToldEntry, entry_spelling};
ghost use Rattle.cs_wire.specs.Told.{told_entry};
ghost use Rattle.cs_wire.specs.declared.answer.Answer.TheVariants.{Entries};

use crate::log_reading::reading::stored_from;
use cs_store::log::MAX_CHANGESET;
use cs_store::log::laws::most_bytes;
use cs_store::{RowStore, StoreFault, StoredEntry};
use cs_value::{Catalog, Memory};
use cs_wire::{entries_head, put_entry};
use std::alloc::Global;

/// Appends an entry as an answer tells it, if one can.
fn put_stored(stored: &StoredEntry, out: &mut Vec<u8>) -> Result<bool, Memory>
    ensures { (told : ToldEntry) → IsToldAs (item_of stored.now) told
        → IfOk result (λ put. IsTrue put × (out.new.items ≡ out.old.items ++ entry_spelling told)) }
{
    most_bytes();
    let Some((kind, body)) = stored.body.as_slice().split_first() else {
        return Ok(false);
    };
    // Its length has four bytes in an answer: nothing longer is an entry's.
    if body.len() as u64 > MAX_CHANGESET {
        return Ok(false);
    }
    put_entry(*kind, stored.origin, stored.number, body, out)?;
    Ok(true)
}

/// Appends entries as an answer tells them, if one can.
fn put_each(stored: &[StoredEntry], out: &mut Vec<u8>) -> Result<bool, Memory>
    ensures { (tolds : List ToldEntry) → AreToldAs (items_of stored.now) tolds
        → IfOk result (λ put. IsTrue put × (out.new.items ≡ out.old.items ++ flat_map entry_spelling tolds)) }
{
    for entry in stored {
        if !put_stored(entry, out)? {
            return Ok(false);
        }
    }
    Ok(true)
}

/// The answer that tells so many entries of the log, from a version on. What an entry does is copied as it is stored. An entry that
/// isn't there, or is stored as none can be, is told to the store.
pub fn entries_told<S: RowStore>(
    alloc: Global,
    store: &mut S,
    catalog: &Catalog,
    first: u32,
    count: u32,
) -> Result<Vec<u8>, StoreFault>
    requires { first + count < 2 ^ 32 }

    // The store is only read.
    ensures reads { ReadsStore S.RowStore Device
        (ShowsEntries catalog.now (S.contents store.old) first count) store.old store.new result }

    // They are those of the log that the store shows.
    ensures told { S.honest store.new → (log : List Entry) → ShowsLog catalog.now (S.contents store.old) log
        → first + count ≤ length log
        → IfOk result (λ answer. answer.items ≡ answer_spelling (Entries first (map told_entry (take count (drop first log))))) }
{
    let mut answer = entries_head(alloc, first as u64, count)?;
    let stored = match stored_from(store, first, count) {
        Ok(stored) => stored,
        Err(fault) => return Err(fault),
    };
    match put_each(stored.as_slice(), &mut answer) {
        Ok(true) => Ok(answer),
        Ok(false) => Err(store.misread()),
        Err(_) => Err(StoreFault::Memory),
    }
}
