//! The tables that a stored log widened.

ghost use Rattle.std.specs.Prelude.{◌≡◌, ◌+◌, ◌-◌, ◌^◌, ◌<◌, ◌++◌, [], List, Some, IfOk, IfSome, OnOk, length};
ghost use Rattle.cs_store.specs.declared.fault.StoreFault.TheVariants.{Device};
ghost use Rattle.cs_store.specs.declared.log.entry.LogEntry.{LogEntry as Entry};
ghost use Rattle.cs_store.specs.log.Stored.{IsEntryOf};
ghost use Rattle.cs_store.specs.log.Widens.{widen_at, widens_from};
ghost use Rattle.cs_store.specs.Contents.{log_entry};
ghost use Rattle.cs_store.specs.Written.{optional_entry};
ghost use Rattle.cs_pending.specs.Calls.{ReadsStore};
ghost use Rattle.cs_hub.specs.log_store.Later.{ComesOf, tables_behind, widens_in};
ghost use Rattle.cs_hub.specs.log_store.Shows.{ShowsLog, item_of_entry};

use crate::log_store::Catalogs;
use crate::log_store::catalogs::{Later, later_of};
use cs_store::log::laws::{one_body, widens_grow};
use cs_store::log::{BodyFault, read_body};
use cs_store::{RowStore, StoreFault, StoredEntry};
use cs_value::{Catalog, Memory};
use std::alloc::{AllocError, Global};

/// The first byte of what an entry does, as it is stored, where that widens a table.
const WIDEN: u8 = 1;

/// The table that a stored entry widens, if it does, and the tables behind that. What isn't there, or is no entry of the tables, widens
/// none.
fn stored_widen(
    alloc: Global,
    tables: &Catalog,
    at: u32,
    stored: &Option<StoredEntry>,
) -> Result<Option<Later>, Memory>
    ensures made { IfOk result (λ later. IfSome later (ComesOf tables.now)) }
    ensures found { (entry : Entry) → IsEntryOf tables.now entry → optional_entry stored.now ≡ Some (item_of_entry entry)
        → IfOk result (λ later. widens_in later ≡ widen_at at entry.body) }
{
    one_body();
    let _tables = tables.tables();
    let Some(stored) = stored else {
        return Ok(None);
    };
    let bytes = stored.body.as_slice();
    if bytes.first() != Some(&WIDEN) {
        return Ok(None);
    }
    match read_body(alloc, tables, bytes) {
        Ok(body) => later_of(alloc, tables, at, &body),
        Err(BodyFault::NoBody) => Ok(None),
        Err(BodyFault::Memory) => Err(AllocError),
    }
}

/// The tables behind the next entry of a log, which is stored so.
fn follow_stored(
    alloc: Global,
    catalogs: &mut Catalogs,
    stored: &Option<StoredEntry>,
) -> Result<(), Memory>
    requires { catalogs.old.newest < 2 ^ 32 - 1 }
    ensures opening { catalogs.new.opening ≡ catalogs.old.opening }
    ensures counted { OnOk result (catalogs.new.newest ≡ catalogs.old.newest + 1) }
    ensures widens { (entry : Entry) → IsEntryOf (tables_behind catalogs.old.opening catalogs.old.widens) entry
        → optional_entry stored.now ≡ Some (item_of_entry entry)
        → OnOk result (catalogs.new.widens ≡ catalogs.old.widens ++ widen_at catalogs.old.newest entry.body) }
{
    let later = stored_widen(alloc, catalogs.behind(), catalogs.newest, stored)?;
    if let Some(later) = later {
        catalogs.later.push(later)?;
    }
    catalogs.newest += 1;
    Ok(())
}

/// What is stored of the entry at a version.
fn stored_at<S: RowStore>(store: &mut S, version: u32) -> Result<Option<StoredEntry>, StoreFault>
    ensures reads { ReadsStore S.RowStore Device (Unit {0}) store.old store.new result }
    ensures found { S.honest store.new → IfOk result (λ stored. optional_entry stored ≡ log_entry (S.contents store.old) version) }
{
    match store.log_get(version) {
        Ok(stored) => Ok(stored),
        Err(fault) => Err(fault),
    }
}

/// The tables at each version of the log that a store has, with so many entries. The store is checked before.
pub(crate) fn read_catalogs<S: RowStore>(
    alloc: Global,
    store: &mut S,
    begun: Catalogs,
    count: u32,
) -> Result<Catalogs, StoreFault>
    requires newest { begun.newest ≡ 0 }
    requires widens { begun.widens ≡ [] }
    ensures reads { ReadsStore S.RowStore Device (Unit {0}) store.old store.new result }
    ensures opening { IfOk result (λ read. read.opening ≡ begun.opening) }
    ensures counted { IfOk result (λ read. read.newest ≡ count) }
    ensures widens { S.honest store.new → (log : List Entry) → ShowsLog begun.opening (S.contents store.old) log → count ≡ length log
        → IfOk result (λ read. read.widens ≡ widens_from 0 log) }
{
    widens_grow();
    let mut catalogs = begun;
    for version in 0..count {
        let stored = match stored_at(store, version) {
            Ok(stored) => stored,
            Err(fault) => return Err(fault),
        };
        follow_stored(alloc, &mut catalogs, &stored)?;
    }
    Ok(catalogs)
}
