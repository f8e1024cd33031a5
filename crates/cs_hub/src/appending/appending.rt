//! An entry appended to the log of a hub's store.

ghost use Rattle.std.specs.Prelude.{◌≡◌, ◌+◌, ◌∷◌, ◌++◌, [], List, IfOk, IfErr, OnErr, OnOk};
ghost use Rattle.std.specs.Fn.{CalledAt};
ghost use Rattle.cs_normal.specs.Normal.{FitsCatalog};
ghost use Rattle.cs_normal.specs.State.{State};
ghost use Rattle.cs_store.specs.log.Entry.{changes_of_body};
ghost use Rattle.cs_store.specs.log.Stored.{FitsBody, IsEntryOf};
ghost use Rattle.cs_store.specs.declared.log.entry.LogEntry.{LogEntry as Entry};
ghost use Rattle.cs_conflict.specs.declared.conflict.Resolution.TheVariants.{Abort};
ghost use Rattle.cs_apply.specs.Laws.{AlwaysAborts};
ghost use Rattle.cs_store.specs.States.{Holds};
ghost use Rattle.cs_pending.specs.Calls.{ReadsStore, WritesStore};
ghost use Rattle.cs_hub.specs.log_store.Versions.{ShowsBy, ShowsSomeBy, newest_tables};
ghost use Rattle.cs_hub.specs.appending.Appended.{AppendsEntry, IsAppendFault, IsAppendedIn};
ghost use Rattle.cs_hub.specs.appending.Steps.{IsBatchOf, IsMadeBy, IsNotTried, IsTried};
ghost use Rattle.cs_hub.specs.declared.appending.fault.AppendFault.TheVariants.{Device};
ghost use Rattle.cs_store.specs.declared.fault.StoreFault.TheVariants as stored;

use crate::appending::fault::AppendFault;
use crate::log_store::Catalogs;
use crate::log_store::catalogs::later_of;
use cs_apply::{ApplyFault, apply};
use cs_conflict::{Conflict, Resolution};
use cs_normal::Normal;
use cs_padding::widen_rows;
use cs_store::edits::PlaceEdits;
use cs_store::log::laws::{catalog_by_widens, widens_grow};
use cs_store::log::{Body, LogEntry, put_body};
use cs_store::{Batch, RowStore, StoreFault, StoredEntry};
use cs_value::{Catalog, Memory};
use std::alloc::Global;

/// Applies a changeset in normal form with a closure that always aborts, and answers the edits of rows.
fn try_with<S: RowStore, H: FnMut(&Conflict<'_>) -> Resolution>(
    alloc: Global,
    store: &mut S,
    catalog: &Catalog,
    changes: &Normal,
    answer: &mut H,
) -> Result<PlaceEdits, AppendFault>
    requires callable { H.IsAlwaysCallable answer.old }
    requires aborts { AlwaysAborts (CalledAt H.FnMut) }
    requires fits { FitsCatalog catalog.now changes.now }
    ensures reads { ReadsStore S.RowStore Device
        ((before : State) × Holds catalog.now (S.contents store.old) before) store.old store.new result }
    ensures made { S.honest store.new → (before : State) → Holds catalog.now (S.contents store.old) before
        → IfOk result (λ edits. IsTried catalog.now changes.now (S.contents store.old) before edits) }
    ensures refused { S.honest store.new → (before : State) → Holds catalog.now (S.contents store.old) before
        → IfErr result (IsNotTried catalog.now changes.now before) }
{
    cs_apply::laws::aborting_tries::<H>();
    let _changes = changes.tables();
    let changeset = changes.lend(alloc)?;
    match apply(alloc, store, catalog, &changeset, answer) {
        Ok(applied) => Ok(applied.edits),
        Err(ApplyFault::Aborted(conflict)) => Err(AppendFault::Conflict(conflict)),
        // By such a closure this never comes of a store that holds rows of the tables.
        Err(ApplyFault::Misuse(conflict)) => Err(AppendFault::Conflict(conflict)),
        Err(ApplyFault::Device) => Err(AppendFault::Device),
        Err(ApplyFault::Memory) => Err(AppendFault::Memory),
        Err(ApplyFault::NullKey) => unreachable!(),
    }
}

/// Tries a changeset in normal form on the rows of a store, and answers the edits of rows by which it is made.
fn try_changes<S: RowStore>(
    alloc: Global,
    store: &mut S,
    catalog: &Catalog,
    changes: &Normal,
) -> Result<PlaceEdits, AppendFault>
    requires fits { FitsCatalog catalog.now changes.now }
    ensures reads { ReadsStore S.RowStore Device
        ((before : State) × Holds catalog.now (S.contents store.old) before) store.old store.new result }
    ensures made { S.honest store.new → (before : State) → Holds catalog.now (S.contents store.old) before
        → IfOk result (λ edits. IsTried catalog.now changes.now (S.contents store.old) before edits) }
    ensures refused { S.honest store.new → (before : State) → Holds catalog.now (S.contents store.old) before
        → IfErr result (IsNotTried catalog.now changes.now before) }
{
    try_with(
        alloc,
        store,
        catalog,
        changes,
        &mut |_shown: &Conflict<'_>| -> Resolution
            ensures { result ≡ Abort }
        { Resolution::Abort },
    )
}

/// Tries what an entry does on the rows of a store, and answers the edits of rows by which it is made. A table that gets more columns has
/// NULL there in each of its rows.
fn try_body<S: RowStore>(
    alloc: Global,
    store: &mut S,
    catalog: &Catalog,
    body: &Body,
) -> Result<PlaceEdits, AppendFault>
    requires fits { FitsBody catalog.now body.now }
    ensures reads { ReadsStore S.RowStore Device
        ((before : State) × Holds catalog.now (S.contents store.old) before) store.old store.new result }
    ensures made { S.honest store.new → (before : State) → Holds catalog.now (S.contents store.old) before
        → IfOk result (λ edits. IsMadeBy catalog.now body.now (S.contents store.old) before edits) }
    ensures refused { S.honest store.new → (before : State) → Holds catalog.now (S.contents store.old) before
        → IfErr result (IsNotTried catalog.now (changes_of_body body.now) before) }
{
    match body {
        Body::Changes(changes) => try_changes(alloc, store, catalog, changes),
        Body::Widen { table, width } => {
            match widen_rows(alloc, store, catalog, table.as_str(), *width as usize) {
                Ok(edits) => Ok(edits),
                Err(fault) => Err(AppendFault::from(fault)),
            }
        }
    }
}

/// What writes these edits of rows, and the entry.
fn batch_of(alloc: Global, entry: &LogEntry, edits: PlaceEdits) -> Result<Batch, Memory>
    ensures { IfOk result (IsBatchOf entry.now edits) }
{
    let mut body = Vec::new(alloc);
    put_body(&entry.body, &mut body)?;
    Ok(Batch {
        rows: edits,
        pending: PlaceEdits::new(alloc),
        meta: Vec::new(alloc),
        log: Some(StoredEntry {
            origin: entry.origin,
            number: entry.number,
            body,
        }),
    })
}

/// Tries an entry on the rows of a hub's store, and answers the batch by which it is appended to the log. The store is only read.
///
/// # Errors
///
/// `Conflict` where a change isn't defined on the rows, with the first that isn't; `Memory` and `Device`.
pub fn try_entry<S: RowStore>(
    alloc: Global,
    store: &mut S,
    catalogs: &Catalogs,
    entry: &LogEntry,
) -> Result<Batch, AppendFault>
    requires fits { IsEntryOf (newest_tables catalogs.now) entry.now }

    // The store is only read.
    ensures reads { ReadsStore S.RowStore Device
        (ShowsSomeBy catalogs.now (S.contents store.old)) store.old store.new result }

    // A commit of the batch appends the entry; what is told instead holds of the log that the store shows.
    ensures tried { S.honest store.new → IfOk result (λ batch. AppendsEntry catalogs.now entry.now (S.contents store.old) batch) }
    ensures refused { S.honest store.new → (log : List Entry) → ShowsBy catalogs.now (S.contents store.old) log
        → IfErr result (IsAppendFault catalogs.now.opening log entry.now) }
{
    crate::log_store::laws::append_shows();
    catalog_by_widens();
    let _tables = catalogs.opening().tables();
    let edits = match try_body(alloc, store, catalogs.present(), &entry.body) {
        Ok(edits) => edits,
        Err(fault) => return Err(fault),
    };
    let batch = batch_of(alloc, entry, edits)?;
    Ok(batch)
}

/// Appends an entry that was tried on what the store holds, by a commit of the batch. What the log's tables are then is made before that,
/// and its room is taken.
///
/// # Errors
///
/// `Memory`, also where no version is left for the entry, and `Device`. Nothing has changed then.
pub fn append_tried<S: RowStore>(
    alloc: Global,
    store: &mut S,
    catalogs: &mut Catalogs,
    entry: &LogEntry,
    batch: &Batch,
) -> Result<(), StoreFault>
    requires tried { S.honest store.old → AppendsEntry catalogs.old entry.now (S.contents store.old) batch.now }

    // The entry is appended, in one commit; at `Err` nothing has changed.
    ensures writes { WritesStore S.RowStore stored.Device
        (ShowsSomeBy catalogs.old (S.contents store.old)) (IsAppendedIn catalogs.old entry.now (S.contents store.old)) store.old store.new result }

    // The store then shows the log with the entry, and the tables are those of that log.
    ensures shown { S.honest store.new → (log : List Entry) → ShowsBy catalogs.old (S.contents store.old) log
        → OnOk result (ShowsBy catalogs.new (S.contents store.new) (log ++ entry.now ∷ [])) }
    ensures opening { catalogs.new.opening ≡ catalogs.old.opening }
    ensures counted { OnOk result (catalogs.new.newest ≡ catalogs.old.newest + 1) }
    ensures kept { OnErr result (catalogs.new ≡ catalogs.old) }
{
    catalog_by_widens();
    widens_grow();
    if catalogs.newest == u32::MAX {
        return Err(StoreFault::Memory);
    }
    catalogs.later.reserve(1)?;
    let later = later_of(alloc, catalogs.behind(), catalogs.newest, &entry.body)?;
    match store.commit(batch) {
        Ok(()) => {}
        Err(fault) => return Err(fault),
    }
    catalogs.newest += 1;
    if let Some(later) = later {
        catalogs.later.push_reserved(later);
    }
    Ok(())
}

/// Appends an entry to the log of a hub's store, where each of its changes is defined on the rows. The entry and what it makes of the
/// rows are one commit.
///
/// # Errors
///
/// `Conflict` where a change isn't defined on the rows, with the first that isn't; `Memory` and `Device`, as `append_tried`. Nothing has
/// changed then.
pub fn append<S: RowStore>(
    alloc: Global,
    store: &mut S,
    catalogs: &mut Catalogs,
    entry: &LogEntry,
) -> Result<(), AppendFault>
    requires fits { IsEntryOf (newest_tables catalogs.old) entry.now }

    // The entry is appended, in one commit; at `Err` nothing has changed.
    ensures writes { WritesStore S.RowStore Device
        (ShowsSomeBy catalogs.old (S.contents store.old)) (IsAppendedIn catalogs.old entry.now (S.contents store.old)) store.old store.new result }

    // The store then shows the log with the entry, and the tables are those of that log.
    ensures shown { S.honest store.new → (log : List Entry) → ShowsBy catalogs.old (S.contents store.old) log
        → OnOk result (ShowsBy catalogs.new (S.contents store.new) (log ++ entry.now ∷ [])) }
    ensures opening { catalogs.new.opening ≡ catalogs.old.opening }
    ensures counted { OnOk result (catalogs.new.newest ≡ catalogs.old.newest + 1) }
    ensures kept { OnErr result (catalogs.new ≡ catalogs.old) }

    // What is told holds of the log that the store shows.
    ensures refused { S.honest store.new → (log : List Entry) → ShowsBy catalogs.old (S.contents store.old) log
        → IfErr result (IsAppendFault catalogs.old.opening log entry.now) }
{
    let batch = match try_entry(alloc, store, catalogs, entry) {
        Ok(batch) => batch,
        Err(fault) => return Err(fault),
    };
    match append_tried(alloc, store, catalogs, entry, &batch) {
        Ok(()) => Ok(()),
        Err(fault) => Err(AppendFault::from(fault)),
    }
}
