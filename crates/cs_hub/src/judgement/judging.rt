//! A push, judged by the log and the rows of a hub's store.

ghost use Rattle.std.specs.Prelude.{◌≡◌, ◌<◌, ◌≤◌, ◌≢◌, [], IfOk, List, length};
ghost use Rattle.cs_store.specs.log.Entry.{entry_changes};
ghost use Rattle.cs_store.specs.log.Stored.{IsEntryOf};
ghost use Rattle.cs_store.specs.declared.log.entry.LogEntry.{LogEntry as Entry};
ghost use Rattle.cs_store.specs.declared.log.entry.TheConstants.{MAX_CHANGESET};
ghost use Rattle.cs_hub.specs.appending.Versions.{ShowsBy, ShowsSomeBy, judging_tables, tables_by};
ghost use Rattle.cs_normal.specs.Normal.{FitsCatalog, normal_spelling};
ghost use Rattle.cs_pending.specs.Calls.{ReadsStore};
ghost use Rattle.cs_hub.specs.judgement.Judged.{CanBeAppended, IsJudgement, IsOfPush, hub_of};
ghost use Rattle.cs_hub.specs.judgement.Pushes.{Push, entry_of_push};
ghost use Rattle.cs_hub.specs.declared.judgement.fault.HubFault.TheVariants.{Device};

use crate::appending::try_entry;
use crate::judgement::fault::HubFault;
use crate::judgement::push::{Judgement, Pushed};
use crate::log_reading::has_entry;
use crate::log_store::Catalogs;
use cs_normal::Normal;
use cs_store::RowStore;
use cs_store::log::{Body, LogEntry};
use cs_wire::PushHead;
use std::alloc::Global;

/// The judgement of a push whose base is below the newest version: it is the entry there, or another is.
fn recall<S: RowStore>(
    alloc: Global,
    store: &mut S,
    catalogs: &Catalogs,
    limit: u32,
    head: PushHead,
    entry: &LogEntry,
) -> Result<Judgement, HubFault>
    requires fits { IsEntryOf (tables_by catalogs.now head.base) entry.now }
    requires of { entry.now ≡ entry_of_push (record { head = head; changes = entry_changes entry.now }) }
    requires some { entry_changes entry.now ≢ [] }
    requires below { head.base < catalogs.now.newest }
    ensures reads { ReadsStore S.RowStore Device
        (ShowsSomeBy catalogs.now (S.contents store.old)) store.old store.new result }
    ensures of { IfOk result (IsOfPush limit catalogs.now.newest (record { head = head; changes = entry_changes entry.now })) }
    ensures appends { S.honest store.new → IfOk result (CanBeAppended catalogs.now (S.contents store.old)) }
    ensures judged { S.honest store.new → (log : List Entry) → ShowsBy catalogs.now (S.contents store.old) log
        → IsJudgement limit (hub_of catalogs.now.opening log) (record { head = head; changes = entry_changes entry.now }) result }
{
    let newest = catalogs.newest();
    match has_entry(alloc, store, catalogs, head.base as u32, entry) {
        Ok(true) => Ok(Judgement::Told(Pushed::Accepted(head.base + 1))),
        Ok(false) => Ok(Judgement::Told(Pushed::Stale(newest as u64))),
        Err(fault) => Err(HubFault::from(fault)),
    }
}

/// Judges a push: a changeset that the replica `head.origin` made as its push `head.number` on the tables of the version `head.base`.
/// The log of the store may have `limit` entries. The first case that fits holds: no change, a base above the newest
/// version, or one below it. Below, it is the same push again or another one. The next cases are a full log, and a change that isn't
/// defined on the tables. Else the push is to be appended. The store is only read.
///
/// # Errors
///
/// `Empty`, `Ahead`, `Full` and `Conflict` in these cases; `Memory` and `Device`.
pub fn judge_at<S: RowStore>(
    alloc: Global,
    store: &mut S,
    catalogs: &Catalogs,
    limit: u32,
    head: PushHead,
    changes: Normal,
) -> Result<Judgement, HubFault>
    requires fits { FitsCatalog (judging_tables catalogs.now head.base) changes }
    requires size { length (normal_spelling changes) ≤ MAX_CHANGESET }

    // The store is only read.
    ensures reads { ReadsStore S.RowStore Device
        (ShowsSomeBy catalogs.now (S.contents store.old)) store.old store.new result }

    // What is to be appended is the push, behind the newest version, and the batch appends it.
    ensures of { IfOk result (IsOfPush limit catalogs.now.newest (record { head = head; changes = changes })) }
    ensures appends { S.honest store.new → IfOk result (CanBeAppended catalogs.now (S.contents store.old)) }

    // What is told is the answer to the push by the log that the store shows. What is to be appended leads to the log after it.
    ensures judged { S.honest store.new → (log : List Entry) → ShowsBy catalogs.now (S.contents store.old) log
        → IsJudgement limit (hub_of catalogs.now.opening log) (record { head = head; changes = changes }) result }
{
    if changes.tables().is_empty() {
        return Err(HubFault::Empty);
    }
    let newest = catalogs.newest();
    if head.base > newest as u64 {
        return Err(HubFault::Ahead);
    }
    let entry = LogEntry {
        origin: head.origin,
        number: head.number,
        body: Body::Changes(changes),
    };
    if head.base < newest as u64 {
        return recall(alloc, store, catalogs, limit, head, &entry);
    }
    if newest >= limit {
        return Err(HubFault::Full);
    }
    match try_entry(alloc, store, catalogs, &entry) {
        Ok(batch) => Ok(Judgement::Append { entry, batch }),
        Err(fault) => Err(HubFault::from(fault)),
    }
}
