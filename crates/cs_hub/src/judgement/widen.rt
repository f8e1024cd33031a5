//! A table's new columns, judged by the log and the tables of a hub's store.

ghost use Rattle.std.specs.Prelude.{◌≡◌, ◌↔◌, ◌<◌, ◌^◌, IfOk, IsTrue, List, Some, slice_get};
ghost use Rattle.cs_store.specs.declared.log.entry.LogEntry.{LogEntry as Entry};
ghost use Rattle.cs_pending.specs.Calls.{ReadsStore};
ghost use Rattle.cs_hub.specs.appending.Versions.{ShowsBy, ShowsSomeBy};
ghost use Rattle.cs_hub.specs.judgement.Judged.{CanBeAppended, hub_of};
ghost use Rattle.cs_hub.specs.judgement.Widens.{IsOfWiden, IsTold, IsWidenJudgement, WidenAsked, entry_of_widen};
ghost use Rattle.cs_hub.specs.declared.judgement.fault.HubFault.TheVariants.{Device};
ghost use Rattle.cs_store.specs.declared.fault.StoreFault.TheVariants as stored;

use crate::appending::try_entry;
use crate::fitting::is_entry_of;
use crate::judgement::fault::HubFault;
use crate::judgement::push::{Judgement, Pushed};
use crate::log_reading::has_entry;
use crate::log_store::Catalogs;
use cs_store::log::laws::{catalog_by_widens, most_bytes};
use cs_store::log::{Body, LogEntry};
use cs_store::{RowStore, StoreFault};
use cs_value::Text;
use cs_wire::PushHead;
use std::alloc::Global;

/// The origin of the entries that widen a table. It is no replica's id.
pub const WIDEN_ORIGIN: u32 = 4_294_967_295;

/// Whether the log has this entry at a version. One that isn't an entry of the tables there is none of the log's.
fn stands_at<S: RowStore>(
    alloc: Global,
    store: &mut S,
    catalogs: &Catalogs,
    version: u32,
    entry: &LogEntry,
) -> Result<bool, StoreFault>
    ensures reads { ReadsStore S.RowStore stored.Device
        (ShowsSomeBy catalogs.now (S.contents store.old)) store.old store.new result }
    ensures told { S.honest store.new → (log : List Entry) → ShowsBy catalogs.now (S.contents store.old) log
        → IfOk result (λ has. IsTrue has ↔ (slice_get log version ≡ Some entry.now)) }
{
    catalog_by_widens();
    if !is_entry_of(alloc, catalogs.at(version as u64), entry)? {
        return Ok(false);
    }
    match has_entry(alloc, store, catalogs, version, entry) {
        Ok(has) => Ok(has),
        Err(fault) => Err(fault),
    }
}

/// The judgement of such a request whose base is below the newest version: it is the entry there, or another is.
fn recall_widen<S: RowStore>(
    alloc: Global,
    store: &mut S,
    catalogs: &Catalogs,
    limit: u32,
    base: u64,
    entry: &LogEntry,
) -> Result<Judgement, HubFault>
    requires below { base < catalogs.now.newest }
    ensures reads { ReadsStore S.RowStore Device
        (ShowsSomeBy catalogs.now (S.contents store.old)) store.old store.new result }
    ensures of { IfOk result IsTold }
    ensures judged { S.honest store.new → (log : List Entry) → ShowsBy catalogs.now (S.contents store.old) log
        → (asked : WidenAsked) → entry.now ≡ entry_of_widen asked → asked.base ≡ base
        → IsWidenJudgement limit (hub_of catalogs.now.opening log) asked result }
{
    let newest = catalogs.newest();
    match stands_at(alloc, store, catalogs, base as u32, entry) {
        Ok(true) => Ok(Judgement::Told(Pushed::Accepted(base + 1))),
        Ok(false) => Ok(Judgement::Told(Pushed::Stale(newest as u64))),
        Err(fault) => Err(HubFault::from(fault)),
    }
}

/// Judges a request that a table gets so many columns: one that was made as number `head.number` on the tables of the version
/// `head.base`. The log of the store may have `limit` entries. The first case that fits holds: a base above the newest version, or one
/// below it. Below, it is the same request again or another entry. The next cases are a full log, and a table that isn't there or
/// can't get so many columns. Else the entry is to be appended. The store is only read.
///
/// # Errors
///
/// `Ahead`, `Full` and `BadWiden` in these cases; `Memory` and `Device`.
pub fn judge_widen<S: RowStore>(
    alloc: Global,
    store: &mut S,
    catalogs: &Catalogs,
    limit: u32,
    head: PushHead,
    table: &str,
    width: u32,
) -> Result<Judgement, HubFault>
    // The store is only read.
    ensures reads { ReadsStore S.RowStore Device
        (ShowsSomeBy catalogs.now (S.contents store.old)) store.old store.new result }

    // What is to be appended is the entry that the request becomes, behind the newest version, and the batch appends it.
    ensures of { IfOk result (IsOfWiden limit catalogs.now (record { number = head.number; base = head.base; table = table.now; width = width })) }
    ensures appends { S.honest store.new → IfOk result (CanBeAppended catalogs.now (S.contents store.old)) }

    // What is told is the answer to the request by the log that the store shows. What is to be appended leads to the log after it.
    ensures judged { S.honest store.new → (log : List Entry) → ShowsBy catalogs.now (S.contents store.old) log
        → IsWidenJudgement limit (hub_of catalogs.now.opening log)
        (record { number = head.number; base = head.base; table = table.now; width = width }) result }
{
    catalog_by_widens();
    most_bytes();
    let newest = catalogs.newest();
    let _tables = catalogs.present().tables();
    if head.base > newest as u64 {
        return Err(HubFault::Ahead);
    }
    let entry = LogEntry {
        origin: WIDEN_ORIGIN,
        number: head.number,
        body: Body::Widen {
            table: Text::from_string(String::from_str(alloc, table)?),
            width,
        },
    };
    if head.base < newest as u64 {
        return recall_widen(alloc, store, catalogs, limit, head.base, &entry);
    }
    if newest >= limit {
        return Err(HubFault::Full);
    }
    if !is_entry_of(alloc, catalogs.present(), &entry)? {
        return Err(HubFault::BadWiden);
    }
    match try_entry(alloc, store, catalogs, &entry) {
        Ok(batch) => Ok(Judgement::Append { entry, batch }),
        Err(fault) => Err(HubFault::from(fault)),
    }
}
