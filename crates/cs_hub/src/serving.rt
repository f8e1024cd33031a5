//! Requests that only read, answered.

ghost use Rattle.std.specs.Prelude.{◌≡◌, ◌+◌, ◌≤◌, List, Ok, IfOk, length};
ghost use Rattle.cs_normal.specs.Normal.{normal_spelling};
ghost use Rattle.cs_pending.specs.Calls.{ReadsStore};
ghost use Rattle.cs_store.specs.declared.fault.StoreFault.TheVariants.{Device};
ghost use Rattle.cs_store.specs.declared.log.entry.LogEntry.{LogEntry as Entry};
ghost use Rattle.cs_store.specs.declared.log.entry.TheConstants.{MAX_ENTRIES};
ghost use Rattle.cs_hub.specs.log_store.Versions.{ShowsBy, ShowsSomeBy};
ghost use Rattle.cs_store.specs.Calls.{MoreFailures};
ghost use Rattle.cs_hub.specs.catching.Consolidated.{IsShort};
ghost use Rattle.cs_hub.specs.judgement.Judged.{hub_of};
ghost use Rattle.cs_wire.specs.Answers.{answer_spelling};
ghost use Rattle.cs_wire.specs.declared.answer.Answer.TheVariants.{Merged};
ghost use Rattle.cs_wire.specs.Requests.{AsksCatch, AsksPull};
ghost use Rattle.cs_hub.specs.Serves.{TellsCaught, refused};
ghost use Rattle.cs_hub.specs.Steps.{AnswersAskedIf, LooksAt};

use crate::catching::Caught;
use crate::judgement::HubFault;
use crate::log_reading::{catch_at, entries_told};
use crate::log_store::Catalogs;
use crate::refusal::Refusal;
use cs_normal::Normal;
use cs_store::log::laws::most_bytes;
use cs_store::{RowStore, StoreFault};
use cs_value::Memory;
use cs_wire::{SHORT, ShortAnswer, merged_head};
use std::alloc::{AllocError, Global};

/// The answer that tells of a refusal.
pub(crate) fn refuse(alloc: Global, refusal: &Refusal) -> Result<Vec<u8>, Memory>
    ensures { IfOk result (λ bytes. bytes.items ≡ refused refusal.now) }
{
    let mut bytes = Vec::with_capacity(alloc, SHORT)?;
    ShortAnswer::Refused(refusal.code()).put(&mut bytes);
    Ok(bytes)
}

/// The answer to a Pull. A device that fails is told by its code.
pub(crate) fn pull_at<S: RowStore>(
    alloc: Global,
    store: &mut S,
    catalogs: &Catalogs,
    first: u64,
    limit: u32,
) -> Result<Vec<u8>, Memory>
    ensures looks { LooksAt S.RowStore (ShowsSomeBy catalogs.now (S.contents store.old)) store.old store.new }
    ensures answered { S.honest store.new → (log : List Entry) → ShowsBy catalogs.now (S.contents store.old) log
        → IfOk result (λ bytes. AnswersAskedIf (MoreFailures (S.failed store.old) (S.failed store.new)) MAX_ENTRIES (hub_of catalogs.now.opening log)
        (Ok (AsksPull first limit)) bytes.items (hub_of catalogs.now.opening log)) }
{
    let newest = catalogs.newest();
    if first > newest as u64 {
        return refuse(alloc, &Refusal::ByHub(HubFault::Ahead));
    }
    let first = first as u32;
    match entries_told(
        alloc,
        store,
        catalogs.opening(),
        first,
        limit.min(newest - first),
    ) {
        Ok(answer) => Ok(answer),
        Err(StoreFault::Memory) => Err(AllocError),
        Err(StoreFault::Device) => refuse(alloc, &Refusal::ByHub(HubFault::Device)),
    }
}

/// The answer that tells so many entries as one changeset. Its length is counted before its room is taken.
fn merged_told(
    alloc: Global,
    asker: u32,
    first: u32,
    count: u32,
    changes: &Normal,
) -> Result<Vec<u8>, Memory>
    requires { IsShort changes.now }
    ensures { IfOk result (λ answer.
        answer.items ≡ answer_spelling (Merged asker first (first + count) (normal_spelling changes.now))) }
{
    most_bytes();
    let mut nowhere: [u8; 0] = [];
    let len = changes.encode_to_slice(alloc, &mut nowhere)?;
    let next = first as u64 + count as u64;
    let mut answer = merged_head(alloc, asker, first as u64, next, len as u32)?;
    changes.encode(&mut answer)?;
    Ok(answer)
}

/// What a replica that asks to catch up from a version on is told, where the log has come to that.
fn told_at<S: RowStore>(
    alloc: Global,
    store: &mut S,
    catalogs: &Catalogs,
    asker: u32,
    first: u32,
    limit: u32,
) -> Result<Vec<u8>, StoreFault>
    requires { first ≤ catalogs.now.newest }
    ensures reads { ReadsStore S.RowStore Device
        (ShowsSomeBy catalogs.now (S.contents store.old)) store.old store.new result }
    ensures told { S.honest store.new → (log : List Entry) → ShowsBy catalogs.now (S.contents store.old) log
        → IfOk result (λ bytes. TellsCaught (hub_of catalogs.now.opening log) asker first limit bytes.items) }
{
    match catch_at(alloc, store, catalogs, asker, first, limit) {
        Ok(Caught::Alone) => {
            let count = 1u32.min(catalogs.newest() - first);
            entries_told(alloc, store, catalogs.opening(), first, count)
        }
        Ok(Caught::Merged { count, changes }) => {
            let answer = merged_told(alloc, asker, first, count, &changes)?;
            Ok(answer)
        }
        Err(fault) => Err(fault),
    }
}

/// The answer to a Catch. A device that fails is told by its code.
pub(crate) fn catch_told<S: RowStore>(
    alloc: Global,
    store: &mut S,
    catalogs: &Catalogs,
    asker: u32,
    first: u64,
    limit: u32,
) -> Result<Vec<u8>, Memory>
    ensures looks { LooksAt S.RowStore (ShowsSomeBy catalogs.now (S.contents store.old)) store.old store.new }
    ensures answered { S.honest store.new → (log : List Entry) → ShowsBy catalogs.now (S.contents store.old) log
        → IfOk result (λ bytes. AnswersAskedIf (MoreFailures (S.failed store.old) (S.failed store.new)) MAX_ENTRIES (hub_of catalogs.now.opening log)
        (Ok (AsksCatch asker first limit)) bytes.items (hub_of catalogs.now.opening log)) }
{
    let newest = catalogs.newest();
    if first > newest as u64 {
        return refuse(alloc, &Refusal::ByHub(HubFault::Ahead));
    }
    match told_at(alloc, store, catalogs, asker, first as u32, limit) {
        Ok(answer) => Ok(answer),
        Err(StoreFault::Memory) => Err(AllocError),
        Err(StoreFault::Device) => refuse(alloc, &Refusal::ByHub(HubFault::Device)),
    }
}
