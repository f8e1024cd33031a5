//! Requests, judged: what they are to be answered, with nothing changed.

ghost use Rattle.std.specs.Prelude.{◌≡◌, ◌≢◌, ◌+◌, ◌≤◌, [], List, IfOk, Ok, Err, length, vec_capacity, vec_len};
ghost use Rattle.cs_store.specs.declared.log.entry.LogEntry.{LogEntry as Entry};
ghost use Rattle.cs_store.specs.declared.log.entry.TheConstants.{MAX_CHANGESET};
ghost use Rattle.cs_hub.specs.log_store.Versions.{ShowsBy, ShowsSomeBy};
ghost use Rattle.cs_pending.specs.Calls.{ReadsStore};
ghost use Rattle.cs_store.specs.Calls.{MoreFailures};
ghost use Rattle.cs_hub.specs.judgement.Judged.{CanBeAppended, hub_of};
ghost use Rattle.cs_hub.specs.declared.judgement.fault.HubFault.TheVariants.{Device};
ghost use Rattle.cs_wire.specs.Requests.{AsksPush, AsksWiden};
ghost use Rattle.cs_hub.specs.declared.judgement.widen.TheConstants.{WIDEN_ORIGIN};
ghost use Rattle.cs_wire.specs.Answers.{answer_spelling};
ghost use Rattle.cs_wire.specs.declared.answer.Answer.TheVariants.{Short};
ghost use Rattle.cs_hub.specs.Judges.{AcceptsNext, AppendsJudged, HasRoom};
ghost use Rattle.cs_hub.specs.Serves.{push_answer};
ghost use Rattle.cs_hub.specs.Steps.{IsEntryToAppend, IsJudgedAs, JudgesBytes, JudgesWiden, LooksAt};
ghost use Rattle.cs_hub.specs.declared.refusal.Refusal.TheVariants.{ByHub, Memory};

use crate::judged::Judged;
use crate::judgement::{Judgement, Pushed, judge_at, judge_widen};
use crate::log_store::Catalogs;
use crate::refusal::Refusal;
use cs_changeset::read;
use cs_normalising::normalise;
use cs_store::RowStore;
use cs_store::log::MAX_CHANGESET;
use cs_store::log::laws::catalog_by_widens;
use cs_value::Memory;
use cs_wire::{PushHead, SHORT, ShortAnswer};
use std::alloc::{AllocError, Global};

/// Judges a push by the bytes of its changeset.
fn judge_bytes<S: RowStore>(
    alloc: Global,
    store: &mut S,
    catalogs: &Catalogs,
    limit: u32,
    head: PushHead,
    changeset: &[u8],
) -> Result<Judgement, Refusal>
    requires { length changeset.now ≤ MAX_CHANGESET }
    ensures reads { ReadsStore S.RowStore (ByHub Device)
        (ShowsSomeBy catalogs.now (S.contents store.old)) store.old store.new result }
    ensures of { IfOk result (IsEntryToAppend catalogs.now limit head) }
    ensures appends { S.honest store.new → IfOk result (CanBeAppended catalogs.now (S.contents store.old)) }
    ensures judged { S.honest store.new → (log : List Entry) → ShowsBy catalogs.now (S.contents store.old) log
        → JudgesBytes (MoreFailures (S.failed store.old) (S.failed store.new)) limit (hub_of catalogs.now.opening log) head changeset.now result }
{
    catalog_by_widens();
    let groups = read(alloc, changeset)?;
    let changes = normalise(alloc, catalogs.judging(head.base), &groups)?;
    let _tables = changes.tables();
    match judge_at(alloc, store, catalogs, limit, head, changes) {
        Ok(judgement) => Ok(judgement),
        Err(fault) => Err(Refusal::from(fault)),
    }
}

/// The answer that tells what becomes of a push. Of want of memory there is none.
fn answer_to(head: PushHead, taken: &Result<Pushed, Refusal>) -> Result<ShortAnswer, Memory>
    ensures { IfOk result (λ answer. (taken.now ≢ Err Memory) × (Short answer ≡ push_answer head taken.now)) }
{
    match taken {
        Ok(Pushed::Accepted(version)) => Ok(ShortAnswer::accepted(head, *version)),
        Ok(Pushed::Stale(newest)) => Ok(ShortAnswer::Stale { newest: *newest }),
        Err(Refusal::Memory) => Err(AllocError),
        Err(refusal) => Ok(ShortAnswer::Refused(refusal.code())),
    }
}

/// The same as bytes, in room that was taken for them.
fn tell(head: PushHead, taken: &Result<Pushed, Refusal>, room: Vec<u8>) -> Result<Vec<u8>, Memory>
    requires room { vec_len room + SHORT ≤ vec_capacity room }
    requires empty { room.items ≡ [] }
    ensures { IfOk result (λ bytes. (taken.now ≢ Err Memory) × (bytes.items ≡ answer_spelling (push_answer head taken.now))) }
{
    let answer = answer_to(head, taken)?;
    let mut told = room;
    answer.put(&mut told);
    Ok(told)
}

/// What is to become of a Push. The room of its answer is taken first.
pub(crate) fn judge_told<S: RowStore>(
    alloc: Global,
    store: &mut S,
    catalogs: &Catalogs,
    limit: u32,
    head: PushHead,
    changeset: &[u8],
) -> Result<Judged, Memory>
    requires { length changeset.now ≤ MAX_CHANGESET }
    ensures looks { LooksAt S.RowStore (ShowsSomeBy catalogs.now (S.contents store.old)) store.old store.new }
    ensures room { IfOk result (HasRoom catalogs.now.newest limit) }
    ensures accepts { IfOk result (AcceptsNext catalogs.now.newest) }
    ensures appends { S.honest store.new → IfOk result (AppendsJudged catalogs.now (S.contents store.old)) }
    ensures judged { S.honest store.new → (log : List Entry) → ShowsBy catalogs.now (S.contents store.old) log
        → IfOk result (IsJudgedAs (MoreFailures (S.failed store.old) (S.failed store.new)) limit catalogs.now.opening log (Ok (AsksPush head changeset.now))) }
{
    catalog_by_widens();
    let room = Vec::with_capacity(alloc, SHORT)?;
    match judge_bytes(alloc, store, catalogs, limit, head, changeset) {
        Ok(Judgement::Append { entry, batch }) => {
            let mut reply = room;
            ShortAnswer::accepted(head, catalogs.newest() as u64 + 1).put(&mut reply);
            Ok(Judged::Append {
                entry,
                batch,
                reply,
            })
        }
        Ok(Judgement::Told(pushed)) => Ok(Judged::Reply(tell(head, &Ok(pushed), room)?)),
        Err(refusal) => Ok(Judged::Reply(tell(head, &Err(refusal), room)?)),
    }
}

/// Judges a request that a table gets more columns, and tells what is wrong with it as requests are refused.
fn judge_columns<S: RowStore>(
    alloc: Global,
    store: &mut S,
    catalogs: &Catalogs,
    limit: u32,
    head: PushHead,
    table: &str,
    width: u32,
) -> Result<Judgement, Refusal>
    requires { head.origin ≡ WIDEN_ORIGIN }
    ensures reads { ReadsStore S.RowStore (ByHub Device)
        (ShowsSomeBy catalogs.now (S.contents store.old)) store.old store.new result }
    ensures of { IfOk result (IsEntryToAppend catalogs.now limit head) }
    ensures appends { S.honest store.new → IfOk result (CanBeAppended catalogs.now (S.contents store.old)) }
    ensures judged { S.honest store.new → (log : List Entry) → ShowsBy catalogs.now (S.contents store.old) log
        → JudgesWiden (MoreFailures (S.failed store.old) (S.failed store.new)) limit (hub_of catalogs.now.opening log)
        (record { number = head.number; base = head.base; table = table.now; width = width }) result }
{
    match judge_widen(alloc, store, catalogs, limit, head, table, width) {
        Ok(judgement) => Ok(judgement),
        Err(fault) => Err(Refusal::from(fault)),
    }
}

/// What is to become of a request that a table gets more columns. The room of its answer is taken first.
pub(crate) fn widen_told<S: RowStore>(
    alloc: Global,
    store: &mut S,
    catalogs: &Catalogs,
    limit: u32,
    head: PushHead,
    table: &str,
    width: u32,
) -> Result<Judged, Memory>
    requires { head.origin ≡ WIDEN_ORIGIN }
    ensures looks { LooksAt S.RowStore (ShowsSomeBy catalogs.now (S.contents store.old)) store.old store.new }
    ensures room { IfOk result (HasRoom catalogs.now.newest limit) }
    ensures accepts { IfOk result (AcceptsNext catalogs.now.newest) }
    ensures appends { S.honest store.new → IfOk result (AppendsJudged catalogs.now (S.contents store.old)) }
    ensures judged { S.honest store.new → (log : List Entry) → ShowsBy catalogs.now (S.contents store.old) log
        → IfOk result (IsJudgedAs (MoreFailures (S.failed store.old) (S.failed store.new)) limit catalogs.now.opening log
        (Ok (AsksWiden head.number head.base width table.now))) }
{
    catalog_by_widens();
    let room = Vec::with_capacity(alloc, SHORT)?;
    match judge_columns(alloc, store, catalogs, limit, head, table, width) {
        Ok(Judgement::Append { entry, batch }) => {
            let mut reply = room;
            ShortAnswer::accepted(head, catalogs.newest() as u64 + 1).put(&mut reply);
            Ok(Judged::Append {
                entry,
                batch,
                reply,
            })
        }
        Ok(Judgement::Told(pushed)) => Ok(Judged::Reply(tell(head, &Ok(pushed), room)?)),
        Err(refusal) => Ok(Judged::Reply(tell(head, &Err(refusal), room)?)),
    }
}
