//! What a line does.

ghost use Rattle.std.specs.Prelude.{◌≡◌, ◌⊎◌, ◌++◌, ℕ, IfOk, OnOk, string_bytes};
ghost use Rattle.cs_node_lines.specs.declared.asks.ask.Ask.TheVariants as line;
ghost use Rattle.cs_lines.specs.Lines.{hex_line};
ghost use Rattle.cs_replica.specs.Step.{Member};
ghost use Rattle.cs_node_lines.specs.working.LineStep.{LineStep, SaysMemory};
ghost use Rattle.cs_node_lines.specs.working.Replies.{reply_text};
ghost use Rattle.cs_node_lines.specs.working.Texts.{heard_text};
ghost use Rattle.cs_value.specs.Catalog.{AreTables};
ghost use Rattle.cs_wire.specs.Requests.{HasShortBytes, asked_by_owned, request_spelling};
ghost use Rattle.cs_node_lines.specs.working.Steps.{Makes, Stepped};

use crate::asks::Ask;
use crate::told::{FaultText, ToldText, edit_fault_name, push_fault_name};
use crate::working::dump::dump_of;
use crate::working::names::{store_fault_name, wire_fault_name};
use crate::working::reply::Reply;
use cs_conflict::Wish;
use cs_conflict::wish_list::Wishes;
use cs_exchange::pulling::AnswerFault;
use cs_exchange::pushing::PushFault;
use cs_replica::{Replica, Told};
use cs_store::RowStore;
use cs_value::{Edit, Memory};
use cs_wire::{Answer, RequestBuf};
use std::alloc::Global;
use std::fmt::Write;

/// The room of the longest text of an answer; it is taken before the answer is.
pub(crate) const ROOM: usize = 96;

/// The bytes of a request.
fn spelled(alloc: Global, request: &RequestBuf) -> Result<Vec<u8>, Memory>
    requires { HasShortBytes (asked_by_owned request.now) }
    ensures { IfOk result (λ bytes. bytes.items ≡ request_spelling (asked_by_owned request.now)) }
{
    let mut bytes = Vec::new(alloc);
    request.encode(&mut bytes)?;
    Ok(bytes)
}

/// A request in hex, or that memory was refused for it.
fn asked(alloc: Global, request: &RequestBuf) -> Reply
    requires { HasShortBytes (asked_by_owned request.now) }
    ensures { (reply_text result ≡ hex_line (request_spelling (asked_by_owned request.now))) ⊎ SaysMemory (reply_text result) }
{
    match spelled(alloc, request) {
        Ok(bytes) => Reply::Hex(bytes),
        Err(_) => Reply::Refused("Memory"),
    }
}

/// A replica's tables are a catalog's, whatever its store says.
pub(crate) fn in_order<S: RowStore>(replica: &Replica<S>)
    ensures { AreTables replica.now.catalog }
{
    let _tables = replica.catalog().tables();
}

fn edit_line<S: RowStore>(alloc: Global, replica: &mut Replica<S>, edit: &Edit) -> Reply
    ensures { Stepped S.RowStore LineStep (line.OnEdit edit.now) (reply_text result) replica.old replica.new }
{
    match replica.edit(alloc, edit) {
        Ok(()) => Reply::Done,
        Err(fault) => Reply::Refused(edit_fault_name(fault)),
    }
}

fn push_line<S: RowStore>(alloc: Global, replica: &mut Replica<S>) -> Result<Reply, Memory>
    ensures { Makes S.RowStore LineStep line.Push result replica.old replica.new }
{
    match replica.make_push(alloc) {
        Ok(request) => Ok(Reply::Hex(spelled(alloc, &request)?)),
        Err(fault) => Ok(Reply::Refused(push_fault_name(fault))),
    }
}

fn resend_line<S: RowStore>(alloc: Global, replica: &Replica<S>) -> Reply
    ensures { (had : ℕ) → (has : ℕ) → (before : Member) → before.position ≡ replica.now.position → LineStep had has before line.Resend (reply_text result) before }
{
    match replica.resend(alloc) {
        Ok(request) => asked(alloc, &request),
        Err(fault) => Reply::Refused(push_fault_name(fault)),
    }
}

fn pull_line<S: RowStore>(alloc: Global, replica: &Replica<S>, limit: u32) -> Reply
    ensures { (had : ℕ) → (has : ℕ) → (before : Member) → before.position ≡ replica.now.position → LineStep had has before (line.Pull limit) (reply_text result) before }
{
    let first = replica.version();
    asked(alloc, &RequestBuf::Pull { first, limit })
}

fn catch_line<S: RowStore>(alloc: Global, replica: &Replica<S>, limit: u32) -> Reply
    ensures { (had : ℕ) → (has : ℕ) → (before : Member) → before.position ≡ replica.now.position → LineStep had has before (line.Catch limit) (reply_text result) before }
{
    let request = RequestBuf::Catch {
        origin: replica.id(),
        first: replica.version(),
        limit,
    };
    asked(alloc, &request)
}

/// Puts what became of an answer behind a text.
pub(crate) fn put_heard(
    told: Result<Told, AnswerFault>,
    version: u64,
    text: &mut String,
) -> Result<(), Memory>
    ensures { OnOk result (string_bytes text.new ≡ string_bytes text.old ++ heard_text told version) }
{
    match told {
        Ok(told) => Ok(write!(text, "{}\n", ToldText { told, version })?),
        Err(fault) => Ok(write!(text, "{}\n", FaultText(fault))?),
    }
}

fn answer_line<S: RowStore>(
    alloc: Global,
    replica: &mut Replica<S>,
    bytes: &[u8],
    wishes: &[Wish],
) -> Result<Reply, Memory>
    ensures { Makes S.RowStore LineStep (line.Answer bytes.now wishes.now) result replica.old replica.new }
{
    let answer = match Answer::decode(bytes) {
        Ok(answer) => answer,
        Err(fault) => return Ok(Reply::Refused(wire_fault_name(fault))),
    };
    let Ok(mut text) = String::with_capacity(alloc, ROOM) else {
        return Ok(Reply::Refused("Memory"));
    };
    let mut picker = Wishes::new(wishes);
    let told = replica.answer(alloc, &answer, &mut picker);
    put_heard(told, replica.version(), &mut text)?;
    Ok(Reply::Text(text))
}

fn dump_line<S: RowStore>(alloc: Global, replica: &mut Replica<S>) -> Reply
    ensures { Stepped S.RowStore LineStep line.Dump (reply_text result) replica.old replica.new }
{
    match dump_of(alloc, replica) {
        Ok(text) => Reply::Text(text),
        Err(fault) => Reply::Refused(store_fault_name(fault)),
    }
}

/// Does what a line asks, and gives what is printed of it. Where memory is refused for that, it was done.
pub(crate) fn work_ask<S: RowStore>(
    alloc: Global,
    replica: &mut Replica<S>,
    ask: &Ask,
) -> Result<Reply, Memory>
    ensures { Makes S.RowStore LineStep ask.now result replica.old replica.new }
{
    match ask {
        Ask::OnEdit(edit) => Ok(edit_line(alloc, replica, edit)),
        Ask::Push => push_line(alloc, replica),
        Ask::Resend => Ok(resend_line(alloc, replica)),
        Ask::Pull(limit) => Ok(pull_line(alloc, replica, *limit)),
        Ask::Catch(limit) => Ok(catch_line(alloc, replica, *limit)),
        Ask::Answer { bytes, wishes } => {
            answer_line(alloc, replica, bytes.as_slice(), wishes.as_slice())
        }
        Ask::Dump => Ok(dump_line(alloc, replica)),
    }
}
