//! An answer of the hub, with the clash at which a wish stops.

ghost use Rattle.std.specs.Prelude.{◌≡◌, ◌++◌, Ok, OnOk, string_bytes};
ghost use Rattle.cs_node_lines.specs.declared.asks.ask.Ask.TheVariants as line;
ghost use Rattle.cs_node_lines.specs.following.FollowStep.{AskStep};
ghost use Rattle.cs_node_lines.specs.following.Steps.{HearsNoting, note_text};
ghost use Rattle.cs_node_lines.specs.working.Steps.{Makes};
ghost use Rattle.cs_replica.specs.Answered.{SaysDevice};
ghost use Rattle.cs_replica.specs.declared.told.Told.TheVariants.{Stopped};
ghost use Rattle.cs_replica.specs.Leaves.{Counts};
ghost use Rattle.cs_replica.specs.Step.{Turns};

use crate::following::note::Note;
use crate::following::noting::Noting;
use crate::told::ToldText;
use crate::working::{ROOM, Reply, put_heard, wire_fault_name};
use cs_conflict::Wish;
use cs_exchange::pulling::AnswerFault;
use cs_replica::{Replica, Told};
use cs_store::RowStore;
use cs_value::{Catalog, Memory};
use cs_wire::Answer;
use std::alloc::Global;
use std::fmt::Write;

/// Tells a replica the hub's answer; at each clash the next of the wishes counts, and the one at which a wish stops is noted.
fn tell_noting<S: RowStore>(
    alloc: Global,
    replica: &mut Replica<S>,
    catalog: &Catalog,
    answer: &Answer<'_>,
    wishes: &[Wish],
) -> (Result<Told, AnswerFault>, Note)
    ensures turned { Turns S.RowStore (λ before after. HearsNoting catalog.now before answer.now wishes.now result.0 result.1 after) replica.old replica.new }
    ensures counts { Counts S.RowStore (SaysDevice result.0) replica.old replica.new }
{
    let mut picker = Noting::new(alloc, catalog, wishes);
    let told = replica.answer(alloc, answer, &mut picker);
    (told, picker.into_note())
}

/// Puts behind a text that a wish stopped, with what is noted of the clash.
fn put_stopped(count: u64, note: &Note, version: u64, text: &mut String) -> Result<(), Memory>
    ensures { OnOk result (string_bytes text.new ≡ string_bytes text.old ++ note_text (Ok (Stopped count)) note.now version) }
{
    let told = Told::Stopped(count);
    match note {
        Note::Nothing => put_heard(Ok(told), version, text),
        Note::Text(clash) => Ok(write!(text, "{} {clash}\n", ToldText { told, version })?),
        Note::Lacking => Ok(write!(text, "{} clash Memory\n", ToldText { told, version })?),
    }
}

/// Puts behind a text what became of an answer; where a wish stopped, with what is noted of the clash.
fn put_seen(
    told: Result<Told, AnswerFault>,
    note: &Note,
    version: u64,
    text: &mut String,
) -> Result<(), Memory>
    ensures { OnOk result (string_bytes text.new ≡ string_bytes text.old ++ note_text told note.now version) }
{
    match told {
        Ok(Told::Stopped(count)) => put_stopped(count, note, version, text),
        told => put_heard(told, version, text),
    }
}

/// Takes an answer of the hub, in its bytes, by wishes. It gives what is printed of it, with the clash at which a wish stops.
///
/// # Errors
///
/// `Memory` for the text: what was done stays done.
pub fn seen_line<S: RowStore>(
    alloc: Global,
    replica: &mut Replica<S>,
    catalog: &Catalog,
    bytes: &[u8],
    wishes: &[Wish],
) -> Result<Reply, Memory>
    ensures { Makes S.RowStore (AskStep catalog.now) (line.Answer bytes.now wishes.now) result replica.old replica.new }
{
    let answer = match Answer::decode(bytes) {
        Ok(answer) => answer,
        Err(fault) => return Ok(Reply::Refused(wire_fault_name(fault))),
    };
    let Ok(mut text) = String::with_capacity(alloc, ROOM) else {
        return Ok(Reply::Refused("Memory"));
    };
    let (told, note) = tell_noting(alloc, replica, catalog, &answer, wishes);
    put_seen(told, &note, replica.version(), &mut text)?;
    Ok(Reply::Text(text))
}
