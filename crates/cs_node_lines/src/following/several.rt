//! Several edits that are one request and one commit.

ghost use Rattle.std.specs.Prelude.{◌≡◌, ◌⊎◌, ◌++◌, ℕ, List, [], ◌∷◌, IfOk, Err};
ghost use Rattle.cs_lines.specs.Lines.{ended};
ghost use Rattle.cs_node_lines.specs.asks.Asked.{ask_in};
ghost use Rattle.cs_node_lines.specs.following.Several.{EditsStep, all_edited_text, edit_asked};
ghost use Rattle.cs_node_lines.specs.following.Steps.{Gathers, GathersNext, IsGathered};
ghost use Rattle.cs_node_lines.specs.working.LineStep.{SaysMemory};
ghost use Rattle.cs_node_lines.specs.working.Replies.{reply_text};
ghost use Rattle.cs_node_lines.specs.working.Steps.{Stepped};
ghost use Rattle.cs_pending.specs.declared.fault.EditsFault.TheVariants.{Refused};

use crate::asks::{Ask, read_ask};
use crate::told::edit_fault_name;
use crate::working::{NodeFault, Reply};
use cs_lines::{LineInput, LineRead, read_ended_line};
use cs_pending::{EditFault, EditsFault};
use cs_replica::Replica;
use cs_store::RowStore;
use cs_value::{Catalog, Edit, Memory};
use std::alloc::Global;

/// What is gathered of the lines of several edits.
#[derive(Drop)]
pub(crate) enum Gathered {
    /// Each was an edit.
    Edits(Vec<Edit>),
    /// One wasn't.
    Unread,
    /// Memory was refused for one.
    Lacking,
}

/// The edit that is asked for, if it is one.
fn edit_of(ask: Option<Ask>) -> Option<Edit>
    ensures { result ≡ edit_asked ask }
{
    match ask {
        Some(Ask::OnEdit(edit)) => Some(edit),
        _ => None,
    }
}

/// The edit that a line is, if it is one.
fn read_edit_line(alloc: Global, catalog: &Catalog, line: &[u8]) -> Result<Option<Edit>, Memory>
    ensures { IfOk result (λ found. found ≡ edit_asked (ask_in catalog.now line.now)) }
{
    Ok(edit_of(read_ask(alloc, catalog, line)?))
}

/// What is gathered with a line more, behind edits.
fn gather_edit(alloc: Global, catalog: &Catalog, line: &[u8], mut edits: Vec<Edit>) -> Gathered
    ensures { (lines : List (List ℕ)) → IsGathered catalog.now (Gathered.Edits edits) lines → IsGathered catalog.now result (lines ++ line.now ∷ []) }
{
    match read_edit_line(alloc, catalog, line) {
        Ok(Some(edit)) => match edits.push(edit) {
            Ok(()) => Gathered::Edits(edits),
            Err(_) => Gathered::Lacking,
        },
        Ok(None) => Gathered::Unread,
        Err(_) => Gathered::Lacking,
    }
}

/// What is gathered with a line more.
fn gather_line(alloc: Global, catalog: &Catalog, line: &[u8], gathered: Gathered) -> Gathered
    ensures { (lines : List (List ℕ)) → IsGathered catalog.now gathered lines → IsGathered catalog.now result (lines ++ line.now ∷ []) }
{
    match gathered {
        Gathered::Edits(edits) => gather_edit(alloc, catalog, line, edits),
        Gathered::Unread => Gathered::Unread,
        Gathered::Lacking => Gathered::Lacking,
    }
}

/// Reads a line, for which the buffer is used, and gathers it behind what was gathered; none at the input's end.
fn gather_next<R: LineInput>(
    alloc: Global,
    catalog: &Catalog,
    gathered: Gathered,
    reader: &mut R,
    line: &mut Vec<u8>,
) -> Result<Option<Gathered>, NodeFault>
    ensures { GathersNext catalog.now gathered result (R.failed reader.new) (ended (R.remaining reader.old)) (ended (R.remaining reader.new)) }
{
    match read_ended_line(reader, line) {
        Ok(LineRead::Whole) => Ok(Some(gather_line(alloc, catalog, line.as_slice(), gathered))),
        Ok(LineRead::Skipped) => Ok(Some(Gathered::Lacking)),
        Ok(LineRead::End) => Ok(None),
        Err(_) => Err(NodeFault::Read),
    }
}

/// Reads so many lines, for which the buffer is used, and gathers the edits that they are; none where the input ends within them.
/// All are read in any case, since they belong to one request.
pub(crate) fn gather_lines<R: LineInput>(
    alloc: Global,
    catalog: &Catalog,
    count: u32,
    reader: &mut R,
    line: &mut Vec<u8>,
) -> Result<Option<Gathered>, NodeFault>
    ensures { Gathers catalog.now count result (R.failed reader.new) (ended (R.remaining reader.old)) (ended (R.remaining reader.new)) }
{
    cs_lines::laws::lines_taken();
    let mut gathered = Gathered::Edits(Vec::new(alloc));
    for _taken in 0..count {
        match gather_next(alloc, catalog, gathered, reader, line) {
            Ok(Some(next)) => gathered = next,
            Ok(None) => return Ok(None),
            Err(fault) => return Err(fault),
        }
    }
    Ok(Some(gathered))
}

/// `refused K NAME`, K from 1 on, of the edit that is refused; or that memory was refused for that.
fn refused_at(alloc: Global, at: usize, fault: EditFault) -> Reply
    ensures { (reply_text result ≡ all_edited_text (Err (Refused at fault))) ⊎ SaysMemory (reply_text result) }
{
    let number = at as u128 + 1;
    match format!(in alloc; "refused {} {}\n", number, edit_fault_name(fault)) {
        Ok(text) => Reply::Text(text),
        Err(_) => Reply::Refused("Memory"),
    }
}

/// Makes edits one behind another, all or none.
pub(crate) fn edits_reply<S: RowStore>(
    alloc: Global,
    replica: &mut Replica<S>,
    edits: &[Edit],
) -> Reply
    ensures { Stepped S.RowStore EditsStep edits.now (reply_text result) replica.old replica.new }
{
    match replica.edit_all(alloc, edits) {
        Ok(()) => Reply::Done,
        Err(EditsFault::Memory) => Reply::Refused("Memory"),
        Err(EditsFault::Device) => Reply::Refused("Device"),
        Err(EditsFault::Refused { at, fault }) => refused_at(alloc, at, fault),
    }
}
