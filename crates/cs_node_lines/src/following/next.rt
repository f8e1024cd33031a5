//! The next request of an input, and what it does.

ghost use Rattle.std.specs.Prelude.{◌≡◌, ℕ, List, [], Option, Some};
ghost use Rattle.cs_lines.specs.Lines.{ended};
ghost use Rattle.cs_lines.specs.Reading.{TakesLine};
ghost use Rattle.cs_node_lines.specs.asks.Several.{several_in};
ghost use Rattle.cs_node_lines.specs.following.FollowStep.{AskStep};
ghost use Rattle.cs_node_lines.specs.following.Steps.{AllStep, AloneStep, IsGathered, Replies};
ghost use Rattle.cs_node_lines.specs.working.Replies.{reply_text};
ghost use Rattle.cs_node_lines.specs.working.Steps.{Makes, Stepped};

use crate::asks::{Ask, read_ask, read_look, read_several};
use crate::following::looking::look_line;
use crate::following::seeing::seen_line;
use crate::following::several::{Gathered, edits_reply, gather_lines};
use crate::working::{NodeFault, Reply, work_ask};
use cs_lines::{LineInput, LineRead, read_ended_line};
use cs_replica::Replica;
use cs_store::RowStore;
use cs_value::{Catalog, Memory};
use std::alloc::Global;

/// What the next request came to.
#[derive(Drop)]
pub(crate) enum Next {
    /// It was worked, and this is printed of it.
    Replied(Reply),
    /// The input ended within it, so that it can't be read.
    Cut,
    /// There was none.
    Ended,
}

/// Does what a node's line asks, and gives what is printed of it; of an answer also at what a wish stopped.
fn ask_line<S: RowStore>(
    alloc: Global,
    replica: &mut Replica<S>,
    catalog: &Catalog,
    ask: &Ask,
) -> Result<Reply, Memory>
    ensures { Makes S.RowStore (AskStep catalog.now) ask.now result replica.old replica.new }
{
    match ask {
        Ask::Answer { bytes, wishes } => {
            seen_line(alloc, replica, catalog, bytes.as_slice(), wishes.as_slice())
        }
        ask => work_ask(alloc, replica, ask),
    }
}

/// Does what a line alone asks, if it can be read, and gives what is printed of it.
fn follow_line<S: RowStore>(
    alloc: Global,
    replica: &mut Replica<S>,
    catalog: &Catalog,
    line: &[u8],
) -> Result<Reply, Memory>
    ensures { Makes S.RowStore (AloneStep catalog.now) line.now result replica.old replica.new }
{
    match read_ask(alloc, catalog, line) {
        Ok(Some(ask)) => return ask_line(alloc, replica, catalog, &ask),
        Ok(None) => {}
        Err(_) => return Ok(Reply::Refused("Memory")),
    }
    match read_look(alloc, line) {
        Ok(Some(look)) => Ok(look_line(alloc, replica, &look)),
        Ok(None) => Ok(Reply::Unread),
        Err(_) => Ok(Reply::Refused("Memory")),
    }
}

/// Makes the edits that were gathered behind the line that says how many come.
fn gathered_reply<S: RowStore>(
    alloc: Global,
    replica: &mut Replica<S>,
    catalog: &Catalog,
    gathered: &Gathered,
) -> Reply
    ensures { (lines : List (List ℕ)) → IsGathered catalog.now gathered.now lines
        → Stepped S.RowStore (AllStep catalog.now) lines (reply_text result) replica.old replica.new }
{
    match gathered {
        Gathered::Edits(edits) => edits_reply(alloc, replica, edits.as_slice()),
        Gathered::Unread => Reply::Unread,
        Gathered::Lacking => Reply::Refused("Memory"),
    }
}

/// Works the request whose first line stands in the buffer, and says that so many edits come.
fn next_several<S: RowStore, R: LineInput>(
    alloc: Global,
    replica: &mut Replica<S>,
    catalog: &Catalog,
    count: u32,
    reader: &mut R,
    line: &mut Vec<u8>,
) -> Result<Next, NodeFault>
    ensures { (input : Option (List ℕ)) → TakesLine [] input (ended (R.remaining reader.old)) line.old.items → several_in line.old.items ≡ Some count
        → Replies S.RowStore catalog.now result (R.failed reader.new) input (ended (R.remaining reader.new)) replica.old replica.new }
{
    match gather_lines(alloc, catalog, count, reader, line) {
        Ok(Some(gathered)) => Ok(Next::Replied(gathered_reply(alloc, replica, catalog, &gathered))),
        Ok(None) => Ok(Next::Cut),
        Err(fault) => Err(fault),
    }
}

/// Reads the next request, for which the buffer is used, and works it. Where there is no memory for its first line, nobody knows
/// how many belong to it.
pub(crate) fn next_reply<S: RowStore, R: LineInput>(
    alloc: Global,
    replica: &mut Replica<S>,
    catalog: &Catalog,
    reader: &mut R,
    line: &mut Vec<u8>,
) -> Result<Next, NodeFault>
    ensures { Replies S.RowStore catalog.now result (R.failed reader.new) (ended (R.remaining reader.old)) (ended (R.remaining reader.new)) replica.old replica.new }
{
    match read_ended_line(reader, line) {
        Ok(LineRead::Whole) => match read_several(line.as_slice()) {
            Some(count) => next_several(alloc, replica, catalog, count, reader, line),
            None => match follow_line(alloc, replica, catalog, line.as_slice()) {
                Ok(reply) => Ok(Next::Replied(reply)),
                Err(_) => Err(NodeFault::Memory),
            },
        },
        Ok(LineRead::Skipped) => Err(NodeFault::Memory),
        Ok(LineRead::End) => Ok(Next::Ended),
        Err(_) => Err(NodeFault::Read),
    }
}
