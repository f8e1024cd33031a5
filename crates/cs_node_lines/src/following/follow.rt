//! One run of a replica that answers each request as it comes.

ghost use Rattle.std.specs.Prelude.{◌≡◌, ◌<◌, ◌-◌, ◌^◌, OnErr, OnOk};
ghost use Rattle.std.specs.Io.KnownBytes.{Appends};
ghost use Rattle.cs_lines.specs.Lines.{ended};
ghost use Rattle.cs_lines.specs.Writing.{AppendsFront};
ghost use Rattle.cs_node_lines.specs.following.Endings.{EndsFollowing};
ghost use Rattle.cs_node_lines.specs.following.Steps.{FollowsAll, FollowsNext};
ghost use Rattle.cs_node_lines.specs.working.Replies.{reply_text};
ghost use Rattle.cs_text.specs.Text.{line as lined};

use crate::following::next::{Next, next_reply};
use crate::working::{NodeFault, Reply, in_order, put_text};
use cs_lines::{ASKS, LineInput, LineOutput};
use cs_replica::Replica;
use cs_store::RowStore;
use cs_value::Catalog;
use std::alloc::Global;
use std::io;

/// Writes what is printed of a request and an empty line, and sends both.
fn write_replied<W: LineOutput>(writer: &mut W, reply: &Reply) -> io::Result<()>
    ensures written { OnOk result (Appends (W.contents writer.old) (W.contents writer.new) (lined (reply_text reply.now))) }
    ensures sent { OnOk result (W.sent writer.new) }
    ensures front { OnErr result (AppendsFront (W.contents writer.old) (W.contents writer.new) (lined (reply_text reply.now))) }
    ensures failed { OnErr result (W.failed writer.new) }
{
    put_text(writer, reply)?;
    writer.put(b"\n")?;
    writer.send()
}

/// Works the next request and prints its text, if there is one, and tells whether a further one may come.
fn follow_next<S: RowStore, R: LineInput, W: LineOutput>(
    alloc: Global,
    replica: &mut Replica<S>,
    catalog: &Catalog,
    reader: &mut R,
    line: &mut Vec<u8>,
    writer: &mut W,
) -> Result<bool, NodeFault>
    ensures told { FollowsNext S.RowStore catalog.now result (R.failed reader.new) (W.failed writer.new) (ended (R.remaining reader.old)) (ended (R.remaining reader.new))
        (W.contents writer.old) (W.contents writer.new) replica.old replica.new }
    ensures sent { OnOk result (W.sent writer.old → W.sent writer.new) }
{
    match next_reply(alloc, replica, catalog, reader, line)? {
        Next::Replied(reply) => match write_replied(writer, &reply) {
            Ok(()) => Ok(true),
            Err(_) => Err(NodeFault::Write),
        },
        Next::Cut => match write_replied(writer, &Reply::Unread) {
            Ok(()) => Ok(false),
            Err(_) => Err(NodeFault::Write),
        },
        Next::Ended => Ok(false),
    }
}

/// Works the requests of an input, each before the next is read.
fn follow<S: RowStore, R: LineInput, W: LineOutput>(
    alloc: Global,
    replica: &mut Replica<S>,
    catalog: &Catalog,
    reader: &mut R,
    writer: &mut W,
) -> Result<(), NodeFault>
    ensures told { FollowsAll S.RowStore catalog.now result (R.failed reader.new) (W.failed writer.new) (ended (R.remaining reader.old)) (ended (R.remaining reader.new))
        (W.contents writer.old) (W.contents writer.new) replica.old replica.new }
    ensures sent { OnOk result (W.sent writer.old → W.sent writer.new) }
{
    cs_lines::laws::lines_taken();
    let mut line = Vec::new(alloc);
    for _asked in 0..ASKS {
        in_order(replica);
        match follow_next(alloc, replica, catalog, reader, &mut line, writer) {
            Ok(true) => {}
            Ok(false) => return Ok(()),
            Err(fault) => return Err(fault),
        }
    }
    Err(NodeFault::Read)
}

/// Opens the replica with this id over a store, and works the requests of an input. The text of each and an empty line behind it are
/// printed and sent before the next is read. What it commits is committed before. One that can't be read has the text `unread`, also
/// where the input ends within it. One for which memory is refused has `refused Memory`, and nothing of it is done. What stands behind
/// the last line feed is no line: nothing is done or printed of it. An id is at most 4,294,967,294. The store comes back in any case.
///
/// # Errors
///
/// `Open` and `Memory` where the replica isn't opened: then nothing is read or printed, and the store holds what it held. `Read`
/// where the reader failed, or `ASKS` requests were worked: then nothing was done of a request that isn't whole. `Write`, and
/// `Memory` for a text, at a request: what was done stays done, its own step too. `Memory` also where there is none for a
/// request's first line: nothing was done of it.
pub fn follow_on<S: RowStore, R: LineInput, W: LineOutput>(
    alloc: Global,
    store: S,
    catalog: &Catalog,
    id: u32,
    reader: &mut R,
    writer: &mut W,
) -> (Result<(), NodeFault>, S)
    requires { id < 2 ^ 32 - 1 }
    ensures ends { EndsFollowing S.RowStore catalog.now id store result.1 (ended (R.remaining reader.old)) (ended (R.remaining reader.new))
        (R.failed reader.new) (W.failed writer.new) (W.contents writer.old) (W.contents writer.new) result.0 }
    ensures sent { OnOk result.0 (W.sent writer.old → W.sent writer.new) }
{
    match Replica::open(alloc, store, catalog, id) {
        Ok(mut replica) => {
            replica.shown();
            in_order(&replica);
            let ended = follow(alloc, &mut replica, catalog, reader, writer);
            (ended, replica.close())
        }
        Err((store, fault)) => (Err(NodeFault::from(fault)), store),
    }
}
