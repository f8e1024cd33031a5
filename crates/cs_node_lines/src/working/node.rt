//! One run of a node.

ghost use Rattle.std.specs.Prelude.{◌≡◌, ◌<◌, ◌-◌, ◌^◌, OnOk};
ghost use Rattle.cs_node_lines.specs.working.Endings.{EndsNode, EndsWorking};
ghost use Rattle.cs_node_lines.specs.working.LineStep.{LineStep};
ghost use Rattle.cs_node_lines.specs.working.Steps.{Tells, TellsAll};

use crate::asks::{Ask, read_asks};
use crate::working::fault::NodeFault;
use crate::working::reply::write_reply;
use crate::working::working::{in_order, work_ask};
use cs_lines::{LineInput, LineOutput};
use cs_replica::Replica;
use cs_store::RowStore;
use cs_value::Catalog;
use std::alloc::Global;

/// Does what a line asks, and prints its text and sends it.
fn do_ask<S: RowStore, W: LineOutput>(
    alloc: Global,
    replica: &mut Replica<S>,
    ask: &Ask,
    writer: &mut W,
) -> Result<(), NodeFault>
    ensures told { Tells S.RowStore LineStep ask.now result (W.failed writer.new) (W.contents writer.old) (W.contents writer.new) replica.old replica.new }
    ensures sent { OnOk result (W.sent writer.new) }
{
    let reply = work_ask(alloc, replica, ask)?;
    match write_reply(writer, &reply) {
        Ok(()) => Ok(()),
        Err(_) => Err(NodeFault::Write),
    }
}

/// Does what lines ask, one behind another.
fn do_asks<S: RowStore, W: LineOutput>(
    alloc: Global,
    replica: &mut Replica<S>,
    asks: &[Ask],
    writer: &mut W,
) -> Result<(), NodeFault>
    ensures told { TellsAll S.RowStore LineStep asks.now result (W.failed writer.new) (W.contents writer.old) (W.contents writer.new) replica.old replica.new }
    ensures sent { OnOk result (W.sent writer.old → W.sent writer.new) }
{
    let mut rest = asks;
    while let Some((ask, more)) = rest.split_first() {
        in_order(replica);
        match do_ask(alloc, replica, ask, writer) {
            Ok(()) => rest = more,
            Err(fault) => return Err(fault),
        }
    }
    Ok(())
}

/// Opens the replica with this id over a store and does what lines ask, one behind another. The text of each is printed and sent
/// before the next is worked on, and what it commits is committed before. A failed device is told of a line only where the
/// store's count of failures rose at it. An id is at most 4,294,967,294. The store comes back in any case.
///
/// # Errors
///
/// `Open` and `Memory` where the replica isn't opened: then nothing is printed, and the store holds what it held. `Write`, and
/// `Memory` for a text, at a line: what was done stays done, the line's own step too.
pub fn work_on<S: RowStore, W: LineOutput>(
    alloc: Global,
    store: S,
    catalog: &Catalog,
    id: u32,
    asks: &[Ask],
    writer: &mut W,
) -> (Result<(), NodeFault>, S)
    requires { id < 2 ^ 32 - 1 }
    ensures ends { EndsWorking S.RowStore catalog.now id asks.now store result.1
        (W.failed writer.new) (W.contents writer.old) (W.contents writer.new) result.0 }
    ensures sent { OnOk result.0 (W.sent writer.old → W.sent writer.new) }
{
    match Replica::open(alloc, store, catalog, id) {
        Ok(mut replica) => {
            replica.shown();
            in_order(&replica);
            let ended = do_asks(alloc, &mut replica, asks, writer);
            (ended, replica.close())
        }
        Err((store, fault)) => (Err(NodeFault::from(fault)), store),
    }
}

/// Reads an input whole, and then works a replica by its lines, as `work_on` does.
///
/// # Errors
///
/// `Line` tells the first line that can't be read, from 1 on, and `Read` that the reader failed or was asked too often. Then, and
/// where memory is refused for the lines, the store wasn't touched and nothing is printed. Else those of `work_on`.
pub fn node_on<S: RowStore, R: LineInput, W: LineOutput>(
    alloc: Global,
    store: S,
    catalog: &Catalog,
    id: u32,
    reader: &mut R,
    writer: &mut W,
) -> (Result<(), NodeFault>, S)
    requires { id < 2 ^ 32 - 1 }
    ensures ends { EndsNode S.RowStore catalog.now id (R.remaining reader.old) (R.remaining reader.new) (R.failed reader.new) store result.1
        (W.failed writer.new) (W.contents writer.old) (W.contents writer.new) result.0 }
    ensures sent { OnOk result.0 (W.sent writer.old → W.sent writer.new) }
{
    match read_asks(alloc, catalog, reader) {
        Ok(asks) => work_on(alloc, store, catalog, id, asks.as_slice(), writer),
        Err(fault) => (Err(NodeFault::from(fault)), store),
    }
}
