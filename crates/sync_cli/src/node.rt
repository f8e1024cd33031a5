//! `node FILE ID TABLE...`: a replica over a file, worked by lines, which are read whole before or answered as they come.

ghost use Rattle.std.specs.Prelude.{◌≡◌, ◌<◌, ◌-◌, ◌^◌, OnOk};
ghost use Rattle.sync_cli.specs.Endings.{told_as};
ghost use Rattle.sync_cli.specs.Faults.{of_node};
ghost use Rattle.sync_cli.specs.OverFiles.{EndsFollowFile, EndsNodeFile};
ghost use Rattle.sync_cli.specs.Streams.{streams_of};

use crate::fault::RunFault;
use crate::opener::Opener;
use cs_lines::{LineInput, LineOutput};
use cs_node_lines::asks::read_asks;
use cs_node_lines::following::follow_on;
use cs_node_lines::working::{NodeFault, work_on};
use cs_store::RowStore;
use cs_value::Catalog;
use std::alloc::Global;

/// Reads the input whole, opens the replica with this id in the store for a file, and does what the lines ask.
pub fn work_file<'w, O: Opener, R: LineInput, W: LineOutput>(
    alloc: Global,
    opener: &mut O,
    path: &str,
    id: u32,
    catalog: &Catalog,
    reader: &mut R,
    writer: &mut W,
) -> Result<(), RunFault<'w>>
    requires { id < 2 ^ 32 - 1 }
    ensures ends { EndsNodeFile O.Store.RowStore O.Opener opener.new
        path.now id catalog.now (streams_of R.LineInput W.LineOutput reader.old reader.new writer.old writer.new) result }
    ensures sent { OnOk result (W.sent writer.old → W.sent writer.new) }
{
    let asks = read_asks(alloc, catalog, reader)?;
    let store = match opener.open(path) {
        Ok(store) => store,
        Err(fault) => return Err(RunFault::from(fault)),
    };
    let (ended, store) = work_on(alloc, store, catalog, id, asks.as_slice(), writer);
    opener.close(store);
    told_of(ended)
}

/// Opens the replica with this id in the store for a file, and answers each line of the input as it comes.
pub fn follow_file<'w, O: Opener, R: LineInput, W: LineOutput>(
    alloc: Global,
    opener: &mut O,
    path: &str,
    id: u32,
    catalog: &Catalog,
    reader: &mut R,
    writer: &mut W,
) -> Result<(), RunFault<'w>>
    requires { id < 2 ^ 32 - 1 }
    ensures ends { EndsFollowFile O.Store.RowStore O.Opener opener.new
        path.now id catalog.now (streams_of R.LineInput W.LineOutput reader.old reader.new writer.old writer.new) result }
    ensures sent { OnOk result (W.sent writer.old → W.sent writer.new) }
{
    let store = match opener.open(path) {
        Ok(store) => store,
        Err(fault) => return Err(RunFault::from(fault)),
    };
    let (ended, store) = follow_on(alloc, store, catalog, id, reader, writer);
    opener.close(store);
    told_of(ended)
}

// How the run ends where the node ended so.
fn told_of<'w>(ended: Result<(), NodeFault>) -> Result<(), RunFault<'w>>
    ensures { result ≡ told_as of_node ended }
{
    match ended {
        Ok(()) => Ok(()),
        Err(fault) => Err(RunFault::from(fault)),
    }
}
