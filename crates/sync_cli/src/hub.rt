//! `hub TABLE...` and `hub --file FILE TABLE...`: requests in hex, answered line by line.

ghost use Rattle.std.specs.Prelude.{◌≡◌, OnOk, option_map};
ghost use Rattle.sync_cli.specs.Endings.{EndsServing, told_as};
ghost use Rattle.sync_cli.specs.Faults.{of_memory, of_serving};
ghost use Rattle.sync_cli.specs.OverFiles.{EndsHub, EndsServingFile};
ghost use Rattle.sync_cli.specs.Streams.{streams_of};

use crate::fault::RunFault;
use crate::opener::Opener;
use cs_lines::{LineInput, LineOutput};
use cs_map_store::MapStore;
use cs_node_lines::hub::{ServingFault, serve_on};
use cs_store::RowStore;
use cs_value::Catalog;
use std::alloc::Global;

/// Answers each line of the input as a new hub of these tables, over a store in memory.
pub fn serve_hub<'w, R: LineInput, W: LineOutput>(
    alloc: Global,
    catalog: &Catalog,
    reader: &mut R,
    writer: &mut W,
) -> Result<(), RunFault<'w>>
    ensures ends { EndsServing catalog.now (streams_of R.LineInput W.LineOutput reader.old reader.new writer.old writer.new) result }
    ensures sent { OnOk result (W.sent writer.old → W.sent writer.new) }
{
    let (ended, _) = serve_on(alloc, MapStore::new(alloc), catalog, reader, writer);
    told_in_memory(ended)
}

// How the run ends where the hub over a store in memory ended so.
fn told_in_memory<'w>(ended: Result<(), ServingFault>) -> Result<(), RunFault<'w>>
    ensures { result ≡ told_as of_memory ended }
{
    match ended {
        Ok(()) => Ok(()),
        Err(fault) => Err(in_memory(fault)),
    }
}

// A store in memory that holds nothing is opened, but for want of memory.
fn in_memory<'w>(fault: ServingFault) -> RunFault<'w>
    ensures { result ≡ of_memory fault }
{
    match fault {
        ServingFault::Read => RunFault::Read,
        ServingFault::Write => RunFault::Write,
        ServingFault::Memory => RunFault::Memory,
        ServingFault::Open(_) => RunFault::Memory,
    }
}

/// The same over the store that the opener gives for a file.
pub fn serve_file<'w, O: Opener, R: LineInput, W: LineOutput>(
    alloc: Global,
    opener: &mut O,
    path: &str,
    catalog: &Catalog,
    reader: &mut R,
    writer: &mut W,
) -> Result<(), RunFault<'w>>
    ensures ends { EndsServingFile O.Store.RowStore O.Opener opener.new
        path.now catalog.now (streams_of R.LineInput W.LineOutput reader.old reader.new writer.old writer.new) result }
    ensures sent { OnOk result (W.sent writer.old → W.sent writer.new) }
{
    let store = match opener.open(path) {
        Ok(store) => store,
        Err(fault) => return Err(RunFault::from(fault)),
    };
    let (ended, store) = serve_on(alloc, store, catalog, reader, writer);
    opener.close(store);
    told_of(ended)
}

// How the run ends where the hub ended so.
fn told_of<'w>(ended: Result<(), ServingFault>) -> Result<(), RunFault<'w>>
    ensures { result ≡ told_as of_serving ended }
{
    match ended {
        Ok(()) => Ok(()),
        Err(fault) => Err(RunFault::from(fault)),
    }
}

/// The one or the other.
pub fn serve_asked<'w, O: Opener, R: LineInput, W: LineOutput>(
    alloc: Global,
    opener: &mut O,
    file: Option<&str>,
    catalog: &Catalog,
    reader: &mut R,
    writer: &mut W,
) -> Result<(), RunFault<'w>>
    ensures ends { EndsHub O.Store.RowStore O.Opener opener.new
        (option_map (λ word. word.now) file.entry) catalog.now (streams_of R.LineInput W.LineOutput reader.old reader.new writer.old writer.new) result }
    ensures sent { OnOk result (W.sent writer.old → W.sent writer.new) }
{
    match file {
        Some(path) => serve_file(alloc, opener, path, catalog, reader, writer),
        None => serve_hub(alloc, catalog, reader, writer),
    }
}
