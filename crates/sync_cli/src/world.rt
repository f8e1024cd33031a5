//! `world N TABLE...`: a script of a world in memory.

ghost use Rattle.std.specs.Prelude.{◌≡◌, OnOk};
ghost use Rattle.sync_cli.specs.Endings.{EndsWorld, told_as};
ghost use Rattle.sync_cli.specs.Faults.{of_script};
ghost use Rattle.sync_cli.specs.Streams.{streams_of};

use crate::fault::RunFault;
use cs_lines::{LineInput, LineOutput};
use cs_script::{ScriptFault, run_script};
use cs_value::Catalog;
use std::alloc::Global;

/// Plays the script that the input has in a new world of so many replicas of these tables.
pub fn play_script<'w, R: LineInput, W: LineOutput>(
    alloc: Global,
    count: u32,
    catalog: &Catalog,
    reader: &mut R,
    writer: &mut W,
) -> Result<(), RunFault<'w>>
    ensures ends { EndsWorld count catalog.now (streams_of R.LineInput W.LineOutput reader.old reader.new writer.old writer.new) result }
    ensures sent { OnOk result (W.sent writer.new) }
{
    let ended = run_script(alloc, catalog, count, reader, writer);
    told_of(ended)
}

// How the run ends where the script ended so.
fn told_of<'w>(ended: Result<(), ScriptFault>) -> Result<(), RunFault<'w>>
    ensures { result ≡ told_as of_script ended }
{
    match ended {
        Ok(()) => Ok(()),
        Err(fault) => Err(RunFault::from(fault)),
    }
}
