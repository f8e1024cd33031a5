//! Lines of a node over the bytes of a file.

ghost use Rattle.std.specs.Prelude.{◌≡◌, ◌<◌, ◌-◌, ◌^◌, IfErr, IfOk};
ghost use Rattle.sqlite_disk.specs.Memory.{memory_bytes};
ghost use Rattle.cs_embed.specs.Refusals.{IsFileRefusal, IsLineRefusal};
ghost use Rattle.cs_embed.specs.Told.{TellsNode, WorksAsks};
ghost use Rattle.cs_embed.specs.Watched.{inner_of};

use crate::answer::Answer;
use crate::file::{Filed, close_file, open_file};
use crate::handing::Made;
use cs_node_lines::asks::{Ask, read_asks};
use cs_node_lines::working::work_on;
use cs_store::RowStore;
use cs_value::Catalog;
use std::alloc::Global;

/// The texts of what is asked of the replica with this id in a store, and the file then.
fn work_store(
    alloc: Global,
    catalog: &Catalog,
    id: u32,
    store: Filed,
    asks: &[Ask],
) -> Result<Made, Answer>
    requires { id < 2 ^ 32 - 1 }
    ensures told { IfOk result (λ made. WorksAsks ⟦<Filed as RowStore>⟧ catalog.now id asks.now store made.texts.items (memory_bytes (inner_of made.file))) }
    ensures refused { IfErr result IsFileRefusal }
{
    let mut texts = Vec::new(alloc);
    let (ended, store) = work_on(alloc, store, catalog, id, asks, &mut texts);
    // Where memory was wanting for the file, that is why, whatever was told of it.
    let file = match close_file(store) {
        Ok(file) => file,
        Err(fault) => return Err(Answer::from(fault)),
    };
    match ended {
        Ok(()) => Ok(Made { texts, file }),
        Err(fault) => Err(Answer::from(fault)),
    }
}

/// The texts of what lines ask of the replica with this id in a file, and the file then.
pub fn work_file(
    alloc: Global,
    catalog: &Catalog,
    id: u32,
    file: &[u8],
    lines: &[u8],
) -> Result<Made, Answer>
    requires { id < 2 ^ 32 - 1 }
    ensures told { IfOk result (λ made. TellsNode ⟦<Filed as RowStore>⟧ catalog.now id file.now lines.now made.texts.items (memory_bytes (inner_of made.file))) }
    ensures refused { IfErr result (IsLineRefusal catalog.now lines.now) }
{
    let mut reader = lines;
    let asks = match read_asks(alloc, catalog, &mut reader) {
        Ok(asks) => asks,
        Err(fault) => return Err(Answer::from(fault)),
    };
    match open_file(alloc, file) {
        Ok(store) => work_store(alloc, catalog, id, store, asks.as_slice()),
        Err(fault) => Err(Answer::from(fault)),
    }
}
