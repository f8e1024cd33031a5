//! Requests of a hub over the bytes of a file.

ghost use Rattle.std.specs.Prelude.{IfErr, IfOk};
ghost use Rattle.sqlite_disk.specs.Memory.{memory_bytes};
ghost use Rattle.cs_embed.specs.Refusals.{IsFileRefusal};
ghost use Rattle.cs_embed.specs.Told.{TellsHub};
ghost use Rattle.cs_embed.specs.Watched.{inner_of};

use crate::answer::Answer;
use crate::file::{Filed, close_file, open_file};
use crate::handing::Made;
use cs_node_lines::hub::serve_on;
use cs_store::RowStore;
use cs_value::Catalog;
use std::alloc::Global;

/// The answers of the hub in a file to requests, and the file then.
pub fn serve_file(
    alloc: Global,
    catalog: &Catalog,
    file: &[u8],
    lines: &[u8],
) -> Result<Made, Answer>
    ensures told { IfOk result (λ made. TellsHub ⟦<Filed as RowStore>⟧ catalog.now file.now lines.now made.texts.items (memory_bytes (inner_of made.file))) }
    ensures refused { IfErr result IsFileRefusal }
{
    let store = match open_file(alloc, file) {
        Ok(store) => store,
        Err(fault) => return Err(Answer::from(fault)),
    };
    let mut reader = lines;
    let mut texts = Vec::new(alloc);
    let (ended, store) = serve_on(alloc, store, catalog, &mut reader, &mut texts);
    // Where memory was wanting for the file, that is why, whatever was told of it.
    let file = match close_file(store) {
        Ok(file) => file,
        Err(fault) => return Err(Answer::from(fault)),
    };
    match ended {
        Ok(()) => Ok(Made { texts, file }),
        Err(fault) => Err(Answer::from(fault)),
    }
}
