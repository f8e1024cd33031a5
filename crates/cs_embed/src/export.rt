//! The functions that C calls.

ghost use Rattle.cs_embed.specs.Answers.{Hands, rooms_of};
ghost use Rattle.cs_embed.specs.Refusals.{IsHubRefusal, IsNodeRefusal};
ghost use Rattle.cs_embed.specs.Told.{LeavesHub, LeavesNode};

use crate::answer::Answer;
use crate::file::Filed;
use crate::handing::hand_both;
use crate::hub::serve_file;
use crate::node::work_file;
use crate::tables::declared_tables;
use cs_store::RowStore;
use std::alloc::Global;

/// Does what lines ask of the replica with this id in a file. See `cs_embed.h`.
#[unsafe(no_mangle)]
pub extern "C" fn cs_embed_node(
    alloc: Global,
    tables: &[u8],
    id: u32,
    file: &[u8],
    lines: &[u8],
    told: &mut [u8],
    left: &mut [u8],
) -> Answer
    ensures answers { Hands (LeavesNode ⟦<Filed as RowStore>⟧ tables.now id file.now lines.now) (IsNodeRefusal tables.now id lines.now)
        (rooms_of told.old told.new left.old left.new) result }
{
    if id == u32::MAX {
        return Answer::bad_id();
    }
    match declared_tables(alloc, tables) {
        Ok(catalog) => match work_file(alloc, &catalog, id, file, lines) {
            Ok(made) => hand_both(&made, told, left),
            Err(answer) => answer,
        },
        Err(answer) => answer,
    }
}

/// Answers requests, one a line in hex, by the hub in a file. See `cs_embed.h`.
#[unsafe(no_mangle)]
pub extern "C" fn cs_embed_hub(
    alloc: Global,
    tables: &[u8],
    file: &[u8],
    lines: &[u8],
    told: &mut [u8],
    left: &mut [u8],
) -> Answer
    ensures answers { Hands (LeavesHub ⟦<Filed as RowStore>⟧ tables.now file.now lines.now) (IsHubRefusal tables.now)
        (rooms_of told.old told.new left.old left.new) result }
{
    match declared_tables(alloc, tables) {
        Ok(catalog) => match serve_file(alloc, &catalog, file, lines) {
            Ok(made) => hand_both(&made, told, left),
            Err(answer) => answer,
        },
        Err(answer) => answer,
    }
}
