//! A script, from its lines to its text.

ghost use Rattle.std.specs.Prelude.{IfOk, OnOk, string_bytes};
ghost use Rattle.cs_script.specs.Endings.{EndsScript, IsPlayed};

use crate::dumping::push_dump;
use crate::fault::ScriptFault;
use crate::playing::play;
use crate::reading::read_script;
use cs_lines::{LineInput, LineOutput, write_text};
use cs_value::{Catalog, Memory};
use cs_world::{Event, World};
use std::alloc::Global;

/// Reads a script whole, and makes its events in a new world in memory of so many replicas of these tables. Writes what each came to, a
/// line each, and then the hub and the replicas, each with its rows.
///
/// # Errors
///
/// `Line` where a line names no event; `Read`, `Write` and `Memory`. But at `Write` nothing was written. 4,294,967,295 replicas are `Memory`.
pub fn run_script<R: LineInput, W: LineOutput>(
    alloc: Global,
    catalog: &Catalog,
    count: u32,
    reader: &mut R,
    writer: &mut W,
) -> Result<(), ScriptFault>
    ensures ends { EndsScript catalog.now count (R.remaining reader.old) (R.remaining reader.new) (R.failed reader.new) (W.failed writer.new)
        (W.contents writer.old) (W.contents writer.new) result }
    ensures sent { OnOk result (W.sent writer.new) }
{
    let events = read_script(alloc, catalog, reader)?;
    let text = played_text(alloc, catalog, count, &events)?;
    match write_text(writer, text.as_str()) {
        Ok(()) => Ok(()),
        Err(_) => Err(ScriptFault::Write),
    }
}

// The text of a run, and of the world at its end.
fn played_text(
    alloc: Global,
    catalog: &Catalog,
    count: u32,
    events: &[Event],
) -> Result<String, Memory>
    ensures { IfOk result (λ text. IsPlayed catalog.now count events.now (string_bytes text)) }
{
    cs_world::laws::sound_has_headline();
    let mut world = World::in_memory(alloc, catalog, count)?;
    let mut text = String::new(alloc);
    play(alloc, &mut world, events, &mut text)?;
    push_dump(alloc, catalog, &mut world, &mut text)?;
    Ok(text)
}
