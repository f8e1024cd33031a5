//! A script, read whole.

ghost use Rattle.std.specs.Prelude.{◌<◌, IfErr, IfOk};
ghost use Rattle.cs_lines.specs.declared.serve.TheConstants.{ASKS as MOST};
ghost use Rattle.cs_script.specs.Scripts.{IsNoScript, IsScript};
ghost use Rattle.cs_script.specs.Turns.{IsNoEvent, TakesEvent};

use crate::event::read_event;
use crate::fault::ScriptFault;
use cs_lines::{ASKS, LineInput, LineRead, read_line};
use cs_value::Catalog;
use cs_world::Event;
use std::alloc::Global;

/// The events that the lines of the reader name, up to its end.
pub(crate) fn read_script<R: LineInput>(
    alloc: Global,
    catalog: &Catalog,
    reader: &mut R,
) -> Result<Vec<Event>, ScriptFault>
    ensures ok { IfOk result (λ events. IsScript catalog.now (R.remaining reader.old) events.items) }
    ensures err { IfErr result (IsNoScript catalog.now (R.failed reader.new) (R.remaining reader.old) (R.remaining reader.new)) }
{
    cs_lines::laws::lines_taken();
    let mut line = Vec::new(alloc);
    let mut events = Vec::new(alloc);
    for asked in 0..ASKS {
        match next_event(alloc, catalog, reader, &mut line, asked)? {
            Some(event) => events.push(event)?,
            None => return Ok(events),
        }
    }
    Err(ScriptFault::Read)
}

// The event that the next line names, if there is a line; so many were read before. The buffer is for the line.
fn next_event<R: LineInput>(
    alloc: Global,
    catalog: &Catalog,
    reader: &mut R,
    line: &mut Vec<u8>,
    before: u64,
) -> Result<Option<Event>, ScriptFault>
    requires { before < MOST }
    ensures ok { IfOk result (λ found. TakesEvent catalog.now found (R.remaining reader.old) (R.remaining reader.new)) }
    ensures err { IfErr result (IsNoEvent catalog.now (R.failed reader.new) before (R.remaining reader.old) (R.remaining reader.new)) }
{
    match read_line(reader, line) {
        Ok(LineRead::Whole) => match read_event(alloc, catalog, line)? {
            Some(event) => Ok(Some(event)),
            None => Err(ScriptFault::Line(before + 1)),
        },
        Ok(LineRead::End) => Ok(None),
        Ok(LineRead::Skipped) => Err(ScriptFault::Memory),
        Err(_) => Err(ScriptFault::Read),
    }
}
