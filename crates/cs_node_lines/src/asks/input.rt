//! An input whose lines are asks.

ghost use Rattle.std.specs.Prelude.{IfErr, IfOk};
ghost use Rattle.cs_node_lines.specs.asks.Reading.{AreAllAsks, IsNotTaken, IsReadFault, TakesAsk};

use crate::asks::ask::{Ask, read_ask};
use crate::asks::fault::ReadFault;
use cs_lines::{ASKS, LineInput, LineRead, read_line};
use cs_value::Catalog;
use std::alloc::Global;

/// Reads an input whole: what its lines ask, in order.
///
/// # Errors
///
/// `Line` tells the first line that can't be read, from 1 on; `Read` where the reader failed, or was asked `ASKS` times;
/// `Memory`.
pub fn read_asks<R: LineInput>(
    alloc: Global,
    catalog: &Catalog,
    reader: &mut R,
) -> Result<Vec<Ask>, ReadFault>
    ensures read { IfOk result (λ asks. AreAllAsks catalog.now (R.remaining reader.old) asks.items) }
    ensures refused { IfErr result (IsReadFault catalog.now (R.failed reader.new) (R.remaining reader.old) (R.remaining reader.new)) }
{
    cs_lines::laws::lines_taken();
    let mut line = Vec::new(alloc);
    let mut asks = Vec::new(alloc);
    for asked in 0..ASKS {
        match next_ask(alloc, catalog, reader, &mut line, asked + 1) {
            Ok(Some(ask)) => asks.push(ask)?,
            Ok(None) => return Ok(asks),
            Err(fault) => return Err(fault),
        }
    }
    Err(ReadFault::Read)
}

// What the next line asks, which has this number, if there is a line. The buffer is for the line.
fn next_ask<R: LineInput>(
    alloc: Global,
    catalog: &Catalog,
    reader: &mut R,
    line: &mut Vec<u8>,
    number: u64,
) -> Result<Option<Ask>, ReadFault>
    ensures taken { IfOk result (λ found. TakesAsk catalog.now found (R.remaining reader.old) (R.remaining reader.new)) }
    ensures refused { IfErr result (IsNotTaken catalog.now number (R.failed reader.new) (R.remaining reader.old) (R.remaining reader.new)) }
{
    match read_line(reader, line) {
        Ok(LineRead::Whole) => match read_ask(alloc, catalog, line)? {
            Some(ask) => Ok(Some(ask)),
            None => Err(ReadFault::Line(number)),
        },
        Ok(LineRead::End) => Ok(None),
        Ok(LineRead::Skipped) => Err(ReadFault::Memory),
        Err(_) => Err(ReadFault::Read),
    }
}
