//! Lines in hex, and the changesets in them.

ghost use Rattle.std.specs.Prelude.{◌≡◌, ◌⊎◌, [], IfErr, IfOk};
ghost use Rattle.std.specs.List.{AllByRecursion};
ghost use Rattle.cs_change.specs.Spelling.{FitsChangeset};
ghost use Rattle.cs_lines.specs.Reading.{StaysInLine, TakesLine};
ghost use Rattle.cs_tools.specs.Faults.{IsNoHex};
ghost use Rattle.cs_tools.specs.LinesRead.{AreReadUpTo, HasBadInput, IsNotTaken, SpellAll, TakesBytes, TakesNextBytes};
ghost use Rattle.cs_tools.specs.SpelledLine.{IsHexOf, TakesNext};
ghost use Rattle.cs_tools.specs.declared.fault.ToolFault.TheVariants.{BadHex, Memory};

use crate::fault::ToolFault;
use cs_changeset::Changeset;
use cs_lines::{ASKS, LineInput, LineRead, read_line};
use hex::FromHexError;
use std::alloc::Global;

/// The bytes that a line spells in hex, by digits of either case.
fn read_hex(alloc: Global, line: &[u8]) -> Result<Vec<u8>, ToolFault>
    ensures ok { IfOk result (λ bytes. IsHexOf line.now bytes.items) }
    ensures err { IfErr result (λ told. (told ≡ Memory) ⊎ (IsNoHex line.now × (told ≡ BadHex))) }
{
    match hex::decode(alloc, line) {
        Ok(bytes) => Ok(bytes),
        Err(FromHexError::OutOfMemory) => Err(ToolFault::Memory),
        Err(_) => Err(ToolFault::BadHex),
    }
}

/// The bytes that the next line spells in hex, if there is a line. The buffer is for the line.
pub fn next_bytes<R: LineInput>(
    alloc: Global,
    reader: &mut R,
    line: &mut Vec<u8>,
) -> Result<Option<Vec<u8>>, ToolFault>
    ensures ok { IfOk result (λ found. TakesBytes found (R.remaining reader.old) (R.remaining reader.new)) }
    ensures err { IfErr result (IsNotTaken (TakesLine [] (R.remaining reader.old) (R.remaining reader.new))
        (R.failed reader.new × StaysInLine (R.remaining reader.old) (R.remaining reader.new))) }
{
    match read_line(reader, line) {
        Ok(LineRead::Whole) => Ok(Some(read_hex(alloc, line)?)),
        Ok(LineRead::End) => Ok(None),
        Ok(LineRead::Skipped) => Err(ToolFault::Memory),
        Err(_) => Err(ToolFault::Read),
    }
}

/// The same, where no line is the empty line.
pub fn next_or_empty<R: LineInput>(alloc: Global, reader: &mut R) -> Result<Vec<u8>, ToolFault>
    ensures ok { IfOk result (λ bytes. TakesNextBytes bytes.items (R.remaining reader.old) (R.remaining reader.new)) }
    ensures err { IfErr result (IsNotTaken (TakesNext (R.remaining reader.old) (R.remaining reader.new))
        (R.failed reader.new × StaysInLine (R.remaining reader.old) (R.remaining reader.new))) }
{
    let mut line = Vec::new(alloc);
    match next_bytes(alloc, reader, &mut line)? {
        Some(bytes) => Ok(bytes),
        None => Ok(Vec::new(alloc)),
    }
}

/// The bytes that the lines spell in hex, one vector each, up to the end of the input. Or up to the first line that can't be read, and why
/// it can't.
pub fn all_bytes<R: LineInput>(alloc: Global, reader: &mut R) -> (Vec<Vec<u8>>, Option<ToolFault>)
    ensures { AreReadUpTo (R.failed reader.new) (R.remaining reader.old) (R.remaining reader.new) result.0.items result.1 }
{
    cs_lines::laws::lines_taken();
    let mut line = Vec::new(alloc);
    let mut inputs = Vec::new(alloc);
    for asked in 0..ASKS {
        match next_bytes(alloc, reader, &mut line) {
            Ok(Some(bytes)) => {
                if inputs.push(bytes).is_err() {
                    return (inputs, Some(ToolFault::Memory));
                }
            }
            Ok(None) => return (inputs, None),
            Err(told) => return (inputs, Some(told)),
        }
    }
    (inputs, Some(ToolFault::Read))
}

/// The changesets that these bytes spell, which stay in them.
pub fn read_all<'a>(alloc: Global, inputs: &'a [Vec<u8>]) -> Result<Vec<Changeset<'a>>, ToolFault>
    ensures fit { IfOk result (λ changesets. AllByRecursion FitsChangeset changesets.items) }
    ensures spelled { IfOk result (λ changesets. SpellAll inputs.now changesets.items) }
    ensures err { IfErr result (λ told. (told ≡ Memory) ⊎ HasBadInput told inputs.now) }
{
    let mut changesets = Vec::with_capacity(alloc, inputs.len())?;
    for bytes in inputs {
        changesets.push(cs_changeset::read(alloc, bytes.as_slice())?)?;
    }
    Ok(changesets)
}
