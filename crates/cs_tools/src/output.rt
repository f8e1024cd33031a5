//! What a tool owes, on the output.

ghost use Rattle.std.specs.Prelude.{◌≡◌, Err, IsOkAnd, OnOk};
ghost use Rattle.cs_lines.specs.Lines.{hex_line};
ghost use Rattle.cs_tools.specs.Endings.{Ends};

use crate::fault::ToolFault;
use cs_lines::{LineOutput, write_hex_line, write_text};

/// Writes the text that is owed, or tells why there is none.
pub fn end_with_text<W: LineOutput>(
    owed: Result<String, ToolFault>,
    writer: &mut W,
) -> Result<(), ToolFault>
    ensures ends { Ends (λ text. IsOkAnd owed (λ written. text ≡ written.bytes.items)) (λ told. owed ≡ Err told)
        (W.failed writer.new) (W.contents writer.old) (W.contents writer.new) result }
    ensures sent { OnOk result (W.sent writer.new) }
{
    let text = owed?;
    match write_text(writer, text.as_str()) {
        Ok(()) => Ok(()),
        Err(_) => Err(ToolFault::Write),
    }
}

/// Writes the bytes that are owed as a line of lower case hex, or tells why there are none.
pub fn end_with_line<W: LineOutput>(
    owed: Result<Vec<u8>, ToolFault>,
    writer: &mut W,
) -> Result<(), ToolFault>
    ensures ends { Ends (λ text. IsOkAnd owed (λ bytes. text ≡ hex_line bytes.items)) (λ told. owed ≡ Err told)
        (W.failed writer.new) (W.contents writer.old) (W.contents writer.new) result }
    ensures sent { OnOk result (W.sent writer.new) }
{
    let bytes = owed?;
    match write_hex_line(writer, &bytes) {
        Ok(()) => Ok(()),
        Err(_) => Err(ToolFault::Write),
    }
}
