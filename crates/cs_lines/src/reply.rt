//! Replies as lines of hex.

ghost use Rattle.std.specs.Prelude.{◌≡◌, ◌≤◌, ◌*◌, OnErr, OnOk, length};
ghost use Rattle.std.specs.Io.KnownBytes.{Appends};
ghost use Rattle.hex.specs.Hex.{encode_lower};
ghost use Rattle.cs_lines.specs.Lines.{hex_line};
ghost use Rattle.cs_lines.specs.Shown.{bytes_of};
ghost use Rattle.cs_lines.specs.Writing.{AppendsFront};

use crate::streams::LineOutput;
use std::io;

// How many bytes are turned into digits at a time.
const PIECE: usize = 1024;

/// What is told of one line. The two refusals take no memory.
#[derive(Drop)]
pub(crate) enum Reply {
    /// What the server answered.
    Bytes(Vec<u8>),
    /// The line is no hex.
    NotHex,
    /// Memory ran out, and the server is as it was.
    NoMemory,
}

const NOT_HEX: [u8; 2] = [0x13, 0x16];

const NO_MEMORY: [u8; 2] = [0x13, 0x01];

pub(crate) fn write_reply<W: LineOutput>(writer: &mut W, reply: &Reply) -> io::Result<()>
    ensures written { OnOk result (Appends (W.contents writer.old) (W.contents writer.new)
        (hex_line (bytes_of reply.now))) }
    ensures sent { OnOk result (W.sent writer.new) }
    ensures front { OnErr result (AppendsFront (W.contents writer.old) (W.contents writer.new)
        (hex_line (bytes_of reply.now))) }
    ensures failed { OnErr result (W.failed writer.new) }
{
    match reply {
        Reply::Bytes(bytes) => write_hex_line(writer, bytes),
        Reply::NotHex => write_hex_line(writer, &NOT_HEX),
        Reply::NoMemory => write_hex_line(writer, &NO_MEMORY),
    }
}

/// Writes bytes as a line of lower case hex digits, and sends it.
///
/// The digits go through a fixed buffer, so it takes no memory of its own. Where a write or flush
/// fails, the writer holds a front of the line.
pub fn write_hex_line<W: LineOutput>(writer: &mut W, bytes: &[u8]) -> io::Result<()>
    ensures written { OnOk result (Appends (W.contents writer.old) (W.contents writer.new) (hex_line bytes.now)) }
    ensures sent { OnOk result (W.sent writer.new) }
    ensures front { OnErr result (AppendsFront (W.contents writer.old) (W.contents writer.new) (hex_line bytes.now)) }
    ensures failed { OnErr result (W.failed writer.new) }
{
    let mut rest = bytes;
    while !rest.is_empty() {
        let (piece, after) = rest.split_at(rest.len().min(PIECE));
        write_hex(writer, piece)?;
        rest = after;
    }
    writer.put(b"\n")?;
    writer.send()
}

fn write_hex<W: LineOutput>(writer: &mut W, piece: &[u8]) -> io::Result<()>
    requires { length piece.now ≤ PIECE }
    ensures written { OnOk result (Appends (W.contents writer.old) (W.contents writer.new)
        (encode_lower piece.now)) }
    ensures front { OnErr result (AppendsFront (W.contents writer.old) (W.contents writer.new)
        (encode_lower piece.now)) }
    ensures failed { OnErr result (W.failed writer.new) }
{
    let mut text = [0u8; 2 * PIECE];
    let digits = &mut text[..2 * piece.len()];
    match hex::encode_to_slice(piece, digits) {
        Ok(()) => writer.put(digits),
        Err(_) => unreachable!(),
    }
}
