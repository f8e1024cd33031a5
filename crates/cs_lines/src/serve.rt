//! Lines in, lines out.

ghost use Rattle.std.specs.Prelude.{◌≡◌, ◌⊎◌, List, ℕ, length, IfOk, IfErr, OnOk, OnErr, flat_map};
ghost use Rattle.std.specs.Io.KnownBytes.{Appends};
ghost use Rattle.cs_lines.specs.Lines.{hex_line};
ghost use Rattle.cs_lines.specs.Reading.{AreAllBefore};
ghost use Rattle.cs_lines.specs.Served.{Answers, AnswersAll, AreAllLines, AreFirstLines, StaysSent};
ghost use Rattle.cs_lines.specs.Shown.{bytes_of};
ghost use Rattle.cs_lines.specs.Turns.{HasFailed, TakesTurn};
ghost use Rattle.cs_lines.specs.Writing.{AppendsBroken, AppendsFront};

use crate::Memory;
use crate::line::{LineRead, read_line};
use crate::reply::{Reply, write_reply};
use crate::streams::{LineInput, LineOutput};
use hex::FromHexError;
use std::alloc::Global;

/// How often a run asks its reader for a line before it gives up.
pub const ASKS: u64 = 1 << 40;

/// What answers requests.
pub trait Serve {
    // The state, a request, the answer, and the state after it.
    ghost serves: { Self → List ℕ → List ℕ → Self → Type 0 };

    // The state before a request for which memory was refused, and the state after it, which a caller can't tell from it.
    ghost stays: { Self → Self → Type 0 };

    /// Answers one request. Where memory is refused, the server is as it was.
    fn serve(&mut self, request: &[u8]) -> Result<Vec<u8>, Memory>
        ensures served { IfOk result (λ answer. serves self.old request.now answer.items self.new) }
        ensures refused { OnErr result (stays self.old self.new) };
}

/// What ended a run before its input's end.
#[derive(Clone, Copy, Debug, PartialEq, Eq)]
pub enum Stop {
    /// The reader failed, or was asked `ASKS` times.
    Read,
    /// The writer failed.
    Write,
}

// What became of one line.
#[derive(Clone, Copy)]
pub(crate) enum Turn {
    Answered,
    Ended,
}

/// Answers each line of the reader, up to its end, by a line of lower case hex. It sends each answer before it reads on
/// (as runs show; no clause says when).
///
/// A line of hex digits of either case is a request, the empty line the empty one. A line that is
/// no hex is answered `1316`. A line for which memory runs out is answered `1301`, and the server
/// is then as it was; the next line is read as ever.
pub fn serve_lines<S: Serve, R: LineInput, W: LineOutput>(
    alloc: Global,
    server: &mut S,
    reader: &mut R,
    writer: &mut W,
) -> Result<(), Stop>
    // All lines were answered.
    ensures served { OnOk result ((lines : List (List ℕ)) × (answers : List (List ℕ))
        × AreAllLines (R.remaining reader.old) lines
        × AnswersAll S.serves S.stays server.old lines answers server.new
        × Appends (W.contents writer.old) (W.contents writer.new) (flat_map hex_line answers)) }

    // The reader failed within a line, or gave a whole run's lines: each line before was answered.
    ensures read { IfErr result (λ stop. stop ≡ Stop.Read → (lines : List (List ℕ)) × (answers : List (List ℕ))
        × AreAllBefore (R.remaining reader.old) (R.remaining reader.new) lines
        × AnswersAll S.serves S.stays server.old lines answers server.new
        × Appends (W.contents writer.old) (W.contents writer.new) (flat_map hex_line answers)
        × (R.failed reader.new ⊎ (length lines ≡ ASKS))) }

    // The writer failed, within the answer to the last line that was taken.
    ensures write { IfErr result (λ stop. stop ≡ Stop.Write → (lines : List (List ℕ)) × (answers : List (List ℕ))
        × AreFirstLines (R.remaining reader.old) lines
        × AnswersAll S.serves S.stays server.old lines answers server.new
        × AppendsBroken (W.contents writer.old) (W.contents writer.new) answers
        × W.failed writer.new) }

    ensures sent { StaysSent result (W.sent writer.old) (W.sent writer.new) }
{
    let mut line = Vec::new(alloc);
    for asked in 0..ASKS {
        match serve_line(alloc, server, reader, writer, &mut line)? {
            Turn::Answered => {}
            Turn::Ended => return Ok(()),
        }
    }
    Err(Stop::Read)
}

// Answers one line, for which the buffer is used.
fn serve_line<S: Serve, R: LineInput, W: LineOutput>(
    alloc: Global,
    server: &mut S,
    reader: &mut R,
    writer: &mut W,
    line: &mut Vec<u8>,
) -> Result<Turn, Stop>
    ensures turn { TakesTurn result S.serves S.stays server.old server.new
        (R.remaining reader.old) (R.remaining reader.new) (W.contents writer.old) (W.contents writer.new) }
    ensures sent { StaysSent result (W.sent writer.old) (W.sent writer.new) }
    ensures failed { IfErr result (λ stop. HasFailed stop (R.failed reader.new) (W.failed writer.new)) }
{
    match read_line(reader, line) {
        Ok(LineRead::Whole) => {
            let reply = answer_line(alloc, server, line);
            send(writer, &reply)
        }
        Ok(LineRead::Skipped) => send(writer, &Reply::NoMemory),
        Ok(LineRead::End) => Ok(Turn::Ended),
        Err(_) => Err(Stop::Read),
    }
}

fn send<W: LineOutput>(writer: &mut W, reply: &Reply) -> Result<Turn, Stop>
    ensures turn { IfOk result (λ turn. turn ≡ Turn.Answered) }
    ensures stop { IfErr result (λ stop. stop ≡ Stop.Write) }
    ensures written { OnOk result (Appends (W.contents writer.old) (W.contents writer.new)
        (hex_line (bytes_of reply.now))) }
    ensures sent { OnOk result (W.sent writer.new) }
    ensures front { OnErr result (AppendsFront (W.contents writer.old) (W.contents writer.new)
        (hex_line (bytes_of reply.now))) }
    ensures failed { OnErr result (W.failed writer.new) }
{
    match write_reply(writer, reply) {
        Ok(()) => Ok(Turn::Answered),
        Err(_) => Err(Stop::Write),
    }
}

// Answers one line. Where memory runs out, the server stays.
fn answer_line<S: Serve>(alloc: Global, server: &mut S, line: &[u8]) -> Reply
    ensures { Answers S.serves S.stays server.old line.now (bytes_of result) server.new }
{
    match hex::decode(alloc, line) {
        Ok(request) => match server.serve(&request) {
            Ok(answer) => Reply::Bytes(answer),
            Err(_) => Reply::NoMemory,
        },
        Err(FromHexError::OutOfMemory) => Reply::NoMemory,
        Err(_) => Reply::NotHex,
    }
}
