//! One line at a time.

ghost use Rattle.std.specs.Prelude.{◌≡◌, ◌≢◌, All, IfOk, OnErr};
ghost use Rattle.std.specs.Io.{StopsAt};
ghost use Rattle.std.specs.Io.BufRead.{ends_with_byte, strip_last};
ghost use Rattle.cs_lines.specs.Lines.{ended};
ghost use Rattle.cs_lines.specs.Reading.{HasRead, HasReadEnded, HasSkipped, HasSkippedEnded, StaysInLine};

use crate::streams::{LineInput, Skip};
use std::io;
use std::io::ErrorKind;

/// What a read of one line came to.
#[derive(Clone, Copy, Debug, PartialEq, Eq)]
pub enum LineRead {
    /// The line stands in the buffer, without its line feed.
    Whole,
    /// Memory ran out while the line was read, and the rest of it was skipped.
    Skipped,
    /// There was no further line.
    End,
}

/// Reads one line into the buffer, in place of what stood there, and tells whether a line feed ended it.
fn read_marked<R: LineInput>(reader: &mut R, line: &mut Vec<u8>) -> io::Result<(LineRead, bool)>
    ensures read { IfOk result (λ read.
        HasRead read.0 (R.remaining reader.old) (R.remaining reader.new) line.new.items) }
    ensures ended { IfOk result (λ read.
        HasReadEnded read.1 read.0 (ended (R.remaining reader.old)) (ended (R.remaining reader.new)) line.new.items) }
    ensures part { OnErr result (StaysInLine (R.remaining reader.old) (R.remaining reader.new)) }
    ensures failed { OnErr result (R.failed reader.new) }
{
    line.clear();
    match reader.read_through(line) {
        Ok(0) => Ok((LineRead::End, false)),
        Ok(_) => {
            let ended = drop_line_feed(line);
            Ok((LineRead::Whole, ended))
        }
        Err(error) => match error.kind() {
            ErrorKind::OutOfMemory => skip_line(reader, line),
            _ => Err(error),
        },
    }
}

/// Reads one line into the buffer, in place of what stood there.
///
/// A line ends by a line feed; a last line without one counts where it has bytes. Where memory
/// runs out, the rest of the line is skipped without asking for more, so that the next read begins
/// at the next line. Any other failure of the reader is handed on; what was read by then is of this
/// line.
pub fn read_line<R: LineInput>(reader: &mut R, line: &mut Vec<u8>) -> io::Result<LineRead>
    ensures read { IfOk result (λ read.
        HasRead read (R.remaining reader.old) (R.remaining reader.new) line.new.items) }
    ensures part { OnErr result (StaysInLine (R.remaining reader.old) (R.remaining reader.new)) }
    ensures failed { OnErr result (R.failed reader.new) }
{
    match read_marked(reader, line) {
        Ok((read, _)) => Ok(read),
        Err(error) => Err(error),
    }
}

/// Reads one line as `read_line` does, of those that a line feed ends. What stands behind the last line feed is no line: its
/// writer may have been cut off.
pub fn read_ended_line<R: LineInput>(reader: &mut R, line: &mut Vec<u8>) -> io::Result<LineRead>
    ensures read { IfOk result (λ read.
        HasRead read (ended (R.remaining reader.old)) (ended (R.remaining reader.new)) line.new.items) }
    ensures part { OnErr result (StaysInLine (ended (R.remaining reader.old)) (ended (R.remaining reader.new))) }
    ensures failed { OnErr result (R.failed reader.new) }
{
    match read_marked(reader, line) {
        Ok((read, true)) => Ok(read),
        Ok((_, false)) => Ok(LineRead::End),
        Err(error) => Err(error),
    }
}

// Takes off a line feed at the end, and tells whether there was one.
fn drop_line_feed(line: &mut Vec<u8>) -> bool
    ensures dropped { line.new.items ≡ strip_last 10 line.old.items }
    ensures told { result ≡ ends_with_byte 10 line.old.items }
{
    let ended = is_ended(line);
    if ended {
        line.pop();
    }
    ended
}

fn is_ended(line: &[u8]) -> bool
    ensures { result ≡ ends_with_byte 10 line.now }
{
    match line {
        [.., b'\n'] => true,
        _ => false,
    }
}

// Skips the rest of the line of which `front` was read, and tells whether a line feed ended it.
fn skip_line<R: LineInput>(reader: &mut R, front: &[u8]) -> io::Result<(LineRead, bool)>
    ensures skipped { StopsAt front.now 10 → IfOk result (λ read.
        HasSkipped read.0 front.now (R.remaining reader.old) (R.remaining reader.new)) }
    ensures ended { StopsAt front.now 10 → IfOk result (λ read.
        HasSkippedEnded read.1 read.0 front.now (R.remaining reader.old) (R.remaining reader.new)) }
    ensures part { OnErr result (StopsAt front.now 10 → All (λ byte. byte ≢ 10) front.now
        × StaysInLine (R.remaining reader.old) (R.remaining reader.new)) }
    ensures failed { OnErr result (R.failed reader.new) }
{
    if is_ended(front) {
        return Ok((LineRead::Skipped, true));
    }
    match reader.skip_through()? {
        Skip::Ended => Ok((LineRead::Skipped, true)),
        Skip::Unended => Ok((LineRead::Skipped, false)),
        Skip::Nothing => {
            if front.is_empty() {
                return Ok((LineRead::End, false));
            }
            Ok((LineRead::Skipped, false))
        }
    }
}
