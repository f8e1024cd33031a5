//! What lines are read from and written to.

ghost use Rattle.std.specs.Prelude.{◌≡◌, ◌≢◌, ◌⊎◌, ◌++◌, ◌∷◌, [], vec_len, ◌+◌, IfOk, IfErr, IfSome, MatchOption, OnOk, OnErr};
ghost use Rattle.std.specs.Io.{StopsAt, appended_bytes};
ghost use Rattle.std.specs.Io.BufRead.{DropsThrough, take_through};
ghost use Rattle.std.specs.Io.Buffered.{writer_buffer, writer_contents};
ghost use Rattle.std.specs.Io.KnownBytes.{Appends, Consumes, IsAtEnd, Keeps};
ghost use Rattle.std.specs.IoError.{error_kind};
ghost use Rattle.cs_lines.specs.Reading.{Skips, StaysInLine};
ghost use Rattle.cs_lines.specs.Writing.{AppendsFront};

use std::io;
use std::io::{BufRead, BufReader, BufWriter, ErrorKind, Read, Write};

/// How often a writer is asked to go on before it counts as failed.
const WRITES: u64 = 1 << 40;

/// How often a reader is asked for a byte before it counts as failed.
const READS: u64 = 1 << 40;

/// How a skipped line ended.
#[derive(Clone, Copy, Debug, PartialEq, Eq)]
pub enum Skip {
    /// By a line feed.
    Ended,
    /// By the input's end, behind at least a byte.
    Unended,
    /// There was no byte.
    Nothing,
}

/// What lines are read from. It tells its own failures from want of memory for a line.
pub trait LineInput: BufRead {
    // A read failed, and not for want of memory for the line.
    ghost failed: { Self → Type 0 };

    /// Reads up to a line feed and it too, or up to the end, behind what stands in the buffer.
    fn read_through(&mut self, line: &mut Vec<u8>) -> io::Result<usize>
        ensures ok { IfOk result (λ count. vec_len line.new ≡ vec_len line.old + count) }
        ensures stops { StopsAt (appended_bytes line.old.items line.new.items) 10 }
        ensures bytes { OnOk result (IfSome (Self.remaining self.old)
            (λ input. line.new.items ≡ line.old.items ++ take_through 10 input)) }
        ensures rest { OnOk result (DropsThrough (Self.remaining self.old) (Self.remaining self.new) 10) }
        ensures end { IfOk result (λ count. count ≡ 0 → IsAtEnd (Self.remaining self.old)) }
        ensures none_lost { Consumes (Self.remaining self.old) (Self.remaining self.new)
            (appended_bytes line.old.items line.new.items) }
        ensures failed { IfErr result (λ error. (error_kind error ≡ ErrorKind.OutOfMemory) ⊎ failed self.new) };

    /// Skips up to a line feed and it too, or up to the end, and tells which. It asks for no memory. Where a read fails, what
    /// was skipped is of this line.
    fn skip_through(&mut self) -> io::Result<Skip>
        ensures skipped { IfOk result (λ skip. IfSome (Self.remaining self.old) (Skips skip)) }
        ensures rest { OnOk result (DropsThrough (Self.remaining self.old) (Self.remaining self.new) 10) }
        ensures part { StaysInLine (Self.remaining self.old) (Self.remaining self.new) }
        ensures failed { OnErr result (failed self.new) };
}

/// What lines are written to. It may hold bytes back until they are sent.
pub trait LineOutput: Write {
    // Nothing that was written is held back.
    ghost sent: { Self → Type 0 };

    // A write or a flush failed.
    ghost failed: { Self → Type 0 };

    /// Writes all bytes, or a front of them where a write fails. A write that is interrupted is tried again.
    fn put(&mut self, bytes: &[u8]) -> io::Result<()>
        ensures written { OnOk result (Appends (Self.contents self.old) (Self.contents self.new) bytes.now) }
        ensures front { OnErr result (AppendsFront (Self.contents self.old) (Self.contents self.new) bytes.now) }
        ensures retried { IfErr result (λ error. error_kind error ≢ ErrorKind.Interrupted) }
        ensures failed { OnErr result (failed self.new) };

    /// Hands on what is held back.
    fn send(&mut self) -> io::Result<()>
        ensures kept { Keeps (Self.contents self.old) (Self.contents self.new) }
        ensures sent { OnOk result (sent self.new) }
        ensures failed { OnErr result (failed self.new) };
}

impl LineInput for &[u8] {
    ghost failed = { λ _. Unit {0} };

    fn read_through(&mut self, line: &mut Vec<u8>) -> io::Result<usize> {
        self.read_until(b'\n', line)
    }

    fn skip_through(&mut self) -> io::Result<Skip> {
        skip_bytes(self)
    }
}

impl<R: Read> LineInput for BufReader<R> {
    ghost failed = { λ _. Unit {0} };

    fn read_through(&mut self, line: &mut Vec<u8>) -> io::Result<usize> {
        self.read_until(b'\n', line)
    }

    fn skip_through(&mut self) -> io::Result<Skip> {
        skip_bytes(self)
    }
}

impl LineOutput for Vec<u8> {
    ghost sent = { λ _. Unit {0} };

    ghost failed = { λ _. Unit {0} };

    fn put(&mut self, bytes: &[u8]) -> io::Result<()> {
        write_whole(self, bytes)
    }

    fn send(&mut self) -> io::Result<()> {
        self.flush()
    }
}

impl<W: Write + Drop> LineOutput for BufWriter<W> {
    ghost sent = { λ writer. writer_buffer writer ≡ [] };

    ghost failed = { λ _. Unit {0} };

    fn put(&mut self, bytes: &[u8]) -> io::Result<()> {
        write_whole(self, bytes)
    }

    fn send(&mut self) -> io::Result<()> {
        self.flush()
    }
}

/// The next byte, or none at the end. Where a read fails, nothing is lost.
fn next_byte<R: Read>(reader: &mut R) -> io::Result<Option<u8>>
    ensures byte { IfOk result (λ byte. MatchOption byte
        (IsAtEnd (R.remaining reader.old) × Keeps (R.remaining reader.old) (R.remaining reader.new))
        (λ byte. Consumes (R.remaining reader.old) (R.remaining reader.new) (byte ∷ []))) }
    ensures kept { OnErr result (Keeps (R.remaining reader.old) (R.remaining reader.new)) }
{
    let mut byte = [0u8];
    for _ in 0..READS {
        match reader.read(&mut byte) {
            Ok(0) => return Ok(None),
            Ok(_) => return Ok(Some(byte[0])),
            Err(error) => match error.kind() {
                ErrorKind::Interrupted => {}
                _ => return Err(error),
            },
        }
    }
    Err(io::Error::from(ErrorKind::Interrupted))
}

/// Skips bytes up to a line feed and it too, or up to the end, and tells which. std's `skip_until` doesn't say what a failed read
/// leaves.
fn skip_bytes<R: Read>(reader: &mut R) -> io::Result<Skip>
    ensures skipped { IfOk result (λ skip. IfSome (R.remaining reader.old) (Skips skip)) }
    ensures rest { OnOk result (DropsThrough (R.remaining reader.old) (R.remaining reader.new) 10) }
    ensures part { StaysInLine (R.remaining reader.old) (R.remaining reader.new) }
{
    let mut at_end = Skip::Nothing;
    for _ in 0..u64::MAX {
        match next_byte(reader)? {
            None => return Ok(at_end),
            Some(b'\n') => return Ok(Skip::Ended),
            Some(_) => at_end = Skip::Unended,
        }
    }
    Err(io::Error::from(ErrorKind::Interrupted))
}

/// Writes all bytes, as std's `write_all` does, and tells what a failed write leaves: a front of them.
pub fn write_whole<W: Write>(writer: &mut W, bytes: &[u8]) -> io::Result<()>
    ensures written { OnOk result (Appends (W.contents writer.old) (W.contents writer.new) bytes.now) }
    ensures front { OnErr result (AppendsFront (W.contents writer.old) (W.contents writer.new) bytes.now) }
    ensures retried { IfErr result (λ error. error_kind error ≢ ErrorKind.Interrupted) }
{
    let mut rest = bytes;
    for _ in 0..WRITES {
        if rest.is_empty() {
            return Ok(());
        }
        match writer.write(rest) {
            Ok(0) => return Err(io::Error::from(ErrorKind::WriteZero)),
            Ok(count) => rest = &rest[count..],
            Err(error) => match error.kind() {
                ErrorKind::Interrupted => {}
                _ => return Err(error),
            },
        }
    }
    Err(io::Error::from(ErrorKind::TimedOut))
}

/// Writes a text and sends it. Where a write or flush fails, the writer holds a front of it.
pub fn write_text<W: LineOutput>(writer: &mut W, text: &str) -> io::Result<()>
    ensures written { OnOk result (Appends (W.contents writer.old) (W.contents writer.new) text.now) }
    ensures sent { OnOk result (W.sent writer.new) }
    ensures front { OnErr result (AppendsFront (W.contents writer.old) (W.contents writer.new) text.now) }
    ensures failed { OnErr result (W.failed writer.new) }
{
    writer.put(text.as_bytes())?;
    writer.send()
}
