//! A changeset read from a reader.

ghost use Rattle.std.specs.Prelude.{◌≡◌, ◌++◌, ◌⊎◌, List, ℕ, IfErr, IfOk, IfSome, IsErrOf, OnOk, true, false};
ghost use Rattle.std.specs.Io.KnownBytes.{Keeps};
ghost use Rattle.std.specs.IoError.{error_kind};
ghost use Rattle.cs_changeset.specs.declared.fault.Fault.{Fault as FaultTold};
ghost use Rattle.cs_feed.specs.Feeding.{FeedsNext, GivesChangesetFrom, IsFaultSoFar};
ghost use Rattle.cs_feed.specs.declared.stream.StreamFault.TheVariants.{At, Memory as NoMemory, Read as ReadFailed};

use crate::changeset_buf::ChangesetBuf;
use crate::feed::Feed;
use cs_changeset::{CodecFault, Fault, laws};
use std::alloc::Global;
use std::io;
use std::io::{BufRead, BufReader, ErrorKind, Read};
use thiserror::Error;

/// How often a read that is interrupted is tried before it counts as failed.
const READS: u64 = 1 << 40;

/// Why a reader gives no changeset: want of memory, a failed read, or a fault of its bytes and its offset.
#[derive(Debug, Drop, Error)]
pub enum StreamFault {
    #[error("Memory")]
    Memory,
    #[error("Read")]
    Read,
    #[error("{fault} at {offset}")]
    At { fault: Fault, offset: usize },
}

impl From<CodecFault> for StreamFault {
    ghost use Rattle.cs_feed.specs.Feeding.{stream_fault};

    ghost from_gives = { λ fault told. told ≡ stream_fault fault };

    fn from(fault: CodecFault) -> StreamFault {
        match fault {
            CodecFault::Memory => StreamFault::Memory,
            CodecFault::At { fault, offset } => StreamFault::At { fault, offset },
        }
    }
}

/// What pieces are read from.
pub trait PieceInput: BufRead {
    // A read failed.
    ghost failed: { Self → Type 0 };

    /// Pushes the bytes that it holds, after a read where it holds none: none at the end alone. A read that is interrupted is
    /// tried again.
    fn feed_next(&mut self, feed: &mut Feed) -> Result<(), StreamFault>
        ensures fed { OnOk result (FeedsNext (Self.remaining self.old) (Self.remaining self.new) feed.old feed.new) }

        // A fault of the bytes so far is told, whatever may follow.
        ensures told { (fault : FaultTold) (offset : ℕ) → IsErrOf result (At fault offset)
            → IfSome (Self.remaining self.old) (λ input. IsFaultSoFar fault offset (feed.old ++ input)) }
        ensures failed { IsErrOf result ReadFailed → failed self.new };

    /// Reads all that is left, behind what stands in the buffer.
    fn read_rest(&mut self, bytes: &mut Vec<u8>) -> io::Result<usize>
        ensures bytes { OnOk result (IfSome (Self.remaining self.old)
            (λ input. bytes.new.items ≡ bytes.old.items ++ input)) }
        ensures failed { IfErr result (λ error. (error_kind error ≡ ErrorKind.OutOfMemory) ⊎ failed self.new) };
}

impl PieceInput for &[u8] {
    ghost failed = { λ _. Unit {0} };

    fn feed_next(&mut self, feed: &mut Feed) -> Result<(), StreamFault> {
        feed_held(self, feed)
    }

    fn read_rest(&mut self, bytes: &mut Vec<u8>) -> io::Result<usize> {
        self.read_to_end(bytes)
    }
}

impl<R: Read> PieceInput for BufReader<R> {
    ghost failed = { λ _. Unit {0} };

    fn feed_next(&mut self, feed: &mut Feed) -> Result<(), StreamFault> {
        feed_held(self, feed)
    }

    fn read_rest(&mut self, bytes: &mut Vec<u8>) -> io::Result<usize> {
        self.read_to_end(bytes)
    }
}

/// Pushes the bytes that the reader holds; false where the read was interrupted.
fn try_feed<R: BufRead>(reader: &mut R, feed: &mut Feed) -> Result<bool, StreamFault>
    ensures fed { IfOk result (λ fed. fed ≡ true
        → FeedsNext (R.remaining reader.old) (R.remaining reader.new) feed.old feed.new) }
    ensures kept { IfOk result (λ fed. fed ≡ false
        → Keeps (R.remaining reader.old) (R.remaining reader.new) × (feed.new ≡ feed.old)) }
    ensures told { (fault : FaultTold) (offset : ℕ) → IsErrOf result (At fault offset)
        → IfSome (R.remaining reader.old) (λ input. IsFaultSoFar fault offset (feed.old ++ input)) }
{
    laws::changesets();
    let piece = match reader.fill_buf() {
        Ok(piece) => piece,
        Err(error) => {
            return match error.kind() {
                ErrorKind::Interrupted => Ok(false),
                _ => Err(StreamFault::Read),
            };
        }
    };
    feed.push(piece)?;
    let len = piece.len();
    reader.consume(len);
    Ok(true)
}

/// The same, where a read that is interrupted is tried again.
fn feed_held<R: BufRead>(reader: &mut R, feed: &mut Feed) -> Result<(), StreamFault>
    ensures fed { OnOk result (FeedsNext (R.remaining reader.old) (R.remaining reader.new) feed.old feed.new) }
    ensures told { (fault : FaultTold) (offset : ℕ) → IsErrOf result (At fault offset)
        → IfSome (R.remaining reader.old) (λ input. IsFaultSoFar fault offset (feed.old ++ input)) }
{
    for _ in 0..READS {
        if try_feed(reader, feed)? {
            return Ok(());
        }
    }
    Err(StreamFault::Read)
}

/// Reads a changeset to the reader's end, by what the reader holds at a time.
pub fn read_from<R: PieceInput>(alloc: Global, reader: &mut R) -> Result<ChangesetBuf, StreamFault>
    // The bytes to the end are given, which spell a changeset, or their fault is told, at once. Or memory is wanting, or a read failed.
    ensures { GivesChangesetFrom (R.remaining reader.old) (R.remaining reader.new) (R.failed reader.new) result }
{
    let mut feed = Feed::new(alloc);
    loop {
        let came = feed.len();
        reader.feed_next(&mut feed)?;
        if feed.len() == came {
            return Ok(feed.finish()?);
        }
    }
}
