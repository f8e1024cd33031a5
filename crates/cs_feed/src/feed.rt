//! A changeset that comes in pieces.

use crate::changeset_buf::ChangesetBuf;
use crate::scanning::{is_at_end, nothing_read, scan};
use crate::stage::Reached;
use cs_changeset::{CodecFault, Fault, FirstFault, laws};
use std::alloc::Global;
use std::marker::Model;
use std::mem;

/// A changeset that comes in pieces of any length. Contracts see the bytes that came, up to the end of the piece in which
/// the first fault was told. (SQLite's "changeset format"; the faults are of this project's profile.)
#[derive(Drop)]
pub struct Feed {
    bytes: Vec<u8>,
    state: Result<Reached, FirstFault>,
}

impl Model for Feed {
    ghost use Rattle.std.specs.Prelude.{ℕ, List};
    ghost use Rattle.cs_feed.specs.Steps.{IsScanned};

    ghost Value = { List ℕ };

    ghost view = { λ feed. feed.bytes.items };

    ghost invariant = { λ feed. IsScanned feed.bytes.items feed.state };
}

impl Feed {
    ghost use Rattle.std.specs.Prelude.{◌≡◌, ◌++◌, ℕ, [], length, IsErrOf, OnOk, OnErr, ◌⊎◌, Err};
    ghost use Rattle.cs_changeset.specs.declared.fault.Fault.{Fault as FaultTold};
    ghost use Rattle.cs_changeset.specs.declared.fault.CodecFault.TheVariants.{Memory, At};
    ghost use Rattle.cs_changeset.specs.Reading.{Tells};
    ghost use Rattle.cs_feed.specs.Feeding.{GivesChangeset, IsFaultSoFar};

    /// Nothing has come.
    pub fn new(alloc: Global) -> Feed
        ensures { result ≡ [] }
    {
        Feed {
            bytes: Vec::new(alloc),
            state: Ok(nothing_read()),
        }
    }

    /// How many bytes came.
    pub fn len(&self) -> usize
        ensures { result ≡ length self.now }
    {
        self.bytes.len()
    }

    /// Takes the next piece. A fault that the bytes so far have is told at once, whatever may follow, here and at every later
    /// call. That they end early is no fault yet. Want of memory changes nothing.
    pub fn push(&mut self, piece: &[u8]) -> Result<(), CodecFault>
        // The piece has come, where no fault is told.
        ensures taken { OnOk result (self.new ≡ self.old ++ piece.now) }

        // A fault that the bytes have by then is told, or memory is wanting.
        ensures told { (fault : FaultTold) (offset : ℕ) → IsFaultSoFar fault offset (self.old ++ piece.now)
            → Tells result fault offset }

        // What is told is a fault of the bytes: of those before, which stay, or of those with the piece.
        ensures found { (fault : FaultTold) (offset : ℕ) → IsErrOf result (At fault offset)
            → IsFaultSoFar fault offset self.new × ((self.new ≡ self.old) ⊎ (self.new ≡ self.old ++ piece.now)) }

        // A fault that was told is told again, and nothing changes.
        ensures again { (fault : FaultTold) (offset : ℕ) → IsFaultSoFar fault offset self.old
            → (result ≡ Err (At fault offset)) × (self.new ≡ self.old) }

        // Want of memory changes nothing.
        ensures memory { IsErrOf result Memory → self.new ≡ self.old }
    {
        laws::changesets();
        let reached = match self.state {
            Ok(reached) => reached,
            Err(told) => return Err(CodecFault::from(told)),
        };
        self.bytes.extend_from_slice(piece)?;
        self.state = scan(self.bytes.as_slice(), reached);
        match self.state {
            Ok(_) => Ok(()),
            Err(told) => Err(CodecFault::from(told)),
        }
    }

    /// The changeset that came, which owns its bytes; the feed is then as new. A fault is told as `read` tells it of all
    /// bytes, and changes nothing: behind Truncated more may come. It takes no memory.
    pub fn finish(&mut self) -> Result<ChangesetBuf, CodecFault>
        // The bytes that came are given, which spell a changeset, or their fault is told.
        ensures gives { GivesChangeset self.old result }

        // Behind a changeset the feed is as new.
        ensures new { OnOk result (self.new ≡ []) }

        // A fault changes nothing.
        ensures kept { OnErr result (self.new ≡ self.old) }
    {
        let reached = match self.state {
            Ok(reached) => reached,
            Err(told) => return Err(CodecFault::from(told)),
        };
        let len = self.bytes.len();
        if !is_at_end(reached, len) {
            return Err(CodecFault::from(Fault::Truncated.at(len)));
        }
        let none = Vec::new(*self.bytes.allocator());
        let bytes = mem::replace(&mut self.bytes, none);
        self.state = Ok(nothing_read());
        Ok(ChangesetBuf::from_vec(bytes))
    }
}
