//! Bytes in pieces of memory of their own.

ghost use Rattle.std.specs.Prelude.{◌≡◌, IfOk, OnOk};
ghost use Rattle.cs_normal.specs.Joined.{in_pieces, joined};

use crate::pieces::{Piece, put_where_room};
use cs_value::Memory;
use std::alloc::Global;
use std::marker::Model;
use std::mem;

/// How many bytes a piece has at most, but for one that begins with longer ones: 1 MiB. One list of more than 32 MiB would be
/// longer than any that the C library (glibc) keeps for the next call. It would have fresh pages each time.
const PIECE: usize = 0x10_0000;

/// Bytes in pieces, of which the last one grows, for a result that is long and goes to somebody else's memory in the end. Contracts see
/// the list of all.
#[derive(Drop)]
pub struct BytePieces {
    full: Vec<Vec<u8>>,
    last: Vec<u8>,
}

impl Model for BytePieces {
    ghost use Rattle.std.specs.Prelude.{ℕ, List};
    ghost use Rattle.cs_normal.specs.Joined.{in_pieces};

    ghost Value = { List ℕ };

    ghost view = { λ pieces. in_pieces pieces.full.items pieces.last.items };
}

/// Begins a piece with room for so many bytes behind the others.
#[inline(never)]
fn begin(full: &mut Vec<Vec<u8>>, last: &mut Vec<u8>, room: usize) -> Result<(), Memory>
    ensures { OnOk result (in_pieces full.new.items last.new.items ≡ in_pieces full.old.items last.old.items) }
{
    let next = Vec::with_capacity(*last.allocator(), room)?;
    full.push(mem::replace(last, next))?;
    Ok(())
}

/// The pieces, which are lent.
fn lend_pieces<'a>(
    alloc: Global,
    full: &'a [Vec<u8>],
    last: &'a [u8],
) -> Result<Vec<Piece<'a>>, Memory>
    ensures { IfOk result (λ lent. joined lent.items ≡ in_pieces full.now last.now) }
{
    let mut lent = Vec::with_capacity(alloc, full.len())?;
    for piece in full {
        lent.push(Piece::of_bytes(alloc, piece.as_slice()))?;
    }
    lent.push(Piece::of_bytes(alloc, last))?;
    Ok(lent)
}

impl BytePieces {
    ghost use Rattle.std.specs.Prelude.{◌≡◌, ◌++◌, ◌≤◌, ◌<◌, [], drop, length, IfOk, IfErr, OnOk};

    /// No byte. It takes no memory.
    pub fn new(alloc: Global) -> BytePieces
        ensures { result ≡ [] }
    {
        BytePieces {
            full: Vec::new(alloc),
            last: Vec::new(alloc),
        }
    }

    /// Whether so many bytes more stand in a piece of their own.
    fn begins(&self, more: usize) -> bool {
        !self.last.is_empty() && self.last.len().saturating_add(more) > PIECE
    }

    /// Appends bytes.
    pub fn push(&mut self, bytes: &[u8]) -> Result<(), Memory>
        ensures { OnOk result (self.new ≡ self.old ++ bytes.now) }
    {
        if self.begins(bytes.len()) {
            begin(&mut self.full, &mut self.last, bytes.len().max(PIECE))?;
        }
        self.last.extend_from_slice(bytes)?;
        Ok(())
    }

    /// Writes the bytes to the front of the slice where they have room there, else nothing, and answers how many they are. They
    /// are copied once; the memory is for where each piece stands. An `Err` changes nothing.
    pub fn put_to_front(&self, alloc: Global, out: &mut [u8]) -> Result<usize, Memory>
        ensures len { IfOk result (λ len. len ≡ length self.now) }
        ensures room { IfOk result (λ len. len ≤ length out.old → out.new ≡ self.now ++ drop len out.old) }
        ensures no_room { IfOk result (λ len. length out.old < len → out.new ≡ out.old) }
        ensures err { IfErr result (λ _. out.new ≡ out.old) }
    {
        let lent = lend_pieces(alloc, self.full.as_slice(), self.last.as_slice())?;
        put_where_room(lent.as_slice(), out)
    }
}
