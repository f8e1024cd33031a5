//! Bytes in pieces of memory.

ghost use Rattle.std.specs.Prelude.{◌≡◌, ◌≤◌, ◌+◌, ◌++◌, ◌∷◌, [], ℕ, List, length, slice_range, IfOk, OnOk, OnErr};
ghost use Rattle.cs_store.specs.edits.Pieces.{pieces_of};

use std::alloc::{AllocError, Global};
use std::marker::Model;
use std::mem;

/// How many bytes a piece has at most, but for one that begins with longer ones: 1 MiB. Where edits are many, one list of all bytes
/// would be longer than any that the C library (glibc) keeps for the next call. It would have fresh pages each time, and its length
/// isn't known before.
const PIECE: usize = 0x10_0000;

/// As many full pieces have numbers of 32 bits. The last piece of so many grows on.
const MOST: usize = 0xffff_ffff;

/// Bytes in pieces, of which the last one grows. Contracts see the list of all.
#[derive(Debug, Drop)]
pub(crate) struct Pieces {
    full: Vec<Vec<u8>>,
    last: Vec<u8>,
}

impl Model for Pieces {
    ghost use Rattle.std.specs.Prelude.{ℕ, List, length, ◌<◌, ◌^◌};
    ghost use Rattle.cs_store.specs.edits.Pieces.{pieces_of};

    ghost Value = { List (List ℕ) };

    ghost view = { λ pieces. pieces_of pieces.full.items pieces.last.items };

    ghost invariant = { λ pieces. length pieces.full.items < 2 ^ 32 };
}

/// Where bytes stand in a piece: the first ones from `start` up to `middle`, and the others from there up to `end`.
#[derive(Clone, Copy)]
pub(crate) struct Stand {
    pub piece: u32,
    pub start: usize,
    pub middle: usize,
    pub end: usize,
}

/// Appends bytes, and others behind them, and gives where they meet. After an `Err` there may be bytes more.
#[inline(always)]
fn append(bytes: &mut Vec<u8>, front: &[u8], back: &[u8]) -> Result<usize, AllocError>
    ensures grown { (more : List ℕ) × (bytes.new.items ≡ bytes.old.items ++ more) }
    ensures within { IfOk result (λ middle. (length bytes.old.items ≤ middle) × (middle ≤ length bytes.new.items)) }
    ensures front { IfOk result (λ middle. slice_range bytes.new.items (length bytes.old.items) middle ≡ front.now) }
    ensures back { IfOk result (λ middle. slice_range bytes.new.items middle (length bytes.new.items) ≡ back.now) }
{
    // Room for both is taken at once.
    bytes.reserve(front.len().saturating_add(back.len()))?;
    bytes.extend_from_slice(front)?;
    let middle = bytes.len();
    bytes.extend_from_slice(back)?;
    Ok(middle)
}

/// Begins a piece with room for so many bytes behind the others. An `Err` changes nothing.
#[inline(never)]
fn begin(full: &mut Vec<Vec<u8>>, last: &mut Vec<u8>, room: usize) -> Result<(), AllocError>
    ensures ok { OnOk result (pieces_of full.new.items last.new.items ≡ pieces_of full.old.items last.old.items ++ [] ∷ []) }
    ensures err { OnErr result (pieces_of full.new.items last.new.items ≡ pieces_of full.old.items last.old.items) }
    ensures one { length full.new.items ≤ length full.old.items + 1 }
{
    let next = Vec::with_capacity(*last.allocator(), room)?;
    full.reserve(1)?;
    full.push_reserved(mem::replace(last, next));
    Ok(())
}

impl Pieces {
    ghost use Rattle.std.specs.Prelude.{◌≡◌, ◌<◌, ◌≤◌, ◌^◌, ◌∷◌, [], true, length, slice_index_or, slice_range, IfOk};
    ghost use Rattle.cs_store.specs.edits.Pieces.{HaveGrown};

    /// One piece without a byte. It takes no memory.
    pub(crate) fn new(alloc: Global) -> Pieces
        ensures { result ≡ [] ∷ [] }
    {
        Pieces {
            full: Vec::new(alloc),
            last: Vec::new(alloc),
        }
    }

    /// The same, with room for so many bytes, or for the first of them.
    pub(crate) fn with_capacity(alloc: Global, bytes: usize) -> Result<Pieces, AllocError>
        ensures { IfOk result (λ made. made ≡ [] ∷ []) }
    {
        Ok(Pieces {
            full: Vec::new(alloc),
            last: Vec::with_capacity(alloc, bytes.min(PIECE))?,
        })
    }

    /// The bytes of the piece of this number.
    #[inline(always)]
    pub(crate) fn get(&self, number: u32) -> &[u8]
        requires { number < length self.now }
        ensures { result.now ≡ slice_index_or self.now number [] }
    {
        let at = number as usize;
        if at < self.full.len() {
            self.full[at].as_slice()
        } else {
            self.last.as_slice()
        }
    }

    /// Whether so many bytes more stand in a piece of their own.
    #[inline(always)]
    fn begins(&self, more: usize) -> bool
        ensures { result ≡ true → length self.now < 2 ^ 32 }
    {
        !self.last.is_empty()
            && self.last.len().saturating_add(more) > PIECE
            && self.full.len() < MOST
    }

    /// Begins a piece, where so many bytes more stand in one of their own. An `Err` changes nothing.
    #[inline(always)]
    fn make_room(&mut self, more: usize) -> Result<(), AllocError>
        ensures { HaveGrown self.old self.new }
    {
        if self.begins(more) {
            begin(&mut self.full, &mut self.last, more.max(PIECE))?;
        }
        Ok(())
    }

    /// Appends bytes, and others behind them, in one piece, and gives where they stand. After an `Err` there may be bytes more.
    #[inline(always)]
    pub(crate) fn put(&mut self, front: &[u8], back: &[u8]) -> Result<Stand, AllocError>
        ensures grown { HaveGrown self.old self.new }
        ensures there { IfOk result (λ stand. stand.piece < length self.new) }
        ensures within { IfOk result (λ stand. (stand.start ≤ stand.middle) × (stand.middle ≤ stand.end)
            × (stand.end ≤ length (slice_index_or self.new stand.piece []))) }
        ensures front { IfOk result (λ stand. slice_range (slice_index_or self.new stand.piece []) stand.start stand.middle ≡ front.now) }
        ensures back { IfOk result (λ stand. slice_range (slice_index_or self.new stand.piece []) stand.middle stand.end ≡ back.now) }
        ensures bound { IfOk result (λ stand. stand.end < 2 ^ 63) }
    {
        self.make_room(front.len().saturating_add(back.len()))?;
        let start = self.last.len();
        let middle = append(&mut self.last, front, back)?;
        Ok(Stand {
            piece: self.full.len() as u32,
            start,
            middle,
            end: self.last.len(),
        })
    }
}
