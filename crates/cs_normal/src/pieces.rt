//! Bytes that stand in pieces, put into memory that is lent. They are the spelling of a changeset in normal form, table by table, or
//! bytes in pieces of their own.

ghost use Rattle.std.specs.Prelude.{◌≡◌, ◌++◌, ◌≤◌, ◌<◌, length, drop, IfOk, IfErr, IfSome};
ghost use Rattle.cs_normal.specs.Normal.{normal_spelling};
ghost use Rattle.cs_normal.specs.Joined.{joined};

use crate::normal::TableChanges;
use crate::writing::put_header;
use cs_value::Memory;
use std::alloc::{AllocError, Global};
use std::marker::Model;

/// The spelling of a table: its header, and the bytes of its changes, which are lent. Or bytes alone, behind no header.
#[derive(Drop)]
pub(crate) struct Piece<'a> {
    header: Vec<u8>,
    changes: &'a [u8],
}

impl<'a> Model for Piece<'a> {
    ghost use Rattle.std.specs.Prelude.{ℕ, List, ◌++◌};

    ghost Value = { List ℕ };

    ghost view = { λ piece. piece.header.items ++ piece.changes.now };
}

impl<'a> Piece<'a> {
    ghost use Rattle.std.specs.Prelude.{◌≡◌, ◌++◌, ◌+◌, ◌≤◌, ℕ, length, take, drop, IfOk, IfSome};
    ghost use Rattle.cs_normal.specs.Normal.{table_spelling};

    /// The spelling of a table. The memory is for its header.
    fn of_table(alloc: Global, table: &'a TableChanges) -> Result<Piece<'a>, Memory>
        ensures { IfOk result (λ piece. piece ≡ table_spelling table.now) }
    {
        let mut header = Vec::new(alloc);
        put_header(table.marks.as_slice(), table.name.as_str(), &mut header)?;
        Ok(Piece {
            header,
            changes: table.changes.spelling(),
        })
    }

    /// Bytes that are lent. It takes no memory.
    pub(crate) fn of_bytes(alloc: Global, bytes: &'a [u8]) -> Piece<'a>
        ensures { result ≡ bytes.now }
    {
        Piece {
            header: Vec::new(alloc),
            changes: bytes,
        }
    }

    /// How many bytes it and so many others are; none where that is more than a machine has room for.
    fn len_behind(&self, before: usize) -> Option<usize>
        ensures { IfSome result (λ len. len ≡ before + length self.now) }
    {
        before
            .checked_add(self.header.len())?
            .checked_add(self.changes.len())
    }

    /// Puts it there, and answers where it ends.
    fn put(&self, at: usize, out: &mut [u8]) -> usize
        requires { at + length self.now ≤ length out.old }
        ensures len { length out.new ≡ length out.old }
        ensures put { take (at + length self.now) out.new ≡ take at out.old ++ self.now }
        ensures kept { (behind : ℕ) → at + length self.now ≤ behind → drop behind out.new ≡ drop behind out.old }
        ensures end { result ≡ at + length self.now }
    {
        let middle = at + self.header.len();
        let end = middle + self.changes.len();
        out[at..middle].copy_from_slice(self.header.as_slice());
        out[middle..end].copy_from_slice(self.changes);
        end
    }
}

/// The spelling of tables, in pieces.
fn pieces_of<'a>(alloc: Global, tables: &'a [TableChanges]) -> Result<Vec<Piece<'a>>, Memory>
    ensures { IfOk result (λ pieces. joined pieces.items ≡ normal_spelling tables.now) }
{
    let mut pieces = Vec::with_capacity(alloc, tables.len())?;
    for table in tables {
        pieces.push(Piece::of_table(alloc, table)?)?;
    }
    Ok(pieces)
}

/// How many bytes pieces are together; none where that is more than a machine has room for.
fn len_of(pieces: &[Piece<'_>]) -> Option<usize>
    ensures { IfSome result (λ len. len ≡ length (joined pieces.now)) }
{
    let mut len = 0;
    for piece in pieces {
        len = piece.len_behind(len)?;
    }
    Some(len)
}

/// Puts pieces one after another to the front.
fn put_pieces(pieces: &[Piece<'_>], out: &mut [u8])
    requires { length (joined pieces.now) ≤ length out.old }
    ensures { out.new ≡ joined pieces.now ++ drop (length (joined pieces.now)) out.old }
{
    let mut at = 0;
    for piece in pieces {
        at = piece.put(at, out);
    }
}

/// Puts pieces one after another to the front, if they have room there, and answers how many bytes they are.
pub(crate) fn put_where_room(pieces: &[Piece<'_>], out: &mut [u8]) -> Result<usize, Memory>
    ensures len { IfOk result (λ len. len ≡ length (joined pieces.now)) }
    ensures room { IfOk result (λ len. len ≤ length out.old → out.new ≡ joined pieces.now ++ drop len out.old) }
    ensures no_room { IfOk result (λ len. length out.old < len → out.new ≡ out.old) }
    ensures err { IfErr result (λ _. out.new ≡ out.old) }
{
    let Some(len) = len_of(pieces) else {
        return Err(AllocError);
    };
    if len <= out.len() {
        put_pieces(pieces, out);
    }
    Ok(len)
}

/// Puts the spelling of tables to the front, if it has room there, and answers how many bytes it is.
pub(crate) fn put_to_front(
    alloc: Global,
    tables: &[TableChanges],
    out: &mut [u8],
) -> Result<usize, Memory>
    ensures len { IfOk result (λ len. len ≡ length (normal_spelling tables.now)) }
    ensures room { IfOk result (λ len. len ≤ length out.old → out.new ≡ normal_spelling tables.now ++ drop len out.old) }
    ensures no_room { IfOk result (λ len. length out.old < len → out.new ≡ out.old) }
    ensures err { IfErr result (λ _. out.new ≡ out.old) }
{
    let pieces = pieces_of(alloc, tables)?;
    put_where_room(pieces.as_slice(), out)
}
