//! Answers with entries, as the hub writes them: entry by entry, or as one changeset.

ghost use Rattle.std.specs.Prelude.{◌≡◌, ◌+◌, ◌≤◌, ◌<◌, ◌^◌, ◌∷◌, ◌++◌, [], length, IfOk, OnOk, OnErr, vec_capacity};
ghost use Rattle.cs_wire.specs.Answers.{entries_numbers, entries_tag, merged_numbers, merged_tag};
ghost use Rattle.cs_wire.specs.Entries.{entry_spelling};

use crate::numbers::{put, put_u8, put_u32, put_u64};
use cs_value::Memory;
use std::alloc::Global;

/// The first byte of an answer with entries.
pub(crate) const ENTRIES: u8 = 20;

/// An answer with so many entries of a log, of which the first stands at `first`, up to where they are to be put.
///
/// # Errors
///
/// Memory was refused.
pub fn entries_head(alloc: Global, first: u64, count: u32) -> Result<Vec<u8>, Memory>
    ensures { IfOk result (λ head. head.items ≡ entries_tag ∷ entries_numbers first count []) }
{
    let mut out = Vec::with_capacity(alloc, 13)?;
    put_u8(ENTRIES, &mut out);
    put_u64(first, &mut out);
    put_u32(count, &mut out);
    Ok(out)
}

/// The first byte of an answer with a changeset that entries make together.
pub(crate) const MERGED: u8 = 21;

/// An answer to a Catch of this origin, up to where a changeset of so many bytes is to be put. The changeset is what the entries
/// from `first` on do together, up to the one at `next`. There is room for it behind.
///
/// # Errors
///
/// Memory was refused.
pub fn merged_head(
    alloc: Global,
    origin: u32,
    first: u64,
    next: u64,
    size: u32,
) -> Result<Vec<u8>, Memory>
    ensures items { IfOk result (λ head. head.items ≡ merged_tag ∷ merged_numbers origin first next size []) }
    ensures room { IfOk result (λ head. 25 + size ≤ vec_capacity head) }
{
    let mut out = Vec::with_capacity(alloc, 25 + size as usize)?;
    put_u8(MERGED, &mut out);
    put_u32(origin, &mut out);
    put_u64(first, &mut out);
    put_u64(next, &mut out);
    put_u32(size, &mut out);
    Ok(out)
}

/// Appends an entry of an answer, by its parts: its kind, whose push it was, its number, and the bytes of what it does.
///
/// # Errors
///
/// Memory was refused; nothing is appended then.
pub fn put_entry(
    kind: u8,
    origin: u32,
    number: u64,
    body: &[u8],
    out: &mut Vec<u8>,
) -> Result<(), Memory>
    requires { length body.now < 2 ^ 32 }
    ensures ok { OnOk result (out.new.items ≡ out.old.items
        ++ entry_spelling (record { kind = kind; origin = origin; number = number; body = body.now })) }
    ensures err { OnErr result (out.new.items ≡ out.old.items) }
{
    out.reserve(17 + body.len())?;
    put_u8(kind, out);
    put_u32(origin, out);
    put_u64(number, out);
    put_u32(body.len() as u32, out);
    put(body, out);
    Ok(())
}
