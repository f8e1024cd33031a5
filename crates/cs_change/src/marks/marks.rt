//! Marks as bytes.

ghost use Rattle.std.specs.Prelude.{◌≡◌, map, IfOk};
ghost use Rattle.cs_change.specs.Spelling.{flag_byte};

use cs_value::Memory;
use std::alloc::Global;

/// A mark as it is written: 1 for a key column, or 0.
fn byte_of(mark: bool) -> u8
    ensures { result ≡ flag_byte mark }
{
    if mark { 1 } else { 0 }
}

/// Marks as they are written: a byte each. (SQLite's "changeset format".)
pub fn flag_bytes(alloc: Global, marks: &[bool]) -> Result<Vec<u8>, Memory>
    ensures { IfOk result (λ bytes. bytes.items ≡ map flag_byte marks.now) }
{
    let mut bytes = Vec::with_capacity(alloc, marks.len())?;
    for mark in marks {
        bytes.push(byte_of(*mark))?;
    }
    Ok(bytes)
}
