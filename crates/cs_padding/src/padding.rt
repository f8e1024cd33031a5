//! Bytes of columns that have no value.

ghost use Rattle.std.specs.Prelude.{◌≡◌, ◌++◌, replicate, IfOk, OnOk};

use cs_value::Memory;
use std::alloc::Global;

/// The byte so many times.
pub(crate) fn repeated(alloc: Global, byte: u8, count: usize) -> Result<Vec<u8>, Memory>
    ensures { IfOk result (λ bytes. bytes.items ≡ replicate count byte) }
{
    let mut bytes = Vec::with_capacity(alloc, count)?;
    bytes.resize(count, byte)?;
    Ok(bytes)
}

/// Appends the bytes of a row or a record, and those of its new columns.
pub(crate) fn put_padded(bytes: &[u8], more: &[u8], out: &mut Vec<u8>) -> Result<(), Memory>
    ensures { OnOk result (out.new.items ≡ out.old.items ++ (bytes.now ++ more.now)) }
{
    out.extend_from_slice(bytes)?;
    out.extend_from_slice(more)?;
    Ok(())
}
