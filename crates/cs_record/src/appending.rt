//! The bytes of one field put behind others.

ghost use Rattle.std.specs.Prelude.{◌≡◌, ◌++◌, if◌then◌else◌};
ghost use Rattle.std.specs.Result.{is_ok};

use cs_value::Memory;

/// How many bytes a number takes, with its type.
const NUMBER: usize = 9;

/// Appends the bytes of a field. Those of a number are moved as what they are, with no call for any length. An `Err` changes
/// nothing.
#[inline(always)]
pub(crate) fn append_bytes(bytes: &[u8], out: &mut Vec<u8>) -> Result<(), Memory>
    ensures { out.new.items ≡ (if is_ok result then out.old.items ++ bytes.now else out.old.items) }
{
    if bytes.len() == NUMBER {
        let mut number = [0; NUMBER];
        number.copy_from_slice(bytes);
        return out.extend_from_slice(&number);
    }
    out.extend_from_slice(bytes)
}
