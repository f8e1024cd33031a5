//! Numbers of four and eight bytes, the high byte first.

ghost use Rattle.std.specs.Prelude.{◌≡◌, ◌+◌, ◌≤◌, ◌<◌, ◌∷◌, ◌++◌, [], length, MatchOption, vec_len, vec_capacity};
ghost use Rattle.cs_wire.specs.Numbers.{four_bytes, eight_bytes};

/// The number in the first four bytes, and the rest.
pub fn split_u32(bytes: &[u8]) -> Option<(u32, &[u8])>
    ensures { MatchOption result (length bytes.now < 4) (λ split. bytes.now ≡ four_bytes split.0 ++ split.1.now) }
{
    let (front, rest) = bytes.split_first_chunk::<4>()?;
    Some((u32::from_be_bytes(*front), rest))
}

/// The number in the first eight bytes, and the rest.
pub fn split_u64(bytes: &[u8]) -> Option<(u64, &[u8])>
    ensures { MatchOption result (length bytes.now < 8) (λ split. bytes.now ≡ eight_bytes split.0 ++ split.1.now) }
{
    let (front, rest) = bytes.split_first_chunk::<8>()?;
    Some((u64::from_be_bytes(*front), rest))
}

/// The numbers before a changeset, in a Push and in a Merged: four bytes, twice eight, and the length of the changeset; and the rest.
pub(crate) fn split_sized(bytes: &[u8]) -> Option<(u32, u64, u64, u32, &[u8])>
    ensures { MatchOption result (length bytes.now < 24)
        (λ split. bytes.now ≡ four_bytes split.0 ++ (eight_bytes split.1 ++ (eight_bytes split.2 ++ (four_bytes split.3 ++ split.4.now)))) }
{
    let (origin, rest) = split_u32(bytes)?;
    let (second, rest) = split_u64(rest)?;
    let (third, rest) = split_u64(rest)?;
    let (size, rest) = split_u32(rest)?;
    Some((origin, second, third, size, rest))
}

/// Appends bytes for which there is room.
pub(crate) fn put(bytes: &[u8], out: &mut Vec<u8>)
    requires { vec_len out.old + length bytes.now ≤ vec_capacity out.old }
    ensures items { out.new.items ≡ out.old.items ++ bytes.now }
    ensures len { vec_len out.new ≡ vec_len out.old + length bytes.now }
    ensures capacity { vec_capacity out.old ≤ vec_capacity out.new }
{
    match out.extend_from_slice(bytes) {
        Ok(()) => {}
        Err(_) => unreachable!(),
    }
}

pub(crate) fn put_u8(number: u8, out: &mut Vec<u8>)
    requires { vec_len out.old + 1 ≤ vec_capacity out.old }
    ensures items { out.new.items ≡ out.old.items ++ number ∷ [] }
    ensures len { vec_len out.new ≡ vec_len out.old + 1 }
    ensures capacity { vec_capacity out.old ≤ vec_capacity out.new }
{
    out.push_reserved(number);
}

pub(crate) fn put_u32(number: u32, out: &mut Vec<u8>)
    requires { vec_len out.old + 4 ≤ vec_capacity out.old }
    ensures items { out.new.items ≡ out.old.items ++ four_bytes number }
    ensures len { vec_len out.new ≡ vec_len out.old + 4 }
    ensures capacity { vec_capacity out.old ≤ vec_capacity out.new }
{
    put(&number.to_be_bytes(), out);
}

pub(crate) fn put_u64(number: u64, out: &mut Vec<u8>)
    requires { vec_len out.old + 8 ≤ vec_capacity out.old }
    ensures items { out.new.items ≡ out.old.items ++ eight_bytes number }
    ensures len { vec_len out.new ≡ vec_len out.old + 8 }
    ensures capacity { vec_capacity out.old ≤ vec_capacity out.new }
{
    put(&number.to_be_bytes(), out);
}
