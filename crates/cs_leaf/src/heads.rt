//! The first bytes of keys, as numbers: of two keys with different heads the one with the lower head comes first.

ghost use Rattle.std.specs.Prelude.{◌≡◌, drop};
ghost use Rattle.cs_order.specs.Order.{by_bytes};
ghost use Rattle.cs_leaf.specs.Entries.{IsHeadOf};

use std::cmp::Ordering;

/// The bytes after the first 8.
#[inline(always)]
fn rest_of(key: &[u8]) -> &[u8]
    ensures { result.now ≡ drop 8 key.now }
{
    if key.len() < 8 { &[] } else { &key[8..] }
}

/// The number that the first 16 bytes spell, with a zero for each that is missing.
#[inline(always)]
pub fn head(key: &[u8]) -> u128
    ensures { IsHeadOf result key.now }
{
    cs_order::head(key) as u128 * 0x1_0000_0000_0000_0000 + cs_order::head(rest_of(key)) as u128
}

/// How many bytes of a key are in its head.
const HEAD: usize = 16;

/// Compares keys that have these heads. It looks at the bytes only where the heads are equal, and a key goes on behind its head.
#[inline(always)]
pub fn compare_keys(head: u128, key: &[u8], other_head: u128, other: &[u8]) -> Ordering
    requires key { IsHeadOf head key.now }
    requires other { IsHeadOf other_head other.now }
    ensures { result ≡ by_bytes key.now other.now }
{
    match head.cmp(&other_head) {
        // Both keys are in their heads, so they differ by zeros at the end, if at all.
        Ordering::Equal if key.len() <= HEAD && other.len() <= HEAD => key.len().cmp(&other.len()),
        Ordering::Equal => key.cmp(other),
        apart => apart,
    }
}
