//! Whether bytes are a text.

ghost use Rattle.std.specs.Prelude.{◌≡◌, ◌≤◌, ℕ, ◌<◌, length, take, slice_index, IsTrue, ◌↔◌};
ghost use Rattle.std.specs.Str.{IsUtf8};

use std::simd::prelude::*;
use std::str;

/// How many bytes are looked at in one step.
const LANES: usize = 32;

/// How many of the first bytes, of so many as are looked at in one step, are ASCII.
#[inline(always)]
fn ascii_front(bytes: &[u8]) -> usize
    requires { LANES ≤ length bytes.now }
    ensures bound { result ≤ LANES }
    ensures ascii { (at : ℕ) → at < result → slice_index bytes.now at < 128 }
{
    let wide = u8x32::from_slice(bytes)
        .simd_ge(u8x32::splat(0x80))
        .to_bitmask();
    if wide == 0 {
        LANES
    } else {
        wide.trailing_zeros() as usize
    }
}

/// How many of the first bytes are ASCII, at least, of up to twice as many as are looked at in one step. The second step is taken
/// where more are wanted.
#[inline(always)]
fn ascii_start(bytes: &[u8], wanted: usize) -> usize
    requires { LANES ≤ length bytes.now }
    ensures { (at : ℕ) → at < result → slice_index bytes.now at < 128 }
{
    let front = ascii_front(bytes);
    if front < LANES || wanted <= LANES || bytes.len() < 2 * LANES {
        return front;
    }
    let (_, behind) = bytes.split_at(LANES);
    LANES + ascii_front(behind)
}

/// Whether bytes are UTF-8 that stand at the front of these. A short text of ASCII bytes, with more bytes behind it, is seen
/// in one step, or in two.
#[inline(always)]
pub(crate) fn is_text(text: &[u8], bytes: &[u8]) -> bool
    requires { text.now ≡ take (length text.now) bytes.now }
    ensures { IsTrue result ↔ IsUtf8 text.now }
{
    if LANES <= bytes.len() && text.len() <= ascii_start(bytes, text.len()) {
        return true;
    }
    str::from_utf8(text).is_ok()
}
