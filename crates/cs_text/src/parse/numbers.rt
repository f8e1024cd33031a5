//! Numbers as words.

ghost use Rattle.std.specs.Prelude.{◌≡◌, ◌≢◌, MatchOption, slice_index};
ghost use Rattle.cs_text.specs.parse.Numbers.{IsNoNumber, signed_in, small_in, unsigned_in};

use std::str;

/// A decimal number without a sign, where it is one of 64 bits. Zeros may stand in front.
pub fn unsigned(word: &[u8]) -> Option<u64>
    ensures { result ≡ unsigned_in word.now }
{
    unsigned_text(word)?.parse::<u64>().ok()
}

/// The same where it is one of 32 bits.
pub fn small(word: &[u8]) -> Option<u32>
    ensures { result ≡ small_in word.now }
{
    unsigned_text(word)?.parse::<u32>().ok()
}

/// A decimal number, where it is one of 64 bits; a minus may stand in front, and a plus not.
pub fn signed(word: &[u8]) -> Option<i64>
    ensures { result ≡ signed_in word.now }
{
    unsigned_text(word)?.parse::<i64>().ok()
}

// The word as a text, unless a plus stands in front.
fn unsigned_text(word: &[u8]) -> Option<&str>
    ensures { MatchOption result (IsNoNumber word.now) (λ text. (text.now ≡ word.now) × (slice_index word.now 0 ≢ 43)) }
{
    if word.first() == Some(&b'+') {
        return None;
    }
    match str::from_utf8(word) {
        Ok(text) => Some(text),
        Err(_) => None,
    }
}
