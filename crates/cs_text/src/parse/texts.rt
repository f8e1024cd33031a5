//! Texts and bytes as words.

ghost use Rattle.std.specs.Prelude.{◌≡◌, ◌<◌, ◌≤◌, ◌∷◌, [], None, IfOk, IfSome, MatchOption, length, option_map};
ghost use Rattle.cs_text.specs.Text.{is_plain};
ghost use Rattle.cs_text.specs.parse.Texts.{byte_in, bytes_in, digit_value, onto, text_in, unescaped};

use crate::is_plain;
use cs_value::{Items, Memory, Text};
use std::alloc::Global;
use std::str;

// The first digits above nine.
const UPPER: u8 = b'A';

const LOWER: u8 = b'a';

/// The bytes that a text with escapes spells, if it spells any: `%` and two upper case hex digits spell any byte, and a byte from `!` to
/// `~` other than `%` spells itself.
pub fn unescape(alloc: Global, text: &[u8]) -> Result<Option<Vec<u8>>, Memory>
    ensures { IfOk result (λ found. option_map (λ bytes. bytes.items) found ≡ unescaped text.now) }
{
    let mut bytes = Vec::new(alloc);
    let mut rest = text;
    while !rest.is_empty() {
        let Some((byte, more)) = first_byte(rest) else {
            return Ok(None);
        };
        bytes.push(byte)?;
        rest = more;
    }
    Ok(Some(bytes))
}

/// The text that a word spells, if it spells one: the bytes of `unescape`, which are UTF-8.
pub fn read_text(alloc: Global, word: &[u8]) -> Result<Option<Text>, Memory>
    ensures { IfOk result (λ found. found ≡ text_in word.now) }
{
    let Some(bytes) = unescape(alloc, word)? else {
        return Ok(None);
    };
    let Ok(text) = str::from_utf8(&bytes) else {
        return Ok(None);
    };
    Ok(Some(Text::from_string(String::from_str(alloc, text)?)))
}

/// The bytes that a word spells in lower case hex, if it does.
pub fn read_bytes(alloc: Global, word: &[u8]) -> Result<Option<Items<u8>>, Memory>
    ensures { IfOk result (λ found. found ≡ bytes_in word.now) }
{
    let mut bytes = Vec::new(alloc);
    let mut rest = word;
    while !rest.is_empty() {
        let Some((byte, more)) = first_pair(rest) else {
            return Ok(None);
        };
        bytes.push(byte)?;
        rest = more;
    }
    Ok(Some(Items::from_vec(bytes)))
}

// The first byte that a text with escapes spells, and the text behind it.
fn first_byte(text: &[u8]) -> Option<(u8, &[u8])>
    ensures { MatchOption result (0 < length text.now → unescaped text.now ≡ None)
        (λ found. (length found.1.now < length text.now)
        × (unescaped text.now ≡ option_map (λ bytes. found.0 ∷ bytes) (unescaped found.1.now))) }
{
    match text {
        [b'%', high, low, rest @ ..] => Some((hex_byte(*high, *low, UPPER)?, rest)),
        [byte, rest @ ..] if is_plain(*byte) => Some((*byte, rest)),
        _ => None,
    }
}

// The byte of the first two digits, and what stands behind them.
fn first_pair(hex: &[u8]) -> Option<(u8, &[u8])>
    ensures { MatchOption result (0 < length hex.now → bytes_in hex.now ≡ None)
        (λ found. (length found.1.now < length hex.now)
        × (bytes_in hex.now ≡ option_map (λ bytes. found.0 ∷ bytes) (bytes_in found.1.now))) }
{
    match hex {
        [high, low, rest @ ..] => Some((hex_byte(*high, *low, LOWER)?, rest)),
        _ => None,
    }
}

// The byte of two hex digits, of which the letters begin with this one.
fn hex_byte(high: u8, low: u8, ten: u8) -> Option<u8>
    requires { ten < 128 }
    ensures { result ≡ byte_in (digit_value ten high) (digit_value ten low) }
{
    Some(16 * hex_digit(high, ten)? + hex_digit(low, ten)?)
}

fn hex_digit(digit: u8, ten: u8) -> Option<u8>
    requires { ten < 128 }
    ensures value { result ≡ digit_value ten digit }
    ensures small { IfSome result (λ value. value < 16) }
{
    if b'0' <= digit && digit <= b'9' {
        return Some(digit - b'0');
    }
    if ten <= digit && digit <= ten + 5 {
        return Some(digit - ten + 10);
    }
    None
}
