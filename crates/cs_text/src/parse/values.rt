//! Values and fields as words.

ghost use Rattle.std.specs.Prelude.{◌≡◌, IfOk, option_map};
ghost use Rattle.cs_text.specs.parse.Values.{behind, field_in, value_in, values_in};

use crate::parse::numbers::signed;
use crate::parse::texts::{read_bytes, read_text};
use crate::parse::words::{Words, is_word};
use cs_value::{Field, Items, Memory, Value};
use std::alloc::Global;

/// The value that a word spells, if it spells one: `null`, a decimal number, `t=` and a text, or `x=` and lower case hex.
pub fn read_value(alloc: Global, word: &[u8]) -> Result<Option<Value>, Memory>
    ensures { IfOk result (λ found. found ≡ value_in word.now) }
{
    if is_word(word, b"null") {
        return Ok(Some(Value::Null));
    }
    if let Some(text) = behind(b"t=", word) {
        return match read_text(alloc, text)? {
            Some(text) => Ok(Some(Value::Text(text))),
            None => Ok(None),
        };
    }
    if let Some(hex) = behind(b"x=", word) {
        return match read_bytes(alloc, hex)? {
            Some(bytes) => Ok(Some(Value::Blob(bytes))),
            None => Ok(None),
        };
    }
    match signed(word) {
        Some(number) => Ok(Some(Value::Int(number))),
        None => Ok(None),
    }
}

/// The field that a word spells, if it spells one: `-` is undefined.
pub fn read_field(alloc: Global, word: &[u8]) -> Result<Option<Field>, Memory>
    ensures { IfOk result (λ found. found ≡ field_in word.now) }
{
    if is_word(word, b"-") {
        return Ok(Some(Field::Undefined));
    }
    match read_value(alloc, word)? {
        Some(value) => Ok(Some(Field::Is(value))),
        None => Ok(None),
    }
}

/// The values that the words that are left spell, if each spells one.
pub fn read_values(alloc: Global, words: &mut Words<'_>) -> Result<Option<Items<Value>>, Memory>
    ensures { IfOk result (λ found. found ≡ values_in words.old) }
{
    let mut values = Vec::new(alloc);
    while let Some(word) = words.next() {
        let Some(value) = read_value(alloc, word)? else {
            return Ok(None);
        };
        values.push(value)?;
    }
    Ok(Some(Items::from_vec(values)))
}

// What follows a front, where the word begins with it.
fn behind<'a>(front: &[u8], word: &'a [u8]) -> Option<&'a [u8]>
    ensures { option_map (λ rest. rest.now) result ≡ behind front.now word.now }
{
    word.strip_prefix(front)
}
