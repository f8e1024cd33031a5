//! What a line asks.

ghost use Rattle.std.specs.Prelude.{◌≡◌, IfOk};
ghost use Rattle.cs_node_lines.specs.asks.Asked.{alone, answer_in, ask_in, hex_in, limit_in, verb_in};

use cs_conflict::Wish;
use cs_text::parse::{Words, is_word, read_edit, read_wishes, small};
use cs_value::{Catalog, Edit, Items, Memory};
use hex::FromHexError;
use std::alloc::{AllocError, Global};

/// What a line asks of a replica.
#[derive(Drop)]
pub enum Ask {
    /// A row is edited: `edit insert T VALUES`, `edit update T FIELDS` or `edit delete T KEYVALUES`.
    OnEdit(Edit),
    /// What is pending is pushed: `push`.
    Push,
    /// The push that is under way is given again: `resend`.
    Resend,
    /// Entries of the hub's log are asked for, so many at most: `pull LIMIT`.
    Pull(u32),
    /// What entries of the hub's log do together is asked for, so many at most: `catch LIMIT`.
    Catch(u32),
    /// The hub's answer, in its bytes, with wishes that are used one a clash: `answer HEX WISHES`.
    Answer {
        /// The bytes.
        bytes: Items<u8>,
        /// The wishes.
        wishes: Items<Wish>,
    },
    /// Where the replica stands, and its rows: `dump`.
    Dump,
}

/// What a line without its line feed asks, if it can be read.
///
/// # Errors
///
/// Memory was refused.
pub fn read_ask(alloc: Global, catalog: &Catalog, line: &[u8]) -> Result<Option<Ask>, Memory>
    ensures { IfOk result (λ found. found ≡ ask_in catalog.now line.now) }
{
    let mut words = Words::new(line);
    let Some(verb) = words.next() else {
        return Ok(None);
    };
    read_verb(alloc, catalog, verb, &mut words)
}

// What a verb and the words behind it ask.
fn read_verb(
    alloc: Global,
    catalog: &Catalog,
    verb: &[u8],
    words: &mut Words<'_>,
) -> Result<Option<Ask>, Memory>
    ensures { IfOk result (λ found. found ≡ verb_in catalog.now verb.now words.old) }
{
    if is_word(verb, b"edit") {
        return match read_edit(alloc, catalog, words)? {
            Some(edit) => Ok(Some(Ask::OnEdit(edit))),
            None => Ok(None),
        };
    }
    if is_word(verb, b"push") {
        return Ok(alone(Ask::Push, words));
    }
    if is_word(verb, b"resend") {
        return Ok(alone(Ask::Resend, words));
    }
    if is_word(verb, b"pull") {
        return match read_limit(words) {
            Some(limit) => Ok(Some(Ask::Pull(limit))),
            None => Ok(None),
        };
    }
    if is_word(verb, b"catch") {
        return match read_limit(words) {
            Some(limit) => Ok(Some(Ask::Catch(limit))),
            None => Ok(None),
        };
    }
    if is_word(verb, b"answer") {
        return read_answer(alloc, words);
    }
    if is_word(verb, b"dump") {
        return Ok(alone(Ask::Dump, words));
    }
    Ok(None)
}

// What no word may follow.
pub(crate) fn alone<A: Drop>(asked: A, words: &Words<'_>) -> Option<A>
    ensures { result ≡ alone asked words.now }
{
    if words.is_at_end() { Some(asked) } else { None }
}

// How many at most, where no word follows.
pub(crate) fn read_limit(words: &mut Words<'_>) -> Option<u32>
    ensures { result ≡ limit_in words.old }
{
    let limit = words.next()?;
    if !words.is_at_end() {
        return None;
    }
    small(limit)
}

fn read_answer(alloc: Global, words: &mut Words<'_>) -> Result<Option<Ask>, Memory>
    ensures { IfOk result (λ found. found ≡ answer_in words.old) }
{
    let Some(digits) = words.next() else {
        return Ok(None);
    };
    let Some(letters) = words.next() else {
        return Ok(None);
    };
    if !words.is_at_end() {
        return Ok(None);
    }
    let Some(bytes) = read_hex(alloc, digits)? else {
        return Ok(None);
    };
    match read_wishes(alloc, letters)? {
        Some(wishes) => Ok(Some(Ask::Answer { bytes, wishes })),
        None => Ok(None),
    }
}

// The bytes that a word spells in hex, by digits of either case.
fn read_hex(alloc: Global, word: &[u8]) -> Result<Option<Items<u8>>, Memory>
    ensures { IfOk result (λ found. found ≡ hex_in word.now) }
{
    if word.is_empty() {
        return Ok(None);
    }
    match hex::decode(alloc, word) {
        Ok(bytes) => Ok(Some(Items::from_vec(bytes))),
        Err(FromHexError::OutOfMemory) => Err(AllocError),
        Err(_) => Ok(None),
    }
}
