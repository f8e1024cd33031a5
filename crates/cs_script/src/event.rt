//! A line of a script, as the event that it names.

ghost use Rattle.std.specs.Prelude.{◌≡◌, IfOk, Some};
ghost use Rattle.cs_script.specs.Events.{alone, both_in, event_in, event_of, last_in, replica_event, short_in, wider_in, wider_of};
ghost use Rattle.cs_text.specs.parse.Edits.{edit_in};
ghost use Rattle.cs_text.specs.parse.Numbers.{small_in, unsigned_in};
ghost use Rattle.cs_text.specs.parse.Wishes.{wishes_in};

use cs_conflict::Wish;
use cs_text::parse::{Words, is_word, read_edit, read_text, read_wishes, small, unsigned};
use cs_value::{Catalog, Items, Memory, Text};
use cs_world::{Event, Wider, WishList};
use std::alloc::Global;

/// The event that a line names, without its line feed, if it names one.
pub fn read_event(alloc: Global, catalog: &Catalog, line: &[u8]) -> Result<Option<Event>, Memory>
    ensures { IfOk result (λ found. found ≡ event_in catalog.now line.now) }
{
    let mut words = Words::new(line);
    let Some(verb) = words.next() else {
        return Ok(None);
    };
    let Some(number) = words.next() else {
        return Ok(None);
    };
    read_event_of(alloc, catalog, verb, number, &mut words)
}

// The event that a verb, the number behind it, and the words behind that name.
fn read_event_of(
    alloc: Global,
    catalog: &Catalog,
    verb: &[u8],
    number: &[u8],
    words: &mut Words<'_>,
) -> Result<Option<Event>, Memory>
    ensures { IfOk result (λ found. found ≡ event_of catalog.now verb.now number.now words.old) }
{
    if is_word(verb, b"edit") {
        return read_edited(alloc, catalog, number, words);
    }
    if is_word(verb, b"deliver") {
        return read_delivered(alloc, number, words);
    }
    if is_word(verb, b"widen") {
        return read_widened(alloc, number, words);
    }
    Ok(replica_event(verb, number, words))
}

// The event of a replica that a verb, its number, and the words behind that name.
fn replica_event(verb: &[u8], number: &[u8], words: &mut Words<'_>) -> Option<Event>
    ensures { result ≡ replica_event verb.now number.now words.old }
{
    if is_word(verb, b"push") {
        return match alone(number, words) {
            Some(replica) => Some(Event::MakePush { replica }),
            None => None,
        };
    }
    if is_word(verb, b"resend") {
        return match alone(number, words) {
            Some(replica) => Some(Event::Resend { replica }),
            None => None,
        };
    }
    if is_word(verb, b"pull") {
        return read_pull(number, words);
    }
    if is_word(verb, b"catch") {
        return read_catch(number, words);
    }
    if is_word(verb, b"restart") {
        return match alone(number, words) {
            Some(replica) => Some(Event::Restart { replica }),
            None => None,
        };
    }
    None
}

// The number of a replica, behind which no word is left.
fn alone(number: &[u8], words: &Words<'_>) -> Option<u32>
    ensures { result ≡ alone (small_in number.now) words.now }
{
    let replica = small(number)?;
    if words.is_at_end() {
        Some(replica)
    } else {
        None
    }
}

fn read_edited(
    alloc: Global,
    catalog: &Catalog,
    number: &[u8],
    words: &mut Words<'_>,
) -> Result<Option<Event>, Memory>
    ensures { IfOk result (λ found. found ≡ both_in (λ r edit. Event.OnEdit r edit) (small_in number.now) (edit_in catalog.now words.old)) }
{
    let Some(replica) = small(number) else {
        return Ok(None);
    };
    match read_edit(alloc, catalog, words)? {
        Some(edit) => Ok(Some(Event::OnEdit { replica, edit })),
        None => Ok(None),
    }
}

// How many entries at most, behind which no word is left.
fn last_limit(words: &mut Words<'_>) -> Option<u32>
    ensures { result ≡ last_in small_in words.old }
{
    let word = words.next()?;
    if words.is_at_end() { small(word) } else { None }
}

fn read_pull(number: &[u8], words: &mut Words<'_>) -> Option<Event>
    ensures { result ≡ both_in (λ r limit. Event.AskPull r limit) (small_in number.now) (last_in small_in words.old) }
{
    let replica = small(number)?;
    let limit = last_limit(words)?;
    Some(Event::AskPull { replica, limit })
}

fn read_catch(number: &[u8], words: &mut Words<'_>) -> Option<Event>
    ensures { result ≡ both_in (λ r limit. Event.AskCatch r limit) (small_in number.now) (last_in small_in words.old) }
{
    let replica = small(number)?;
    let limit = last_limit(words)?;
    Some(Event::AskCatch { replica, limit })
}

fn read_delivered(
    alloc: Global,
    number: &[u8],
    words: &mut Words<'_>,
) -> Result<Option<Event>, Memory>
    ensures { IfOk result (λ found. found ≡ both_in (λ k wishes. Event.Deliver k wishes) (unsigned_in number.now) (last_in wishes_in words.old)) }
{
    let Some(message) = unsigned(number) else {
        return Ok(None);
    };
    match last_wishes(alloc, words)? {
        Some(wishes) => Ok(Some(Event::Deliver {
            message: message as usize,
            wishes: WishList::from_vec(wishes.into_vec()),
        })),
        None => Ok(None),
    }
}

// A wider table that is asked for. A request can't hold a name of more than 4,294,967,295 bytes.
fn read_widened(
    alloc: Global,
    number: &[u8],
    words: &mut Words<'_>,
) -> Result<Option<Event>, Memory>
    ensures { IfOk result (λ found. found ≡ wider_in (unsigned_in number.now) words.old) }
{
    let Some(base) = words.next() else {
        return Ok(None);
    };
    let Some(table) = words.next() else {
        return Ok(None);
    };
    let Some(table) = read_text(alloc, table)? else {
        return Ok(None);
    };
    Ok(wider(unsigned(number), unsigned(base), table, last_limit(words)))
}

// The wider table, where its numbers are there and its name is short enough.
fn wider(number: Option<u64>, base: Option<u64>, table: Text, width: Option<u32>) -> Option<Event>
    ensures { result ≡ both_in wider_of (both_in (λ n b. (n, b)) number base) (both_in (λ t w. (t, w)) (short_in (Some table)) width) }
{
    let wider = Wider::new(number?, base?, table, width?)?;
    Some(Event::AskWiden(wider))
}

// The wishes that the last word spells, where one word is left.
fn last_wishes(alloc: Global, words: &mut Words<'_>) -> Result<Option<Items<Wish>>, Memory>
    ensures { IfOk result (λ found. found ≡ last_in wishes_in words.old) }
{
    let Some(word) = words.next() else {
        return Ok(None);
    };
    if !words.is_at_end() {
        return Ok(None);
    }
    read_wishes(alloc, word)
}
