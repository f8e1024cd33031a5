//! What a line asks that only looks at a replica.

ghost use Rattle.std.specs.Prelude.{◌≡◌, IfOk};
ghost use Rattle.cs_node_lines.specs.asks.Looked.{look_in, row_in, rows_in, look_by};

use crate::asks::ask::alone;
use cs_text::parse::{Words, is_word, read_text, read_values};
use cs_value::{Key, Memory, Text};
use std::alloc::Global;

/// What a line asks to be shown of a replica, beside its dump.
#[derive(Drop)]
pub enum Look {
    /// Where it stands: `place`.
    Place,
    /// Its tables, as they are now: `tables`.
    Tables,
    /// The rows of a table: `rows T`.
    Rows(Text),
    /// The row of a table with a key: `row T KEYVALUES`.
    Row {
        /// The table's name.
        table: Text,
        /// The key of the row.
        key: Key,
    },
    /// What is pending, as a changeset: `pending`.
    Pending,
}

/// What a line without its line feed asks to be shown, if it asks that.
///
/// # Errors
///
/// Memory was refused.
pub fn read_look(alloc: Global, line: &[u8]) -> Result<Option<Look>, Memory>
    ensures { IfOk result (λ found. found ≡ look_in line.now) }
{
    let mut words = Words::new(line);
    let Some(verb) = words.next() else {
        return Ok(None);
    };
    read_look_by(alloc, verb, &mut words)
}

// What a verb and the words behind it ask.
fn read_look_by(alloc: Global, verb: &[u8], words: &mut Words<'_>) -> Result<Option<Look>, Memory>
    ensures { IfOk result (λ found. found ≡ look_by verb.now words.old) }
{
    if is_word(verb, b"place") {
        return Ok(alone(Look::Place, words));
    }
    if is_word(verb, b"tables") {
        return Ok(alone(Look::Tables, words));
    }
    if is_word(verb, b"rows") {
        return read_rows(alloc, words);
    }
    if is_word(verb, b"row") {
        return read_row(alloc, words);
    }
    if is_word(verb, b"pending") {
        return Ok(alone(Look::Pending, words));
    }
    Ok(None)
}

fn read_rows(alloc: Global, words: &mut Words<'_>) -> Result<Option<Look>, Memory>
    ensures { IfOk result (λ found. found ≡ rows_in words.old) }
{
    let Some(name) = words.next() else {
        return Ok(None);
    };
    if !words.is_at_end() {
        return Ok(None);
    }
    match read_text(alloc, name)? {
        Some(table) => Ok(Some(Look::Rows(table))),
        None => Ok(None),
    }
}

fn read_row(alloc: Global, words: &mut Words<'_>) -> Result<Option<Look>, Memory>
    ensures { IfOk result (λ found. found ≡ row_in words.old) }
{
    let Some(name) = words.next() else {
        return Ok(None);
    };
    let Some(table) = read_text(alloc, name)? else {
        return Ok(None);
    };
    match read_values(alloc, words)? {
        Some(key) => Ok(Some(Look::Row { table, key })),
        None => Ok(None),
    }
}
