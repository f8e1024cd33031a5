//! Edits as words.

ghost use Rattle.std.specs.Prelude.{◌≡◌, ◌∷◌, ℕ, List, IfOk, option_map};
ghost use Rattle.cs_text.specs.parse.Edits.{PutsColumn, column_in, column_onto, columns_in, edit_in, edit_of, marks_of};

use crate::parse::texts::read_text;
use crate::parse::values::{read_field, read_value, read_values};
use crate::parse::words::{Words, is_word};
use cs_value::{Catalog, Edit, Field, Items, Memory, Text, Value};
use std::alloc::Global;

/// The edit that the words that are left spell, if they spell one: `insert T VALUES`, `update T FIELDS` or `delete T KEYVALUES`. Of the
/// fields of an update those at key columns of the table are the key, so `-` spells nothing there. Of a table that isn't in the catalog no
/// column is a key column. The widths aren't tested.
pub fn read_edit(
    alloc: Global,
    catalog: &Catalog,
    words: &mut Words<'_>,
) -> Result<Option<Edit>, Memory>
    ensures { IfOk result (λ found. found ≡ edit_in catalog.now words.old) }
{
    let Some(verb) = words.next() else {
        return Ok(None);
    };
    let Some(name) = words.next() else {
        return Ok(None);
    };
    match read_text(alloc, name)? {
        Some(table) => read_edit_of(alloc, catalog, verb, table, words),
        None => Ok(None),
    }
}

// The edit of this table, by the verb.
fn read_edit_of(
    alloc: Global,
    catalog: &Catalog,
    verb: &[u8],
    table: Text,
    words: &mut Words<'_>,
) -> Result<Option<Edit>, Memory>
    ensures { IfOk result (λ found. found ≡ edit_of catalog.now verb.now table words.old) }
{
    if is_word(verb, b"insert") {
        return match read_values(alloc, words)? {
            Some(row) => Ok(Some(Edit::Insert { table, row })),
            None => Ok(None),
        };
    }
    if is_word(verb, b"update") {
        return read_update(alloc, catalog, table, words);
    }
    if is_word(verb, b"delete") {
        return match read_values(alloc, words)? {
            Some(key) => Ok(Some(Edit::Delete { table, key })),
            None => Ok(None),
        };
    }
    Ok(None)
}

fn read_update(
    alloc: Global,
    catalog: &Catalog,
    table: Text,
    words: &mut Words<'_>,
) -> Result<Option<Edit>, Memory>
    ensures { IfOk result (λ found. found ≡ option_map (λ parts. Edit.Update table parts.0 parts.1) (columns_in (marks_of catalog.now table) words.old)) }
{
    let marks = marks_of(catalog, table.as_str());
    match read_columns(alloc, marks, words)? {
        Some((key, fields)) => Ok(Some(Edit::Update {
            table,
            key: Items::from_vec(key),
            fields: Items::from_vec(fields),
        })),
        None => Ok(None),
    }
}

// The key marks of the table with this name; none where no table has it.
fn marks_of<'c>(catalog: &'c Catalog, name: &str) -> &'c [bool]
    ensures { result.now ≡ marks_of catalog.now name.now }
{
    let tables = catalog.tables();
    match catalog.find(name) {
        Some(place) => tables[place].key_marks.as_slice(),
        None => &[],
    }
}

// The key and the fields that the words spell, column by column.
fn read_columns(
    alloc: Global,
    marks: &[bool],
    words: &mut Words<'_>,
) -> Result<Option<(Vec<Value>, Vec<Field>)>, Memory>
    ensures { IfOk result (λ found. option_map (λ parts. (parts.0.items, parts.1.items)) found ≡ columns_in marks.now words.old) }
{
    let mut marks = marks;
    let mut key = Vec::new(alloc);
    let mut fields = Vec::new(alloc);
    while let Some(word) = words.next() {
        let (mark, more) = split_mark(marks);
        if !read_column(alloc, mark, word, &mut key, &mut fields)? {
            return Ok(None);
        }
        marks = more;
    }
    Ok(Some((key, fields)))
}

// The mark of the first column, and those of the others; past the marks no column is a key column.
fn split_mark(marks: &[bool]) -> (bool, &[bool])
    ensures { (word : List ℕ) (words : List (List ℕ)) → columns_in marks.now (word ∷ words) ≡ column_onto (column_in result.0 word) (columns_in result.1.now words) }
{
    match marks.split_first() {
        Some((mark, more)) => (*mark, more),
        None => (false, marks),
    }
}

// Puts what the word at a column spells behind the key and the fields, if it spells something there.
fn read_column(
    alloc: Global,
    mark: bool,
    word: &[u8],
    key: &mut Vec<Value>,
    fields: &mut Vec<Field>,
) -> Result<bool, Memory>
    ensures { IfOk result (λ read. PutsColumn read (column_in mark word.now) key.old.items key.new.items fields.old.items fields.new.items) }
{
    if mark {
        let Some(value) = read_value(alloc, word)? else {
            return Ok(false);
        };
        key.push(value)?;
        fields.push(Field::Undefined)?;
    } else {
        let Some(field) = read_field(alloc, word)? else {
            return Ok(false);
        };
        fields.push(field)?;
    }
    Ok(true)
}
