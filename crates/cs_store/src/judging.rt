//! Whether bytes that a store holds are what their place says. Each store's `check` asks these of all that it holds.

ghost use Rattle.std.specs.Prelude.{◌≡◌, ◌↔◌, true, pos, List, Some, IfOk, IfSome, IsTrue};
ghost use Rattle.cs_value.specs.declared.value.Value.{Value};
ghost use Rattle.cs_record.specs.Spelling.{row_bytes};
ghost use Rattle.cs_change.specs.Spelling.{FitsRow, is_nonzero, marks_of};
ghost use Rattle.cs_normal.specs.keyed.NormalForm.{change_bytes, has_key};
ghost use Rattle.cs_store.specs.Whole.{AtTable, IsName, StoresChange, StoresRow};

use crate::MetaName;
use cs_changeset::{Change, read_one};
use cs_normal::keyed::put_key;
use cs_record::{Row, read_row};
use cs_value::{Catalog, Memory, TableDef};
use std::alloc::Global;

/// The row of so many values that the whole of the bytes spells, if they spell one.
pub fn whole_row(bytes: &[u8], columns: usize) -> Option<Row<'_>>
    ensures found { IfSome result (λ row. FitsRow columns row × (bytes.now ≡ row_bytes row)) }
    ensures only { (row : List Value) → FitsRow columns row → bytes.now ≡ row_bytes row → result ≡ Some row }
{
    let (row, len) = read_row(bytes, columns)?;
    if len == bytes.len() { Some(row) } else { None }
}

/// Whether a change has a key without NULL that these bytes spell.
fn is_keyed(alloc: Global, marks: &[bool], change: &Change<'_>, key: &[u8]) -> Result<bool, Memory>
    ensures { IfOk result (λ is. IsTrue is ↔ ((has_key marks.now change.now ≡ true) × (key.now ≡ change_bytes marks.now change.now))) }
{
    let mut own = Vec::with_capacity(alloc, key.len())?;
    let whole = put_key(marks, change, &mut own)?;
    Ok(whole && own.as_slice() == key)
}

/// Whether the bytes spell a row of the table at its own key.
fn is_row_of(alloc: Global, table: &TableDef, key: &[u8], body: &[u8]) -> Result<bool, Memory>
    ensures { IfOk result (λ is. IsTrue is ↔ StoresRow table.now key.now body.now) }
{
    let marks = table.key_marks.as_slice();
    let Some(new_row) = whole_row(body, marks.len()) else {
        return Ok(false);
    };
    let flag = false;
    let insert = Change::Insert { flag, new_row };
    let is = is_keyed(alloc, marks, &insert, key)?;
    Ok(is)
}

/// A byte for a mark: 1 for a key column, or 0.
fn byte_of(mark: bool) -> u8
    ensures { is_nonzero result ≡ mark }
{
    if mark { 1 } else { 0 }
}

/// The marks of a table's columns as bytes, 1 for a key column and 0 for another, as the reader of one change takes them.
pub fn mark_bytes(alloc: Global, marks: &[bool]) -> Result<Vec<u8>, Memory>
    ensures { IfOk result (λ bytes. marks_of bytes.items ≡ marks.now) }
{
    let mut bytes = Vec::with_capacity(alloc, marks.len())?;
    for mark in marks {
        bytes.push(byte_of(*mark))?;
    }
    Ok(bytes)
}

/// Whether the bytes spell a change of the table at its own key.
fn is_change_of(alloc: Global, table: &TableDef, key: &[u8], body: &[u8]) -> Result<bool, Memory>
    ensures { IfOk result (λ is. IsTrue is ↔ StoresChange table.now key.now body.now) }
{
    let marks = table.key_marks.as_slice();
    let columns = mark_bytes(alloc, marks)?;
    let Some(change) = read_one(columns.as_slice(), body) else {
        return Ok(false);
    };
    let is = is_keyed(alloc, marks, &change, key)?;
    Ok(is)
}

/// Whether the bytes spell a row of the catalog's table with this number, at its own key.
pub fn is_row(
    alloc: Global,
    catalog: &Catalog,
    table: u32,
    key: &[u8],
    body: &[u8],
) -> Result<bool, Memory>
    ensures { IfOk result (λ is. IsTrue is ↔ AtTable StoresRow catalog.now (pos table, key.now) body.now) }
{
    let Some(named) = catalog.tables().get(table as usize) else {
        return Ok(false);
    };
    let is = is_row_of(alloc, named, key, body)?;
    Ok(is)
}

/// Whether the bytes spell a change of the catalog's table with this number, at its own key.
pub fn is_change(
    alloc: Global,
    catalog: &Catalog,
    table: u32,
    key: &[u8],
    body: &[u8],
) -> Result<bool, Memory>
    ensures { IfOk result (λ is. IsTrue is ↔ AtTable StoresChange catalog.now (pos table, key.now) body.now) }
{
    let Some(named) = catalog.tables().get(table as usize) else {
        return Ok(false);
    };
    let is = is_change_of(alloc, named, key, body)?;
    Ok(is)
}

/// Whether the bytes are the text of a name.
pub fn is_name(bytes: &[u8]) -> bool
    ensures { IsTrue result ↔ IsName bytes.now }
{
    MetaName::of_text(bytes).is_some()
}
