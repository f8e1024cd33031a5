//! Whether bytes are those that a body with changes is stored as. Nearly all are, and the bytes show it where they stand. The groups are
//! the catalog's tables in order, and the changes of each are in normal form, in the order of their keys.

ghost use Rattle.std.specs.Prelude.{◌≡◌, ◌↔◌, IfOk, IfSome, IsTrue, map};
ghost use Rattle.cs_change.specs.Spelling.{flag_byte, marks_of};
ghost use Rattle.cs_changeset.specs.Steps.{EndsGroup};
ghost use Rattle.cs_store.specs.log.Steps.{AreNextChanges, HasKeyAbove, IsChangeAt, IsNextChange, IsNextTable, IsTableBefore, SpellsChanges, StoresChanges};

use crate::log::body::CHANGES;
use crate::log::entry::MAX_CHANGESET;
use cs_change::TABLE;
use cs_changeset::{Change, Group, HeadedGroup, read_header};
use cs_normal::keyed::{is_normal, put_key};
use cs_normal::laws::fitting_is_normal;
use cs_normalising::laws::normal_form_keeps;
use cs_order::compare_bytes;
use cs_value::{Catalog, Memory, TableDef};
use std::alloc::Global;
use std::cmp::Ordering;
use std::mem;

/// Whether the change has a key without NULL, above the last one, which it then takes the place of. The room is for the key.
fn takes_next(
    marks: &[bool],
    change: &Change<'_>,
    last: &mut Vec<u8>,
    room: &mut Vec<u8>,
) -> Result<bool, Memory>
    ensures { IfOk result (λ takes. IsTrue takes → HasKeyAbove marks.now last.old.items last.new.items change.now) }
{
    room.clear();
    let whole = put_key(marks, change, room)?;
    if !whole || compare_bytes(last.as_slice(), room.as_slice()) != Ordering::Less {
        return Ok(false);
    }
    mem::swap(last, room);
    Ok(true)
}

/// The change at the front, and how many bytes it takes.
#[inline(always)]
fn read_change<'a>(columns: &[u8], bytes: &'a [u8]) -> Option<(Change<'a>, usize)>
    ensures { IfSome result (λ found. IsChangeAt (marks_of columns.now) bytes.now found.0 found.1) }
{
    match Group::read_entry(columns, bytes) {
        Ok(found) => found,
        Err(_) => None,
    }
}

/// How many bytes the change at the front takes, if it is in normal form and its key is above the last one.
fn next_change(
    marks: &[bool],
    columns: &[u8],
    bytes: &[u8],
    last: &mut Vec<u8>,
    room: &mut Vec<u8>,
) -> Result<Option<usize>, Memory>
    requires { marks_of columns.now ≡ marks.now }
    ensures { IfOk result (λ found. IfSome found (λ len.
        IsNextChange marks.now last.old.items last.new.items bytes.now len)) }
{
    normal_form_keeps();
    let Some((change, len)) = read_change(columns, bytes) else {
        return Ok(None);
    };
    if !is_normal(marks, &change) || !takes_next(marks, &change, last, room)? {
        return Ok(None);
    }
    Ok(Some(len))
}

/// Whether a group ends there: with the bytes, or where the next begins.
fn ends_group(bytes: &[u8]) -> bool
    ensures { IsTrue result ↔ EndsGroup bytes.now }
{
    match bytes {
        [] => true,
        [first, ..] => *first == TABLE,
    }
}

/// What follows the changes at the front, if there are some and they are in normal form, in the order of their keys.
fn behind_changes<'a>(
    alloc: Global,
    marks: &[bool],
    columns: &[u8],
    bytes: &'a [u8],
) -> Result<Option<&'a [u8]>, Memory>
    requires { marks_of columns.now ≡ marks.now }
    ensures { IfOk result (λ found. IfSome found (λ rest. AreNextChanges marks.now bytes.now rest.now)) }
{
    let mut last = Vec::new(alloc);
    let mut room = Vec::new(alloc);
    let mut left = bytes;
    loop {
        let Some(len) = next_change(marks, columns, left, &mut last, &mut room)? else {
            return Ok(None);
        };
        left = &left[len..];
        if ends_group(left) {
            return Ok(Some(left));
        }
    }
}

/// Whether the column bytes are those that these marks are written as.
fn are_written(columns: &[u8], marks: &[bool]) -> bool
    ensures { IsTrue result → map flag_byte marks.now ≡ columns.now }
{
    let mut columns = columns;
    let mut marks = marks;
    loop {
        match (columns.split_first(), marks.split_first()) {
            (None, None) => return true,
            (Some((byte, more)), Some((mark, more_marks))) => {
                if *byte != u8::from(*mark) {
                    return false;
                }
                columns = more;
                marks = more_marks;
            }
            _ => return false,
        }
    }
}

/// The table with this name, if it has these column bytes, and the tables behind it.
fn find_table<'c>(
    tables: &'c [TableDef],
    name: &str,
    columns: &[u8],
) -> Option<(&'c TableDef, &'c [TableDef])>
    ensures { IfSome result (λ found. IsTableBefore tables.now found.1.now found.0.now name.now columns.now) }
{
    let mut rest = tables;
    while let Some((table, more)) = rest.split_first() {
        if table.name.as_str() == name && are_written(columns, table.key_marks.as_slice()) {
            return Some((table, more));
        }
        rest = more;
    }
    None
}

/// What follows the group at the front, and the tables behind its own, if it is of one of the tables and in normal form.
fn behind_group<'a, 'c>(
    alloc: Global,
    tables: &'c [TableDef],
    bytes: &'a [u8],
) -> Result<Option<(&'a [u8], &'c [TableDef])>, Memory>
    ensures { IfOk result (λ found. IfSome found (λ behind.
        IsNextTable tables.now behind.1.now bytes.now behind.0.now)) }
{
    let Some((first, behind)) = bytes.split_first() else {
        return Ok(None);
    };
    if *first != TABLE {
        return Ok(None);
    }
    let Ok((columns, name, len)) = read_header(behind) else {
        return Ok(None);
    };
    let Some((table, more)) = find_table(tables, name, columns) else {
        return Ok(None);
    };
    let marks = table.key_marks.as_slice();
    let Some(rest) = behind_changes(alloc, marks, columns, &bytes[len..])? else {
        return Ok(None);
    };
    Ok(Some((rest, more)))
}

/// Whether the bytes are seen to spell a changeset of the catalog's tables in normal form.
fn are_changes(alloc: Global, catalog: &Catalog, bytes: &[u8]) -> Result<bool, Memory>
    ensures { IfOk result (λ are. IsTrue are → SpellsChanges catalog.now bytes.now) }
{
    fitting_is_normal();
    let mut tables = catalog.tables();
    let mut left = bytes;
    while !left.is_empty() {
        let Some((rest, more)) = behind_group(alloc, tables, left)? else {
            return Ok(false);
        };
        left = rest;
        tables = more;
    }
    Ok(true)
}

/// Whether the bytes are seen to be those that a body with changes is stored as.
pub(crate) fn is_plainly_stored(
    alloc: Global,
    catalog: &Catalog,
    bytes: &[u8],
) -> Result<bool, Memory>
    ensures { IfOk result (λ is. IsTrue is → StoresChanges catalog.now bytes.now) }
{
    let Some((kind, changeset)) = bytes.split_first() else {
        return Ok(false);
    };
    if *kind != CHANGES || changeset.len() as u64 > MAX_CHANGESET {
        return Ok(false);
    }
    let are = are_changes(alloc, catalog, changeset)?;
    Ok(are)
}
