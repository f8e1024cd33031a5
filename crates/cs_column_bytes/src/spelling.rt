//! Changesets in normal form, spelled with the column bytes that came in.

ghost use Rattle.std.specs.Prelude.{◌≡◌, ◌++◌, List, map, IfOk, OnOk, OnErr};
ghost use Rattle.cs_change.specs.Spelling.{flag_byte, header_spelling, group_spelling};
ghost use Rattle.cs_record.specs.Spelling.{Extends};
ghost use Rattle.cs_column_bytes.specs.KeyPlaces.{Head, columns_of, group_for_sqlite, sqlite_spelling};
ghost use Rattle.cs_column_bytes.specs.Steps.{heads_behind, FirstColumns};

use crate::headers::{Header, first_columns};
use cs_change::put_header;
use cs_normal::{Normal, TableChanges};
use cs_value::Memory;
use std::alloc::Global;
use std::collections::BTreeMap;

/// The column bytes of the normal form: 1 for a key column, and 0 for another.
fn flags(alloc: Global, marks: &[bool]) -> Result<Vec<u8>, Memory>
    ensures { IfOk result (λ bytes. bytes.items ≡ map flag_byte marks.now) }
{
    let mut bytes = Vec::with_capacity(alloc, marks.len())?;
    for mark in marks {
        bytes.push(u8::from(*mark))?;
    }
    Ok(bytes)
}

/// Puts a table's header with the column bytes of its first header.
fn put_first_header(
    alloc: Global,
    table: &TableChanges,
    columns: &BTreeMap<&str, &[u8]>,
    out: &mut Vec<u8>,
) -> Result<(), Memory>
    ensures ok { OnOk result ((heads : List Head) → FirstColumns heads columns.now → out.new.items ≡ out.old.items
        ++ header_spelling (columns_of table.now.name (map flag_byte table.now.marks) heads) table.now.name) }
    ensures kept { Extends out.old.items out.new.items }
{
    let name = table.name.as_str();
    match columns.get(name) {
        Some(marks) => put_header(*marks, name, out),
        None => {
            let marks = flags(alloc, table.marks.as_slice())?;
            put_header(marks.as_slice(), name, out)
        }
    }
}

fn put_table(
    alloc: Global,
    table: &TableChanges,
    columns: &BTreeMap<&str, &[u8]>,
    out: &mut Vec<u8>,
) -> Result<(), Memory>
    ensures ok { OnOk result ((heads : List Head) → FirstColumns heads columns.now
        → out.new.items ≡ out.old.items ++ group_spelling (group_for_sqlite heads table.now)) }
    ensures kept { Extends out.old.items out.new.items }
{
    put_first_header(alloc, table, columns, out)?;
    out.extend_from_slice(table.changes.spelling())?;
    Ok(())
}

fn put_tables(
    alloc: Global,
    tables: &[TableChanges],
    headers: &[Header<'_>],
    out: &mut Vec<u8>,
) -> Result<(), Memory>
    ensures ok { OnOk result (out.new.items
        ≡ out.old.items ++ sqlite_spelling (heads_behind headers.now) tables.now) }
    ensures kept { Extends out.old.items out.new.items }
{
    let columns = first_columns(alloc, headers)?;
    for table in tables {
        put_table(alloc, table, &columns, out)?;
    }
    Ok(())
}

/// Appends the spelling of a changeset in normal form, but with the column bytes of the first of these headers that has the
/// table's name. A table without one has 1 and 0, as in the normal form. An `Err` changes nothing. (SQLite's "changeset
/// format".)
pub fn encode(
    alloc: Global,
    changeset: &Normal,
    headers: &[Header<'_>],
    out: &mut Vec<u8>,
) -> Result<(), Memory>
    ensures ok { OnOk result (out.new.items
        ≡ out.old.items ++ sqlite_spelling (heads_behind headers.now) changeset.now) }
    ensures err { OnErr result (out.new.items ≡ out.old.items) }
{
    let len = out.len();
    let written = put_tables(alloc, changeset.tables(), headers, out);
    if written.is_err() {
        out.truncate(len);
    }
    written
}
