//! Where a replica stands, and rows.

ghost use Rattle.std.specs.Prelude.{Some};
ghost use Rattle.std.specs.Fmt.{WritesOnOk};
ghost use Rattle.cs_text.specs.Text.{line};
ghost use Rattle.cs_node_lines.specs.told.Dump.{numbered_text, rows_text};
ghost use Rattle.cs_node_lines.specs.told.Told.{place_text, row_text};

use cs_pending::rows::RowAtKey;
use cs_record::{Row, RowBuf};
use cs_text::{NameText, ValuesText};
use cs_value::Text;
use std::fmt;

/// Where a replica stands: `version V pending P flight F`, the last two numbers of changes.
#[derive(Clone, Copy)]
pub struct PlaceText {
    /// The version of the log that it has come to.
    pub version: u64,
    /// How many changes are pending.
    pub pending: u64,
    /// How many changes the push that is under way has; 0 where none is.
    pub flight: usize,
}

impl fmt::Display for PlaceText {
    ghost output = { λ text. Some (place_text text.version text.pending text.flight) };

    fn fmt<W: fmt::Write>(&self, f: &mut fmt::Formatter<W>) -> fmt::Result {
        write!(
            f,
            "version {} pending {} flight {}",
            self.version, self.pending, self.flight
        )
    }
}

/// Where the replica with this id stands: `replica ID version V pending P flight F`.
#[derive(Clone, Copy)]
pub struct ReplicaText {
    /// The replica's id.
    pub id: u64,
    /// Where it stands.
    pub place: PlaceText,
}

impl fmt::Display for ReplicaText {
    ghost output = { λ text. Some (numbered_text text.id (place_text text.place.version text.place.pending text.place.flight)) };

    fn fmt<W: fmt::Write>(&self, f: &mut fmt::Formatter<W>) -> fmt::Result {
        write!(f, "replica {} {}", self.id, self.place)
    }
}

/// A row of the table with this name: `row T VALUES`. It stays in its bytes.
#[derive(Drop)]
pub struct RowText<'t, 'r> {
    /// The table's name.
    pub table: &'t Text,
    /// The row.
    pub row: Row<'r>,
}

impl fmt::Display for RowText<'_, '_> {
    ghost output = { λ text. Some (row_text text.table.now text.row) };

    fn fmt<W: fmt::Write>(&self, f: &mut fmt::Formatter<W>) -> fmt::Result {
        write!(f, "row {}{}", NameText(self.table), ValuesText(&self.row))
    }
}

/// Rows of the table with this name, each behind the bytes of its key: a line for each, `row T VALUES`.
#[derive(Clone, Copy)]
pub struct RowsText<'a> {
    /// The table's name.
    pub table: &'a Text,
    /// The rows.
    pub rows: &'a [RowAtKey],
}

fn write_stored<W: fmt::Write>(table: &Text, row: &RowBuf, f: &mut fmt::Formatter<W>) -> fmt::Result
    ensures { WritesOnOk W.write_str_gives f.old result (line (row_text table.now row.now)) f.new }
{
    let row = row.as_row();
    write!(f, "{}\n", RowText { table, row })
}

fn write_rows<W: fmt::Write>(
    table: &Text,
    rows: &[RowAtKey],
    f: &mut fmt::Formatter<W>,
) -> fmt::Result
    ensures { WritesOnOk W.write_str_gives f.old result (rows_text table.now rows.now) f.new }
{
    for stored in rows {
        write_stored(table, &stored.1, f)?;
    }
    Ok(())
}

impl fmt::Display for RowsText<'_> {
    ghost output = { λ text. Some (rows_text text.table.now text.rows.now) };

    fn fmt<W: fmt::Write>(&self, f: &mut fmt::Formatter<W>) -> fmt::Result {
        write_rows(self.table, self.rows, f)
    }
}
