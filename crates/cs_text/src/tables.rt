//! Tables as text.

ghost use Rattle.std.specs.Prelude.{Some, flat_map};
ghost use Rattle.std.specs.Fmt.{WritesOnOk};
ghost use Rattle.cs_text.specs.Text.{bit_text, line, table_text, tables_text};

use crate::common::write_bit;
use crate::words::NameText;
use cs_value::TableDef;
use std::fmt;

fn write_key_marks<W: fmt::Write>(marks: &[bool], f: &mut fmt::Formatter<W>) -> fmt::Result
    ensures { WritesOnOk W.write_str_gives f.old result (flat_map bit_text marks.now) f.new }
{
    for mark in marks {
        write_bit(*mark, f)?;
    }
    Ok(())
}

fn write_table<W: fmt::Write>(table: &TableDef, f: &mut fmt::Formatter<W>) -> fmt::Result
    ensures { WritesOnOk W.write_str_gives f.old result (line (table_text table.now)) f.new }
{
    write!(f, "table {} ", NameText(&table.name))?;
    write_key_marks(table.key_marks.as_slice(), f)?;
    f.write_str("\n")
}

/// Tables as text, a line for each: `table NAME MARKS`, as a changeset has it for a group. A 1 marks a key column.
#[derive(Clone, Copy)]
pub struct TablesText<'a>(pub &'a [TableDef]);

impl fmt::Display for TablesText<'_> {
    ghost output = { λ tables. Some (tables_text tables.0.now) };

    fn fmt<W: fmt::Write>(&self, f: &mut fmt::Formatter<W>) -> fmt::Result {
        for table in self.0 {
            write_table(table, f)?;
        }
        Ok(())
    }
}
