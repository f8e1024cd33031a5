//! What the lines of changesets and of rebase blobs have both.

ghost use Rattle.std.specs.Fmt.{WritesOnOk};
ghost use Rattle.cs_text.specs.Text.{bit_text, fields_text, header_text, marks_text};

use crate::words::{FieldText, NameText};
use cs_record::Record;
use cs_value::Text;
use std::fmt;

/// A word behind a space for each field.
pub fn write_fields<W: fmt::Write>(fields: &Record<'_>, f: &mut fmt::Formatter<W>) -> fmt::Result
    ensures { WritesOnOk W.write_str_gives f.old result (fields_text fields.now) f.new }
{
    let mut left = fields.again();
    while let Some((column, rest)) = left.split_first() {
        write!(f, " {}", FieldText(&column))?;
        left = rest;
    }
    Ok(())
}

/// `1` or `0`
pub fn write_bit<W: fmt::Write>(bit: bool, f: &mut fmt::Formatter<W>) -> fmt::Result
    ensures { WritesOnOk W.write_str_gives f.old result (bit_text bit) f.new }
{
    if bit {
        f.write_str("1")
    } else {
        f.write_str("0")
    }
}

fn write_marks<W: fmt::Write>(marks: &[u8], f: &mut fmt::Formatter<W>) -> fmt::Result
    ensures { WritesOnOk W.write_str_gives f.old result (marks_text marks.now) f.new }
{
    for mark in marks {
        write_bit(*mark != 0, f)?;
    }
    Ok(())
}

/// `table NAME MARKS`
pub fn write_header<W: fmt::Write>(
    marks: &[u8],
    name: &Text,
    f: &mut fmt::Formatter<W>,
) -> fmt::Result
    ensures { WritesOnOk W.write_str_gives f.old result (header_text marks.now name.now) f.new }
{
    write!(f, "table {} ", NameText(name))?;
    write_marks(marks, f)
}
