//! The words of a line: names, values and fields.

ghost use Rattle.std.specs.Prelude.{◌≡◌, Some};
ghost use Rattle.std.specs.Fmt.{WritesOnOk};
ghost use Rattle.cs_text.specs.Text.{is_plain, escaped, escaped_text, lower_hex, hex_text, name_text, value_text, field_text};

use cs_record::{Cell, Column, ValueRef};
use cs_value::Text;
use std::fmt;

/// Whether a byte of a text stands for itself: from `!` to `~`, and not `%`.
pub fn is_plain(byte: u8) -> bool
    ensures { result ≡ is_plain byte }
{
    (0x21..=0x7e).contains(&byte) && byte != b'%'
}

fn write_byte<W: fmt::Write>(byte: u8, f: &mut fmt::Formatter<W>) -> fmt::Result
    ensures { WritesOnOk W.write_str_gives f.old result (escaped byte) f.new }
{
    if is_plain(byte) {
        f.write_char(char::from(byte))
    } else {
        write!(f, "%{byte:02X}")
    }
}

fn write_escaped<W: fmt::Write>(text: &str, f: &mut fmt::Formatter<W>) -> fmt::Result
    ensures { WritesOnOk W.write_str_gives f.old result (escaped_text text.now) f.new }
{
    for byte in text.as_bytes() {
        write_byte(*byte, f)?;
    }
    Ok(())
}

fn write_hex_byte<W: fmt::Write>(byte: u8, f: &mut fmt::Formatter<W>) -> fmt::Result
    ensures { WritesOnOk W.write_str_gives f.old result (lower_hex byte) f.new }
{
    write!(f, "{byte:02x}")
}

fn write_hex<W: fmt::Write>(bytes: &[u8], f: &mut fmt::Formatter<W>) -> fmt::Result
    ensures { WritesOnOk W.write_str_gives f.old result (hex_text bytes.now) f.new }
{
    for byte in bytes {
        write_hex_byte(*byte, f)?;
    }
    Ok(())
}

/// A table's name as a word.
#[derive(Clone, Copy)]
pub struct NameText<'a>(pub &'a Text);

impl fmt::Display for NameText<'_> {
    ghost output = { λ name. Some (name_text name.0.now) };

    fn fmt<W: fmt::Write>(&self, f: &mut fmt::Formatter<W>) -> fmt::Result {
        write_escaped(self.0.as_str(), f)
    }
}

/// A value as a word. It stays in its bytes.
#[derive(Clone, Copy)]
pub struct ValueText<'a>(pub &'a Cell<'a>);

impl fmt::Display for ValueText<'_> {
    ghost output = { λ value. Some (value_text value.0.now) };

    fn fmt<W: fmt::Write>(&self, f: &mut fmt::Formatter<W>) -> fmt::Result {
        match self.0.get() {
            ValueRef::Null => f.write_str("null"),
            ValueRef::Int(number) => write!(f, "{number}"),
            ValueRef::Text(text) => {
                f.write_str("t=")?;
                write_escaped(text, f)
            }
            ValueRef::Blob(bytes) => {
                f.write_str("x=")?;
                write_hex(bytes, f)
            }
        }
    }
}

/// A field as a word. It stays in its bytes.
#[derive(Clone, Copy)]
pub struct FieldText<'a>(pub &'a Column<'a>);

impl fmt::Display for FieldText<'_> {
    ghost output = { λ field. Some (field_text field.0.now) };

    fn fmt<W: fmt::Write>(&self, f: &mut fmt::Formatter<W>) -> fmt::Result {
        match Cell::of_column(self.0) {
            None => f.write_str("-"),
            Some(cell) => write!(f, "{}", ValueText(&cell)),
        }
    }
}
