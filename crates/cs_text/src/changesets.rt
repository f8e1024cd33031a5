//! The lines of a changeset.

ghost use Rattle.std.specs.Prelude.{Some};
ghost use Rattle.std.specs.Fmt.{WritesOnOk};
ghost use Rattle.cs_text.specs.Text.{values_text, operation_text, change_text, changes_text, group_text, changeset_text};

use crate::common::{write_bit, write_fields, write_header};
use crate::words::ValueText;
use cs_change::{Change, Group};
use cs_record::Row;
use std::fmt;

fn write_values<W: fmt::Write>(values: &Row<'_>, f: &mut fmt::Formatter<W>) -> fmt::Result
    ensures { WritesOnOk W.write_str_gives f.old result (values_text values.now) f.new }
{
    let mut left = values.again();
    while let Some((cell, rest)) = left.split_first() {
        write!(f, " {}", ValueText(&cell))?;
        left = rest;
    }
    Ok(())
}

fn write_operation<W: fmt::Write>(word: &str, flag: bool, f: &mut fmt::Formatter<W>) -> fmt::Result
    ensures { WritesOnOk W.write_str_gives f.old result (operation_text word.now flag) f.new }
{
    f.write_str(word)?;
    f.write_str(" ")?;
    write_bit(flag, f)
}

fn write_change<W: fmt::Write>(change: &Change<'_>, f: &mut fmt::Formatter<W>) -> fmt::Result
    ensures { WritesOnOk W.write_str_gives f.old result (change_text change.now) f.new }
{
    match change {
        Change::Insert { flag, new_row } => {
            write_operation("insert", *flag, f)?;
            write_values(new_row, f)
        }
        Change::Delete { flag, old_row } => {
            write_operation("delete", *flag, f)?;
            write_values(old_row, f)
        }
        Change::Update {
            flag,
            old_fields,
            new_fields,
        } => {
            write_operation("update", *flag, f)?;
            write_fields(old_fields, f)?;
            f.write_str(" >")?;
            write_fields(new_fields, f)
        }
    }
}

fn write_changes<W: fmt::Write>(changes: &[Change<'_>], f: &mut fmt::Formatter<W>) -> fmt::Result
    ensures { WritesOnOk W.write_str_gives f.old result (changes_text changes.now) f.new }
{
    for change in changes {
        write_change(change, f)?;
        f.write_str("\n")?;
    }
    Ok(())
}

fn write_group<W: fmt::Write>(group: &Group<'_>, f: &mut fmt::Formatter<W>) -> fmt::Result
    ensures { WritesOnOk W.write_str_gives f.old result (group_text group.now) f.new }
{
    write_header(group.marks.as_slice(), &group.name, f)?;
    f.write_str("\n")?;
    write_changes(group.changes.as_slice(), f)
}

/// A changeset as text: `table NAME MARKS` for a group (a 1 marks a key column), then a line for each of its changes:
/// `insert FLAG VALUES`, `delete FLAG VALUES` or `update FLAG OLD > NEW`. Each line ends by a line feed. The changes stay
/// in their bytes.
#[derive(Clone, Copy)]
pub struct ChangesetText<'a, 'b>(pub &'a [Group<'b>]);

impl fmt::Display for ChangesetText<'_, '_> {
    ghost output = { λ changeset. Some (changeset_text changeset.0.now) };

    fn fmt<W: fmt::Write>(&self, f: &mut fmt::Formatter<W>) -> fmt::Result {
        for group in self.0 {
            write_group(group, f)?;
        }
        Ok(())
    }
}

/// One change as text, as in a changeset's, without its line feed. It stays in its bytes.
#[derive(Clone, Copy)]
pub struct ChangeText<'a, 'b>(pub &'a Change<'b>);

impl fmt::Display for ChangeText<'_, '_> {
    ghost output = { λ change. Some (change_text change.0.now) };

    fn fmt<W: fmt::Write>(&self, f: &mut fmt::Formatter<W>) -> fmt::Result {
        write_change(self.0, f)
    }
}

/// The values of a row as words, each behind a space. They stay in their bytes.
#[derive(Clone, Copy)]
pub struct ValuesText<'a, 'b>(pub &'a Row<'b>);

impl fmt::Display for ValuesText<'_, '_> {
    ghost output = { λ row. Some (values_text row.0.now) };

    fn fmt<W: fmt::Write>(&self, f: &mut fmt::Formatter<W>) -> fmt::Result {
        write_values(self.0, f)
    }
}
