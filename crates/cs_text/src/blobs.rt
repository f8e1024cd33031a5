//! The lines of a rebase blob.

ghost use Rattle.std.specs.Prelude.{Some};
ghost use Rattle.std.specs.Fmt.{WritesOnOk};
ghost use Rattle.cs_text.specs.Text.{answer_text, blob_group_text, blob_text, entries_text, entry_text, remote_text};

use crate::common::{write_fields, write_header};
use cs_blob::{BlobGroup, Entry};
use std::fmt;

fn write_remote<W: fmt::Write>(deleted: bool, f: &mut fmt::Formatter<W>) -> fmt::Result
    ensures { WritesOnOk W.write_str_gives f.old result (remote_text deleted) f.new }
{
    if deleted {
        f.write_str("delete")
    } else {
        f.write_str("change")
    }
}

fn write_answer<W: fmt::Write>(replaced: bool, f: &mut fmt::Formatter<W>) -> fmt::Result
    ensures { WritesOnOk W.write_str_gives f.old result (answer_text replaced) f.new }
{
    if replaced {
        f.write_str("replace")
    } else {
        f.write_str("omit")
    }
}

fn write_entry<W: fmt::Write>(entry: &Entry<'_>, f: &mut fmt::Formatter<W>) -> fmt::Result
    ensures { WritesOnOk W.write_str_gives f.old result (entry_text entry.now) f.new }
{
    write_remote(entry.deleted, f)?;
    f.write_str(" ")?;
    write_answer(entry.replaced, f)?;
    write_fields(&entry.fields, f)
}

fn write_entries<W: fmt::Write>(entries: &[Entry<'_>], f: &mut fmt::Formatter<W>) -> fmt::Result
    ensures { WritesOnOk W.write_str_gives f.old result (entries_text entries.now) f.new }
{
    for entry in entries {
        write_entry(entry, f)?;
        f.write_str("\n")?;
    }
    Ok(())
}

fn write_blob_group<W: fmt::Write>(group: &BlobGroup<'_>, f: &mut fmt::Formatter<W>) -> fmt::Result
    ensures { WritesOnOk W.write_str_gives f.old result (blob_group_text group.now) f.new }
{
    write_header(group.marks.as_slice(), &group.name, f)?;
    f.write_str("\n")?;
    write_entries(group.entries.as_slice(), f)
}

/// A rebase blob as text: `table NAME MARKS` for a group (a 1 marks a key column), then a line for each of its entries.
/// The line names the remote change (`delete`, or `change` for an INSERT or an UPDATE), the conflict's answer (`omit` or
/// `replace`), and the fields. Each line ends by a line feed. The records stay in their bytes.
#[derive(Clone, Copy)]
pub struct BlobText<'a, 'b>(pub &'a [BlobGroup<'b>]);

impl fmt::Display for BlobText<'_, '_> {
    ghost output = { λ blob. Some (blob_text blob.0.now) };

    fn fmt<W: fmt::Write>(&self, f: &mut fmt::Formatter<W>) -> fmt::Result {
        for group in self.0 {
            write_blob_group(group, f)?;
        }
        Ok(())
    }
}
