//! The tools, and one run of one of them.

ghost use Rattle.std.specs.Prelude.{OnOk};
ghost use Rattle.cs_tools.specs.Endings.{Ends, Owes, Refuses};

use crate::combine::combine_lines;
use crate::fault::ToolFault;
use crate::rebase::rebase_lines;
use crate::show::{show_blob, show_changeset};
use cs_lines::{LineInput, LineOutput};
use std::alloc::Global;

/// Which column bytes a changeset is written with. (SQLite's "changeset format", table header.)
#[derive(Clone, Copy, Debug, PartialEq, Eq)]
pub enum Form {
    /// The normal form of this project: 1 for a key column, and 0 for another.
    Normal,
    /// Those of the table's first header in the input. SQLite writes a key column's place in the PRIMARY KEY, and applies
    /// changes only to a table with the same bytes.
    Sqlite,
}

/// What reads its input, answers once and ends.
#[derive(Clone, Copy, Debug, PartialEq, Eq)]
pub enum Tool {
    /// The changesets that the lines spell in hex, one each, as one changeset in this form, as a line of lower case hex. An empty line is
    /// the empty changeset. (Profile of this project over SQLite's changegroup.)
    Combine(Form),
    /// The changeset of the first line, rebased over the rebase blob of the second, in this form. All three are lines of hex. A line that
    /// isn't there is the empty one; the lines behind the second are left unread. (Profile of this project over SQLite's "Session
    /// Extension", `sqlite3rebaser_rebase`.)
    Rebase(Form),
    /// The changeset that the first line spells in hex, as text. The lines behind it are left unread.
    ShowChangeset,
    /// The rebase blob that the first line spells in hex, as text. The lines behind it are left unread.
    ShowBlob,
}

/// Runs the tool on the lines of its input, and writes what it owes, and sends it. Nothing is written before the whole of what the tool
/// reads was judged. Where there is a fault, it is the first that is judged. Lines are judged in their order, then what they spell
/// together, then the form (`KeyOrder`).
pub fn run_tool<R: LineInput, W: LineOutput>(
    alloc: Global,
    tool: Tool,
    reader: &mut R,
    writer: &mut W,
) -> Result<(), ToolFault>
    ensures ends { Ends (Owes tool (R.remaining reader.old) (R.remaining reader.new))
        (Refuses tool (R.failed reader.new) (R.remaining reader.old) (R.remaining reader.new))
        (W.failed writer.new) (W.contents writer.old) (W.contents writer.new) result }

    // Where all was done, nothing that was written is held back.
    ensures sent { OnOk result (W.sent writer.new) }
{
    match tool {
        Tool::Combine(form) => combine_lines(alloc, form, reader, writer),
        Tool::Rebase(form) => rebase_lines(alloc, form, reader, writer),
        Tool::ShowChangeset => show_changeset(alloc, reader, writer),
        Tool::ShowBlob => show_blob(alloc, reader, writer),
    }
}
