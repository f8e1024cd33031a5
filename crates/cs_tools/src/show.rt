//! `show`: a changeset or a rebase blob, in hex or in a file, as text.

ghost use Rattle.std.specs.Prelude.{◌≡◌, ◌⊎◌, IfErr, IfOk, OnOk};
ghost use Rattle.cs_blob.specs.Spelling.{FitsBlob, blob_spelling};
ghost use Rattle.cs_change.specs.Spelling.{FitsChangeset, changeset_spelling};
ghost use Rattle.cs_text.specs.Text.{blob_text, changeset_text};
ghost use Rattle.cs_tools.specs.Endings.{Ends};
ghost use Rattle.cs_tools.specs.Faults.{AreBadBytes};
ghost use Rattle.cs_tools.specs.Files.{IsBadFile, RefusesFile, ShowsFile};
ghost use Rattle.cs_tools.specs.ShownLine.{RefusesToShow, ShowsBlob, ShowsBytes, ShowsChangeset};
ghost use Rattle.cs_tools.specs.declared.fault.ToolFault.TheVariants.{Memory};
ghost use Rattle.cs_tools.specs.declared.show.Shown.TheVariants.{Blob, Changeset};
ghost use Rattle.cs_blob.specs.Reading.{IsBlobFault};
ghost use Rattle.cs_changeset.specs.Reading.{IsChangesetFault};

use crate::fault::ToolFault;
use crate::files::{bytes_at, changeset_at};
use crate::input::next_or_empty;
use crate::input_files::InputFiles;
use crate::output::end_with_text;
use cs_blob::BlobGroup;
use cs_changeset::Group;
use cs_lines::{LineInput, LineOutput};
use cs_text::{BlobText, ChangesetText};
use std::alloc::{AllocError, Global};

/// The text of the changeset, which stays in its bytes.
fn text_of_groups(alloc: Global, groups: &[Group<'_>]) -> Result<String, AllocError>
    ensures { IfOk result (λ text. text.bytes.items ≡ changeset_text groups.now) }
{
    format!(in alloc; "{}", ChangesetText(groups))
}

/// The text of the changeset that these bytes spell.
fn text_of_changeset(alloc: Global, bytes: &[u8]) -> Result<String, ToolFault>
    ensures ok { IfOk result (λ text.
        ShowsBytes FitsChangeset changeset_spelling changeset_text bytes.now text.bytes.items) }
    ensures err { IfErr result (λ told. (told ≡ Memory) ⊎ AreBadBytes IsChangesetFault bytes.now told) }
{
    let changeset = cs_changeset::read(alloc, bytes)?;
    Ok(text_of_groups(alloc, changeset.as_slice())?)
}

/// The text of the blob, which stays in its bytes.
fn text_of_entries(alloc: Global, blob: &[BlobGroup<'_>]) -> Result<String, AllocError>
    ensures { IfOk result (λ text. text.bytes.items ≡ blob_text blob.now) }
{
    format!(in alloc; "{}", BlobText(blob))
}

/// The text of the rebase blob that these bytes spell.
fn text_of_blob(alloc: Global, bytes: &[u8]) -> Result<String, ToolFault>
    ensures ok { IfOk result (λ text. ShowsBytes FitsBlob blob_spelling blob_text bytes.now text.bytes.items) }
    ensures err { IfErr result (λ told. (told ≡ Memory) ⊎ AreBadBytes IsBlobFault bytes.now told) }
{
    let blob = cs_blob::read(alloc, bytes)?;
    Ok(text_of_entries(alloc, blob.as_slice())?)
}

/// The text of the changeset that the first line spells in hex.
fn shown_changeset<R: LineInput>(alloc: Global, reader: &mut R) -> Result<String, ToolFault>
    ensures ok { IfOk result (λ text. ShowsChangeset (R.remaining reader.old) (R.remaining reader.new) text.bytes.items) }
    ensures err { IfErr result
        (RefusesToShow IsChangesetFault (R.failed reader.new) (R.remaining reader.old) (R.remaining reader.new)) }
{
    let bytes = next_or_empty(alloc, reader)?;
    text_of_changeset(alloc, bytes.as_slice())
}

/// The text of the rebase blob that the first line spells in hex.
fn shown_blob<R: LineInput>(alloc: Global, reader: &mut R) -> Result<String, ToolFault>
    ensures ok { IfOk result (λ text. ShowsBlob (R.remaining reader.old) (R.remaining reader.new) text.bytes.items) }
    ensures err { IfErr result
        (RefusesToShow IsBlobFault (R.failed reader.new) (R.remaining reader.old) (R.remaining reader.new)) }
{
    let bytes = next_or_empty(alloc, reader)?;
    text_of_blob(alloc, bytes.as_slice())
}

/// Runs `Tool::ShowChangeset`.
pub fn show_changeset<R: LineInput, W: LineOutput>(
    alloc: Global,
    reader: &mut R,
    writer: &mut W,
) -> Result<(), ToolFault>
    ensures ends { Ends (ShowsChangeset (R.remaining reader.old) (R.remaining reader.new))
        (RefusesToShow IsChangesetFault (R.failed reader.new) (R.remaining reader.old) (R.remaining reader.new))
        (W.failed writer.new) (W.contents writer.old) (W.contents writer.new) result }
    ensures sent { OnOk result (W.sent writer.new) }
{
    let text = shown_changeset(alloc, reader);
    end_with_text(text, writer)
}

/// Runs `Tool::ShowBlob`.
pub fn show_blob<R: LineInput, W: LineOutput>(
    alloc: Global,
    reader: &mut R,
    writer: &mut W,
) -> Result<(), ToolFault>
    ensures ends { Ends (ShowsBlob (R.remaining reader.old) (R.remaining reader.new))
        (RefusesToShow IsBlobFault (R.failed reader.new) (R.remaining reader.old) (R.remaining reader.new))
        (W.failed writer.new) (W.contents writer.old) (W.contents writer.new) result }
    ensures sent { OnOk result (W.sent writer.new) }
{
    let text = shown_blob(alloc, reader);
    end_with_text(text, writer)
}

/// What a file is shown as.
#[derive(Clone, Copy, Debug, PartialEq, Eq)]
pub enum Shown {
    /// A changeset.
    Changeset,
    /// A rebase blob.
    Blob,
}

/// The text of the changeset in the file at a path.
fn text_of_changeset_at<F: InputFiles>(
    alloc: Global,
    files: &mut F,
    path: &str,
) -> Result<String, ToolFault>
    ensures ok { IfOk result (λ text. ShowsFile F.Input.PieceInput F.InputFiles files.new
        Changeset path.now text.bytes.items) }
    ensures err { IfErr result
        (IsBadFile F.Input.PieceInput F.InputFiles files.new IsChangesetFault path.now) }
{
    let owned = changeset_at(alloc, files, path)?;
    let changeset = owned.lend(alloc)?;
    Ok(text_of_groups(alloc, changeset.as_slice())?)
}

/// The text of the rebase blob in the file at a path.
fn text_of_blob_at<F: InputFiles>(
    alloc: Global,
    files: &mut F,
    path: &str,
) -> Result<String, ToolFault>
    ensures ok { IfOk result (λ text. ShowsFile F.Input.PieceInput F.InputFiles files.new
        Blob path.now text.bytes.items) }
    ensures err { IfErr result
        (IsBadFile F.Input.PieceInput F.InputFiles files.new IsBlobFault path.now) }
{
    let bytes = bytes_at(alloc, files, path)?;
    text_of_blob(alloc, bytes.as_slice())
}

/// What is shown of the file at a path.
fn text_at<F: InputFiles>(
    alloc: Global,
    shown: Shown,
    files: &mut F,
    path: &str,
) -> Result<String, ToolFault>
    ensures ok { IfOk result (λ text. ShowsFile F.Input.PieceInput F.InputFiles files.new
        shown path.now text.bytes.items) }
    ensures err { IfErr result
        (RefusesFile F.Input.PieceInput F.InputFiles files.new shown path.now) }
{
    match shown {
        Shown::Changeset => text_of_changeset_at(alloc, files, path),
        Shown::Blob => text_of_blob_at(alloc, files, path),
    }
}

/// Shows the changeset or the rebase blob in the file at a path, as its bytes, as text. Nothing is written before the whole file was judged.
pub fn show_file<F: InputFiles, W: LineOutput>(
    alloc: Global,
    shown: Shown,
    files: &mut F,
    path: &str,
    writer: &mut W,
) -> Result<(), ToolFault>
    ensures ends { Ends (ShowsFile F.Input.PieceInput F.InputFiles files.new shown path.now)
        (RefusesFile F.Input.PieceInput F.InputFiles files.new shown path.now)
        (W.failed writer.new) (W.contents writer.old) (W.contents writer.new) result }
    ensures sent { OnOk result (W.sent writer.new) }
{
    let text = text_at(alloc, shown, files, path);
    end_with_text(text, writer)
}
