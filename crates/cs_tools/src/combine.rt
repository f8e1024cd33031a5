//! `combine`: changesets in hex, one a line, or in files, taken together as one.

ghost use Rattle.std.specs.Prelude.{◌≡◌, ◌⊎◌, List, ℕ, IfErr, IfOk, OnOk, flat_map, map};
ghost use Rattle.std.specs.List.{AllByRecursion, AllZip};
ghost use Rattle.cs_change.specs.Spelling.{FitsChangeset, changeset_spelling};
ghost use Rattle.cs_lines.specs.Lines.{hex_line};
ghost use Rattle.cs_lines.specs.Served.{AreAllLines};
ghost use Rattle.cs_column_bytes.specs.KeyPlaces.{heads_of};
ghost use Rattle.cs_column_bytes.specs.Steps.{heads_behind};
ghost use Rattle.cs_tools.specs.CombinedLines.{CombinesAll, RefusesToCombine, SpellsCombined};
ghost use Rattle.cs_tools.specs.Endings.{Ends};
ghost use Rattle.cs_tools.specs.Files.{CombinesFiles, RefusesFiles};
ghost use Rattle.cs_tools.specs.SpelledLine.{Spells};
ghost use Rattle.cs_tools.specs.WrittenForm.{IsNotWritten, SpellsIn};
ghost use Rattle.cs_tools.specs.declared.fault.ToolFault.TheVariants.{Memory as NoMemory};

use crate::fault::ToolFault;
use crate::files::changesets_at;
use crate::input::{all_bytes, read_all};
use crate::input_files::InputFiles;
use crate::output::end_with_line;
use crate::tool::Form;
use crate::written::{spelled_for_sqlite, spelled_normal};
use cs_changeset::Changeset;
use cs_column_bytes::{Header, put_headers};
use cs_feed::ChangesetBuf;
use cs_group::combine;
use cs_lines::{LineInput, LineOutput};
use cs_normal::Normal;
use cs_value::Memory;
use std::alloc::Global;

/// The headers of all changesets, in order.
fn headers_of_all<'a>(
    alloc: Global,
    changesets: &'a [Changeset<'_>],
) -> Result<Vec<Header<'a>>, Memory>
    ensures { IfOk result (λ headers. heads_behind headers.items ≡ flat_map heads_of changesets.now) }
{
    let mut headers = Vec::new(alloc);
    for changeset in changesets {
        put_headers(changeset.as_slice(), &mut headers)?;
    }
    Ok(headers)
}

/// The spelling, in this form, of what these changesets are as one.
fn spelled_in(
    alloc: Global,
    form: Form,
    both: &Normal,
    changesets: &[Changeset<'_>],
) -> Result<Vec<u8>, ToolFault>
    ensures ok { IfOk result (λ bytes. SpellsIn form (flat_map heads_of changesets.now) both.now bytes.items) }
    ensures err { IfErr result (λ told. (told ≡ NoMemory) ⊎ IsNotWritten form (flat_map heads_of changesets.now) told) }
{
    match form {
        Form::Normal => spelled_normal(alloc, both),
        Form::Sqlite => {
            let headers = headers_of_all(alloc, changesets)?;
            spelled_for_sqlite(alloc, both, headers.as_slice())
        }
    }
}

/// The spelling of the changesets that the lines spell, as one, in this form.
fn combined_bytes<R: LineInput>(
    alloc: Global,
    form: Form,
    reader: &mut R,
) -> Result<Vec<u8>, ToolFault>
    ensures ok { IfOk result (λ bytes. (lines : List (List ℕ))
        × AreAllLines (R.remaining reader.old) lines × SpellsCombined form lines bytes.items) }
    ensures err { IfErr result (RefusesToCombine form (R.failed reader.new) (R.remaining reader.old) (R.remaining reader.new)) }
{
    let (inputs, ended) = all_bytes(alloc, reader);
    // The changesets in front of a line that can't be read are judged before it.
    let changesets = read_all(alloc, inputs.as_slice())?;
    if let Some(told) = ended {
        return Err(told);
    }
    let both = combine(alloc, &changesets)?;
    spelled_in(alloc, form, &both, changesets.as_slice())
}

/// Runs `Tool::Combine`.
pub fn combine_lines<R: LineInput, W: LineOutput>(
    alloc: Global,
    form: Form,
    reader: &mut R,
    writer: &mut W,
) -> Result<(), ToolFault>
    ensures ends { Ends (CombinesAll form (R.remaining reader.old))
        (RefusesToCombine form (R.failed reader.new) (R.remaining reader.old) (R.remaining reader.new))
        (W.failed writer.new) (W.contents writer.old) (W.contents writer.new) result }
    ensures sent { OnOk result (W.sent writer.new) }
{
    let bytes = combined_bytes(alloc, form, reader);
    end_with_line(bytes, writer)
}

/// The changesets that own their bytes, lent.
fn lend_all<'a>(alloc: Global, owned: &'a [ChangesetBuf]) -> Result<Vec<Changeset<'a>>, Memory>
    ensures fit { IfOk result (λ changesets. AllByRecursion FitsChangeset changesets.items) }
    ensures spelled { IfOk result (λ changesets. AllZip (Spells FitsChangeset changeset_spelling) owned.now changesets.items) }
{
    let mut changesets = Vec::with_capacity(alloc, owned.len())?;
    for one in owned {
        changesets.push(one.lend(alloc)?)?;
    }
    Ok(changesets)
}

/// The spelling of the changesets in the files at these paths, as one, in this form.
fn combined_at<F: InputFiles>(
    alloc: Global,
    form: Form,
    files: &mut F,
    paths: &[&str],
) -> Result<Vec<u8>, ToolFault>
    ensures ok { IfOk result (λ bytes. CombinesFiles F.Input.PieceInput F.InputFiles files.new
        form (map (λ path. path.now) paths.now) (hex_line bytes.items)) }
    ensures err { IfErr result (RefusesFiles F.Input.PieceInput F.InputFiles files.new
        form (map (λ path. path.now) paths.now)) }
{
    let owned = changesets_at(alloc, files, paths)?;
    let changesets = lend_all(alloc, owned.as_slice())?;
    let both = combine(alloc, &changesets)?;
    spelled_in(alloc, form, &both, changesets.as_slice())
}

/// Takes the changesets in the files at these paths together as one. It writes that in this form as a line of lower case hex. Nothing is
/// written before all files were judged, in their order. (Profile of this project over SQLite's changegroup.)
pub fn combine_files<F: InputFiles, W: LineOutput>(
    alloc: Global,
    form: Form,
    files: &mut F,
    paths: &[&str],
    writer: &mut W,
) -> Result<(), ToolFault>
    ensures ends { Ends (CombinesFiles F.Input.PieceInput F.InputFiles files.new
        form (map (λ path. path.now) paths.now))
        (RefusesFiles F.Input.PieceInput F.InputFiles files.new
        form (map (λ path. path.now) paths.now))
        (W.failed writer.new) (W.contents writer.old) (W.contents writer.new) result }
    ensures sent { OnOk result (W.sent writer.new) }
{
    let bytes = combined_at(alloc, form, files, paths);
    end_with_line(bytes, writer)
}
