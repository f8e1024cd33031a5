//! `rebase`: a changeset in hex, rebased over the rebase blob of the next line.

ghost use Rattle.std.specs.Prelude.{◌≡◌, ◌⊎◌, [], ◌∷◌, List, IfErr, IfOk, OnOk};
ghost use Rattle.cs_blob.specs.Spelling.{FitsBlob, blob_spelling};
ghost use Rattle.cs_blob.specs.declared.blob.BlobGroup.{BlobGroup as Conflicts};
ghost use Rattle.cs_change.specs.Spelling.{FitsChangeset, changeset_spelling};
ghost use Rattle.cs_change.specs.declared.group.Group.{Group as Changes};
ghost use Rattle.cs_group.specs.Combined.{IsCombined};
ghost use Rattle.cs_column_bytes.specs.Steps.{heads_behind};
ghost use Rattle.cs_tools.specs.Endings.{Ends};
ghost use Rattle.cs_tools.specs.RebasedLine.{heads_of_both, IsNotRebased, IsRebased, Rebases, RebasesLines, RefusesToRebase};
ghost use Rattle.cs_tools.specs.SpelledLine.{Spells};
ghost use Rattle.cs_tools.specs.WrittenForm.{IsNotWritten, SpellsIn};
ghost use Rattle.cs_tools.specs.CombinedLines.{AreNotCombined};
ghost use Rattle.cs_tools.specs.Faults.{AreBadBytes};
ghost use Rattle.cs_tools.specs.declared.fault.ToolFault.TheVariants.{Memory as NoMemory};
ghost use Rattle.cs_blob.specs.Reading.{IsBlobFault};
ghost use Rattle.cs_changeset.specs.Reading.{IsChangesetFault};

use crate::fault::ToolFault;
use crate::input::next_or_empty;
use crate::output::end_with_line;
use crate::tool::Form;
use crate::written::{spelled_for_sqlite, spelled_normal};
use cs_blob::BlobGroup;
use cs_changeset::{Changeset, Group};
use cs_column_bytes::{Header, put_headers};
use cs_group::lend_alone;
use cs_lines::{LineInput, LineOutput};
use cs_normal::Normal;
use cs_normalising::LentNormal;
use cs_rebaser::Rebaser;
use cs_value::Memory;
use std::alloc::Global;

/// The changeset that these bytes spell.
fn read_local(alloc: Global, bytes: &[u8]) -> Result<Changeset<'_>, ToolFault>
    ensures ok { IfOk result (Spells FitsChangeset changeset_spelling bytes.now) }
    ensures err { IfErr result (λ told. (told ≡ NoMemory) ⊎ AreBadBytes IsChangesetFault bytes.now told) }
{
    Ok(cs_changeset::read(alloc, bytes)?)
}

/// The normal form of a changeset by the catalog of its own headers.
fn lend_local<'b, 'a>(
    alloc: Global,
    changeset: &'b Changeset<'a>,
) -> Result<LentNormal<'b, 'a>, ToolFault>
    requires { FitsChangeset changeset.now }
    ensures ok { IfOk result (IsCombined (changeset.now ∷ [])) }
    ensures err { IfErr result (λ told. (told ≡ NoMemory) ⊎ AreNotCombined (changeset.now ∷ []) told) }
{
    Ok(lend_alone(alloc, changeset)?)
}

/// The rebaser of the blob that these bytes spell, and the local changeset rebased over it.
fn rebased_over<'a>(
    alloc: Global,
    local: LentNormal<'_, '_>,
    bytes: &'a [u8],
) -> Result<(Rebaser<'a>, Normal), ToolFault>
    ensures ok { IfOk result (λ made. Spells FitsBlob blob_spelling bytes.now made.0 × IsRebased made.0 local.entry made.1) }
    ensures err { IfErr result (λ told. (told ≡ NoMemory) ⊎ AreBadBytes IsBlobFault bytes.now told
        ⊎ ((blob : List Conflicts) × Spells FitsBlob blob_spelling bytes.now blob × IsNotRebased blob local.entry told)) }
{
    let blob = cs_blob::read(alloc, bytes)?;
    let rebaser = match Rebaser::configure(alloc, blob) {
        Ok(rebaser) => rebaser,
        Err((_blob, fault)) => return Err(ToolFault::from(fault)),
    };
    let made = rebaser.rebase(alloc, local)?;
    Ok((rebaser, made))
}

/// The headers of a changeset, and those of a rebase blob behind them.
fn headers_of_both<'a>(
    alloc: Global,
    groups: &'a [Group<'_>],
    blob: &'a [BlobGroup<'_>],
) -> Result<Vec<Header<'a>>, Memory>
    ensures { IfOk result (λ headers. heads_behind headers.items ≡ heads_of_both groups.now blob.now) }
{
    let mut headers = Vec::new(alloc);
    put_headers(groups, &mut headers)?;
    put_headers(blob, &mut headers)?;
    Ok(headers)
}

/// The spelling, in this form, of a changeset that was rebased, by the headers of what came in.
fn spelled_in(
    alloc: Global,
    form: Form,
    rebased: &Normal,
    groups: &[Group<'_>],
    blob: &[BlobGroup<'_>],
) -> Result<Vec<u8>, ToolFault>
    ensures ok { IfOk result (λ bytes. SpellsIn form (heads_of_both groups.now blob.now) rebased.now bytes.items) }
    ensures err { IfErr result (λ told. (told ≡ NoMemory) ⊎ IsNotWritten form (heads_of_both groups.now blob.now) told) }
{
    match form {
        Form::Normal => spelled_normal(alloc, rebased),
        Form::Sqlite => {
            let headers = headers_of_both(alloc, groups, blob)?;
            spelled_for_sqlite(alloc, rebased, headers.as_slice())
        }
    }
}

/// The spelling, in this form, of the changeset of the next line, rebased over the blob of the line behind it. The first line
/// is judged whole before the second is read.
fn rebased_bytes<R: LineInput>(
    alloc: Global,
    form: Form,
    reader: &mut R,
) -> Result<Vec<u8>, ToolFault>
    ensures ok { IfOk result (λ bytes. Rebases form (R.remaining reader.old) (R.remaining reader.new) bytes.items) }
    ensures err { IfErr result (RefusesToRebase form (R.failed reader.new) (R.remaining reader.old) (R.remaining reader.new)) }
{
    let changeset = next_or_empty(alloc, reader)?;
    let groups = read_local(alloc, changeset.as_slice())?;
    let local = lend_local(alloc, &groups)?;
    let blob = next_or_empty(alloc, reader)?;
    let (rebaser, rebased) = rebased_over(alloc, local, blob.as_slice())?;
    spelled_in(alloc, form, &rebased, groups.as_slice(), rebaser.blob())
}

/// Runs `Tool::Rebase`.
pub fn rebase_lines<R: LineInput, W: LineOutput>(
    alloc: Global,
    form: Form,
    reader: &mut R,
    writer: &mut W,
) -> Result<(), ToolFault>
    ensures ends { Ends (RebasesLines form (R.remaining reader.old) (R.remaining reader.new))
        (RefusesToRebase form (R.failed reader.new) (R.remaining reader.old) (R.remaining reader.new))
        (W.failed writer.new) (W.contents writer.old) (W.contents writer.new) result }
    ensures sent { OnOk result (W.sent writer.new) }
{
    let bytes = rebased_bytes(alloc, form, reader);
    end_with_line(bytes, writer)
}
