//! Rebasing a local changeset over a blob.

ghost use Rattle.std.specs.Prelude.{◌+◌, ◌<◌, ◌^◌, ℕ, length};
ghost use Rattle.cs_changeset.specs.Reading.{IsChangesetFault};
ghost use Rattle.cs_changeset.specs.declared.fault.Fault.{Fault};
ghost use Rattle.cs_ffi.specs.Answers.{TellsFault};
ghost use Rattle.cs_ffi.specs.NormalAnswers.{TellsNoFault};
ghost use Rattle.cs_ffi.specs.RebasedAnswers.{AnswersRebased, CanRebase, GivesRebased, ReadsBehind};

use crate::answer::Answer;
use crate::combined::read_part;
use crate::reading::hand_over_normal;
use cs_blob::laws::blobs;
use cs_blob::{Blob, CodecFault, read};
use cs_changeset::laws::changesets;
use cs_group::lend_alone;
use cs_normal::Normal;
use cs_normalising::laws::no_fault_where_fit;
use cs_rebaser::Rebaser;
use cs_rebaser::laws::no_wrong_shape;
use std::alloc::Global;

/// The blob that the bytes spell, which stand behind so many others.
fn read_behind(alloc: Global, blob: &[u8], before: usize) -> Result<Blob<'_>, Answer>
    requires { before + length blob.now < 2 ^ 64 }
    ensures { ReadsBehind before blob.now result }
{
    match read(alloc, blob) {
        Ok(entries) => Ok(entries),
        Err(CodecFault::Memory) => Err(Answer::no_memory()),
        Err(CodecFault::At { fault, offset }) => Err(Answer::refused(CodecFault::At {
            fault,
            offset: before + offset,
        })),
    }
}

/// The local changeset, in normal form, over the blob.
fn read_rebased(alloc: Global, local: &[u8], blob: &[u8]) -> Result<Normal, Answer>
    ensures { GivesRebased local.now blob.now result }
{
    let changeset = read_part(alloc, local, 0)?;
    let alone = lend_alone(alloc, &changeset)?;
    let entries = read_behind(alloc, blob, local.len())?;
    let rebaser = match Rebaser::configure(alloc, entries) {
        Ok(rebaser) => rebaser,
        Err((_entries, fault)) => return Err(Answer::from(fault)),
    };
    Ok(rebaser.rebase(alloc, alone)?)
}

/// Rebases a local changeset over a blob and writes that, in normal form, into the caller's memory. Where it has no room
/// there, nothing is written, and the count says how many bytes it takes. (SQLite's "Session Extension", rebasing
/// changesets; the faults are of this project's profile.)
pub fn write_rebased(alloc: Global, local: &[u8], blob: &[u8], output: &mut [u8]) -> Answer
    ensures answers { AnswersRebased local.now blob.now output.old output.new result }

    // A fault of the local bytes is told, or memory is wanting.
    ensures told { (fault : Fault) (offset : ℕ) → IsChangesetFault fault offset local.now
        → TellsFault fault offset result }

    // What can be rebased is, or memory is wanting.
    ensures fit { CanRebase local.now blob.now → TellsNoFault result }
{
    // What fits has no fault: laws, for the proof.
    changesets();
    no_fault_where_fit();
    blobs();
    no_wrong_shape();
    match read_rebased(alloc, local, blob) {
        Ok(rebased) => hand_over_normal(alloc, &rebased, output),
        Err(answer) => answer,
    }
}
