//! Taking changesets together, and taking one back.

ghost use Rattle.std.specs.Prelude.{◌≡◌, ◌≢◌, ◌↔◌, ◌+◌, ◌<◌, ◌^◌, ℕ, List, length, sum, IsTrue, IfErr, IsErrAnd};
ghost use Rattle.cs_change.specs.declared.group.Group.{Group};
ghost use Rattle.cs_changeset.specs.Reading.{IsChangesetFault};
ghost use Rattle.cs_changeset.specs.declared.fault.Fault.{Fault};
ghost use Rattle.cs_ffi.specs.Answers.{no_memory, Spell, TellsFault};
ghost use Rattle.cs_ffi.specs.NormalAnswers.{TellsNoFault};
ghost use Rattle.cs_ffi.specs.CombinedAnswers.{AnswersCombined, AnswersInverse, AreFitInputs, FindsAll, FindsPart, GivesCombined, GivesInverse, ArePartsOf, IsFitAlone, ReadsAll, ReadsPart, wrong_lengths};

use crate::answer::Answer;
use crate::reading::{hand_over_normal, hand_over_pieces};
use cs_changeset::{Changeset, CodecFault, read};
use cs_group::{combine_spelled, invert, normalise_alone};
use cs_normal::{BytePieces, Normal};
use cs_normalising::laws::no_fault_where_fit;
use std::alloc::Global;

/// Whether the lengths add up to the total. It takes them away from that, since their sum may be more than a number
/// holds.
fn add_up(lengths: &[usize], total: usize) -> bool
    ensures { IsTrue result ↔ (sum lengths.now ≡ total) }
{
    let mut left = total;
    for length in lengths {
        if *length > left {
            return false;
        }
        left -= *length;
    }
    left == 0
}

/// The changeset that a part spells which begins at this offset of the inputs.
pub(crate) fn read_part(alloc: Global, part: &[u8], at: usize) -> Result<Changeset<'_>, Answer>
    requires { at + length part.now < 2 ^ 64 }
    ensures reads { ReadsPart at part.now result }
    ensures only { (groups : List Group) → Spell part.now groups → FindsPart result groups }
    ensures told { (fault : Fault) (offset : ℕ) → IsChangesetFault fault offset part.now
        → IsErrAnd result (TellsFault fault (at + offset)) }
{
    match read(alloc, part) {
        Ok(changeset) => Ok(changeset),
        Err(CodecFault::Memory) => Err(Answer::no_memory()),
        Err(CodecFault::At { fault, offset }) => Err(Answer::refused(CodecFault::At {
            fault,
            offset: at + offset,
        })),
    }
}

/// The changesets that stand one after another in the inputs, each as long as its length says.
fn read_all<'a>(
    alloc: Global,
    inputs: &'a [u8],
    lengths: &[usize],
) -> Result<Vec<Changeset<'a>>, Answer>
    requires { sum lengths.now ≡ length inputs.now }
    ensures reads { ReadsAll lengths.now inputs.now result }
    ensures only { (changesets : List (List Group)) → ArePartsOf lengths.now inputs.now changesets
        → FindsAll result changesets }
{
    let mut changesets = Vec::new(alloc);
    let mut rest = inputs;
    let mut lengths = lengths;
    while let Some((length, more)) = lengths.split_first() {
        let (part, behind) = rest.split_at(*length);
        let changeset = read_part(alloc, part, inputs.len() - rest.len())?;
        changesets.push(changeset)?;
        rest = behind;
        lengths = more;
    }
    Ok(changesets)
}

/// The spelling of the changesets that the inputs spell, taken together.
fn read_combined(alloc: Global, inputs: &[u8], lengths: &[usize]) -> Result<BytePieces, Answer>
    ensures gives { GivesCombined lengths.now inputs.now result }
    ensures lengths { sum lengths.now ≢ length inputs.now → IsErrAnd result (λ answer. answer ≡ wrong_lengths) }
    ensures fit { AreFitInputs lengths.now inputs.now → IfErr result (λ answer. answer ≡ no_memory) }
{
    // What fits has no fault: a law, for the proof.
    no_fault_where_fit();
    if !add_up(lengths, inputs.len()) {
        return Err(Answer::wrong_lengths());
    }
    let changesets = read_all(alloc, inputs, lengths)?;
    Ok(combine_spelled(alloc, &changesets)?)
}

/// The inverse of the changeset that the input spells.
fn read_inverse(alloc: Global, input: &[u8]) -> Result<Normal, Answer>
    ensures gives { GivesInverse input.now result }
    ensures told { (fault : Fault) (offset : ℕ) → IsChangesetFault fault offset input.now
        → IsErrAnd result (TellsFault fault offset) }
    ensures fit { IsFitAlone input.now → IfErr result (λ answer. answer ≡ no_memory) }
{
    // What fits has no fault: a law, for the proof.
    no_fault_where_fit();
    let changeset = read_part(alloc, input, 0)?;
    let alone = normalise_alone(alloc, &changeset)?;
    // Its memory is taken again for the inverse.
    drop(changeset);
    Ok(invert(alloc, alone)?)
}

/// Takes changesets together as one and writes that, in normal form, into the caller's memory. Where it has no room
/// there, nothing is written, and the count says how many bytes it takes. (SQLite's "Session Extension", changegroup;
/// the faults are of this project's profile.)
pub fn write_combined(alloc: Global, inputs: &[u8], lengths: &[usize], output: &mut [u8]) -> Answer
    ensures answers { AnswersCombined lengths.now inputs.now output.old output.new result }

    // Lengths that don't add up are told before anything else.
    ensures lengths { sum lengths.now ≢ length inputs.now → result ≡ wrong_lengths }

    // What can be taken together is, or memory is wanting.
    ensures fit { AreFitInputs lengths.now inputs.now → TellsNoFault result }
{
    match read_combined(alloc, inputs, lengths) {
        Ok(spelled) => hand_over_pieces(alloc, &spelled, output),
        Err(answer) => answer,
    }
}

/// Takes a changeset back and writes that, in normal form, into the caller's memory. Where it has no room there,
/// nothing is written, and the count says how many bytes it takes. (SQLite's "Session Extension", inversion of a
/// changeset; the faults are of this project's profile.)
pub fn write_inverse(alloc: Global, input: &[u8], output: &mut [u8]) -> Answer
    ensures answers { AnswersInverse input.now output.old output.new result }

    // A fault of the bytes is told, or memory is wanting.
    ensures told { (fault : Fault) (offset : ℕ) → IsChangesetFault fault offset input.now
        → TellsFault fault offset result }

    // What has a normal form by its own tables is taken back, or memory is wanting.
    ensures fit { IsFitAlone input.now → TellsNoFault result }
{
    match read_inverse(alloc, input) {
        Ok(inverse) => hand_over_normal(alloc, &inverse, output),
        Err(answer) => answer,
    }
}
