//! The functions that C calls.

ghost use Rattle.std.specs.Prelude.{◌≡◌, ◌≢◌, ℕ, List, length, sum};
ghost use Rattle.cs_change.specs.Spelling.{changeset_spelling};
ghost use Rattle.cs_change.specs.declared.group.Group.{Group};
ghost use Rattle.cs_changeset.specs.Reading.{IsChangesetFault};
ghost use Rattle.cs_changeset.specs.declared.fault.Fault.{Fault};
ghost use Rattle.cs_ffi.specs.Answers.{AnswersAgain, AnswersCount, change_count, Spell, TellsCount, TellsFault, UpToMemory};
ghost use Rattle.cs_ffi.specs.CombinedAnswers.{AnswersCombined, AnswersInverse, AreFitInputs, IsCombineRefusal, IsFitAlone, IsAloneRefusal, wrong_lengths};
ghost use Rattle.cs_ffi.specs.NormalAnswers.{AnswersNormal, IsFitInput, IsNormalRefusal, TellsNoFault};
ghost use Rattle.cs_ffi.specs.RebasedAnswers.{AnswersRebased, CanRebase, IsRebaseRefusal, SpellRebased};
ghost use Rattle.cs_ffi.specs.SqliteAnswers.{AnswersForSqlite, CanSpellForSqlite, IsSqliteRefusal};
ghost use Rattle.cs_ffi.specs.declared.answer.Answer.{Answer};

use crate::answer::Answer;
use crate::combined::{write_combined, write_inverse};
use crate::laws::answers;
use crate::normal::write_normal;
use crate::reading::{count, reencode};
use crate::rebased::write_rebased;
use crate::sqlite::write_for_sqlite;
use std::alloc::Global;

/// Reads a changeset and counts its changes. See `cs_ffi.h`. (SQLite's "changeset format"; the faults are of this
/// project's profile.)
#[unsafe(no_mangle)]
pub extern "C" fn cs_ffi_decode(alloc: Global, input: &[u8]) -> Answer
    ensures answers { AnswersCount input.now result }
    ensures only { (groups : List Group) → Spell input.now groups → TellsCount (change_count groups) result }
    ensures told { (fault : Fault) (offset : ℕ) → IsChangesetFault fault offset input.now
        → TellsFault fault offset result }
{
    count(alloc, input)
}

/// Reads a changeset and writes it again into the caller's memory. See `cs_ffi.h`. (SQLite's "changeset format"; the
/// faults are of this project's profile.)
#[unsafe(no_mangle)]
pub extern "C" fn cs_ffi_reencode(alloc: Global, input: &[u8], output: &mut [u8]) -> Answer
    ensures answers { AnswersAgain input.now output.old output.new result }
    ensures only { (groups : List Group) → Spell input.now groups
        → TellsCount (length (changeset_spelling groups)) result }
    ensures told { (fault : Fault) (offset : ℕ) → IsChangesetFault fault offset input.now
        → TellsFault fault offset result }
{
    reencode(alloc, input, output)
}

/// Brings a changeset into normal form by the tables that the headers of another declare, and writes it into the
/// caller's memory. See `cs_ffi.h`. (Profile of this project over SQLite's "changeset format".)
#[unsafe(no_mangle)]
pub extern "C" fn cs_ffi_normalise(
    alloc: Global,
    declared: &[u8],
    input: &[u8],
    output: &mut [u8],
) -> Answer
    ensures answers { AnswersNormal declared.now input.now output.old output.new result }
    ensures refused { (owed : Answer) → IsNormalRefusal declared.now input.now owed
        → UpToMemory result owed (result ≡ owed) }
    ensures fit { IsFitInput declared.now input.now → TellsNoFault result }
{
    // What is refused is refused in one way: a law, for the proof.
    answers();
    write_normal(alloc, declared, input, output)
}

/// Brings a changeset into normal form by the tables that the headers of another declare. It writes it with the column
/// bytes of those headers, for SQLite's own `apply`, into the caller's memory. See `cs_ffi.h`. (Profile of this project
/// over SQLite's "changeset format".)
#[unsafe(no_mangle)]
pub extern "C" fn cs_ffi_for_sqlite(
    alloc: Global,
    declared: &[u8],
    input: &[u8],
    output: &mut [u8],
) -> Answer
    ensures answers { AnswersForSqlite declared.now input.now output.old output.new result }
    ensures refused { (owed : Answer) → IsSqliteRefusal declared.now input.now owed
        → UpToMemory result owed (result ≡ owed) }
    ensures fit { CanSpellForSqlite declared.now input.now → TellsNoFault result }
{
    // What is refused is refused in one way: a law, for the proof.
    answers();
    write_for_sqlite(alloc, declared, input, output)
}

/// Takes changesets together as one and writes that, in normal form, into the caller's memory. See `cs_ffi.h`.
/// (SQLite's "Session Extension", changegroup; the faults are of this project's profile.)
#[unsafe(no_mangle)]
pub extern "C" fn cs_ffi_combine(
    alloc: Global,
    inputs: &[u8],
    lengths: &[usize],
    output: &mut [u8],
) -> Answer
    ensures answers { AnswersCombined lengths.now inputs.now output.old output.new result }
    ensures refused { (owed : Answer) → IsCombineRefusal lengths.now inputs.now owed
        → UpToMemory result owed (result ≡ owed) }
    ensures lengths { sum lengths.now ≢ length inputs.now → result ≡ wrong_lengths }
    ensures fit { AreFitInputs lengths.now inputs.now → TellsNoFault result }
{
    // What is refused is refused in one way: a law, for the proof.
    answers();
    write_combined(alloc, inputs, lengths, output)
}

/// Takes a changeset back and writes that, in normal form, into the caller's memory. See `cs_ffi.h`. (SQLite's "Session
/// Extension", inversion of a changeset; the faults are of this project's profile.)
#[unsafe(no_mangle)]
pub extern "C" fn cs_ffi_invert(alloc: Global, input: &[u8], output: &mut [u8]) -> Answer
    ensures answers { AnswersInverse input.now output.old output.new result }
    ensures told { (fault : Fault) (offset : ℕ) → IsChangesetFault fault offset input.now
        → TellsFault fault offset result }
    ensures refused { (owed : Answer) → IsAloneRefusal input.now owed
        → UpToMemory result owed (result ≡ owed) }
    ensures fit { IsFitAlone input.now → TellsNoFault result }
{
    // What is refused is refused in one way: a law, for the proof.
    answers();
    write_inverse(alloc, input, output)
}

/// Rebases a local changeset over a blob and writes that, in normal form, into the caller's memory. See `cs_ffi.h`.
/// (SQLite's "Session Extension", rebasing changesets; the faults are of this project's profile.)
#[unsafe(no_mangle)]
pub extern "C" fn cs_ffi_rebase(
    alloc: Global,
    local: &[u8],
    blob: &[u8],
    output: &mut [u8],
) -> Answer
    ensures answers { AnswersRebased local.now blob.now output.old output.new result }
    ensures only { (made : List ℕ) → SpellRebased local.now blob.now made → TellsCount (length made) result }
    ensures told { (fault : Fault) (offset : ℕ) → IsChangesetFault fault offset local.now
        → TellsFault fault offset result }
    ensures refused { (owed : Answer) → IsRebaseRefusal local.now blob.now owed
        → UpToMemory result owed (result ≡ owed) }
    ensures fit { CanRebase local.now blob.now → TellsNoFault result }
{
    // What is made is made, and what is refused refused, in one way: a law, for the proof.
    answers();
    write_rebased(alloc, local, blob, output)
}
