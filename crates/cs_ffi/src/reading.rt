//! Reading, and writing again.

ghost use Rattle.std.specs.Prelude.{◌≡◌, ◌<◌, ◌^◌, ℕ, List, length};
ghost use Rattle.cs_change.specs.Spelling.{changeset_spelling};
ghost use Rattle.cs_change.specs.declared.group.Group.{Group as GroupRead};
ghost use Rattle.cs_changeset.specs.Reading.{IsChangesetFault};
ghost use Rattle.cs_changeset.specs.declared.fault.Fault.{Fault};
ghost use Rattle.cs_normal.specs.Normal.{normal_spelling};
ghost use Rattle.cs_ffi.specs.Answers.{AnswersAgain, AnswersCount, change_count, Hands, IsHanded, no_memory, Spell, TellsCount, TellsFault, read as read_of};

use crate::answer::Answer;
use cs_changeset::{Change, Group, read};
use cs_normal::{BytePieces, Normal};
use std::alloc::Global;

/// How many changes the groups have.
fn count_changes(groups: &[Group<'_>]) -> usize
    requires { change_count groups.now < 2 ^ 64 }
    ensures { result ≡ change_count groups.now }
{
    let mut count = 0;
    for group in groups {
        count += group.changes.as_slice().len();
    }
    count
}

/// Reads a changeset and counts its changes. (SQLite's "changeset format"; the faults are of this project's profile.)
pub fn count(alloc: Global, input: &[u8]) -> Answer
    ensures answers { AnswersCount input.now result }

    // What the bytes spell is read, or memory is wanting.
    ensures only { (groups : List GroupRead) → Spell input.now groups → TellsCount (change_count groups) result }

    // A fault of the bytes is told, or memory is wanting.
    ensures told { (fault : Fault) (offset : ℕ) → IsChangesetFault fault offset input.now
        → TellsFault fault offset result }
{
    match read(alloc, input) {
        Ok(changeset) => Answer::read(count_changes(changeset.as_slice())),
        Err(fault) => Answer::refused(fault),
    }
}

/// Copies the bytes to the front of the caller's memory if they have room there, and answers how many they are.
pub fn hand_over(bytes: &[u8], output: &mut [u8]) -> Answer
    ensures handed { IsHanded bytes.now output.old output.new }
    ensures told { result ≡ read_of (length bytes.now) }
{
    if bytes.len() <= output.len() {
        output[..bytes.len()].copy_from_slice(bytes);
    }
    Answer::read(bytes.len())
}

/// Writes a changeset in normal form to the front of the caller's memory if it has room there. It answers how many bytes it is,
/// or that memory is wanting, and nothing is written then.
pub fn hand_over_normal(alloc: Global, normal: &Normal, output: &mut [u8]) -> Answer
    ensures { Hands (λ bytes. bytes ≡ normal_spelling normal.now) (λ answer. answer ≡ no_memory) output.old output.new result }
{
    match normal.encode_to_slice(alloc, output) {
        Ok(count) => Answer::read(count),
        Err(_) => Answer::no_memory(),
    }
}

/// The same of bytes in pieces.
pub fn hand_over_pieces(alloc: Global, pieces: &BytePieces, output: &mut [u8]) -> Answer
    ensures { Hands (λ bytes. bytes ≡ pieces.now) (λ answer. answer ≡ no_memory) output.old output.new result }
{
    match pieces.put_to_front(alloc, output) {
        Ok(count) => Answer::read(count),
        Err(_) => Answer::no_memory(),
    }
}

/// Reads a changeset and writes it again into the caller's memory. Where it has no room there, nothing is written, and
/// the count says how many bytes it takes. (SQLite's "changeset format"; the faults are of this project's profile.)
pub fn reencode(alloc: Global, input: &[u8], output: &mut [u8]) -> Answer
    ensures answers { AnswersAgain input.now output.old output.new result }

    // What the bytes spell is read, or memory is wanting.
    ensures only { (groups : List GroupRead) → Spell input.now groups
        → TellsCount (length (changeset_spelling groups)) result }

    // A fault of the bytes is told, or memory is wanting.
    ensures told { (fault : Fault) (offset : ℕ) → IsChangesetFault fault offset input.now
        → TellsFault fault offset result }
{
    match read(alloc, input) {
        // What was read is spelled by exactly these bytes.
        Ok(_) => hand_over(input, output),
        Err(first_fault) => Answer::refused(first_fault),
    }
}
