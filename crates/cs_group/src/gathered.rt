//! The keys of the changes of one table over changesets as read.

ghost use Rattle.std.specs.Prelude.{◌++◌, ◌∷◌, [], ℕ, IfOk, IsTrue, List, MatchOption};
ghost use Rattle.cs_group.specs.Steps.Gathering.{IsGathered};
ghost use Rattle.cs_group.specs.Steps.Numbering.{numbered_behind, NumberedGroup};

use cs_change::{Group, room_of};
use cs_normal::keyed::{KeysBuilder, keys_for, push_keys};
use cs_value::Memory;
use std::alloc::Global;

/// The keys of changes.
#[derive(Drop)]
pub(crate) struct Gathered {
    pub(crate) keys: KeysBuilder,
    /// How many bytes the changes take. It says how much room to take, and is no part of a result.
    pub(crate) bytes: usize,
}

/// No key, with room for so many.
fn none_gathered(alloc: Global, marks: &[bool], count: usize) -> Result<Gathered, Memory>
    ensures { IfOk result (IsGathered marks.now []) }
{
    Ok(Gathered {
        keys: keys_for(alloc, count)?,
        bytes: 0,
    })
}

/// How many changes these groups have. It says how much room to take, and is no part of a result.
pub(crate) fn count_in(groups: &[(usize, &Group<'_>)]) -> usize {
    let mut count = 0usize;
    for (_, group) in groups {
        count = count.saturating_add(group.changes.as_slice().len());
    }
    count
}

/// Gathers the keys of one more group. `false` where one has NULL.
fn gather_group(marks: &[bool], group: &Group<'_>, gathered: &mut Gathered) -> Result<bool, Memory>
    ensures { IfOk result (λ whole. IsTrue whole → (groups : List NumberedGroup) → (number : ℕ)
        → IsGathered marks.now groups gathered.old
        → IsGathered marks.now (groups ++ (number, group.now) ∷ []) gathered.new) }
{
    let changes = group.changes.as_slice();
    if !push_keys(marks, changes, &mut gathered.keys)? {
        return Ok(false);
    }
    gathered.bytes = gathered.bytes.saturating_add(room_of(changes));
    Ok(true)
}

/// Gathers the keys of the changes of these groups, so many in all. `None` where one has NULL.
pub(crate) fn gather(
    alloc: Global,
    marks: &[bool],
    groups: &[(usize, &Group<'_>)],
    count: usize,
) -> Result<Option<Gathered>, Memory>
    ensures { IfOk result (λ found. MatchOption found (Unit {0}) (IsGathered marks.now (numbered_behind groups.now))) }
{
    let mut gathered = none_gathered(alloc, marks, count)?;
    for (_, group) in groups {
        if !gather_group(marks, group, &mut gathered)? {
            return Ok(None);
        }
    }
    Ok(Some(gathered))
}
