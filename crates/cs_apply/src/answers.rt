//! What is told of conflicts.

ghost use Rattle.std.specs.Prelude.{◌≡◌, ◌<◌, ◌++◌, ◌∷◌, [], true, List, ℕ, Option, Some, is_some, length, OnOk};
ghost use Rattle.std.specs.List.{list_any};
ghost use Rattle.cs_conflict.specs.declared.conflict.Resolution.{Resolution as Answer};
ghost use Rattle.cs_tasks.specs.Blob.{answered_group};

use cs_change::Group;
use cs_conflict::Resolution;
use cs_tasks::BlobBuf;
use cs_value::Memory;
use std::alloc::Global;

/// What is told of the conflicts that were answered.
#[derive(Drop)]
pub(crate) struct Told {
    /// The answers, in order.
    pub answers: Vec<Resolution>,
    /// The rebase blob of these.
    pub blob: BlobBuf,
}

/// Nothing is told yet.
pub(crate) fn nothing_told(alloc: Global) -> Told
    ensures { (result.answers.items ≡ []) × (result.blob.bytes ≡ []) }
{
    Told {
        answers: Vec::new(alloc),
        blob: BlobBuf::new(alloc),
    }
}

/// Tells the answer to the conflict of the change there of the group at hand.
pub(crate) fn tell(
    told: &mut Told,
    group: &Group<'_>,
    at: usize,
    answer: Resolution,
) -> Result<(), Memory>
    requires { at < length group.now.changes }
    ensures answers { OnOk result (told.new.answers.items ≡ told.old.answers.items ++ answer ∷ []) }
    ensures blob { (front : List ℕ) → (given : List (Option Answer)) → length given ≡ at → list_any is_some given ≡ told.old.blob.headed
        → told.old.blob.bytes ≡ front ++ answered_group group.now given
        → OnOk result (told.new.blob.bytes ≡ front ++ answered_group group.now (given ++ Some answer ∷ [])) }
    ensures headed { OnOk result (told.new.blob.headed ≡ true) }
{
    told.answers.push(answer)?;
    told.blob.put(group, at, answer)?;
    Ok(())
}
