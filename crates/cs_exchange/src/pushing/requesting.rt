//! The request of a push.

ghost use Rattle.std.specs.Prelude.{◌≡◌, ◌<◌, ◌⊎◌, length, IsSome, IfOk, IfErr};
ghost use Rattle.cs_store.specs.declared.log.entry.TheConstants.{MAX_CHANGESET as MOST_BYTES};
ghost use Rattle.cs_normal.specs.Normal.{normal_spelling};
ghost use Rattle.cs_pending.specs.position.Shows.{flown};
ghost use Rattle.cs_wire.specs.Requests.{AsksPush, HasShortBytes, asked_by_owned};
ghost use Rattle.cs_exchange.specs.pushing.Pushes.{IsResendFault, request_of};
ghost use Rattle.cs_exchange.specs.declared.pushing.fault.PushFault.TheVariants.{Memory, TooLarge};

use crate::pushing::fault::PushFault;
use cs_normal::Normal;
use cs_pending::position::Position;
use cs_store::log::MAX_CHANGESET;
use cs_wire::{PushHead, RequestBuf};
use std::alloc::Global;

/// The request of a push with this head.
pub(crate) fn request_for(
    alloc: Global,
    head: PushHead,
    changes: &Normal,
) -> Result<RequestBuf, PushFault>
    ensures request { IfOk result (λ request. asked_by_owned request ≡ AsksPush head (normal_spelling changes.now)) }
    ensures short { IfOk result (λ request. HasShortBytes (asked_by_owned request)) }
    ensures refused { IfErr result (λ fault. (fault ≡ Memory)
        ⊎ ((fault ≡ TooLarge) × (MOST_BYTES < length (normal_spelling changes.now)))) }
{
    let mut changeset = Vec::new(alloc);
    changes.encode(&mut changeset)?;
    if changeset.len() as u64 > MAX_CHANGESET {
        return Err(PushFault::TooLarge);
    }
    Ok(RequestBuf::Push { head, changeset })
}

/// The request of the push that is under way, the same as when it was made.
///
/// # Errors
///
/// `Nothing` where none is under way; `TooLarge` where it has more bytes than a push may have, which no store shows (see
/// `cs_pending::position`); `Memory`.
pub fn resend(alloc: Global, position: &Position) -> Result<RequestBuf, PushFault>
    // It is the push that is under way.
    ensures there { IfOk result (λ _. IsSome position.now.flight) }
    ensures request { IfOk result (λ request. asked_by_owned request ≡ request_of position.now (flown position.now.flight)) }

    // It can be written.
    ensures short { IfOk result (λ request. HasShortBytes (asked_by_owned request)) }

    // What is told holds.
    ensures refused { IfErr result (λ fault. IsResendFault fault position.now) }
{
    let Some(changes) = &position.flight else {
        return Err(PushFault::Nothing);
    };
    let head = PushHead {
        origin: position.id,
        number: position.number,
        base: position.version,
    };
    request_for(alloc, head, changes)
}
