//! A push is made of what is pending.

ghost use Rattle.std.specs.Prelude.{◌≡◌, IfOk, IfErr, OnOk, OnErr, MatchResult};
ghost use Rattle.cs_pending.specs.Calls.{ReadsStore, WritesStore};
ghost use Rattle.cs_pending.specs.Shows.{ShowsRows, ShowsSome};
ghost use Rattle.cs_pending.specs.View.{View};
ghost use Rattle.cs_pending.specs.position.Shows.{ShowsAt, ShowsSomeAt, flown};
ghost use Rattle.cs_wire.specs.Requests.{HasShortBytes, asked_by_owned};
ghost use Rattle.cs_exchange.specs.pushing.Pushes.{IsPushFault, IsPushMade, IsPushMadeIn, IsPushOf, grounded, pushed, request_of};
ghost use Rattle.cs_exchange.specs.pushing.Steps.{IsEarlyFault, IsReady, IsSent, IsUnsent};
ghost use Rattle.cs_exchange.specs.declared.pushing.fault.PushFault.TheVariants.{Device};

use crate::pushing::fault::PushFault;
use crate::pushing::requesting::request_for;
use crate::pushing::values::push_batch;
use cs_normal::Normal;
use cs_pending::outgoing::{Outgoing, gather};
use cs_pending::position::{LAST_NUMBER, Position};
use cs_store::RowStore;
use cs_value::Catalog;
use cs_wire::{PushHead, RequestBuf};
use std::alloc::Global;

/// Whether a push may be made, as far as the position tells.
fn ready(position: &Position) -> Result<(), PushFault>
    ensures { MatchResult result (λ _. IsReady position.now) (λ fault. IsEarlyFault fault position.now) }
{
    if position.pending == 0 {
        return Err(PushFault::Nothing);
    }
    if position.flight.is_some() {
        return Err(PushFault::InFlight);
    }
    if position.number >= LAST_NUMBER {
        return Err(PushFault::Spent);
    }
    Ok(())
}

/// What is pending, as changes that a push may have.
fn outgoing<S: RowStore>(
    alloc: Global,
    store: &mut S,
    catalog: &Catalog,
) -> Result<Normal, PushFault>
    ensures reads { ReadsStore S.RowStore Device
        (ShowsSome catalog.now (S.contents store.old)) store.old store.new result }
    ensures gathered { S.honest store.new → (view : View) → ShowsRows catalog.now (S.contents store.old) view
        → IfOk result (IsSent catalog.now view) }
    ensures refused { S.honest store.new → (view : View) → ShowsRows catalog.now (S.contents store.old) view
        → IfErr result (λ fault. IsUnsent fault catalog.now view) }
{
    match gather(alloc, store, catalog) {
        Ok(Outgoing::Changes(changes)) => Ok(changes),
        Ok(Outgoing::Nothing) => Err(PushFault::Nothing),
        Ok(Outgoing::TooLarge) => Err(PushFault::TooLarge),
        Err(fault) => Err(PushFault::from(fault)),
    }
}

/// Stores what is pending as the push under the next number, and gives its request and its changes.
fn store_push<S: RowStore>(
    alloc: Global,
    store: &mut S,
    catalog: &Catalog,
    position: &Position,
) -> Result<(RequestBuf, Normal), PushFault>
    requires { IsReady position.now }
    ensures writes { WritesStore S.RowStore Device
        (ShowsSomeAt catalog.now position.now (S.contents store.old))
        (IsPushMadeIn catalog.now position.now (S.contents store.old)) store.old store.new result }
    ensures request { IfOk result (λ made. asked_by_owned made.0 ≡ request_of (pushed position.now made.1) made.1) }
    ensures short { IfOk result (λ made. HasShortBytes (asked_by_owned made.0)) }
    ensures made { S.honest store.new → (view : View) → ShowsAt catalog.now (S.contents store.old) position.now view
        → IfOk result (λ made. IsPushMade catalog.now position.now view (S.contents store.new) made.1) }
    ensures refused { S.honest store.new → (view : View) → ShowsAt catalog.now (S.contents store.old) position.now view
        → IfErr result (λ fault. IsUnsent fault catalog.now view) }
{
    cs_store::laws::commits();
    cs_pending::position::laws::commit_shows();
    let tables = catalog.tables();
    let number = position.number + 1;
    let changes = match outgoing(alloc, store, catalog) {
        Ok(changes) => changes,
        Err(fault) => return Err(fault),
    };
    let head = PushHead {
        origin: position.id,
        number,
        base: position.version,
    };
    let request = match request_for(alloc, head, &changes) {
        Ok(request) => request,
        Err(fault) => return Err(fault),
    };
    let batch = push_batch(alloc, tables, number, &changes)?;
    match store.commit(&batch) {
        Ok(_) => Ok((request, changes)),
        Err(fault) => Err(PushFault::from(fault)),
    }
}

/// Makes a push of what is pending: this becomes the push that is under way, under the next number, and nothing is pending then. The
/// rows stay, and so do the log's. It is one commit, after all memory is taken and before the request is given.
///
/// # Errors
///
/// The first that holds of `Nothing`, `InFlight`, `Spent` and `TooLarge`; `Memory` or `Device`, which may come before. Nothing has
/// changed then.
pub fn make_push<S: RowStore>(
    alloc: Global,
    store: &mut S,
    catalog: &Catalog,
    position: &mut Position,
) -> Result<RequestBuf, PushFault>
    // The store was written once and whole, or not at all.
    ensures writes { WritesStore S.RowStore Device
        (ShowsSomeAt catalog.now position.old (S.contents store.old))
        (IsPushMadeIn catalog.now position.old (S.contents store.old)) store.old store.new result }

    // The position has moved, and the request is of the push that is under way there.
    ensures moved { IfOk result (IsPushOf position.old position.new) }

    // It can be written.
    ensures short { IfOk result (λ request. HasShortBytes (asked_by_owned request)) }

    // What is under way is what was pending, and the store is that of a replica at the new position.
    ensures made { S.honest store.new → (view : View) → ShowsAt catalog.now (S.contents store.old) position.old view
        → OnOk result (IsPushMade catalog.now position.old view (S.contents store.new) (flown position.new.flight)) }
    ensures shown { S.honest store.new → (view : View) → ShowsAt catalog.now (S.contents store.old) position.old view
        → OnOk result (ShowsAt catalog.now (S.contents store.new) position.new (grounded view)) }

    // At a fault nothing has moved, and what is told holds.
    ensures kept { OnErr result (position.new ≡ position.old) }
    ensures refused { S.honest store.new → (view : View) → ShowsAt catalog.now (S.contents store.old) position.old view
        → IfErr result (λ fault. IsPushFault fault catalog.now position.old view) }
{
    match ready(position) {
        Ok(()) => {}
        Err(fault) => return Err(fault),
    }
    let (request, changes) = match store_push(alloc, store, catalog, position) {
        Ok(made) => made,
        Err(fault) => return Err(fault),
    };
    position.number += 1;
    position.flight = Some(changes);
    position.pending = 0;
    Ok(request)
}
