//! Answers of the hub, taken.

ghost use Rattle.std.specs.Prelude.{◌≡◌, ◌↔◌, Err, IsTrue};
ghost use Rattle.cs_pending.specs.View.{View};
ghost use Rattle.cs_pending.specs.position.Shows.{ShowsAt, ShowsSomeAt};
ghost use Rattle.cs_exchange.specs.pulling.Calls.{WritesInTurn};
ghost use Rattle.cs_replica.specs.Accepted.{IsAccepted};
ghost use Rattle.cs_replica.specs.Answered.{Answers, IsAnsweredAmong, IsAnsweredNext, IsDone, IsForIt, KeepsRows, SaysDevice, TellsAccepted, TellsMerged};
ghost use Rattle.cs_exchange.specs.pushing.Pushes.{IsConfirmedIn};
ghost use Rattle.cs_wire.specs.declared.answer.Answer.TheVariants.{Merged};

use crate::told::Told;
use cs_conflict::Picker;
use cs_exchange::pulling::{AnswerFault, Pulled, take_entries, take_told};
use cs_exchange::pushing::confirm;
use cs_pending::position::Position;
use cs_store::{RowStore, StoreFault};
use cs_value::Catalog;
use cs_wire::{Answer, ShortAnswer};
use std::alloc::Global;

/// Whether the push that is under way was accepted, as the entry at the version.
fn is_accepted(position: &Position, origin: u32, number: u64, version: u64) -> bool
    ensures { IsTrue result ↔ IsAccepted position.now origin number version }
{
    if position.flight.is_none() || origin != position.id || number != position.number {
        return false;
    }
    match position.version.checked_add(1) {
        None => false,
        Some(next) => version == next,
    }
}

/// The hub has accepted a push as the entry before this version: where it is the one that is under way, it is confirmed.
fn accept_at<S: RowStore>(
    alloc: Global,
    store: &mut S,
    catalog: &Catalog,
    position: &mut Position,
    origin: u32,
    number: u64,
    version: u64,
) -> Result<Told, AnswerFault>
    ensures told { S.honest store.new → (before : View) → ShowsAt catalog.now (S.contents store.old) position.old before
        → TellsAccepted origin number version result position.old position.new × ShowsAt catalog.now (S.contents store.new) position.new before }
    ensures writes { WritesInTurn S.RowStore (IsDone result) (SaysDevice result)
        (ShowsSomeAt catalog.now position.old (S.contents store.old))
        (λ left. IsAccepted position.old origin number version × IsConfirmedIn catalog.now position.old (S.contents store.old) left)
        (λ left. IsAccepted position.new origin number version × IsConfirmedIn catalog.now position.new (S.contents store.new) left) store.old store.new }
{
    if !is_accepted(position, origin, number, version) {
        return Ok(Told::Ignored);
    }
    match confirm(alloc, store, catalog, position) {
        Ok(()) => Ok(Told::Confirmed(version)),
        Err(StoreFault::Memory) => Err(AnswerFault::Memory(0)),
        Err(StoreFault::Device) => Err(AnswerFault::Device(0)),
    }
}

/// Whether entries that are told together are for this replica, and begin at its version.
fn is_for_it(position: &Position, origin: u32, first: u64) -> bool
    ensures { IsTrue result ↔ IsForIt position.now origin first }
{
    origin == position.id && first == position.version
}

/// Takes entries that are told together, from the version up to another, as one changeset.
fn merge_at<S: RowStore, P: Picker>(
    alloc: Global,
    store: &mut S,
    catalog: &Catalog,
    position: &mut Position,
    next: u64,
    changeset: &[u8],
    picker: &mut P,
) -> Result<Told, AnswerFault>
    requires ready { P.is_ready picker.old }
    ensures ready { P.is_ready picker.new }
    ensures told { S.honest store.new → (before : View) → ShowsAt catalog.now (S.contents store.old) position.old before
        → TellsMerged P.picks catalog.now position.old.id position.old.version next changeset.now result position.old before picker.old position.new (S.contents store.new) picker.new }
    ensures writes { WritesInTurn S.RowStore (IsDone result) (SaysDevice result)
        (ShowsSomeAt catalog.now position.old (S.contents store.old))
        (IsAnsweredAmong P.picks catalog.now (Merged position.old.id position.old.version next changeset.now) position.old (S.contents store.old) picker.old)
        (IsAnsweredNext P.picks catalog.now (Merged position.old.id position.old.version next changeset.now) position.new (S.contents store.new)) store.old store.new }
{
    if next < position.version {
        return Err(AnswerFault::BadEntry(0));
    }
    if next == position.version {
        return Ok(Told::Taken(0));
    }
    match take_told(alloc, store, catalog, position, next, changeset, picker) {
        Ok(Pulled::Taken(count)) => Ok(Told::Taken(count)),
        Ok(Pulled::Stopped(count)) => Ok(Told::Stopped(count)),
        Err(fault) => Err(fault),
    }
}

/// Takes an answer of the hub.
pub(crate) fn answer_at<S: RowStore, P: Picker>(
    alloc: Global,
    store: &mut S,
    catalog: &mut Catalog,
    position: &mut Position,
    answer: &Answer<'_>,
    picker: &mut P,
) -> Result<Told, AnswerFault>
    requires ready { P.is_ready picker.old }
    ensures ready { P.is_ready picker.new }
    ensures told { S.honest store.new → (before : View) → ShowsAt catalog.old (S.contents store.old) position.old before
        → Answers P.picks catalog.old answer.now result position.old before picker.old catalog.new position.new (S.contents store.new) picker.new }
    ensures writes { WritesInTurn S.RowStore (IsDone result) (SaysDevice result)
        (ShowsSomeAt catalog.old position.old (S.contents store.old))
        (IsAnsweredAmong P.picks catalog.old answer.now position.old (S.contents store.old) picker.old)
        (IsAnsweredNext P.picks catalog.new answer.now position.new (S.contents store.new)) store.old store.new }
{
    match answer {
        Answer::Short(
            ShortAnswer::Accepted {
                origin,
                number,
                version,
            },
        ) => accept_at(alloc, store, catalog, position, *origin, *number, *version),
        Answer::Short(ShortAnswer::Stale { newest }) => Ok(Told::Stale(*newest)),
        Answer::Short(ShortAnswer::Refused(code)) => Ok(Told::Refused(*code)),
        Answer::Entries { first, entries } => {
            match take_entries(alloc, store, catalog, position, *first, entries, picker) {
                Ok(Pulled::Taken(count)) => Ok(Told::Taken(count)),
                Ok(Pulled::Stopped(count)) => Ok(Told::Stopped(count)),
                Err(fault) => Err(fault),
            }
        }
        Answer::Merged {
            origin,
            first,
            next,
            changeset,
        } => {
            if !is_for_it(position, *origin, *first) {
                return Ok(Told::Ignored);
            }
            let bytes = changeset.bytes();
            merge_at(alloc, store, catalog, position, *next, bytes, picker)
        }
    }
}
