//! Entries of the hub's log that were taken together, taken at once.

ghost use Rattle.std.specs.Prelude.{◌≡◌, ◌<◌, IfErr, OnErr, OnOk};
ghost use Rattle.std.specs.FinMap.{len};
ghost use Rattle.cs_pending.specs.Calls.{WritesStore};
ghost use Rattle.cs_pending.specs.View.{View};
ghost use Rattle.cs_pending.specs.position.Shows.{ShowsAt, ShowsSomeAt};
ghost use Rattle.cs_exchange.specs.pulling.Calls.{WritesInTurn};
ghost use Rattle.cs_exchange.specs.pulling.Listed.{TakesAll, TellsDevice};
ghost use Rattle.cs_exchange.specs.pulling.Merged.{IsMergeFault, IsToldNext, IsToldTaken, TakesTold};
ghost use Rattle.cs_exchange.specs.pulling.Steps.{MergeEndsAt};
ghost use Rattle.cs_exchange.specs.declared.pulling.fault.PullFault.TheVariants.{Device};
ghost use Rattle.cs_exchange.specs.taking.Takes.{IsTakenTo, brought};

use crate::pulling::fault::{AnswerFault, PullFault};
use crate::pulling::listing::Pulled;
use crate::pulling::told::read_form;
use crate::taking::{TakeFault, take_changes_to};
use cs_conflict::Picker;
use cs_normal::Normal;
use cs_pending::position::Position;
use cs_store::RowStore;
use cs_value::Catalog;
use std::alloc::Global;

/// Takes what the entries of the hub's log from an index up to a version do, as one changeset, by one three-way merge
/// (`crate::taking::take_changes_to`). It is one commit. The first fault that holds is told: `Behind`, `Gap`, `BadEntry`, `Stopped`.
pub fn take_merged<S: RowStore, P: Picker>(
    alloc: Global,
    store: &mut S,
    catalog: &Catalog,
    position: &mut Position,
    first: u64,
    next: u64,
    changes: &Normal,
    picker: &mut P,
) -> Result<(), PullFault>
    requires ready { P.is_ready picker.old }
    ensures ready { P.is_ready picker.new }

    // The changeset was taken, in one commit, or nothing has changed.
    ensures writes { WritesStore S.RowStore Device
        (ShowsSomeAt catalog.now position.old (S.contents store.old))
        (IsTakenTo P.picks catalog.now position.old next changes.now picker.old picker.new (S.contents store.old)) store.old store.new result }

    // It was what is told from the position's version on, and the position has come to the version it leads to.
    ensures next { OnOk result ((first ≡ position.old.version) × (first < next)) }
    ensures moved { OnOk result (position.new ≡ brought position.old next position.new.pending) }
    ensures counted { S.honest store.new → ShowsSomeAt catalog.now position.old (S.contents store.old)
        → OnOk result (position.new.pending ≡ len (S.contents store.new).pending) }
    ensures kept { OnErr result (position.new ≡ position.old) }

    // What is told holds.
    ensures refused { S.honest store.new → (view : View) → ShowsAt catalog.now (S.contents store.old) position.old view
        → IfErr result (IsMergeFault P.picks catalog.now position.old first next changes.now view picker.old picker.new) }
{
    if first < position.version {
        return Err(PullFault::Behind);
    }
    if first > position.version {
        return Err(PullFault::Gap);
    }
    match take_changes_to(alloc, store, catalog, position, next, changes, picker) {
        Ok(()) => Ok(()),
        Err(fault) => Err(PullFault::from(fault)),
    }
}

/// What is told of changes that aren't taken.
fn merge_ended(fault: TakeFault) -> Result<Pulled, AnswerFault>
    ensures { MergeEndsAt fault result }
{
    match fault {
        TakeFault::Memory => Err(AnswerFault::Memory(0)),
        TakeFault::BadEntry => Err(AnswerFault::BadEntry(0)),
        TakeFault::Stopped(_) => Ok(Pulled::Stopped(0)),
        TakeFault::Device => Err(AnswerFault::Device(0)),
    }
}

/// Takes what these bytes say that the entries of the hub's log do from the position's version up to another above it. It is one
/// commit. Where it is taken, so many entries were taken as there are between the two.
///
/// # Errors
///
/// `BadEntry` where the bytes spell no changeset with a normal form by the tables, or one that isn't defined on the log's rows;
/// `Memory` and `Device`. Nothing has changed then, and no entry is told to be taken.
pub fn take_told<S: RowStore, P: Picker>(
    alloc: Global,
    store: &mut S,
    catalog: &Catalog,
    position: &mut Position,
    next: u64,
    bytes: &[u8],
    picker: &mut P,
) -> Result<Pulled, AnswerFault>
    requires ready { P.is_ready picker.old }
    requires above { position.old.version < next }
    ensures ready { P.is_ready picker.new }

    // They were taken, or what is told holds and nothing has changed.
    ensures takes { S.honest store.new → (before : View) → ShowsAt catalog.now (S.contents store.old) position.old before
        → TakesTold P.picks catalog.now next bytes.now result position.old before picker.old position.new (S.contents store.new) picker.new }

    // The position moves only where they were taken.
    ensures kept { (TakesAll result → ⊥) → position.new ≡ position.old }

    // In one commit.
    ensures writes { WritesInTurn S.RowStore (TakesAll result) (TellsDevice result)
        (ShowsSomeAt catalog.now position.old (S.contents store.old))
        (IsToldTaken P.picks catalog.now next bytes.now position.old picker.old (S.contents store.old))
        (IsToldNext P.picks catalog.now next bytes.now position.new (S.contents store.new)) store.old store.new }
{
    let read = match read_form(alloc, catalog, bytes) {
        Ok(read) => read,
        Err(_) => return Err(AnswerFault::Memory(0)),
    };
    let Some(changes) = read else {
        return Err(AnswerFault::BadEntry(0));
    };
    let count = next - position.version;
    match take_changes_to(alloc, store, catalog, position, next, &changes, picker) {
        Ok(()) => Ok(Pulled::Taken(count)),
        Err(fault) => merge_ended(fault),
    }
}
