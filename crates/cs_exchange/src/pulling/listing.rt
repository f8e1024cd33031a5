//! The entries of an answer, pulled one after another.

ghost use Rattle.std.specs.Prelude.{◌≡◌, ◌≢◌, ◌<◌, ◌-◌, ◌^◌, Err, IfErr, OnErr, OnOk};
ghost use Rattle.std.specs.FinMap.{len};
ghost use Rattle.cs_pending.specs.Calls.{WritesStore};
ghost use Rattle.cs_pending.specs.View.{View};
ghost use Rattle.cs_pending.specs.position.Shows.{ShowsAt, ShowsSomeAt};
ghost use Rattle.cs_exchange.specs.taking.Takes.{taken};
ghost use Rattle.cs_exchange.specs.pulling.Calls.{WritesInTurn};
ghost use Rattle.cs_exchange.specs.pulling.Listed.{IsAmong, IsNextOf, PullsList, TakesAll, TellsDevice};
ghost use Rattle.cs_exchange.specs.pulling.Steps.{EndsAt, IsToldFault, IsToldPulled, IsWideBy};
ghost use Rattle.cs_exchange.specs.declared.pulling.fault.PullFault.TheVariants.{Behind, Gap, Device};

use crate::pulling::fault::{AnswerFault, PullFault};
use crate::pulling::pulling::take_next;
use crate::pulling::told::read_told;
use cs_conflict::Picker;
use cs_pending::position::Position;
use cs_store::RowStore;
use cs_value::Catalog;
use cs_wire::{Entries, WireEntry};
use std::alloc::Global;

/// What became of the entries of an answer, with how many were taken.
#[derive(Clone, Copy, Debug, PartialEq, Eq)]
pub enum Pulled {
    /// All that the answer tells from the replica's version on; where that is before the first of them, none.
    Taken(u64),
    /// Those before the one at which the picker wished to stop.
    Stopped(u64),
}

/// Pulls the entry that is told at the position's version.
fn pull_told<S: RowStore, P: Picker>(
    alloc: Global,
    store: &mut S,
    catalog: &mut Catalog,
    position: &mut Position,
    told: &WireEntry<'_>,
    picker: &mut P,
) -> Result<(), PullFault>
    requires ready { P.is_ready picker.old }
    ensures ready { P.is_ready picker.new }
    ensures writes { WritesStore S.RowStore Device
        (ShowsSomeAt catalog.old position.old (S.contents store.old))
        (IsToldPulled P.picks catalog.old position.old told.now picker.old picker.new (S.contents store.old)) store.old store.new result }
    ensures room { OnOk result (position.old.version < 2 ^ 64 - 1) }
    ensures moved { OnOk result (position.new ≡ taken position.old position.new.pending) }
    ensures wide { OnOk result (IsWideBy catalog.old told.now catalog.new) }
    ensures counted { S.honest store.new → ShowsSomeAt catalog.old position.old (S.contents store.old)
        → OnOk result (position.new.pending ≡ len (S.contents store.new).pending) }
    ensures kept { OnErr result (position.new ≡ position.old) }
    ensures narrow { OnErr result (catalog.new ≡ catalog.old) }
    ensures refused { S.honest store.new → (view : View) → ShowsAt catalog.old (S.contents store.old) position.old view
        → IfErr result (IsToldFault P.picks catalog.old position.old told.now view picker.old picker.new) }
    ensures behind { result ≢ Err Behind }
    ensures gap { result ≢ Err Gap }
{
    let Some(entry) = read_told(alloc, catalog, told)? else {
        return Err(PullFault::BadEntry);
    };
    match take_next(alloc, store, catalog, position, &entry, picker) {
        Ok(()) => Ok(()),
        Err(fault) => Err(fault),
    }
}

/// How a list ends at a fault of one entry.
fn ended(fault: PullFault, count: u64) -> Result<Pulled, AnswerFault>
    ensures { EndsAt fault count result }
{
    match fault {
        PullFault::Memory => Err(AnswerFault::Memory(count)),
        PullFault::Behind | PullFault::Gap => Ok(Pulled::Taken(count)),
        PullFault::BadEntry => Err(AnswerFault::BadEntry(count)),
        PullFault::Stopped(_) => Ok(Pulled::Stopped(count)),
        PullFault::Device => Err(AnswerFault::Device(count)),
    }
}

/// Pulls the entries of an answer, of which the first is the hub's at `first`, one after another, each in a commit of its own. Those
/// before the position's version are passed over unread. The list ends where the picker stops, and at an entry that is behind the
/// one at the version. What was taken stays, whatever comes later. Each entry is read by the catalog that those before it leave.
///
/// # Errors
///
/// `BadEntry` at an entry that can't be read or isn't defined on the log's rows, `Memory` and `Device`, each with how many were
/// taken.
pub fn take_entries<S: RowStore, P: Picker>(
    alloc: Global,
    store: &mut S,
    catalog: &mut Catalog,
    position: &mut Position,
    first: u64,
    entries: &Entries<'_>,
    picker: &mut P,
) -> Result<Pulled, AnswerFault>
    requires ready { P.is_ready picker.old }
    ensures ready { P.is_ready picker.new }

    // So many entries were pulled, one after another, and what is told of the next holds.
    ensures pulls { S.honest store.new → (before : View) → ShowsAt catalog.old (S.contents store.old) position.old before
        → PullsList P.picks first entries.now result catalog.old position.old before picker.old catalog.new position.new (S.contents store.new) picker.new }

    // Each in a commit of its own.
    ensures writes { WritesInTurn S.RowStore (TakesAll result) (TellsDevice result)
        (ShowsSomeAt catalog.old position.old (S.contents store.old))
        (IsAmong P.picks first entries.now catalog.old position.old (S.contents store.old) picker.old)
        (IsNextOf P.picks first entries.now catalog.new position.new (S.contents store.new)) store.old store.new }
{
    let mut count = 0;
    let mut index = first;
    let mut next = entries.split_first();
    while let Some((told, others)) = next {
        next = others.split_first();
        if index > position.version {
            break;
        }
        if index < position.version {
            index += 1;
            continue;
        }
        match pull_told(alloc, store, catalog, position, &told, picker) {
            Ok(()) => {
                count += 1;
                index += 1;
            }
            Err(fault) => return ended(fault, count),
        }
    }
    Ok(Pulled::Taken(count))
}
