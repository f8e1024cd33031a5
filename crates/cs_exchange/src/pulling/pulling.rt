//! An entry of the hub's log, pulled.

ghost use Rattle.std.specs.Prelude.{◌≡◌, ◌≢◌, ◌↔◌, true, false, ◌<◌, ◌-◌, ◌^◌, Err, IfErr, IsTrue, OnErr, OnOk};
ghost use Rattle.std.specs.FinMap.{len};
ghost use Rattle.cs_pending.specs.Calls.{WritesStore};
ghost use Rattle.cs_pending.specs.View.{View};
ghost use Rattle.cs_normal.specs.State.{IsDefinedOn};
ghost use Rattle.cs_pending.specs.position.Shows.{ShowsAt, ShowsSomeAt, base as log_rows};
ghost use Rattle.cs_store.specs.log.Entry.{MayWiden, changes_of_body};
ghost use Rattle.cs_store.specs.log.Log.{catalog_after};
ghost use Rattle.cs_exchange.specs.taking.Takes.{IfStopped, StopsTaking, taken};
ghost use Rattle.cs_exchange.specs.declared.taking.fault.TakeFault.TheVariants as take;
ghost use Rattle.cs_exchange.specs.pulling.Pulls.{IsOwn, IsPullFault, IsPulledAt, IsPulledIn, IsTakenBody};
ghost use Rattle.cs_exchange.specs.declared.pulling.fault.PullFault.TheVariants.{Behind, Gap, Device};

use crate::pulling::fault::PullFault;
use crate::pushing::confirm;
use crate::taking::{TakeFault, take_changes, take_widen};
use cs_conflict::Picker;
use cs_pending::position::Position;
use cs_store::RowStore;
use cs_store::log::{Body, LogEntry};
use cs_value::Catalog;
use std::alloc::Global;

/// Whether the entry is the push that is under way.
fn is_own(position: &Position, entry: &LogEntry) -> bool
    ensures { IsTrue result ↔ IsOwn position.now entry.now }
{
    match (&position.flight, entry.body.changes()) {
        (Some(flight), Some(changes)) => {
            entry.origin == position.id && entry.number == position.number && flight.same(changes)
        }
        _ => false,
    }
}

/// Whether no version is behind this one.
fn is_last(version: u64) -> bool
    ensures last { result ≡ true → version ≡ 2 ^ 64 - 1 }
    ensures next { result ≡ false → version < 2 ^ 64 - 1 }
{
    version == u64::MAX
}

/// Takes what another's entry does.
fn take_body<S: RowStore, P: Picker>(
    alloc: Global,
    store: &mut S,
    catalog: &mut Catalog,
    position: &mut Position,
    body: &Body,
    picker: &mut P,
) -> Result<(), TakeFault>
    requires ready { P.is_ready picker.old }
    requires room { position.old.version < 2 ^ 64 - 1 }
    ensures ready { P.is_ready picker.new }
    ensures writes { WritesStore S.RowStore take.Device
        (ShowsSomeAt catalog.old position.old (S.contents store.old))
        (IsTakenBody P.picks catalog.old position.old body.now picker.old picker.new (S.contents store.old)) store.old store.new result }
    ensures moved { OnOk result (position.new ≡ taken position.old position.new.pending) }
    ensures wide { OnOk result (catalog.new ≡ catalog_after catalog.old body.now) }
    ensures counted { S.honest store.new → ShowsSomeAt catalog.old position.old (S.contents store.old)
        → OnOk result (position.new.pending ≡ len (S.contents store.new).pending) }
    ensures kept { OnErr result (position.new ≡ position.old) }
    ensures narrow { OnErr result (catalog.new ≡ catalog.old) }
    ensures bad { S.honest store.new → (view : View) → ShowsAt catalog.old (S.contents store.old) position.old view
        → result ≡ Err take.BadEntry
        → IsDefinedOn catalog.old (changes_of_body body.now) (log_rows position.old.flight view) × MayWiden catalog.old body.now → ⊥ }
    ensures unasked { result ≡ Err take.BadEntry → picker.new ≡ picker.old }
    ensures stopped { S.honest store.new → (view : View) → ShowsAt catalog.old (S.contents store.old) position.old view
        → IfErr result (λ fault. IfStopped fault (λ conflict.
        StopsTaking P.picks catalog.old position.old.flight (changes_of_body body.now) view picker.old conflict picker.new)) }
{
    match body {
        Body::Changes(changes) => take_changes(alloc, store, catalog, position, changes, picker),
        Body::Widen { table, width } => {
            take_widen(alloc, store, catalog, position, table.as_str(), *width)
        }
    }
}

/// Pulls the entry at the position's version.
pub(crate) fn take_next<S: RowStore, P: Picker>(
    alloc: Global,
    store: &mut S,
    catalog: &mut Catalog,
    position: &mut Position,
    entry: &LogEntry,
    picker: &mut P,
) -> Result<(), PullFault>
    requires ready { P.is_ready picker.old }
    ensures ready { P.is_ready picker.new }
    ensures writes { WritesStore S.RowStore Device
        (ShowsSomeAt catalog.old position.old (S.contents store.old))
        (IsPulledIn P.picks catalog.old position.old entry.now picker.old picker.new (S.contents store.old)) store.old store.new result }
    ensures room { OnOk result (position.old.version < 2 ^ 64 - 1) }
    ensures moved { OnOk result (position.new ≡ taken position.old position.new.pending) }
    ensures wide { OnOk result (catalog.new ≡ catalog_after catalog.old entry.now.body) }
    ensures counted { S.honest store.new → ShowsSomeAt catalog.old position.old (S.contents store.old)
        → OnOk result (position.new.pending ≡ len (S.contents store.new).pending) }
    ensures kept { OnErr result (position.new ≡ position.old) }
    ensures narrow { OnErr result (catalog.new ≡ catalog.old) }
    ensures refused { S.honest store.new → (view : View) → ShowsAt catalog.old (S.contents store.old) position.old view
        → IfErr result (IsPullFault P.picks catalog.old position.old position.old.version entry.now view picker.old picker.new) }
    ensures behind { result ≢ Err Behind }
    ensures gap { result ≢ Err Gap }
{
    if is_last(position.version) {
        return Err(PullFault::BadEntry);
    }
    if is_own(position, entry) {
        return match confirm(alloc, store, catalog, position) {
            Ok(()) => Ok(()),
            Err(fault) => Err(PullFault::from(fault)),
        };
    }
    match take_body(alloc, store, catalog, position, &entry.body, picker) {
        Ok(()) => Ok(()),
        Err(fault) => Err(PullFault::from(fault)),
    }
}

/// Pulls the entry of the hub's log that is told at an index. Where it is the push that is under way, that is confirmed. Another's
/// is taken, by the three-way merge (`crate::taking::take_changes`). One that widens a table gives it its columns, and the catalog too
/// (`crate::taking::take_widen`). It is one commit. The first fault that holds is told: `Behind`, `Gap`, `BadEntry`, `Stopped`.
pub fn take_entry<S: RowStore, P: Picker>(
    alloc: Global,
    store: &mut S,
    catalog: &mut Catalog,
    position: &mut Position,
    index: u64,
    entry: &LogEntry,
    picker: &mut P,
) -> Result<(), PullFault>
    requires ready { P.is_ready picker.old }
    ensures ready { P.is_ready picker.new }

    // The entry was pulled, in one commit, or nothing has changed.
    ensures writes { WritesStore S.RowStore Device
        (ShowsSomeAt catalog.old position.old (S.contents store.old))
        (IsPulledAt P.picks catalog.old position.old index entry.now picker.old picker.new (S.contents store.old)) store.old store.new result }

    // It was the one at the position's version, and the position is behind it. The catalog is the one that it leaves.
    ensures next { OnOk result ((index ≡ position.old.version) × (position.old.version < 2 ^ 64 - 1)) }
    ensures moved { OnOk result (position.new ≡ taken position.old position.new.pending) }
    ensures wide { OnOk result (catalog.new ≡ catalog_after catalog.old entry.now.body) }
    ensures counted { S.honest store.new → ShowsSomeAt catalog.old position.old (S.contents store.old)
        → OnOk result (position.new.pending ≡ len (S.contents store.new).pending) }
    ensures kept { OnErr result (position.new ≡ position.old) }
    ensures narrow { OnErr result (catalog.new ≡ catalog.old) }

    // What is told holds.
    ensures refused { S.honest store.new → (view : View) → ShowsAt catalog.old (S.contents store.old) position.old view
        → IfErr result (IsPullFault P.picks catalog.old position.old index entry.now view picker.old picker.new) }
{
    if index < position.version {
        return Err(PullFault::Behind);
    }
    if index > position.version {
        return Err(PullFault::Gap);
    }
    match take_next(alloc, store, catalog, position, entry, picker) {
        Ok(()) => Ok(()),
        Err(fault) => Err(fault),
    }
}
