//! Entries that are known, taken one after another.

ghost use Rattle.std.specs.Prelude.{◌≡◌, ◌≢◌, ◌+◌, ◌≤◌, ◌<◌, ◌^◌, List, Ok, Err, IfErr, IfOk, IsOk, OnErr, OnOk, Some, length, slice_get};
ghost use Rattle.std.specs.FinMap.{len};
ghost use Rattle.cs_normal.specs.Normal.{IsNormalChangeset};
ghost use Rattle.cs_store.specs.log.Entry.{entry_changes};
ghost use Rattle.cs_store.specs.log.Log.{catalog_after};
ghost use Rattle.cs_store.specs.declared.log.entry.LogEntry.{LogEntry as Entry};
ghost use Rattle.cs_pending.specs.Calls.{WritesStore};
ghost use Rattle.cs_pending.specs.View.{View};
ghost use Rattle.cs_pending.specs.position.Shows.{ShowsSomeAt};
ghost use Rattle.cs_exchange.specs.pulling.Calls.{WritesInTurn};
ghost use Rattle.cs_exchange.specs.pulling.Pulls.{IsPulledIn};
ghost use Rattle.cs_replica.specs.Holding.{Shows};
ghost use Rattle.cs_exchange.specs.taking.Takes.{taken};
ghost use Rattle.cs_nodes.specs.following.Pulls.{IsNextKnown, IsPulledAmong, IsTakeFault, PullsAll};
ghost use Rattle.cs_nodes.specs.following.Standing.{IsBadAt, StandsWhereHonest, TablesGoOn};
ghost use Rattle.cs_nodes.specs.declared.following.fault.NodeFault.TheVariants.{BadEntry, Device, Full};

use crate::following::fault::{NodeFault, pull_fault};
use cs_conflict::Picker;
use cs_replica::Replica;
use cs_spine::{Pass, Spine};
use cs_store::RowStore;
use cs_store::log::LogEntry;
use std::alloc::Global;

/// What an entry changes is in normal form, also where it changes nothing.
fn normal_changes(entry: &LogEntry)
    ensures { IsNormalChangeset (entry_changes entry.now) }
{
    if let Some(changes) = entry.body.changes() {
        let _changes = changes.tables();
    }
}

/// Takes the entry at the replica's version.
pub(crate) fn take_next<S: RowStore, P: Picker>(
    alloc: Global,
    replica: &mut Replica<S>,
    entry: &LogEntry,
    picker: &mut P,
) -> Result<(), NodeFault>
    requires ready { P.is_ready picker.old }
    ensures ready { P.is_ready picker.new }
    ensures writes { WritesStore S.RowStore Device (ShowsSomeAt replica.old.catalog replica.old.position (S.contents replica.old.store))
        (IsPulledIn P.picks replica.old.catalog replica.old.position entry.now picker.old picker.new (S.contents replica.old.store)) replica.old.store replica.new.store result }
    ensures moved { OnOk result (replica.new.position ≡ taken replica.old.position replica.new.position.pending) }
    ensures counted { S.honest replica.new.store → ShowsSomeAt replica.old.catalog replica.old.position (S.contents replica.old.store)
        → OnOk result (replica.new.position.pending ≡ len (S.contents replica.new.store).pending) }
    ensures refused { S.honest replica.new.store → (view : View) → Shows S.contents replica.old view
        → IfErr result (λ fault. IsTakeFault P.picks replica.old.catalog fault replica.old.position entry.now view picker.old picker.new) }
    ensures wide { OnOk result (replica.new.catalog ≡ catalog_after replica.old.catalog entry.now.body) }
    ensures catalog { OnErr result (replica.new.catalog ≡ replica.old.catalog) }
    ensures kept { OnErr result (replica.new.position ≡ replica.old.position) }
    ensures full { result ≢ Err Full }
{
    let index = replica.version();
    let told = replica.take(alloc, index, entry, picker);
    replica.shown();
    match told {
        Ok(()) => Ok(()),
        Err(fault) => Err(pull_fault(fault)),
    }
}

/// The same, of a replica that stands on what is known.
pub(crate) fn take_standing<S: RowStore, P: Picker>(
    alloc: Global,
    replica: &mut Replica<S>,
    entry: &LogEntry,
    picker: &mut P,
) -> Result<(), NodeFault>
    requires ready { P.is_ready picker.old }
    ensures ready { P.is_ready picker.new }
    ensures writes { WritesStore S.RowStore Device (ShowsSomeAt replica.old.catalog replica.old.position (S.contents replica.old.store))
        (IsPulledIn P.picks replica.old.catalog replica.old.position entry.now picker.old picker.new (S.contents replica.old.store)) replica.old.store replica.new.store result }
    ensures moved { OnOk result (replica.new.position ≡ taken replica.old.position replica.new.position.pending) }
    ensures counted { S.honest replica.new.store → ShowsSomeAt replica.old.catalog replica.old.position (S.contents replica.old.store)
        → OnOk result (replica.new.position.pending ≡ len (S.contents replica.new.store).pending) }
    ensures refused { S.honest replica.new.store → (view : View) → Shows S.contents replica.old view
        → IfErr result (λ fault. IsTakeFault P.picks replica.old.catalog fault replica.old.position entry.now view picker.old picker.new) }
    ensures wide { OnOk result (replica.new.catalog ≡ catalog_after replica.old.catalog entry.now.body) }
    ensures catalog { OnErr result (replica.new.catalog ≡ replica.old.catalog) }
    ensures kept { OnErr result (replica.new.position ≡ replica.old.position) }
    ensures full { result ≢ Err Full }

    // Where the entry is the one that is known at its version, it stands on what is known.
    ensures stands { (known : List Entry) → slice_get known replica.old.position.version ≡ Some entry.now
        → StandsWhereHonest S.RowStore known replica.old → StandsWhereHonest S.RowStore known replica.new }

    // An entry that is told to be bad isn't defined on the tables there.
    ensures bad { (known : List Entry) → slice_get known replica.old.position.version ≡ Some entry.now → length known < 2 ^ 64
        → StandsWhereHonest S.RowStore known replica.old → result ≡ Err BadEntry → S.honest replica.new.store
        → IsBadAt replica.new.catalog known replica.new.position.version }
{
    cs_exchange::pulling::laws::pulled_leads(&*picker);
    cs_normal::laws::defined_is_applied();
    cs_replica::laws::steps_stand();
    cs_store::log::laws::appended_is_log();
    cs_store::log::laws::catalog_next();
    cs_store::log::laws::catalogs_are_tables();
    normal_changes(entry);
    match take_next(alloc, replica, entry, picker) {
        Ok(()) => Ok(()),
        Err(fault) => Err(fault),
    }
}

/// Takes the entries that are known, one after another, from the one at the replica's version on, each in a commit of its own.
/// Returns how many. What was taken stays, whatever comes later.
///
/// # Errors
///
/// `BadEntry` at an entry that isn't defined on the tables there, `Stopped` where the picker stops, `Memory` and `Device`.
pub(crate) fn take_known<S: RowStore, P: Picker>(
    alloc: Global,
    replica: &mut Replica<S>,
    spine: &Spine,
    pass: &Pass<'_>,
    picker: &mut P,
) -> Result<usize, NodeFault>
    requires ready { P.is_ready picker.old }
    requires within { replica.old.position.version ≤ length pass.now.known }
    ensures ready { P.is_ready picker.new }

    // Those before the one at which it ended were pulled, one after another.
    ensures pulled { S.honest replica.new.store → (before : View) → Shows S.contents replica.old before
        → PullsAll P.picks replica.old.catalog pass.now.known result replica.old.position before picker.old replica.new.catalog replica.new.position (S.contents replica.new.store) picker.new }

    // Each in a commit of its own.
    ensures writes { WritesInTurn S.RowStore (IsOk result) (result ≡ Err Device)
        (ShowsSomeAt replica.old.catalog replica.old.position (S.contents replica.old.store))
        (IsPulledAmong P.picks replica.old.catalog pass.now.known replica.old.position (S.contents replica.old.store) picker.old)
        (IsNextKnown P.picks replica.new.catalog pass.now.known replica.new.position (S.contents replica.new.store)) replica.old.store replica.new.store }

    // At `Ok` it has come to the last that is known.
    ensures level { IfOk result (λ count. (replica.new.position.version ≡ length pass.now.known) × (replica.new.position.version ≡ replica.old.position.version + count)) }
    ensures within { replica.new.position.version ≤ length pass.now.known }

    // The tables are those that the entries leave which were taken.
    ensures catalog { TablesGoOn pass.now.known replica.old.catalog replica.old.position.version replica.new.catalog replica.new.position.version }

    // It stands on what is known, where it did; and an entry that is told to be bad isn't defined there.
    ensures stands { StandsWhereHonest S.RowStore pass.now.known replica.old → StandsWhereHonest S.RowStore pass.now.known replica.new }
    ensures bad { StandsWhereHonest S.RowStore pass.now.known replica.old → result ≡ Err BadEntry → S.honest replica.new.store
        → IsBadAt replica.new.catalog pass.now.known replica.new.position.version }
{
    let first = replica.version() as usize;
    let last = pass.len();
    for at in first..last {
        match take_standing(alloc, replica, spine.entry(pass, at), picker) {
            Ok(()) => {}
            Err(fault) => return Err(fault),
        }
    }
    Ok(last - first)
}
