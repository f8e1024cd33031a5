//! Another's entry, taken.

ghost use Rattle.std.specs.Prelude.{◌≡◌, ◌⊎◌, ◌<◌, ◌≤◌, ◌-◌, ◌^◌, Err, IfOk, IfErr, OnErr, OnOk};
ghost use Rattle.std.specs.FinMap.{len};
ghost use Rattle.cs_normal.specs.Normal.{FitsCatalog};
ghost use Rattle.cs_normal.specs.State.{IsDefinedOn};
ghost use Rattle.cs_pending.specs.Calls.{WritesStore};
ghost use Rattle.cs_pending.specs.View.{View};
ghost use Rattle.cs_pending.specs.position.Shows.{ShowsAt, ShowsSomeAt, base as log_rows};
ghost use Rattle.cs_exchange.specs.taking.Takes.{IfStopped, IsTakenIn, IsTakenTo, StopsTaking, brought, taken};
ghost use Rattle.cs_exchange.specs.declared.taking.fault.TakeFault.TheVariants.{BadEntry, Device};

use crate::taking::committing::commit_taken;
use crate::taking::fault::TakeFault;
use crate::taking::gathering::gather_edits;
use cs_conflict::Picker;
use cs_normal::Normal;
use cs_pending::Settling;
use cs_pending::position::Position;
use cs_store::RowStore;
use cs_value::Catalog;
use std::alloc::Global;

/// Takes changes that fit the tables and lead to a version. It answers how many changes are pending then.
fn take_at<S: RowStore, P: Picker>(
    alloc: Global,
    store: &mut S,
    catalog: &Catalog,
    position: &Position,
    next: u64,
    changes: &Normal,
    picker: &mut P,
) -> Result<u64, TakeFault>
    requires ready { P.is_ready picker.old }
    requires fits { FitsCatalog catalog.now changes.now }
    ensures ready { P.is_ready picker.new }
    ensures writes { WritesStore S.RowStore Device
        (ShowsSomeAt catalog.now position.now (S.contents store.old))
        (IsTakenTo P.picks catalog.now position.now next changes.now picker.old picker.new (S.contents store.old)) store.old store.new result }
    ensures counted { S.honest store.new → ShowsSomeAt catalog.now position.now (S.contents store.old)
        → IfOk result (λ count. count ≡ len (S.contents store.new).pending) }
    ensures bad { S.honest store.new → (view : View) → ShowsAt catalog.now (S.contents store.old) position.now view
        → result ≡ Err BadEntry → IsDefinedOn catalog.now changes.now (log_rows position.now.flight view) → ⊥ }
    ensures unasked { result ≡ Err BadEntry → picker.new ≡ picker.old }
    ensures stopped { S.honest store.new → (view : View) → ShowsAt catalog.now (S.contents store.old) position.now view
        → IfErr result (λ fault. IfStopped fault (λ conflict.
        StopsTaking P.picks catalog.now position.now.flight changes.now view picker.old conflict picker.new)) }
{
    let mut settling = Settling::new(alloc, position.pending);
    match gather_edits(
        alloc,
        store,
        catalog,
        &position.flight,
        changes,
        picker,
        &mut settling,
    ) {
        Ok(()) => {}
        Err(fault) => return Err(fault),
    }
    match commit_taken(alloc, store, catalog, position, next, settling) {
        Ok(count) => Ok(count),
        Err(fault) => Err(TakeFault::from(fault)),
    }
}

/// Takes changes that lead from the log's rows at the position's version to those at another, above it. They do what one entry of
/// another's does, or what several do that were taken together. At each of their places the own row becomes the three-way merge of the
/// log's row, the own one and what the changes leave. The picker decides by its wishes. It is asked once at each change that conflicts
/// with the own row, in their order. At these places and those of the push under way, the net change from what the changes leave to the
/// own row is then pending. It isn't indirect. Nothing is under way, and the version is the one they lead to. It is one commit. Places
/// that neither they nor the push under way name are neither read nor written.
///
/// # Errors
///
/// `BadEntry` where the version isn't above the position's, or the changes aren't defined on the log's rows, before the picker is asked;
/// `Stopped` where the picker stops; `Memory` and `Device`. Nothing has changed then.
pub fn take_changes_to<S: RowStore, P: Picker>(
    alloc: Global,
    store: &mut S,
    catalog: &Catalog,
    position: &mut Position,
    next: u64,
    changes: &Normal,
    picker: &mut P,
) -> Result<(), TakeFault>
    requires ready { P.is_ready picker.old }
    ensures ready { P.is_ready picker.new }

    // The changes were taken, in one commit, or nothing has changed.
    ensures writes { WritesStore S.RowStore Device
        (ShowsSomeAt catalog.now position.old (S.contents store.old))
        (IsTakenTo P.picks catalog.now position.old next changes.now picker.old picker.new (S.contents store.old)) store.old store.new result }

    // The position has come to the version, and the count of pending changes is right.
    ensures ahead { OnOk result (position.old.version < next) }
    ensures moved { OnOk result (position.new ≡ brought position.old next position.new.pending) }
    ensures counted { S.honest store.new → ShowsSomeAt catalog.now position.old (S.contents store.old)
        → OnOk result (position.new.pending ≡ len (S.contents store.new).pending) }
    ensures kept { OnErr result (position.new ≡ position.old) }

    // What is told of the changes holds, and then nothing was asked.
    ensures bad { S.honest store.new → (view : View) → ShowsAt catalog.now (S.contents store.old) position.old view
        → result ≡ Err BadEntry
        → (next ≤ position.old.version) ⊎ (IsDefinedOn catalog.now changes.now (log_rows position.old.flight view) → ⊥) }
    ensures unasked { result ≡ Err BadEntry → picker.new ≡ picker.old }

    // They lead to a version above the position's.
    ensures last { next ≤ position.old.version → result ≡ Err BadEntry }

    // What is told of the picker holds.
    ensures stopped { S.honest store.new → (view : View) → ShowsAt catalog.now (S.contents store.old) position.old view
        → IfErr result (λ fault. IfStopped fault (λ conflict.
        StopsTaking P.picks catalog.now position.old.flight changes.now view picker.old conflict picker.new)) }
{
    if next <= position.version || !changes.fits(catalog) {
        return Err(TakeFault::BadEntry);
    }
    let count = match take_at(alloc, store, catalog, position, next, changes, picker) {
        Ok(count) => count,
        Err(fault) => return Err(fault),
    };
    position.version = next;
    position.flight = None;
    position.pending = count;
    Ok(())
}

/// Takes another's entry of the log, the one at the position's version. At each of its places the own row becomes the three-way merge
/// of the log's row, the own one and what the entry leaves. The picker decides by its wishes. It is asked once at each change that
/// conflicts with the own row, in the entry's order. At these places and those of the push under way, the net change from what the
/// entry leaves to the own row is then pending. It isn't indirect. Nothing is under way, and the version is one more. It is one
/// commit. Places that neither the entry nor the push under way names are neither read nor written.
///
/// # Errors
///
/// `BadEntry` where the entry isn't defined on the log's rows, before the picker is asked, or where there is no next version;
/// `Stopped` where the picker stops; `Memory` and `Device`. Nothing has changed then.
pub fn take_changes<S: RowStore, P: Picker>(
    alloc: Global,
    store: &mut S,
    catalog: &Catalog,
    position: &mut Position,
    changes: &Normal,
    picker: &mut P,
) -> Result<(), TakeFault>
    requires ready { P.is_ready picker.old }
    ensures ready { P.is_ready picker.new }

    // The entry was taken, in one commit, or nothing has changed.
    ensures writes { WritesStore S.RowStore Device
        (ShowsSomeAt catalog.now position.old (S.contents store.old))
        (IsTakenIn P.picks catalog.now position.old changes.now picker.old picker.new (S.contents store.old)) store.old store.new result }

    // The position has moved where it was, and the count of pending changes is right.
    ensures moved { OnOk result (position.new ≡ taken position.old position.new.pending) }
    ensures counted { S.honest store.new → ShowsSomeAt catalog.now position.old (S.contents store.old)
        → OnOk result (position.new.pending ≡ len (S.contents store.new).pending) }
    ensures kept { OnErr result (position.new ≡ position.old) }

    // What is told of the entry holds, and then nothing was asked.
    ensures bad { S.honest store.new → (view : View) → ShowsAt catalog.now (S.contents store.old) position.old view
        → result ≡ Err BadEntry
        → (position.old.version ≡ 2 ^ 64 - 1) ⊎ (IsDefinedOn catalog.now changes.now (log_rows position.old.flight view) → ⊥) }
    ensures unasked { result ≡ Err BadEntry → picker.new ≡ picker.old }

    // There is no entry behind the last version.
    ensures last { position.old.version ≡ 2 ^ 64 - 1 → result ≡ Err BadEntry }

    // What is told of the picker holds.
    ensures stopped { S.honest store.new → (view : View) → ShowsAt catalog.now (S.contents store.old) position.old view
        → IfErr result (λ fault. IfStopped fault (λ conflict.
        StopsTaking P.picks catalog.now position.old.flight changes.now view picker.old conflict picker.new)) }
{
    if position.version == u64::MAX {
        return Err(TakeFault::BadEntry);
    }
    let next = position.version + 1;
    match take_changes_to(alloc, store, catalog, position, next, changes, picker) {
        Ok(()) => Ok(()),
        Err(fault) => Err(fault),
    }
}
