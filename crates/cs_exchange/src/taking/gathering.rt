//! The edits by which an entry is taken.

ghost use Rattle.std.specs.Prelude.{◌≡◌, ℕ, map, Err, IfErr, IfOk, IfSome, OnOk};
ghost use Rattle.cs_normal.specs.Normal.{FitsCatalog};
ghost use Rattle.cs_normal.specs.State.{IsDefinedOn};
ghost use Rattle.cs_apply.specs.NormalTasks.{keyed_tasks};
ghost use Rattle.cs_store.specs.declared.fault.StoreFault.TheVariants as stored;
ghost use Rattle.cs_pending.specs.Calls.{ReadsStore};
ghost use Rattle.cs_pending.specs.Settling.{IsWithin, Settles};
ghost use Rattle.cs_pending.specs.Shows.{ShowsRows, ShowsSome};
ghost use Rattle.cs_pending.specs.View.{View};
ghost use Rattle.cs_pending.specs.position.Shows.{IsUnderWay, base as log_rows};
ghost use Rattle.cs_exchange.specs.taking.Steps.{AreOn, AreSitesPlaced, HasBad, IsFlightFolded, IsFound, site_task};
ghost use Rattle.cs_exchange.specs.taking.Takes.{IfStopped, IsTaken, StopsTaking};
ghost use Rattle.cs_exchange.specs.declared.taking.fault.TakeFault.TheVariants.{BadEntry, Device};

use crate::taking::deciding::decide;
use crate::taking::fault::TakeFault;
use crate::taking::flight::fold_all;
use crate::taking::reading::survey;
use crate::taking::site::Site;
use cs_apply::placement::place_all;
use cs_conflict::Picker;
use cs_normal::Normal;
use cs_pending::Settling;
use cs_store::{RowStore, StoreFault};
use cs_value::Catalog;
use std::alloc::Global;

/// The places of the entry; none where a change isn't defined on the log's row.
fn find_sites<'a, S: RowStore>(
    alloc: Global,
    store: &mut S,
    catalog: &'a Catalog,
    flight: &Option<Normal>,
    changes: &'a Normal,
) -> Result<Option<Vec<Site<'a>>>, StoreFault>
    requires { FitsCatalog catalog.now changes.now }
    ensures reads { ReadsStore S.RowStore stored.Device
        (ShowsSome catalog.now (S.contents store.old)) store.old store.new result }
    ensures tasks { IfOk result (λ found. IfSome found (λ sites. map site_task sites.items ≡ keyed_tasks catalog.now changes.now)) }
    ensures placed { IfOk result (λ found. IfSome found (λ sites. AreSitesPlaced catalog.now sites.items)) }
    ensures surveyed { S.honest store.new → (seen : View) → ShowsRows catalog.now (S.contents store.old) seen
        → IfOk result (λ found. IsFound found (λ sites. AreOn (log_rows flight.now seen) seen.tables sites.items)
        (HasBad (log_rows flight.now seen) (keyed_tasks catalog.now changes.now))) }
{
    let entry = place_all(alloc, catalog, changes)?;
    let mut sites = Vec::new(alloc);
    match survey(alloc, store, catalog, flight, entry.as_slice(), &mut sites) {
        Ok(true) => Ok(Some(sites)),
        Ok(false) => Ok(None),
        Err(fault) => Err(fault),
    }
}

/// Makes pending what is under way, and finds the places of the entry.
fn fold_and_find<'a, S: RowStore>(
    alloc: Global,
    store: &mut S,
    catalog: &'a Catalog,
    flight: &Option<Normal>,
    changes: &'a Normal,
    settling: &mut Settling,
) -> Result<Option<Vec<Site<'a>>>, StoreFault>
    requires { FitsCatalog catalog.now changes.now }
    ensures reads { ReadsStore S.RowStore stored.Device
        (ShowsSome catalog.now (S.contents store.old)) store.old store.new result }
    ensures within { IsWithin catalog.now settling.old → OnOk result (IsWithin catalog.now settling.new) }
    ensures tasks { IfOk result (λ found. IfSome found (λ sites. map site_task sites.items ≡ keyed_tasks catalog.now changes.now)) }
    ensures placed { IfOk result (λ found. IfSome found (λ sites. AreSitesPlaced catalog.now sites.items)) }
    ensures surveyed { S.honest store.new → (seen : View) → ShowsRows catalog.now (S.contents store.old) seen
        → IfOk result (λ found. IsFound found (λ sites. AreOn (log_rows flight.now seen) seen.tables sites.items)
        (HasBad (log_rows flight.now seen) (keyed_tasks catalog.now changes.now))) }
    ensures folded { S.honest store.new → (seen : View) → ShowsRows catalog.now (S.contents store.old) seen → IsUnderWay catalog.now flight.now seen
        → (begun : ℕ) → Settles catalog.now (S.contents store.old) begun settling.old seen
        → OnOk result ((end : View) × Settles catalog.now (S.contents store.old) begun settling.new end
        × IsFlightFolded catalog.now flight.now seen end) }
{
    match fold_all(alloc, store, catalog, flight, settling) {
        Ok(()) => {}
        Err(fault) => return Err(fault),
    }
    match find_sites(alloc, store, catalog, flight, changes) {
        Ok(found) => Ok(found),
        Err(fault) => Err(fault),
    }
}

/// Gathers the edits by which an entry is taken.
pub(crate) fn gather_edits<S: RowStore, P: Picker>(
    alloc: Global,
    store: &mut S,
    catalog: &Catalog,
    flight: &Option<Normal>,
    changes: &Normal,
    picker: &mut P,
    settling: &mut Settling,
) -> Result<(), TakeFault>
    requires ready { P.is_ready picker.old }
    requires fits { FitsCatalog catalog.now changes.now }
    ensures ready { P.is_ready picker.new }
    ensures reads { ReadsStore S.RowStore Device
        (ShowsSome catalog.now (S.contents store.old)) store.old store.new result }
    ensures within { IsWithin catalog.now settling.old → OnOk result (IsWithin catalog.now settling.new) }
    ensures settled { S.honest store.new → (seen : View) → ShowsRows catalog.now (S.contents store.old) seen → IsUnderWay catalog.now flight.now seen
        → (begun : ℕ) → Settles catalog.now (S.contents store.old) begun settling.old seen
        → OnOk result ((end : View) × Settles catalog.now (S.contents store.old) begun settling.new end
        × IsTaken P.picks catalog.now flight.now changes.now seen end picker.old picker.new) }
    ensures bad { S.honest store.new → (seen : View) → ShowsRows catalog.now (S.contents store.old) seen
        → result ≡ Err BadEntry → IsDefinedOn catalog.now changes.now (log_rows flight.now seen) → ⊥ }
    ensures unasked { result ≡ Err BadEntry → picker.new ≡ picker.old }
    ensures stopped { S.honest store.new → (seen : View) → ShowsRows catalog.now (S.contents store.old) seen
        → IfErr result (λ fault. IfStopped fault (λ conflict.
        StopsTaking P.picks catalog.now flight.now changes.now seen picker.old conflict picker.new)) }
{
    let _tables = catalog.tables();
    let _normal = changes.tables();
    let sites = match fold_and_find(alloc, store, catalog, flight, changes, settling) {
        Ok(Some(sites)) => sites,
        Ok(None) => return Err(TakeFault::BadEntry),
        Err(fault) => return Err(TakeFault::from(fault)),
    };
    match decide(alloc, sites.as_slice(), picker, settling) {
        Ok(()) => Ok(()),
        Err(fault) => Err(fault),
    }
}
