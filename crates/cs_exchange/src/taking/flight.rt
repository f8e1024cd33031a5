//! What is under way becomes pending.

ghost use Rattle.std.specs.Prelude.{◌≡◌, ℕ, List, map, IfOk, OnOk};
ghost use Rattle.cs_normal.specs.Normal.{FitsCatalog};
ghost use Rattle.cs_apply.specs.NormalTasks.{keyed_tasks};
ghost use Rattle.cs_store.specs.declared.fault.StoreFault.TheVariants.{Device};
ghost use Rattle.cs_pending.specs.Calls.{ReadsStore};
ghost use Rattle.cs_pending.specs.Settling.{IsWithin, Settles};
ghost use Rattle.cs_pending.specs.Shows.{ShowsRows, ShowsSome};
ghost use Rattle.cs_pending.specs.View.{View};
ghost use Rattle.cs_pending.specs.position.Shows.{IsUnderWay, flown};
ghost use Rattle.cs_exchange.specs.taking.Steps.{ArePlaced, IsFlightFolded, task_of};

use crate::taking::reading::fold_flight;
use cs_apply::placement::{Placed, place_all};
use cs_normal::Normal;
use cs_pending::Settling;
use cs_store::{RowStore, StoreFault};
use cs_value::{Catalog, Memory};
use std::alloc::Global;

/// The changes that are under way, with their places. What isn't of the catalog's tables has none.
fn place_flight<'a>(
    alloc: Global,
    catalog: &'a Catalog,
    flight: &'a Option<Normal>,
) -> Result<Vec<Placed<'a>>, Memory>
    ensures placed { IfOk result (λ placed. ArePlaced catalog.now placed.items) }
    ensures tasks { FitsCatalog catalog.now (flown flight.now) → IfOk result (λ placed. map task_of placed.items ≡ keyed_tasks catalog.now (flown flight.now)) }
{
    let Some(changes) = flight else {
        return Ok(Vec::new(alloc));
    };
    if !changes.fits(catalog) {
        return Ok(Vec::new(alloc));
    }
    place_all(alloc, catalog, changes)
}

/// Makes all that is under way pending over the log's rows. It reads and settles its places alone.
pub(crate) fn fold_all<S: RowStore>(
    alloc: Global,
    store: &mut S,
    catalog: &Catalog,
    flight: &Option<Normal>,
    settling: &mut Settling,
) -> Result<(), StoreFault>
    ensures reads { ReadsStore S.RowStore Device
        (ShowsSome catalog.now (S.contents store.old)) store.old store.new result }
    ensures within { IsWithin catalog.now settling.old → OnOk result (IsWithin catalog.now settling.new) }
    ensures folded { S.honest store.new → (seen : View) → ShowsRows catalog.now (S.contents store.old) seen → IsUnderWay catalog.now flight.now seen
        → (begun : ℕ) → Settles catalog.now (S.contents store.old) begun settling.old seen
        → OnOk result ((end : View) × Settles catalog.now (S.contents store.old) begun settling.new end
        × IsFlightFolded catalog.now flight.now seen end) }
{
    let placed = place_flight(alloc, catalog, flight)?;
    match fold_flight(alloc, store, catalog, flight, placed.as_slice(), settling) {
        Ok(()) => Ok(()),
        Err(fault) => Err(fault),
    }
}
