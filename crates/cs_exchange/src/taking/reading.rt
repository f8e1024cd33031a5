//! What stands at the places of changes: here, and on the log.

ghost use Rattle.std.specs.Prelude.{◌≡◌, ◌<◌, ◌++◌, ◌∷◌, [], ℕ, Option, Some, None, List, length, map, slice_get, true, IfOk, OnOk};
ghost use Rattle.cs_value.specs.Catalog.{AreTables};
ghost use Rattle.cs_value.specs.declared.catalog.TableDef.{TableDef as Table};
ghost use Rattle.cs_normal.specs.State.{MayStandAt};
ghost use Rattle.cs_store.specs.Contents.{Contents};
ghost use Rattle.cs_store.specs.declared.fault.StoreFault.TheVariants.{Device};
ghost use Rattle.cs_pending.specs.Calls.{ReadsStore};
ghost use Rattle.cs_pending.specs.Placing.{StandsIn};
ghost use Rattle.cs_pending.specs.Settling.{IsWithin, Settles};
ghost use Rattle.cs_pending.specs.Shows.{ShowsRows, ShowsSome};
ghost use Rattle.cs_pending.specs.View.{View, settled};
ghost use Rattle.cs_pending.specs.position.Shows.{base as log_rows};
ghost use Rattle.cs_exchange.specs.taking.Steps.{AreOn, ArePlaced, AreSitesPlaced, HasBad, IsFolded, IsFoldReady, IsPlaced, IsSurveyed, site_task, task_of};

use crate::taking::rows::before_flight;
use crate::taking::site::Site;
use cs_apply::placement::Placed;
use cs_change::outcome;
use cs_normal::Normal;
use cs_pending::{RowPlace, Settling, Standing, lent, standing_at};
use cs_record::RowBuf;
use cs_store::{RowStore, StoreFault};
use cs_value::{Catalog, Memory};
use std::alloc::Global;

/// What stands at a place here and before what is pending; and on the log, before what is under way.
fn own_and_log<S: RowStore>(
    alloc: Global,
    store: &mut S,
    catalog: &Catalog,
    flight: &Option<Normal>,
    placed: &Placed<'_>,
) -> Result<(Standing, Option<RowBuf>), StoreFault>
    requires { IsPlaced catalog.now placed.now }
    ensures reads { ReadsStore S.RowStore Device
        (ShowsSome catalog.now (S.contents store.old)) store.old store.new result }
    ensures found { S.honest store.new → (view : View) → ShowsRows catalog.now (S.contents store.old) view
        → IfOk result (λ found. StandsIn view placed.now.table.now placed.now.key.now found.0
        × (found.1 ≡ log_rows flight.now view placed.now.table.now.name placed.now.key.now)) }
{
    let place = RowPlace {
        table: placed.table,
        number: placed.number,
        key: placed.key,
    };
    let standing = match standing_at(alloc, store, catalog, &place) {
        Ok(standing) => standing,
        Err(fault) => return Err(fault),
    };
    let row = lent(&standing.base);
    let log = before_flight(alloc, flight, placed.table, placed.key, row.as_ref())?;
    Ok((standing, log))
}

/// Settles a place: there stands `mine`, and what is pending leads from `base` to it.
pub(crate) fn settle_at(
    alloc: Global,
    placed: &Placed<'_>,
    before: &Standing,
    base: &Option<RowBuf>,
    mine: &Option<RowBuf>,
    settling: &mut Settling,
) -> Result<(), Memory>
    ensures within { (tables : List Table) → placed.now.number < length tables → IsWithin tables settling.old → OnOk result (IsWithin tables settling.new) }
    ensures settled { (tables : List Table) (contents : Contents) (begun : ℕ) (view : View)
        → AreTables tables
        → IsPlaced tables placed.now
        → MayStandAt tables placed.now.table.now.name placed.now.key.now base.now
        → MayStandAt tables placed.now.table.now.name placed.now.key.now mine.now
        → StandsIn view placed.now.table.now placed.now.key.now before.now
        → Settles tables contents begun settling.old view
        → OnOk result (Settles tables contents begun settling.new (settled placed.now.table.now placed.now.key.now base.now mine.now view)) }
{
    let base = lent(base);
    let mine = lent(mine);
    let place = RowPlace {
        table: placed.table,
        number: placed.number,
        key: placed.key,
    };
    settling.settle(alloc, &place, before, base.as_ref(), mine.as_ref())
}

/// Makes what is under way at a place pending over the log's row.
fn fold_one<S: RowStore>(
    alloc: Global,
    store: &mut S,
    catalog: &Catalog,
    flight: &Option<Normal>,
    placed: &Placed<'_>,
    settling: &mut Settling,
) -> Result<(), StoreFault>
    requires { IsPlaced catalog.now placed.now }
    ensures reads { ReadsStore S.RowStore Device
        (ShowsSome catalog.now (S.contents store.old)) store.old store.new result }
    ensures within { IsWithin catalog.now settling.old → OnOk result (IsWithin catalog.now settling.new) }
    ensures folded { S.honest store.new → (seen : View) → ShowsRows catalog.now (S.contents store.old) seen
        → (contents : Contents) (begun : ℕ) (view : View) (others : _)
        → IsFoldReady catalog.now flight.now seen (task_of placed.now ∷ others) view
        → Settles catalog.now contents begun settling.old view
        → OnOk result (Settles catalog.now contents begun settling.new
        (settled placed.now.table.now placed.now.key.now (log_rows flight.now seen placed.now.table.now.name placed.now.key.now) (seen.tables placed.now.table.now.name placed.now.key.now) view)) }
{
    let _tables = catalog.tables();
    let (standing, log) = match own_and_log(alloc, store, catalog, flight, placed) {
        Ok(found) => found,
        Err(fault) => return Err(fault),
    };
    settle_at(alloc, placed, &standing, &log, &standing.mine, settling)?;
    Ok(())
}

/// Makes what is under way pending over the log's rows, place by place.
pub(crate) fn fold_flight<S: RowStore>(
    alloc: Global,
    store: &mut S,
    catalog: &Catalog,
    flight: &Option<Normal>,
    places: &[Placed<'_>],
    settling: &mut Settling,
) -> Result<(), StoreFault>
    requires { ArePlaced catalog.now places.now }
    ensures reads { ReadsStore S.RowStore Device
        (ShowsSome catalog.now (S.contents store.old)) store.old store.new result }
    ensures within { IsWithin catalog.now settling.old → OnOk result (IsWithin catalog.now settling.new) }
    ensures folded { S.honest store.new → (seen : View) → ShowsRows catalog.now (S.contents store.old) seen
        → (contents : Contents) (begun : ℕ) (view : View)
        → IsFoldReady catalog.now flight.now seen (map task_of places.now) view
        → Settles catalog.now contents begun settling.old view
        → OnOk result ((end : View) × Settles catalog.now contents begun settling.new end
        × IsFolded catalog.now flight.now seen (map task_of places.now) view end) }
{
    cs_value::laws::catalogs();
    cs_normal::laws::one_key_stands();
    cs_change::laws::net_takes();
    let _tables = catalog.tables();
    for placed in places {
        match fold_one(alloc, store, catalog, flight, placed, settling) {
            Ok(()) => {}
            Err(fault) => return Err(fault),
        }
    }
    Ok(())
}

/// Appends a place of the entry. It answers whether the change is defined on the log's row.
fn survey_one<'a, S: RowStore>(
    alloc: Global,
    store: &mut S,
    catalog: &Catalog,
    flight: &Option<Normal>,
    placed: &Placed<'a>,
    sites: &mut Vec<Site<'a>>,
) -> Result<bool, StoreFault>
    requires { IsPlaced catalog.now placed.now }
    ensures reads { ReadsStore S.RowStore Device
        (ShowsSome catalog.now (S.contents store.old)) store.old store.new result }
    ensures tasks { IfOk result (λ all. all ≡ true → map site_task sites.new.items ≡ map site_task sites.old.items ++ task_of placed.now ∷ []) }
    ensures placed { IfOk result (λ all. AreSitesPlaced catalog.now sites.old.items → AreSitesPlaced catalog.now sites.new.items) }
    ensures surveyed { S.honest store.new → (seen : View) → ShowsRows catalog.now (S.contents store.old) seen
        → IfOk result (λ all. AreOn (log_rows flight.now seen) seen.tables sites.old.items
        → IsSurveyed all (AreOn (log_rows flight.now seen) seen.tables sites.new.items)
        (HasBad (log_rows flight.now seen) (task_of placed.now ∷ []))) }
{
    let (standing, log) = match own_and_log(alloc, store, catalog, flight, placed) {
        Ok(found) => found,
        Err(fault) => return Err(fault),
    };
    let row = lent(&log);
    let Some(theirs) = outcome(alloc, &placed.change, row.as_ref())? else {
        return Ok(false);
    };
    sites.push(Site {
        at: Placed {
            number: placed.number,
            table: placed.table,
            key: placed.key,
            change: placed.change.again(),
        },
        before: Standing {
            mine: standing.mine,
            base: log,
        },
        theirs,
    })?;
    Ok(true)
}

/// Appends the places of the entry. It answers whether each change is defined on the log's row.
pub(crate) fn survey<'a, S: RowStore>(
    alloc: Global,
    store: &mut S,
    catalog: &Catalog,
    flight: &Option<Normal>,
    places: &[Placed<'a>],
    sites: &mut Vec<Site<'a>>,
) -> Result<bool, StoreFault>
    requires { ArePlaced catalog.now places.now }
    ensures reads { ReadsStore S.RowStore Device
        (ShowsSome catalog.now (S.contents store.old)) store.old store.new result }
    ensures tasks { IfOk result (λ all. all ≡ true → map site_task sites.new.items ≡ map site_task sites.old.items ++ map task_of places.now) }
    ensures placed { IfOk result (λ all. AreSitesPlaced catalog.now sites.old.items → AreSitesPlaced catalog.now sites.new.items) }
    ensures surveyed { S.honest store.new → (seen : View) → ShowsRows catalog.now (S.contents store.old) seen
        → IfOk result (λ all. AreOn (log_rows flight.now seen) seen.tables sites.old.items
        → IsSurveyed all (AreOn (log_rows flight.now seen) seen.tables sites.new.items)
        (HasBad (log_rows flight.now seen) (map task_of places.now))) }
{
    for placed in places {
        match survey_one(alloc, store, catalog, flight, placed, sites) {
            Ok(true) => {}
            Ok(false) => return Ok(false),
            Err(fault) => return Err(fault),
        }
    }
    Ok(true)
}
