//! Whether the push under way leads to the rows before what is pending.

ghost use Rattle.std.specs.Prelude.{◌≡◌, ◌↔◌, Some, IfOk, IsTrue, slice_get};
ghost use Rattle.std.specs.List.{AllByRecursion};
ghost use Rattle.cs_pending.specs.NormalTasks.{IsOfOne};
ghost use Rattle.cs_normal.specs.Normal.{FitsCatalog};
ghost use Rattle.cs_store.specs.declared.fault.StoreFault.TheVariants.{Device};
ghost use Rattle.cs_pending.specs.Calls.{ReadsStore};
ghost use Rattle.cs_pending.specs.Shows.{ShowsRows, ShowsSome};
ghost use Rattle.cs_pending.specs.View.{View, middle};
ghost use Rattle.cs_pending.specs.position.Shows.{flown};
ghost use Rattle.cs_opening.specs.Steps.{ChangesLead, FlightLeads, IsNetTo};

use crate::leading::{Room, is_net_to};
use cs_change::Change;
use cs_normal::keyed::KeyedChanges;
use cs_normal::{Normal, TableChanges};
use cs_pending::{RowPlace, lent, standing_at};
use cs_store::{RowStore, StoreFault};
use cs_value::{Catalog, TableDef};
use std::alloc::Global;

/// Whether a change leads to what stood at its place before what is pending.
fn leads_before<S: RowStore>(
    alloc: Global,
    store: &mut S,
    catalog: &Catalog,
    place: &RowPlace<'_>,
    change: &Change<'_>,
    room: &mut Room,
) -> Result<bool, StoreFault>
    requires { slice_get catalog.now place.now.number ≡ Some place.now.table.now }
    ensures reads { ReadsStore S.RowStore Device
        (ShowsSome catalog.now (S.contents store.old)) store.old store.new result }
    ensures told { S.honest store.new → (view : View) → ShowsRows catalog.now (S.contents store.old) view
        → IfOk result (λ is. IsTrue is ↔ IsNetTo place.now.table.now.key_marks change.now (middle view place.now.table.now.name place.now.key.now)) }
{
    let standing = match standing_at(alloc, store, catalog, place) {
        Ok(standing) => standing,
        Err(fault) => return Err(fault),
    };
    let base = lent(&standing.base);
    match is_net_to(
        place.table.key_marks.as_slice(),
        change,
        base.as_ref(),
        room,
    ) {
        Ok(is) => Ok(is),
        Err(fault) => Err(StoreFault::from(fault)),
    }
}

/// Whether the changes of a table lead to what stood at their places before what is pending.
fn all_lead_before<S: RowStore>(
    alloc: Global,
    store: &mut S,
    catalog: &Catalog,
    table: &TableDef,
    number: u32,
    changes: &KeyedChanges,
    room: &mut Room,
) -> Result<bool, StoreFault>
    requires { slice_get catalog.now number ≡ Some table.now }
    ensures reads { ReadsStore S.RowStore Device
        (ShowsSome catalog.now (S.contents store.old)) store.old store.new result }
    ensures told { S.honest store.new → (view : View) → ShowsRows catalog.now (S.contents store.old) view
        → IfOk result (λ all. IsTrue all ↔ ChangesLead view table.now.name table.now.key_marks changes.now) }
{
    for at in 0..changes.len() {
        let Some((key, change)) = changes.entry(at) else {
            unreachable!()
        };
        let place = RowPlace { table, number, key };
        match leads_before(alloc, store, catalog, &place, &change, room) {
            Ok(true) => {}
            Ok(false) => return Ok(false),
            Err(fault) => return Err(fault),
        }
    }
    Ok(true)
}

/// Whether the changes of tables of the catalog lead to what stood at their places before what is pending.
fn tables_lead_before<S: RowStore>(
    alloc: Global,
    store: &mut S,
    catalog: &Catalog,
    changes: &[TableChanges],
    room: &mut Room,
) -> Result<bool, StoreFault>
    requires { AllByRecursion (IsOfOne catalog.now) changes.now }
    ensures reads { ReadsStore S.RowStore Device
        (ShowsSome catalog.now (S.contents store.old)) store.old store.new result }
    ensures told { S.honest store.new → (view : View) → ShowsRows catalog.now (S.contents store.old) view
        → IfOk result (λ all. IsTrue all ↔ FlightLeads view changes.now) }
{
    cs_value::laws::catalogs();
    let tables = catalog.tables();
    let Some((first, others)) = changes.split_first() else {
        return Ok(true);
    };
    let Some(number) = catalog.find(first.name.as_str()) else {
        unreachable!()
    };
    match all_lead_before(
        alloc,
        store,
        catalog,
        &tables[number],
        number as u32,
        &first.changes,
        room,
    ) {
        Ok(true) => {}
        Ok(false) => return Ok(false),
        Err(fault) => return Err(fault),
    }
    match tables_lead_before(alloc, store, catalog, others, room) {
        Ok(all) => Ok(all),
        Err(fault) => Err(fault),
    }
}

/// Whether the push under way, if there is one, is of the catalog's tables and leads to the rows before what is pending.
pub(crate) fn flight_leads<S: RowStore>(
    alloc: Global,
    store: &mut S,
    catalog: &Catalog,
    flight: &Option<Normal>,
    room: &mut Room,
) -> Result<bool, StoreFault>
    ensures reads { ReadsStore S.RowStore Device
        (ShowsSome catalog.now (S.contents store.old)) store.old store.new result }
    ensures told { S.honest store.new → (view : View) → ShowsRows catalog.now (S.contents store.old) view
        → FitsCatalog catalog.now (flown flight.now) → IfOk result (λ all. IsTrue all ↔ FlightLeads view (flown flight.now)) }
{
    let Some(changes) = flight else {
        return Ok(true);
    };
    if !changes.fits(catalog) {
        return Ok(false);
    }
    match tables_lead_before(alloc, store, catalog, changes.tables(), room) {
        Ok(all) => Ok(all),
        Err(fault) => Err(fault),
    }
}
