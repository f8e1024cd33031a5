//! Any store, opened as that of a replica.

ghost use Rattle.std.specs.Prelude.{◌≡◌, ◌≢◌, ◌↔◌, IfErr, IfOk, IfSome, IsTrue};
ghost use Rattle.cs_normal.specs.Normal.{FitsCatalog};
ghost use Rattle.cs_store.specs.Contents.{nothing};
ghost use Rattle.cs_store.specs.declared.fault.StoreFault.TheVariants as stored;
ghost use Rattle.cs_pending.specs.Calls.{ReadsStore, WritesStore};
ghost use Rattle.cs_pending.specs.position.Shows.{flown};
ghost use Rattle.cs_opening.specs.Fresh.{IsSameOrFirst};
ghost use Rattle.cs_opening.specs.Opens.{AreOf, IsOpenFault, IsReplicaAt, StandsAt};
ghost use Rattle.cs_opening.specs.Steps.{HoldsPlaces, IsJudged, IsTold};
ghost use Rattle.cs_opening.specs.declared.fault.OpenFault.TheVariants.{Device};
ghost use Rattle.cs_opening.specs.declared.owning.Owner.TheVariants.{This};

use crate::fault::OpenFault;
use crate::flying::flight_leads;
use crate::fresh::open_fresh;
use crate::judging::count_tables;
use crate::leading::Room;
use crate::owning::{Owner, owner_of_store};
use crate::reading::read_position;
use crate::values::in_range;
use cs_normal::Normal;
use cs_pending::position::Position;
use cs_store::{MetaName, RowStore, StoreFault};
use cs_value::Catalog;
use std::alloc::Global;

/// Whether all that a store holds is what its place says, it has no log, and no old value of pending changes.
fn holds_places<S: RowStore>(store: &mut S, catalog: &Catalog) -> Result<bool, StoreFault>
    ensures reads { ReadsStore S.RowStore stored.Device (Unit {0}) store.old store.new result }
    ensures told { S.honest store.new → IfOk result (λ is. IsTrue is ↔ HoldsPlaces catalog.now (S.contents store.old)) }
{
    let old = store.meta(MetaName::Pending)?;
    if old.is_some() {
        return Ok(false);
    }
    let entries = store.log_len()?;
    if entries != 0 {
        return Ok(false);
    }
    let whole = store.check(catalog)?;
    Ok(whole)
}

/// How many changes are pending, if a store is sound. It is sound where all that it holds is what its place says, and pending
/// changes and the push under way lead to the rows.
fn count_sound<S: RowStore>(
    alloc: Global,
    store: &mut S,
    catalog: &Catalog,
    flight: &Option<Normal>,
) -> Result<Option<u64>, StoreFault>
    ensures reads { ReadsStore S.RowStore stored.Device (Unit {0}) store.old store.new result }
    ensures told { S.honest store.new → FitsCatalog catalog.now (flown flight.now)
        → IfOk result (IsJudged catalog.now (S.contents store.old) (flown flight.now)) }
{
    cs_value::laws::catalogs();
    cs_normal::laws::one_key_stands();
    cs_normal::laws::set_columns_fit();
    cs_change::laws::net_takes();
    cs_record::laws::rows();
    cs_changeset::laws::changesets();
    let tables = catalog.tables();
    match holds_places(store, catalog) {
        Ok(true) => {}
        Ok(false) => return Ok(None),
        Err(fault) => return Err(fault),
    }
    let mut room = Room::new(alloc);
    let pending = match count_tables(alloc, store, tables, 0, &mut room) {
        Ok(Some(pending)) => pending,
        Ok(None) => return Ok(None),
        Err(fault) => return Err(fault),
    };
    match flight_leads(alloc, store, catalog, flight, &mut room) {
        Ok(true) => Ok(Some(pending)),
        Ok(false) => Ok(None),
        Err(fault) => Err(fault),
    }
}

/// At which position the store of this replica is, if it is at one.
fn position_at<S: RowStore>(
    alloc: Global,
    store: &mut S,
    catalog: &Catalog,
    id: u32,
) -> Result<Option<Position>, StoreFault>
    ensures reads { ReadsStore S.RowStore stored.Device (Unit {0}) store.old store.new result }
    ensures told { S.honest store.new → AreOf catalog.now id (S.contents store.old) This
        → IfOk result (IsTold catalog.now id (S.contents store.old)) }
    ensures of { IfOk result (λ found. IfSome found (λ position. position.id ≡ id)) }
{
    cs_value::laws::catalogs();
    cs_normal::laws::one_key_stands();
    cs_normal::laws::set_columns_fit();
    cs_change::laws::net_takes();
    let _tables = catalog.tables();
    let said = match read_position(alloc, store, catalog, id) {
        Ok(Some(said)) => said,
        Ok(None) => return Ok(None),
        Err(fault) => return Err(fault),
    };
    in_range(said.version);
    match count_sound(alloc, store, catalog, &said.flight) {
        Ok(Some(pending)) => Ok(Some(Position {
            id,
            version: said.version,
            number: said.number,
            flight: said.flight,
            pending,
        })),
        Ok(None) => Ok(None),
        Err(fault) => Err(fault),
    }
}

/// At which position a store that holds something is, or why it can't be opened.
fn open_there<S: RowStore>(
    alloc: Global,
    store: &mut S,
    catalog: &Catalog,
    id: u32,
) -> Result<Position, OpenFault>
    ensures reads { ReadsStore S.RowStore Device (Unit {0}) store.old store.new result }
    ensures opened { S.honest store.new → IfOk result (StandsAt catalog.now id (S.contents store.old)) }
    ensures of { IfOk result (λ position. position.id ≡ id) }
    ensures refused { S.honest store.new → S.contents store.old ≢ nothing
        → IfErr result (IsOpenFault catalog.now id (S.contents store.old)) }
{
    let owner = match owner_of_store(alloc, store, catalog, id) {
        Ok(owner) => owner,
        Err(fault) => return Err(OpenFault::from(fault)),
    };
    match owner {
        Owner::Unreadable => return Err(OpenFault::Damaged),
        Owner::Other => return Err(OpenFault::Mismatch),
        Owner::This => {}
    }
    match position_at(alloc, store, catalog, id) {
        Ok(Some(position)) => Ok(position),
        Ok(None) => Err(OpenFault::Damaged),
        Err(fault) => Err(OpenFault::from(fault)),
    }
}

/// Opens a store for the replica with this id and these tables, and answers its position. A store that holds nothing is laid out, in
/// one commit, and its position is the first. Any other is only read. It is opened where all that it holds is that of this replica
/// at one position. Each row is read once, and again where a change of it is pending or under way.
///
/// # Errors
///
/// `Damaged` where the value `id` or `catalog` can't be read. Then `Mismatch` where they are those of another replica or of none.
/// Then `Damaged` where the store shows this replica at no position. `Device` where a call of the store failed, and `Memory`:
/// both may come before. Nothing has changed then.
pub fn open_at<S: RowStore>(
    alloc: Global,
    store: &mut S,
    catalog: &Catalog,
    id: u32,
) -> Result<Position, OpenFault>
    // The store is as it was, or it held nothing and is laid out; at `Err` nothing has changed.
    ensures writes { WritesStore S.RowStore Device (Unit {0})
        (IsSameOrFirst catalog.now id (S.contents store.old)) store.old store.new result }

    // The store is that of this replica at the position: the first where it held nothing.
    ensures opened { S.honest store.new → IfOk result (IsReplicaAt catalog.now id (S.contents store.old) (S.contents store.new)) }

    // Whatever the store is, the position is one of this replica.
    ensures of { IfOk result (λ position. position.id ≡ id) }

    // What is told of the store holds.
    ensures refused { S.honest store.new → IfErr result (IsOpenFault catalog.now id (S.contents store.old)) }
{
    match open_fresh(alloc, store, catalog, id) {
        Ok(Some(position)) => return Ok(position),
        Ok(None) => {}
        Err(fault) => return Err(OpenFault::from(fault)),
    }
    match open_there(alloc, store, catalog, id) {
        Ok(position) => Ok(position),
        Err(fault) => Err(fault),
    }
}
