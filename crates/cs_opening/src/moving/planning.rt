//! Whether a store keeps a value that may be moved, judged on a copy.

ghost use Rattle.std.specs.Prelude.{◌≡◌, List, None, Some, IfOk, IfSome, IsUtf8};
ghost use Rattle.std.specs.List.{AllByRecursion};
ghost use Rattle.cs_value.specs.declared.catalog.TableDef.{TableDef as Table};
ghost use Rattle.cs_normal.specs.Normal.{FitsCatalog};
ghost use Rattle.cs_normal.specs.declared.normal.TableChanges.{TableChanges};
ghost use Rattle.cs_store.specs.Contents.{meta_value};
ghost use Rattle.cs_store.specs.Written.{optional_bytes};
ghost use Rattle.cs_store.specs.declared.fault.StoreFault.TheVariants as stored;
ghost use Rattle.cs_store.specs.declared.names.MetaName.TheVariants as named;
ghost use Rattle.cs_pending.specs.Calls.{ReadsStore};
ghost use Rattle.cs_opening.specs.moving.Moved.{NeverMoves};
ghost use Rattle.cs_opening.specs.moving.Steps.{IsKeptValue, IsPlan};
ghost use Rattle.cs_opening.specs.Laws.{IsOfContents};
ghost use Rattle.cs_opening.specs.Opens.{IsOpenFault, IsReplicaAt};
ghost use Rattle.cs_opening.specs.declared.fault.OpenFault.{OpenFault as Fault};

use crate::copying::copy_of;
use crate::moving::edits::moving_batch;
use crate::values::value_in;
use crate::{OpenFault, open_at};
use cs_map_store::MapStore;
use cs_normal::Normal;
use cs_pending::position::Position;
use cs_store::{Batch, MetaName, RowStore, StoreFault};
use cs_value::{Catalog, Memory, TableDef};
use std::alloc::{AllocError, Global};

/// What is written where a value is moved, and where the replica then stands.
#[derive(Drop)]
pub(crate) struct Plan {
    pub position: Position,
    pub batch: Batch,
}

/// The names of tables are text.
fn are_named(tables: &[TableDef])
    ensures { AllByRecursion (λ (table : Table). IsUtf8 table.name) tables.now }
{
    let Some((first, others)) = tables.split_first() else {
        return;
    };
    let _name = first.name.as_str();
    are_named(others);
}

/// The changes of the value that a store keeps, if it keeps one, and has an id.
fn kept_value<S: RowStore>(
    alloc: Global,
    store: &mut S,
    catalog: &Catalog,
) -> Result<Option<Normal>, StoreFault>
    ensures reads { ReadsStore S.RowStore stored.Device (Unit {0}) store.old store.new result }
    ensures found { S.honest store.new → IfOk result (λ read. IfSome read (IsKeptValue catalog.now (S.contents store.old))) }
    ensures only { S.honest store.new → (changes : List TableChanges) → IsKeptValue catalog.now (S.contents store.old) changes
        → IfOk result (λ read. read ≡ Some changes) }
    ensures fits { IfOk result (λ read. IfSome read (FitsCatalog catalog.now)) }
{
    let id = store.meta(MetaName::Id)?;
    if id.is_none() {
        return Ok(None);
    }
    let value = store.meta(MetaName::Pending)?;
    let Some(bytes) = value else {
        return Ok(None);
    };
    match value_in(alloc, catalog, bytes.as_slice()) {
        Ok(read) => Ok(read),
        Err(fault) => Err(StoreFault::from(fault)),
    }
}

/// Where the replica with this id stands on a store in memory, if it does.
fn position_in(
    alloc: Global,
    copy: &mut MapStore,
    catalog: &Catalog,
    id: u32,
) -> Result<Option<Position>, Memory>
    ensures found { IfOk result (λ found. IfSome found (IsReplicaAt catalog.now id copy.old.held copy.new.held)) }
    ensures none { IfOk result (λ found. found ≡ None → (fault : Fault) × IsOfContents fault × IsOpenFault catalog.now id copy.old.held fault) }
    ensures of { IfOk result (λ found. IfSome found (λ position. position.id ≡ id)) }
{
    match open_at(alloc, copy, catalog, id) {
        Ok(position) => Ok(Some(position)),
        Err(OpenFault::Damaged | OpenFault::Mismatch) => Ok(None),
        Err(OpenFault::Memory | OpenFault::Device) => Err(AllocError),
    }
}

/// How a value is moved, if the store keeps one, and then shows the replica with this id.
pub(crate) fn plan_move<S: RowStore>(
    alloc: Global,
    store: &mut S,
    catalog: &Catalog,
    id: u32,
) -> Result<Option<Plan>, StoreFault>
    ensures reads { ReadsStore S.RowStore stored.Device (Unit {0}) store.old store.new result }
    ensures planned { S.honest store.new → IfOk result (λ planned. IfSome planned (λ planned. IsPlan catalog.now id (S.contents store.old) planned.position planned.batch)) }
    ensures none { S.honest store.new → IfOk result (λ planned. planned ≡ None → NeverMoves catalog.now id (S.contents store.old)) }
    ensures of { IfOk result (λ planned. IfSome planned (λ planned. planned.position.id ≡ id)) }
{
    crate::laws::openings();
    crate::laws::shown_is_whole();
    are_named(catalog.tables());
    let changes = match kept_value(alloc, store, catalog) {
        Ok(Some(changes)) => changes,
        Ok(None) => return Ok(None),
        Err(fault) => return Err(fault),
    };
    let mut copy = match copy_of(alloc, store, catalog) {
        Ok(Some(copy)) => copy,
        Ok(None) => return Ok(None),
        Err(fault) => return Err(fault),
    };
    let batch = moving_batch(alloc, catalog, &changes)?;
    match copy.commit(&batch) {
        Ok(()) => {}
        Err(_) => return Err(StoreFault::Memory),
    }
    match position_in(alloc, &mut copy, catalog, id) {
        Ok(Some(position)) => Ok(Some(Plan { position, batch })),
        Ok(None) => Ok(None),
        Err(fault) => Err(StoreFault::from(fault)),
    }
}
