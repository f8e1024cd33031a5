//! A store that holds nothing, laid out as a hub's without entries.

ghost use Rattle.std.specs.Prelude.{◌≡◌, None, IfOk};
ghost use Rattle.cs_store.specs.Laws.{value_after};
ghost use Rattle.cs_store.specs.declared.fault.StoreFault.TheVariants.{Device};
ghost use Rattle.cs_store.specs.declared.names.MetaName.{MetaName as Name};
ghost use Rattle.cs_pending.specs.Calls.{WritesStore};
ghost use Rattle.cs_hub.specs.log_store.Shows.{hub_value};
ghost use Rattle.cs_hub.specs.log_opening.Opens.{IsSameOrFirst};
ghost use Rattle.cs_hub.specs.log_opening.Steps.{IsLaidOut, IsOpenedFresh};

use cs_opening::holds_nothing;
use cs_pending::position::catalog_value;
use cs_store::edits::PlaceEdits;
use cs_store::{Batch, MetaEdit, MetaName, RowStore, StoreFault};
use cs_value::{Catalog, Memory};
use std::alloc::Global;

/// The values of a hub.
fn hub_values(alloc: Global, catalog: &Catalog) -> Result<Vec<MetaEdit>, Memory>
    ensures { IfOk result (λ edits. (name : Name)
        → value_after edits.items name None ≡ hub_value catalog.now name) }
{
    let mut edits = Vec::with_capacity(alloc, 1)?;
    let value = Some(catalog_value(alloc, catalog)?);
    edits.push(MetaEdit {
        name: MetaName::Catalog,
        value,
    })?;
    Ok(edits)
}

/// Writes the values of a hub.
fn lay_out<S: RowStore>(alloc: Global, store: &mut S, catalog: &Catalog) -> Result<(), StoreFault>
    ensures writes { WritesStore S.RowStore Device (Unit {0})
        (IsLaidOut catalog.now (S.contents store.old)) store.old store.new result }
{
    cs_store::laws::commits();
    cs_store::log::laws::empty_is_log();
    let batch = Batch {
        rows: PlaceEdits::new(alloc),
        pending: PlaceEdits::new(alloc),
        meta: hub_values(alloc, catalog)?,
        log: None,
    };
    match store.commit(&batch) {
        Ok(()) => Ok(()),
        Err(fault) => Err(fault),
    }
}

/// Lays out a store that holds nothing as that of a hub with these tables, in one commit. Where the store holds anything, it
/// answers `false`, and nothing has changed.
pub(crate) fn open_fresh<S: RowStore>(
    alloc: Global,
    store: &mut S,
    catalog: &Catalog,
) -> Result<bool, StoreFault>
    // The store is as it was, or it held nothing and is laid out; at `Err` nothing has changed.
    ensures writes { WritesStore S.RowStore Device (Unit {0})
        (IsSameOrFirst catalog.now (S.contents store.old)) store.old store.new result }

    // A store that held nothing is laid out; any other is as it was.
    ensures opened { S.honest store.new → IfOk result (IsOpenedFresh catalog.now (S.contents store.old) (S.contents store.new)) }
{
    match holds_nothing(alloc, store) {
        Ok(true) => {}
        Ok(false) => return Ok(false),
        Err(fault) => return Err(fault),
    }
    match lay_out(alloc, store, catalog) {
        Ok(()) => Ok(true),
        Err(fault) => Err(fault),
    }
}
