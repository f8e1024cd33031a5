//! What a replica shows: what is pending, and rows.

ghost use Rattle.std.specs.Prelude.{◌≡◌, ◌≤◌, [], IfOk, length};
ghost use Rattle.cs_store.specs.declared.fault.StoreFault.TheVariants.{Device};
ghost use Rattle.cs_pending.specs.Calls.{ReadsStore};
ghost use Rattle.cs_pending.specs.View.{View};
ghost use Rattle.cs_pending.specs.outgoing.Outgoing.{IsOutgoing};
ghost use Rattle.cs_pending.specs.position.Shows.{ShowsAt, ShowsSomeAt};
ghost use Rattle.cs_replica.specs.Step.{AreRowsIn};

use cs_pending::outgoing::{Outgoing, gather};
use cs_pending::position::Position;
use cs_pending::rows::{RowAtKey, rows_of};
use cs_store::{RowStore, StoreFault};
use cs_value::Catalog;
use std::alloc::Global;

/// What is pending, as one changeset.
pub(crate) fn gather_at<S: RowStore>(
    alloc: Global,
    store: &mut S,
    catalog: &Catalog,
    _position: &Position,
) -> Result<Outgoing, StoreFault>
    ensures reads { ReadsStore S.RowStore Device
        (ShowsSomeAt catalog.now _position.now (S.contents store.old)) store.old store.new result }
    ensures gathered { S.honest store.new → (view : View) → ShowsAt catalog.now (S.contents store.old) _position.now view
        → IfOk result (IsOutgoing catalog.now view.pending) }
{
    match gather(alloc, store, catalog) {
        Ok(pending) => Ok(pending),
        Err(fault) => Err(fault),
    }
}

/// The rows of a table.
pub(crate) fn rows_at<S: RowStore>(
    alloc: Global,
    store: &mut S,
    catalog: &Catalog,
    _position: &Position,
    table: usize,
) -> Result<Vec<RowAtKey>, StoreFault>
    ensures reads { ReadsStore S.RowStore Device
        (ShowsSomeAt catalog.now _position.now (S.contents store.old)) store.old store.new result }
    ensures listed { S.honest store.new → (view : View) → ShowsAt catalog.now (S.contents store.old) _position.now view
        → IfOk result (λ rows. AreRowsIn catalog.now view.tables table rows.items) }
    ensures none { length catalog.now ≤ table → IfOk result (λ rows. rows.items ≡ []) }
{
    match rows_of(alloc, store, catalog, table) {
        Ok(rows) => Ok(rows),
        Err(fault) => Err(fault),
    }
}
