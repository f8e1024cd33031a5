//! Any store, opened; a value of pending changes is moved.

ghost use Rattle.std.specs.Prelude.{◌≡◌, IfErr, IfOk};
ghost use Rattle.cs_pending.specs.Calls.{WritesStore};
ghost use Rattle.cs_opening.specs.moving.Moved.{IsSameOrOpened, IsStoreFault, IsStoreOpened};
ghost use Rattle.cs_opening.specs.declared.fault.OpenFault.TheVariants.{Device};

use crate::moving::planning::plan_move;
use crate::{OpenFault, open_at};
use cs_pending::position::Position;
use cs_store::RowStore;
use cs_value::Catalog;
use std::alloc::Global;

/// Opens a store for the replica with this id and these tables, and answers its position, as `crate::open_at` does. A store that
/// holds nothing is laid out, in one commit. A store may keep what is pending as one value, `pending`, a changeset of the tables
/// in normal form, and no change at a place. If it would show this replica with each change at its place, the value is moved
/// there, in one commit. Any other store is only read.
///
/// # Errors
///
/// Those of `crate::open_at`, each where it can't be opened and no value is moved. Nothing has changed then.
pub fn open_store<S: RowStore>(
    alloc: Global,
    store: &mut S,
    catalog: &Catalog,
    id: u32,
) -> Result<Position, OpenFault>
    // The store is as it was, or laid out, or its value is moved, in one commit; at `Err` nothing has changed.
    ensures writes { WritesStore S.RowStore Device (Unit {0})
        (IsSameOrOpened catalog.now id (S.contents store.old)) store.old store.new result }

    // The store is that of this replica at the position.
    ensures opened { S.honest store.new → IfOk result (IsStoreOpened catalog.now id (S.contents store.old) (S.contents store.new)) }

    // Whatever the store is, the position is one of this replica.
    ensures of { IfOk result (λ position. position.id ≡ id) }

    // What is told of the store holds.
    ensures refused { S.honest store.new → IfErr result (IsStoreFault catalog.now id (S.contents store.old)) }
{
    match plan_move(alloc, store, catalog, id) {
        Ok(Some(planned)) => match store.commit(&planned.batch) {
            Ok(()) => Ok(planned.position),
            Err(fault) => Err(OpenFault::from(fault)),
        },
        Ok(None) => match open_at(alloc, store, catalog, id) {
            Ok(position) => Ok(position),
            Err(fault) => Err(fault),
        },
        Err(fault) => Err(OpenFault::from(fault)),
    }
}
