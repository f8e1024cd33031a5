//! The end of a push.

ghost use Rattle.std.specs.Prelude.{◌≡◌, ◌<◌, ◌-◌, ◌^◌, IsSome, OnOk, OnErr};
ghost use Rattle.cs_store.specs.declared.fault.StoreFault.TheVariants.{Device};
ghost use Rattle.cs_pending.specs.Calls.{WritesStore};
ghost use Rattle.cs_pending.specs.position.Shows.{ShowsSomeAt};
ghost use Rattle.cs_exchange.specs.pushing.Pushes.{IsConfirmedIn, confirmed};

use crate::pushing::values::confirm_batch;
use cs_pending::position::Position;
use cs_store::{RowStore, StoreFault};
use cs_value::Catalog;
use std::alloc::Global;

/// Ends the push that is under way, where it has become the next entry of the hub's log: the replica has come one entry further.
/// Rows and pending changes stay. It is one commit of two values.
///
/// # Errors
///
/// Those of the store; nothing has changed then.
pub fn confirm<S: RowStore>(
    alloc: Global,
    store: &mut S,
    catalog: &Catalog,
    position: &mut Position,
) -> Result<(), StoreFault>
    requires under_way { IsSome position.old.flight }
    requires room { position.old.version < 2 ^ 64 - 1 }

    // The store was written once and whole, or not at all.
    ensures writes { WritesStore S.RowStore Device
        (ShowsSomeAt catalog.now position.old (S.contents store.old))
        (IsConfirmedIn catalog.now position.old (S.contents store.old)) store.old store.new result }

    // The position has moved where the push is ended, and only there.
    ensures moved { OnOk result (position.new ≡ confirmed position.old) }
    ensures kept { OnErr result (position.new ≡ position.old) }
{
    cs_store::laws::commits();
    cs_pending::position::laws::commit_shows();
    let _tables = catalog.tables();
    let batch = confirm_batch(alloc, position.version + 1)?;
    match store.commit(&batch) {
        Ok(_) => {}
        Err(fault) => return Err(fault),
    }
    position.version += 1;
    position.flight = None;
    Ok(())
}
