//! Whose store it is.

ghost use Rattle.std.specs.Prelude.{IfOk};
ghost use Rattle.cs_store.specs.Contents.{meta_value};
ghost use Rattle.cs_store.specs.Written.{optional_bytes};
ghost use Rattle.cs_store.specs.declared.fault.StoreFault.TheVariants.{Device};
ghost use Rattle.cs_store.specs.declared.names.MetaName.TheVariants as named;
ghost use Rattle.cs_pending.specs.Calls.{ReadsStore};
ghost use Rattle.cs_hub.specs.log_opening.Owner.{IsHubOwner};

use cs_opening::{Owner, is_value, reads_id, reads_tables};
use cs_pending::position::catalog_value;
use cs_store::{MetaName, RowStore, StoreFault};
use cs_value::{Catalog, Memory};
use std::alloc::Global;

/// Whose values they are.
fn hub_owner_of(
    alloc: Global,
    catalog: &Catalog,
    stored_id: &Option<Vec<u8>>,
    tables: &Option<Vec<u8>>,
) -> Result<Owner, Memory>
    ensures { IfOk result (IsHubOwner catalog.now (optional_bytes stored_id.now) (optional_bytes tables.now)) }
{
    if !reads_id(stored_id) {
        return Ok(Owner::Unreadable);
    }
    if !reads_tables(alloc, tables)? {
        return Ok(Owner::Unreadable);
    }
    // A store with an id is a replica's.
    if stored_id.is_some() {
        return Ok(Owner::Other);
    }
    let wanted = catalog_value(alloc, catalog)?;
    if !is_value(tables, wanted.as_slice()) {
        return Ok(Owner::Other);
    }
    Ok(Owner::This)
}

/// Whose store it is: that of a hub that opened with these tables, another's, or one of which that can't be read.
pub(crate) fn owner_of_hub_store<S: RowStore>(
    alloc: Global,
    store: &mut S,
    catalog: &Catalog,
) -> Result<Owner, StoreFault>
    // The store is only read.
    ensures reads { ReadsStore S.RowStore Device (Unit {0}) store.old store.new result }

    // It is told by the values of the store.
    ensures told { S.honest store.new → IfOk result (IsHubOwner catalog.now
        (meta_value (S.contents store.old) named.Id) (meta_value (S.contents store.old) named.Catalog)) }
{
    let stored_id = store.meta(MetaName::Id)?;
    let tables = store.meta(MetaName::Catalog)?;
    match hub_owner_of(alloc, catalog, &stored_id, &tables) {
        Ok(owner) => Ok(owner),
        Err(fault) => Err(StoreFault::from(fault)),
    }
}
