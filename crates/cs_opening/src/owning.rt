//! Whose store it is.

ghost use Rattle.std.specs.Prelude.{◌≡◌, ◌↔◌, Some, IfOk, IsTrue};
ghost use Rattle.cs_store.specs.Contents.{meta_value};
ghost use Rattle.cs_store.specs.Written.{optional_bytes};
ghost use Rattle.cs_store.specs.declared.fault.StoreFault.TheVariants.{Device};
ghost use Rattle.cs_store.specs.declared.names.MetaName.TheVariants as named;
ghost use Rattle.cs_pending.specs.Calls.{ReadsStore};
ghost use Rattle.cs_opening.specs.Owner.{IsIdOrNone, IsOwner, TellsTables};

use crate::values::catalog_in;
use cs_pending::position::{catalog_value, id_value};
use cs_store::{MetaName, RowStore, StoreFault};
use cs_value::{Catalog, Memory};
use std::alloc::Global;

/// Whose store it is, a replica's or a hub's, by the values `id` and `catalog`.
#[derive(Clone, Copy, Debug, PartialEq, Eq)]
pub enum Owner {
    /// That of the replica with this id and these tables, or of the hub with these tables, which has no id.
    This,
    /// Both values can be read, and are those of another.
    Other,
    /// There is an id that is not four bytes, or there are no headers of tables of which there is a catalog.
    Unreadable,
}

/// Whether there is no id, or four bytes.
pub fn reads_id(value: &Option<Vec<u8>>) -> bool
    ensures { IsTrue result ↔ IsIdOrNone (optional_bytes value.now) }
{
    match value {
        None => true,
        Some(bytes) => bytes.len() == 4,
    }
}

/// Whether the value is headers of tables of which there is a catalog.
pub fn reads_tables(alloc: Global, value: &Option<Vec<u8>>) -> Result<bool, Memory>
    ensures { IfOk result (λ reads. IsTrue reads ↔ TellsTables (optional_bytes value.now)) }
{
    let Some(bytes) = value else {
        return Ok(false);
    };
    let read = catalog_in(alloc, bytes.as_slice())?;
    Ok(read.is_some())
}

/// Whether the value is these bytes.
pub fn is_value(value: &Option<Vec<u8>>, bytes: &[u8]) -> bool
    ensures { IsTrue result ↔ (optional_bytes value.now ≡ Some bytes.now) }
{
    match value {
        None => false,
        Some(stored) => stored.as_slice() == bytes,
    }
}

/// Whose values they are.
fn owner_of(
    alloc: Global,
    catalog: &Catalog,
    id: u32,
    stored_id: &Option<Vec<u8>>,
    tables: &Option<Vec<u8>>,
) -> Result<Owner, Memory>
    ensures { IfOk result (IsOwner catalog.now id (optional_bytes stored_id.now) (optional_bytes tables.now)) }
{
    if !reads_id(stored_id) {
        return Ok(Owner::Unreadable);
    }
    if !reads_tables(alloc, tables)? {
        return Ok(Owner::Unreadable);
    }
    let wanted = id_value(alloc, id)?;
    if !is_value(stored_id, wanted.as_slice()) {
        return Ok(Owner::Other);
    }
    let wanted = catalog_value(alloc, catalog)?;
    if !is_value(tables, wanted.as_slice()) {
        return Ok(Owner::Other);
    }
    Ok(Owner::This)
}

/// Whose store it is: that of the replica with this id and these tables, another's, or one of which that can't be read.
pub(crate) fn owner_of_store<S: RowStore>(
    alloc: Global,
    store: &mut S,
    catalog: &Catalog,
    id: u32,
) -> Result<Owner, StoreFault>
    // The store is only read.
    ensures reads { ReadsStore S.RowStore Device (Unit {0}) store.old store.new result }

    // It is told by the values of the store.
    ensures told { S.honest store.new → IfOk result (IsOwner catalog.now id
        (meta_value (S.contents store.old) named.Id) (meta_value (S.contents store.old) named.Catalog)) }
{
    let stored_id = store.meta(MetaName::Id)?;
    let tables = store.meta(MetaName::Catalog)?;
    match owner_of(alloc, catalog, id, &stored_id, &tables) {
        Ok(owner) => Ok(owner),
        Err(fault) => Err(StoreFault::from(fault)),
    }
}
