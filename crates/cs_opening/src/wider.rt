//! A replica's store, opened by the tables that it keeps: those that are handed, or wider ones, since a log may have widened them.

ghost use Rattle.std.specs.Prelude.{◌≡◌, ◌↔◌, ◌++◌, ℕ, List, false, replicate, IfErr, IfOk, IfSome, IsTrue, MatchOption};
ghost use Rattle.cs_value.specs.declared.catalog.TableDef.{TableDef as Table};
ghost use Rattle.cs_store.specs.declared.fault.StoreFault.TheVariants as stored;
ghost use Rattle.cs_pending.specs.Calls.{ReadsStore, WritesStore};
ghost use Rattle.cs_opening.specs.Wider.{AreWider, IsOpenedBy, IsRefused, IsWiderTable, KeepsWider, MayBeOpened, OpensBy};
ghost use Rattle.cs_opening.specs.declared.fault.OpenFault.TheVariants.{Device};

use crate::OpenFault;
use crate::moving::open_store;
use crate::values::catalog_in;
use cs_pending::position::Position;
use cs_store::{MetaName, RowStore, StoreFault};
use cs_value::{Catalog, TableDef};
use std::alloc::Global;

/// A replica's store, opened.
#[derive(Drop)]
pub struct OpenedReplica {
    /// The tables that the store keeps.
    pub catalog: Catalog,
    /// Where the replica stands.
    pub position: Position,
}

/// Whether none is a mark of a key column.
fn have_no_key(marks: &[bool]) -> bool
    ensures { IsTrue result ↔ ((count : ℕ) × (marks.now ≡ replicate count false)) }
{
    let Some((mark, more)) = marks.split_first() else {
        return true;
    };
    if *mark {
        return false;
    }
    have_no_key(more)
}

/// Whether marks have others behind them, none of these of a key column.
fn have_behind(marks: &[bool], all: &[bool]) -> bool
    ensures { IsTrue result ↔ ((count : ℕ) × (all.now ≡ marks.now ++ replicate count false)) }
{
    let Some((mark, more)) = marks.split_first() else {
        return have_no_key(all);
    };
    let Some((first, others)) = all.split_first() else {
        return false;
    };
    if *mark != *first {
        return false;
    }
    have_behind(more, others)
}

/// Whether a stored table has the handed columns, and behind them no key column.
fn is_wider(handed: &TableDef, table: &TableDef) -> bool
    ensures { IsTrue result ↔ IsWiderTable handed.now table.now }
{
    table.name.as_str() == handed.name.as_str()
        && have_behind(handed.key_marks.as_slice(), table.key_marks.as_slice())
}

/// Whether each of the stored tables does, in the same order.
fn are_wider(handed: &[TableDef], tables: &[TableDef]) -> bool
    ensures { IsTrue result ↔ AreWider handed.now tables.now }
{
    let Some((first, more)) = handed.split_first() else {
        return tables.is_empty();
    };
    let Some((table, others)) = tables.split_first() else {
        return false;
    };
    if !is_wider(first, table) {
        return false;
    }
    are_wider(more, others)
}

/// The tables that a store keeps, where they are the handed ones or wider.
fn kept_tables<S: RowStore>(
    alloc: Global,
    store: &mut S,
    handed: &Catalog,
) -> Result<Option<Catalog>, StoreFault>
    ensures reads { ReadsStore S.RowStore stored.Device (Unit {0}) store.old store.new result }
    ensures told { S.honest store.new → IfOk result (λ kept. MatchOption kept
        ((tables : List Table) → KeepsWider handed.now (S.contents store.old) tables → ⊥)
        (KeepsWider handed.now (S.contents store.old))) }
    ensures wider { IfOk result (λ kept. IfSome kept (AreWider handed.now)) }
{
    let value = store.meta(MetaName::Catalog)?;
    let Some(bytes) = value else {
        return Ok(None);
    };
    let Some(kept) = catalog_in(alloc, bytes.as_slice())? else {
        return Ok(None);
    };
    if !are_wider(handed.tables(), kept.tables()) {
        return Ok(None);
    }
    Ok(Some(kept))
}

/// The tables by which a store is opened: those that it keeps, where they are the handed ones or wider, and else the handed ones.
fn opening_tables<S: RowStore>(
    alloc: Global,
    store: &mut S,
    handed: &Catalog,
) -> Result<Catalog, StoreFault>
    ensures reads { ReadsStore S.RowStore stored.Device (Unit {0}) store.old store.new result }
    ensures told { S.honest store.new → IfOk result (OpensBy handed.now (S.contents store.old)) }
    ensures wider { IfOk result (AreWider handed.now) }
{
    crate::laws::tables_kept();
    match kept_tables(alloc, store, handed) {
        Ok(Some(kept)) => Ok(kept),
        Ok(None) => match handed.copy(alloc) {
            Ok(copied) => Ok(copied),
            Err(fault) => Err(StoreFault::from(fault)),
        },
        Err(fault) => Err(fault),
    }
}

/// Opens a store for the replica with this id, to which these tables were handed, and answers its position and the tables that it
/// keeps. Since they were handed, a log may have given them more columns. Where the store keeps such, or the handed ones, it is
/// opened by them as `moving::open_store` does, and any other store by the handed ones.
///
/// # Errors
///
/// Those of `moving::open_store`. Nothing has changed then.
pub fn open_replica<S: RowStore>(
    alloc: Global,
    store: &mut S,
    handed: &Catalog,
    id: u32,
) -> Result<OpenedReplica, OpenFault>
    // The store is as it was, or laid out, or its value is moved, in one commit; at `Err` nothing has changed.
    ensures writes { WritesStore S.RowStore Device (Unit {0})
        (MayBeOpened handed.now id (S.contents store.old)) store.old store.new result }

    // The store is that of this replica at the position, by the tables that are answered.
    ensures opened { S.honest store.new → IfOk result (λ opened.
        IsOpenedBy handed.now id (S.contents store.old) (S.contents store.new) opened.catalog opened.position) }

    // Whatever the store is, the position is one of this replica, and the tables are as wide as those that are handed or wider.
    ensures of { IfOk result (λ opened. opened.position.id ≡ id) }
    ensures wider { IfOk result (λ opened. AreWider handed.now opened.catalog) }

    // What is told of the store holds.
    ensures refused { S.honest store.new → IfErr result (IsRefused handed.now id (S.contents store.old)) }
{
    let catalog = match opening_tables(alloc, store, handed) {
        Ok(catalog) => catalog,
        Err(fault) => return Err(OpenFault::from(fault)),
    };
    match open_store(alloc, store, &catalog, id) {
        Ok(position) => Ok(OpenedReplica { catalog, position }),
        Err(fault) => Err(fault),
    }
}
