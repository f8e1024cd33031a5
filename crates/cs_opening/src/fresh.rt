//! A store that holds nothing, and the first position of a replica.

ghost use Rattle.std.specs.Prelude.{◌≡◌, ◌↔◌, [], None, IfOk, IfSome, IsTrue};
ghost use Rattle.std.specs.List.{AllByRecursion};
ghost use Rattle.cs_store.specs.Contents.{meta_value, nothing};
ghost use Rattle.cs_store.specs.Laws.{value_after};
ghost use Rattle.cs_store.specs.declared.fault.StoreFault.TheVariants.{Device};
ghost use Rattle.cs_store.specs.declared.names.MetaName.{MetaName as Name};
ghost use Rattle.cs_pending.specs.Calls.{ReadsStore, WritesStore};
ghost use Rattle.cs_pending.specs.position.Values.{value_of};
ghost use Rattle.cs_opening.specs.Fresh.{IsLaidOut, IsOpenedFresh, IsSameOrFirst, first_position};

use cs_pending::position::{Position, catalog_value, id_value, number_value};
use cs_store::edits::PlaceEdits;
use cs_store::{Batch, MetaEdit, MetaName, RowStore, StoreFault};
use cs_value::{Catalog, Memory};
use std::alloc::Global;

/// A catalog of no table.
fn no_tables(alloc: Global) -> Catalog
    ensures { result ≡ [] }
{
    match Catalog::new(Vec::new(alloc)) {
        Ok(catalog) => catalog,
        Err(_) => unreachable!(),
    }
}

/// Whether none of these names has a value.
pub fn have_none<S: RowStore>(store: &mut S, names: &[MetaName]) -> Result<bool, StoreFault>
    ensures reads { ReadsStore S.RowStore Device (Unit {0}) store.old store.new result }
    ensures found { S.honest store.new → IfOk result (λ none.
        IsTrue none ↔ AllByRecursion (λ (name : Name). meta_value (S.contents store.old) name ≡ None) names.now) }
{
    let Some((name, others)) = names.split_first() else {
        return Ok(true);
    };
    let value = store.meta(*name)?;
    if value.is_some() {
        return Ok(false);
    }
    match have_none(store, others) {
        Ok(none) => Ok(none),
        Err(fault) => Err(fault),
    }
}

/// Whether the store holds nothing: no row, no pending change, no value, no entry.
pub fn holds_nothing<S: RowStore>(alloc: Global, store: &mut S) -> Result<bool, StoreFault>
    ensures reads { ReadsStore S.RowStore Device (Unit {0}) store.old store.new result }
    ensures nothing { S.honest store.new → IfOk result (λ is. IsTrue is ↔ (S.contents store.old ≡ nothing)) }
{
    // A store that was laid out has a value, and no more of it is read.
    let names = [
        MetaName::Catalog,
        MetaName::Id,
        MetaName::Version,
        MetaName::Number,
        MetaName::Flight,
        MetaName::Pending,
    ];
    match have_none(store, &names) {
        Ok(true) => {}
        Ok(false) => return Ok(false),
        Err(fault) => return Err(fault),
    }
    let entries = match store.log_len() {
        Ok(entries) => entries,
        Err(fault) => return Err(fault),
    };
    if entries != 0 {
        return Ok(false);
    }
    match store.check(&no_tables(alloc)) {
        Ok(bare) => Ok(bare),
        Err(fault) => Err(fault),
    }
}

/// The values of the first position.
fn first_values(alloc: Global, catalog: &Catalog, id: u32) -> Result<Vec<MetaEdit>, Memory>
    ensures { IfOk result (λ edits. (name : Name)
        → value_after edits.items name None ≡ value_of catalog.now (first_position id) name) }
{
    let mut edits = Vec::with_capacity(alloc, 4)?;
    let value = Some(id_value(alloc, id)?);
    edits.push(MetaEdit {
        name: MetaName::Id,
        value,
    })?;
    let value = Some(number_value(alloc, 0)?);
    edits.push(MetaEdit {
        name: MetaName::Version,
        value,
    })?;
    let value = Some(number_value(alloc, 0)?);
    edits.push(MetaEdit {
        name: MetaName::Number,
        value,
    })?;
    let value = Some(catalog_value(alloc, catalog)?);
    edits.push(MetaEdit {
        name: MetaName::Catalog,
        value,
    })?;
    Ok(edits)
}

/// Writes the values of the first position.
fn lay_out<S: RowStore>(
    alloc: Global,
    store: &mut S,
    catalog: &Catalog,
    id: u32,
) -> Result<(), StoreFault>
    ensures writes { WritesStore S.RowStore Device (Unit {0})
        (IsLaidOut catalog.now id (S.contents store.old)) store.old store.new result }
{
    cs_store::laws::commits();
    let batch = Batch {
        rows: PlaceEdits::new(alloc),
        pending: PlaceEdits::new(alloc),
        meta: first_values(alloc, catalog, id)?,
        log: None,
    };
    match store.commit(&batch) {
        Ok(()) => Ok(()),
        Err(fault) => Err(fault),
    }
}

/// Lays out a store that holds nothing as that of a replica with this id and these tables, in one commit, and answers its
/// position. Where the store holds anything, it answers none, and nothing has changed.
pub(crate) fn open_fresh<S: RowStore>(
    alloc: Global,
    store: &mut S,
    catalog: &Catalog,
    id: u32,
) -> Result<Option<Position>, StoreFault>
    // The store is as it was, or it held nothing and is laid out; at `Err` nothing has changed.
    ensures writes { WritesStore S.RowStore Device (Unit {0})
        (IsSameOrFirst catalog.now id (S.contents store.old)) store.old store.new result }

    // A store that held nothing is laid out, and its position is the first; any other is as it was.
    ensures opened { S.honest store.new → IfOk result (IsOpenedFresh catalog.now id (S.contents store.old) (S.contents store.new)) }

    // Whatever the store is, no other position is answered.
    ensures first { IfOk result (λ found. IfSome found (λ position. position ≡ first_position id)) }
{
    let fresh = match holds_nothing(alloc, store) {
        Ok(fresh) => fresh,
        Err(fault) => return Err(fault),
    };
    if !fresh {
        return Ok(None);
    }
    match lay_out(alloc, store, catalog, id) {
        Ok(()) => {}
        Err(fault) => return Err(fault),
    }
    Ok(Some(Position {
        id,
        version: 0,
        number: 0,
        flight: None,
        pending: 0,
    }))
}
