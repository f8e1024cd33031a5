//! Whether a store is what a hub's store is.

ghost use Rattle.std.specs.Prelude.{◌↔◌, IfOk, IsTrue};
ghost use Rattle.cs_store.specs.declared.fault.StoreFault.TheVariants.{Device};
ghost use Rattle.cs_pending.specs.Calls.{ReadsStore};
ghost use Rattle.cs_opening.specs.declared.owning.Owner.TheVariants.{This};
ghost use Rattle.cs_hub.specs.log_opening.Opens.{AreOf};
ghost use Rattle.cs_hub.specs.log_opening.Steps.{IsCounted, PendsNone, PendsNoneBelow};

use cs_opening::have_none;
use cs_store::{MetaName, RowStore, StoreFault};
use cs_value::Catalog;

/// Whether no change of the table with this number is pending.
fn pends_none<S: RowStore>(store: &mut S, number: u32) -> Result<bool, StoreFault>
    ensures reads { ReadsStore S.RowStore Device (Unit {0}) store.old store.new result }
    ensures told { S.honest store.new → IfOk result (λ none. IsTrue none ↔ PendsNone (S.contents store.old) number) }
{
    let listed = store.pend_list(number)?;
    Ok(listed.is_empty())
}

/// Whether no change of the tables with the numbers below this one is pending.
fn pends_none_below<S: RowStore>(store: &mut S, end: u32) -> Result<bool, StoreFault>
    ensures reads { ReadsStore S.RowStore Device (Unit {0}) store.old store.new result }
    ensures told { S.honest store.new → IfOk result (λ none. IsTrue none ↔ PendsNoneBelow (S.contents store.old) end) }
{
    for number in 0..end {
        match pends_none(store, number) {
            Ok(true) => {}
            Ok(false) => return Ok(false),
            Err(fault) => return Err(fault),
        }
    }
    Ok(true)
}

/// How many entries the store of a hub with these tables has, if it is what a hub's store is. The owner has looked at the values
/// `id` and `catalog`.
pub(crate) fn count_entries<S: RowStore>(
    store: &mut S,
    catalog: &Catalog,
) -> Result<Option<u32>, StoreFault>
    ensures reads { ReadsStore S.RowStore Device (Unit {0}) store.old store.new result }
    ensures told { S.honest store.new → AreOf catalog.now (S.contents store.old) This
        → IfOk result (IsCounted catalog.now (S.contents store.old)) }
{
    let tables = catalog.tables();
    let names = [
        MetaName::Version,
        MetaName::Number,
        MetaName::Flight,
        MetaName::Pending,
    ];
    match have_none(store, &names) {
        Ok(true) => {}
        Ok(false) => return Ok(None),
        Err(fault) => return Err(fault),
    }
    match store.check(catalog) {
        Ok(true) => {}
        Ok(false) => return Ok(None),
        Err(fault) => return Err(fault),
    }
    match pends_none_below(store, tables.len() as u32) {
        Ok(true) => {}
        Ok(false) => return Ok(None),
        Err(fault) => return Err(fault),
    }
    let count = match store.log_len() {
        Ok(count) => count,
        Err(fault) => return Err(fault),
    };
    match store.log_is_whole() {
        Ok(true) => Ok(Some(count)),
        Ok(false) => Ok(None),
        Err(fault) => Err(fault),
    }
}
