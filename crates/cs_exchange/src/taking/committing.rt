//! The commit of a taken entry.

ghost use Rattle.std.specs.Prelude.{◌≡◌, map, IfOk};
ghost use Rattle.std.specs.FinMap.{len};
ghost use Rattle.cs_store.specs.declared.fault.StoreFault.TheVariants.{Device};
ghost use Rattle.cs_pending.specs.Calls.{WritesStore};
ghost use Rattle.cs_pending.specs.Settling.{IsWithin, Settles};
ghost use Rattle.cs_pending.specs.View.{View};
ghost use Rattle.cs_pending.specs.position.Shows.{ShowsAt, ShowsSomeAt};
ghost use Rattle.cs_pending.specs.position.Values.{value_part};
ghost use Rattle.cs_exchange.specs.taking.Steps.{IsCommitted, WritesAll, next_values};

use cs_pending::Settling;
use cs_pending::position::{Position, number_value};
use cs_store::{Batch, MetaEdit, MetaName, RowStore, StoreFault};
use cs_value::{Catalog, Memory};
use std::alloc::Global;

/// The values of a version with nothing under way.
pub(crate) fn values_at(alloc: Global, version: u64) -> Result<Vec<MetaEdit>, Memory>
    ensures { IfOk result (λ edits. map value_part edits.items ≡ next_values version) }
{
    let next = MetaEdit {
        name: MetaName::Version,
        value: Some(number_value(alloc, version)?),
    };
    let flight = MetaEdit {
        name: MetaName::Flight,
        value: None,
    };
    let mut edits = Vec::with_capacity(alloc, 2)?;
    edits.push(next)?;
    edits.push(flight)?;
    Ok(edits)
}

/// The gathered edits and a version, as a commit.
fn batch_at(alloc: Global, settling: Settling, version: u64) -> Result<Batch, Memory>
    ensures { IfOk result (WritesAll settling (next_values version)) }
{
    let meta = values_at(alloc, version)?;
    Ok(Batch {
        rows: settling.rows,
        pending: settling.pending,
        meta,
        log: None,
    })
}

/// Commits the gathered edits: the position comes to a version, and nothing is under way. It answers how many changes are
/// pending then.
pub(crate) fn commit_taken<S: RowStore>(
    alloc: Global,
    store: &mut S,
    catalog: &Catalog,
    position: &Position,
    next: u64,
    settling: Settling,
) -> Result<u64, StoreFault>
    requires within { IsWithin catalog.now settling }
    ensures writes { WritesStore S.RowStore Device
        (ShowsSomeAt catalog.now position.now (S.contents store.old))
        (IsCommitted catalog.now position.now next settling (S.contents store.old)) store.old store.new result }
    ensures counted { IfOk result (λ count. count ≡ settling.count) }
{
    cs_store::laws::commits();
    cs_pending::position::laws::commit_shows();
    let _tables = catalog.tables();
    let count = settling.count;
    let batch = batch_at(alloc, settling, next)?;
    match store.commit(&batch) {
        Ok(_) => Ok(count),
        Err(fault) => Err(fault),
    }
}
