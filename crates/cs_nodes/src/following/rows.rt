//! The rows of a replica that stands on what is known.

ghost use Rattle.std.specs.Prelude.{◌≡◌, ◌≤◌, [], List, IfOk, Some, length, slice_get};
ghost use Rattle.cs_store.specs.declared.log.entry.LogEntry.{LogEntry as Entry};
ghost use Rattle.cs_pending.specs.Calls.{ReadsStore};
ghost use Rattle.cs_pending.specs.View.{View};
ghost use Rattle.cs_pending.specs.position.Shows.{ShowsSomeAt};
ghost use Rattle.cs_replica.specs.Holding.{Shows};
ghost use Rattle.cs_pending.specs.rows.Rows.{AreRowsOf};
ghost use Rattle.cs_store.specs.declared.fault.StoreFault.TheVariants.{Device};
ghost use Rattle.cs_value.specs.declared.catalog.TableDef.{TableDef};
ghost use Rattle.cs_nodes.specs.following.Standing.{StandsWhereHonest};

use cs_pending::rows::RowAtKey;
use cs_replica::Replica;
use cs_store::{RowStore, StoreFault};
use std::alloc::Global;

/// The rows of the table with this number in the catalog. Each stands behind the bytes of its key, and they are in the order of
/// these bytes. There are none past the last table. The store is only read.
pub fn rows_of<S: RowStore>(
    alloc: Global,
    replica: &mut Replica<S>,
    table: usize,
) -> Result<Vec<RowAtKey>, StoreFault>
    // They are the rows that the store shows.
    ensures listed { S.honest replica.new.store → (view : View) → Shows S.contents replica.old view → (def : TableDef)
        → slice_get replica.old.catalog table ≡ Some def → IfOk result (λ rows. AreRowsOf (view.tables def.name) rows.items) }
    ensures none { length replica.old.catalog ≤ table → IfOk result (λ rows. rows.items ≡ []) }

    // The store is only read, and the replica stays as it is.
    ensures reads { ReadsStore S.RowStore Device
        (ShowsSomeAt replica.old.catalog replica.old.position (S.contents replica.old.store)) replica.old.store replica.new.store result }
    ensures catalog { replica.new.catalog ≡ replica.old.catalog }
    ensures kept { replica.new.position ≡ replica.old.position }
    ensures stands { (known : List Entry) → StandsWhereHonest S.RowStore known replica.old → StandsWhereHonest S.RowStore known replica.new }
{
    match replica.rows(alloc, table) {
        Ok(rows) => Ok(rows),
        Err(fault) => Err(fault),
    }
}
