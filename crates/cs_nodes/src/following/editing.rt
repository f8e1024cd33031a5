//! Edits of a replica that stands on what is known.

ghost use Rattle.std.specs.Prelude.{◌≡◌, ◌⊎◌, Err, IfErr, List, OnErr, OnOk};
ghost use Rattle.cs_store.specs.declared.log.entry.LogEntry.{LogEntry as Entry};
ghost use Rattle.cs_pending.specs.Calls.{WritesStore};
ghost use Rattle.cs_pending.specs.Edits.{IsOfStore, edit as edit_of};
ghost use Rattle.cs_pending.specs.View.{View};
ghost use Rattle.cs_pending.specs.declared.fault.EditFault.TheVariants.{Device};
ghost use Rattle.cs_pending.specs.position.Shows.{ShowsSomeAt};
ghost use Rattle.cs_replica.specs.Edited.{IsEditedIn, with_pending};
ghost use Rattle.cs_replica.specs.Holding.{Shows};
ghost use Rattle.cs_pending.specs.EditLists.{asked_of_edit, table_of_edit};
ghost use Rattle.cs_nodes.specs.following.Standing.{StandsWhereHonest};

use cs_pending::EditFault;
use cs_replica::Replica;
use cs_store::RowStore;
use cs_value::Edit;
use std::alloc::Global;

/// Makes an edit of one row.
///
/// # Errors
///
/// The first fault of the edit that holds; `Memory` and `Device`. Nothing has changed then.
pub fn edit_row<S: RowStore>(
    alloc: Global,
    replica: &mut Replica<S>,
    edit: &Edit,
) -> Result<(), EditFault>
    // The edit is made, in one commit; at `Err` nothing has changed.
    ensures writes { WritesStore S.RowStore Device (ShowsSomeAt replica.old.catalog replica.old.position (S.contents replica.old.store))
        (IsEditedIn replica.old.catalog replica.old.position (table_of_edit edit.now) (asked_of_edit edit.now) (S.contents replica.old.store)) replica.old.store replica.new.store result }

    // What is told is the fault of the edit, or one of the store.
    ensures refused { S.honest replica.new.store → (view : View) → Shows S.contents replica.old view
        → IfErr result (λ fault. IsOfStore fault ⊎ (edit_of replica.old.catalog (table_of_edit edit.now) (asked_of_edit edit.now) view ≡ Err fault)) }

    // The tables, the version, the number and the flight stay.
    ensures catalog { replica.new.catalog ≡ replica.old.catalog }
    ensures moved { OnOk result (replica.new.position ≡ with_pending replica.old.position replica.new.position.pending) }
    ensures kept { OnErr result (replica.new.position ≡ replica.old.position) }

    // It stands where it stood.
    ensures stands { (known : List Entry) → StandsWhereHonest S.RowStore known replica.old → StandsWhereHonest S.RowStore known replica.new }
{
    cs_replica::laws::edit_stands();
    cs_store::log::laws::catalogs_are_tables();
    match replica.edit(alloc, edit) {
        Ok(()) => {
            replica.shown();
            Ok(())
        }
        Err(fault) => Err(fault),
    }
}
