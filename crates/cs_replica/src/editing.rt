//! Edits of a replica's rows, with the count of what is pending.

ghost use Rattle.std.specs.Prelude.{◌≡◌, ◌⊎◌, Err, IfErr, OnErr, OnOk};
ghost use Rattle.std.specs.FinMap.{len};
ghost use Rattle.cs_pending.specs.Calls.{WritesStore};
ghost use Rattle.cs_pending.specs.EditLists.{AreEdited, IsEditsFault};
ghost use Rattle.cs_pending.specs.Edits.{IsOfStore, edit as edit_of};
ghost use Rattle.cs_pending.specs.Seeking.{asked_of};
ghost use Rattle.cs_pending.specs.View.{View};
ghost use Rattle.cs_pending.specs.declared.fault.EditFault.TheVariants.{Device};
ghost use Rattle.cs_pending.specs.declared.fault.EditsFault.TheVariants as several;
ghost use Rattle.cs_pending.specs.position.Shows.{ShowsAt, ShowsSomeAt};
ghost use Rattle.cs_replica.specs.Edited.{IsEditedIn, IsSteppedIn, with_pending};

use cs_pending::position::Position;
use cs_pending::{EditFault, EditsFault, RowEdit, edit_row, edit_rows};
use cs_store::RowStore;
use cs_value::{Catalog, Edit};
use std::alloc::Global;

/// Edits a row of the table of a name.
pub(crate) fn edit_at<S: RowStore>(
    alloc: Global,
    store: &mut S,
    catalog: &Catalog,
    position: &mut Position,
    name: &str,
    edit: &RowEdit<'_>,
) -> Result<(), EditFault>
    ensures writes { WritesStore S.RowStore Device (ShowsSomeAt catalog.now position.old (S.contents store.old))
        (IsEditedIn catalog.now position.old name.now (asked_of edit.now) (S.contents store.old)) store.old store.new result }
    ensures refused { S.honest store.new → (view : View) → ShowsAt catalog.now (S.contents store.old) position.old view
        → IfErr result (λ fault. IsOfStore fault ⊎ (edit_of catalog.now name.now (asked_of edit.now) view ≡ Err fault)) }
    ensures moved { OnOk result (position.new ≡ with_pending position.old position.new.pending) }
    ensures counted { S.honest store.new → ShowsSomeAt catalog.now position.old (S.contents store.old)
        → OnOk result (position.new.pending ≡ len (S.contents store.new).pending) }
    ensures kept { OnErr result (position.new ≡ position.old) }
{
    cs_pending::laws::edit_keeps_before();
    let _tables = catalog.tables();
    match edit_row(alloc, store, catalog, name, edit, position.pending) {
        Ok(count) => {
            position.pending = count;
            Ok(())
        }
        Err(fault) => Err(fault),
    }
}

/// Makes edits one behind another, all or none.
pub(crate) fn edit_all_at<S: RowStore>(
    alloc: Global,
    store: &mut S,
    catalog: &Catalog,
    position: &mut Position,
    edits: &[Edit],
) -> Result<(), EditsFault>
    ensures writes { WritesStore S.RowStore several.Device (ShowsSomeAt catalog.now position.old (S.contents store.old))
        (IsSteppedIn catalog.now position.old (AreEdited catalog.now edits.now) (S.contents store.old)) store.old store.new result }
    ensures refused { S.honest store.new → (view : View) → ShowsAt catalog.now (S.contents store.old) position.old view
        → IfErr result (IsEditsFault catalog.now edits.now view) }
    ensures moved { OnOk result (position.new ≡ with_pending position.old position.new.pending) }
    ensures counted { S.honest store.new → ShowsSomeAt catalog.now position.old (S.contents store.old)
        → OnOk result (position.new.pending ≡ len (S.contents store.new).pending) }
    ensures kept { OnErr result (position.new ≡ position.old) }
{
    cs_pending::laws::edit_keeps_before();
    let _tables = catalog.tables();
    match edit_rows(alloc, store, catalog, edits, position.pending) {
        Ok(count) => {
            position.pending = count;
            Ok(())
        }
        Err(fault) => Err(fault),
    }
}
