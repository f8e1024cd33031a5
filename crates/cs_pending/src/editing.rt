//! An edit of one place, staged, and what is staged, written.

ghost use Rattle.std.specs.Prelude.{◌≡◌, ◌⊎◌, ℕ, Some, IfErr, IfOk, OnOk, Err, slice_get};
ghost use Rattle.std.specs.FinMap.{len};
ghost use Rattle.cs_store.specs.declared.fault.StoreFault.TheVariants as stored;
ghost use Rattle.cs_pending.specs.Calls.{ReadsStore, WritesStore};
ghost use Rattle.cs_pending.specs.Edits.{IsOfStore, IsWantedAt, edit_at};
ghost use Rattle.cs_pending.specs.Settling.{IsSettledIn, IsStaged, IsWithin, Settles, SettlesSome};
ghost use Rattle.cs_pending.specs.View.{View};
ghost use Rattle.cs_pending.specs.declared.fault.EditFault.TheVariants.{Device};

use crate::fault::EditFault;
use crate::places::{are_same, lent};
use crate::placing::{RowPlace, found_behind};
use crate::settling::Settling;
use crate::wanted::{Wanted, left_by};
use cs_store::{Batch, RowStore, StoreFault};
use cs_value::Catalog;
use std::alloc::Global;

/// Stages an edit of a place behind others: the store is only read, and what the edit changes is settled. After an `Err` a part of it may be.
pub(crate) fn stage_at<S: RowStore>(
    alloc: Global,
    store: &mut S,
    catalog: &Catalog,
    settling: &mut Settling,
    place: &RowPlace<'_>,
    wanted: &Wanted,
) -> Result<(), EditFault>
    requires there { slice_get catalog.now place.now.number ≡ Some place.now.table.now }
    requires wanted { IsWantedAt place.now.table.now place.now.key.now wanted.now }
    ensures reads { ReadsStore S.RowStore Device
        (SettlesSome catalog.now (S.contents store.old) settling.old) store.old store.new result }
    ensures within { IsWithin catalog.now settling.old → OnOk result (IsWithin catalog.now settling.new) }
    ensures staged { S.honest store.new → (begun : ℕ) (view : View) → Settles catalog.now (S.contents store.old) begun settling.old view
        → OnOk result (IsStaged catalog.now (S.contents store.old) begun (edit_at place.now.table.now place.now.key.now wanted.now) view settling.new) }
    ensures refused { S.honest store.new → (begun : ℕ) (view : View) → Settles catalog.now (S.contents store.old) begun settling.old view
        → IfErr result (λ fault. IsOfStore fault ⊎ (edit_at place.now.table.now place.now.key.now wanted.now view ≡ Err fault)) }
{
    cs_value::laws::catalogs();
    let tables = catalog.tables();
    let before = match found_behind(alloc, store, catalog, settling, place) {
        Ok(before) => before,
        Err(fault) => return Err(EditFault::from(fault)),
    };
    let stood = before.mine();
    let mine = match left_by(alloc, wanted, stood.as_ref()) {
        Ok(mine) => mine,
        Err(fault) => return Err(fault),
    };
    let row = lent(&mine);
    if are_same(stood.as_ref(), row.as_ref()) {
        return Ok(());
    }
    let base = before.base();
    settling.settle_at(
        alloc,
        place,
        stood.as_ref(),
        base.as_ref(),
        base.as_ref(),
        row.as_ref(),
    )?;
    Ok(())
}

/// Writes what is settled, in one commit, or nothing where no edit is. Returns how many changes are pending then.
pub(crate) fn write<S: RowStore>(
    alloc: Global,
    store: &mut S,
    catalog: &Catalog,
    settling: Settling,
) -> Result<u64, StoreFault>
    requires { IsWithin catalog.now settling }
    ensures writes { WritesStore S.RowStore stored.Device (Unit {0}) (IsSettledIn catalog.now settling (S.contents store.old)) store.old store.new result }
    ensures counts { IfOk result (λ count. count ≡ settling.count) }
{
    cs_store::laws::commits();
    let _tables = catalog.tables();
    let count = settling.count;
    if settling.is_empty() {
        return Ok(count);
    }
    let batch = Batch {
        rows: settling.rows,
        pending: settling.pending,
        meta: Vec::new(alloc),
        log: None,
    };
    match store.commit(&batch) {
        Ok(_) => Ok(count),
        Err(fault) => Err(fault),
    }
}
