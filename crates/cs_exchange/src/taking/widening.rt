//! An entry that widens a table, taken.

ghost use Rattle.std.specs.Prelude.{◌≡◌, ◌⊎◌, ◌↔◌, ◌-◌, ◌^◌, ◌<◌, length, map, Err, IfErr, IfOk, IfSome, IsSome, OnErr, OnOk};
ghost use Rattle.std.specs.FinMap.{len};
ghost use Rattle.cs_padding.specs.Pending.{widened_view};
ghost use Rattle.cs_pending.specs.Calls.{ReadsStore, WritesStore};
ghost use Rattle.cs_pending.specs.Settling.{IsWithin, Settles};
ghost use Rattle.cs_pending.specs.View.{View};
ghost use Rattle.cs_pending.specs.position.Shows.{ShowsAt, ShowsSomeAt};
ghost use Rattle.cs_pending.specs.position.Values.{value_part};
ghost use Rattle.cs_store.specs.log.Entry.{MayWiden};
ghost use Rattle.cs_store.specs.declared.fault.StoreFault.TheVariants as stored;
ghost use Rattle.cs_store.specs.declared.log.body.Body.TheVariants.{Widen};
ghost use Rattle.cs_widening.specs.Widening.{CanWiden, widened_tables};
ghost use Rattle.cs_exchange.specs.taking.Steps.{IsCommittedWider, IsWideSettling, WritesAll, wider_values};
ghost use Rattle.cs_exchange.specs.taking.Takes.{IfStopped, IsWidenedIn, taken};
ghost use Rattle.cs_exchange.specs.declared.taking.fault.TakeFault.TheVariants.{BadEntry, Device};

use crate::taking::committing::values_at;
use crate::taking::fault::TakeFault;
use crate::taking::flight::fold_all;
use cs_padding::{widen_pending_with, widen_rows};
use cs_pending::Settling;
use cs_pending::position::{Position, catalog_value};
use cs_store::{Batch, MetaEdit, MetaName, RowStore, StoreFault};
use cs_value::{Catalog, Memory};
use cs_widening::widen;
use std::alloc::Global;

/// The edits by which what is under way is pending, and rows and pending changes have the new columns.
fn gather_wider<S: RowStore>(
    alloc: Global,
    store: &mut S,
    catalog: &Catalog,
    position: &Position,
    name: &str,
    width: usize,
) -> Result<Settling, StoreFault>
    requires { CanWiden catalog.now name.now width }
    ensures reads { ReadsStore S.RowStore stored.Device
        (ShowsSomeAt catalog.now position.now (S.contents store.old)) store.old store.new result }
    ensures settled { S.honest store.new → (seen : View) → ShowsAt catalog.now (S.contents store.old) position.now seen
        → IfOk result (IsWideSettling catalog.now position.now name.now width (S.contents store.old) seen) }
{
    cs_padding::laws::sound_widens();
    let _tables = catalog.tables();
    let mut settling = Settling::new(alloc, position.pending);
    match fold_all(alloc, store, catalog, &position.flight, &mut settling) {
        Ok(()) => {}
        Err(fault) => return Err(fault),
    }
    let rows = match widen_rows(alloc, store, catalog, name, width) {
        Ok(rows) => rows,
        Err(fault) => return Err(fault),
    };
    let pending = match widen_pending_with(alloc, store, catalog, name, width, &settling.pending) {
        Ok(pending) => pending,
        Err(fault) => return Err(fault),
    };
    Ok(Settling {
        rows,
        pending,
        count: settling.count,
    })
}

/// The values of a version with nothing under way, and of a catalog.
fn wider_values(alloc: Global, version: u64, wide: &Catalog) -> Result<Vec<MetaEdit>, Memory>
    ensures { IfOk result (λ edits. map value_part edits.items ≡ wider_values version wide.now) }
{
    let mut edits = values_at(alloc, version)?;
    edits.push(MetaEdit {
        name: MetaName::Catalog,
        value: Some(catalog_value(alloc, wide)?),
    })?;
    Ok(edits)
}

/// The gathered edits, a version and a catalog, as a commit.
fn wider_batch(
    alloc: Global,
    settling: Settling,
    version: u64,
    wide: &Catalog,
) -> Result<Batch, Memory>
    ensures { IfOk result (WritesAll settling (wider_values version wide.now)) }
{
    let meta = wider_values(alloc, version, wide)?;
    Ok(Batch {
        rows: settling.rows,
        pending: settling.pending,
        meta,
        log: None,
    })
}

/// Commits the gathered edits and the catalog: the position comes to the next version, and nothing is under way. It answers how many
/// changes are pending then.
fn commit_wider<S: RowStore>(
    alloc: Global,
    store: &mut S,
    catalog: &Catalog,
    position: &Position,
    wide: &Catalog,
    next: u64,
    settling: Settling,
) -> Result<u64, StoreFault>
    requires { length wide.now ≡ length catalog.now }
    ensures writes { WritesStore S.RowStore stored.Device
        (ShowsSomeAt catalog.now position.now (S.contents store.old))
        (IsCommittedWider catalog.now wide.now position.now next settling (S.contents store.old)) store.old store.new result }
    ensures counted { IfOk result (λ count. count ≡ settling.count) }
{
    cs_store::laws::commits();
    cs_pending::position::laws::commit_shows_others();
    let _tables = catalog.tables();
    let count = settling.count;
    let batch = wider_batch(alloc, settling, next, wide)?;
    match store.commit(&batch) {
        Ok(_) => Ok(count),
        Err(fault) => Err(fault),
    }
}

/// Takes an entry that widens a table that may be widened so. It answers how many changes are pending then.
fn take_wider<S: RowStore>(
    alloc: Global,
    store: &mut S,
    catalog: &Catalog,
    position: &Position,
    wide: &Catalog,
    name: &str,
    width: u32,
) -> Result<u64, StoreFault>
    requires may { MayWiden catalog.now (Widen name.now width) }
    requires wide { wide.now ≡ widened_tables name.now width catalog.now }
    requires room { position.now.version < 2 ^ 64 - 1 }
    ensures writes { WritesStore S.RowStore stored.Device
        (ShowsSomeAt catalog.now position.now (S.contents store.old))
        (IsWidenedIn catalog.now position.now name.now width (S.contents store.old)) store.old store.new result }
    ensures counted { S.honest store.new → ShowsSomeAt catalog.now position.now (S.contents store.old)
        → IfOk result (λ count. count ≡ len (S.contents store.new).pending) }
{
    let next = position.version + 1;
    let settling = match gather_wider(alloc, store, catalog, position, name, width as usize) {
        Ok(settling) => settling,
        Err(fault) => return Err(fault),
    };
    match commit_wider(alloc, store, catalog, position, wide, next, settling) {
        Ok(count) => Ok(count),
        Err(fault) => Err(fault),
    }
}

/// Takes the entry of the log at the position's version, where it gives a table so many columns. What is under way becomes pending, as
/// where an entry without changes is taken. Each row and each pending change of the table has the new columns, rows NULL in them. Nothing
/// is under way, the version is one more, and the catalog is the wider one. It is one commit, and nobody is asked.
///
/// # Errors
///
/// `BadEntry` where the table may not be widened so, or where there is no next version; `Memory` and `Device`. Nothing has changed then.
pub fn take_widen<S: RowStore>(
    alloc: Global,
    store: &mut S,
    catalog: &mut Catalog,
    position: &mut Position,
    name: &str,
    width: u32,
) -> Result<(), TakeFault>
    // The entry was taken, in one commit, or nothing has changed.
    ensures writes { WritesStore S.RowStore Device
        (ShowsSomeAt catalog.old position.old (S.contents store.old))
        (IsWidenedIn catalog.old position.old name.now width (S.contents store.old)) store.old store.new result }

    // The position and the catalog have moved where it was, and the count of pending changes is right.
    ensures moved { OnOk result (position.new ≡ taken position.old position.new.pending) }
    ensures wide { OnOk result (catalog.new ≡ widened_tables name.now width catalog.old) }
    ensures counted { S.honest store.new → ShowsSomeAt catalog.old position.old (S.contents store.old)
        → OnOk result (position.new.pending ≡ len (S.contents store.new).pending) }
    ensures kept { OnErr result (position.new ≡ position.old) }
    ensures narrow { OnErr result (catalog.new ≡ catalog.old) }

    // What is told of the entry holds.
    ensures bad { result ≡ Err BadEntry
        → (position.old.version ≡ 2 ^ 64 - 1) ⊎ (MayWiden catalog.old (Widen name.now width) → ⊥) }
    ensures last { position.old.version ≡ 2 ^ 64 - 1 → result ≡ Err BadEntry }
    ensures unasked { IfErr result (λ fault. IfStopped fault (λ conflict. ⊥)) }
{
    if position.version == u64::MAX {
        return Err(TakeFault::BadEntry);
    }
    let Some(wide) = widen(alloc, catalog, name, width as usize)? else {
        return Err(TakeFault::BadEntry);
    };
    let count = match take_wider(alloc, store, catalog, position, &wide, name, width) {
        Ok(count) => count,
        Err(fault) => return Err(TakeFault::from(fault)),
    };
    position.version += 1;
    position.flight = None;
    position.pending = count;
    *catalog = wide;
    Ok(())
}
