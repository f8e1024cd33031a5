//! What is pending, as the changeset of a push.

ghost use Rattle.std.specs.Prelude.{◌≡◌, ◌≤◌, ◌∷◌, List, length, Some, IfOk};
ghost use Rattle.cs_store.specs.declared.log.entry.TheConstants.{MAX_CHANGESET as MOST_BYTES};
ghost use Rattle.cs_normal.specs.Normal.{FitsCatalog, IsNormalChangeset, normal_spelling};
ghost use Rattle.cs_normal.specs.declared.normal.TableChanges.{TableChanges};
ghost use Rattle.cs_store.specs.declared.fault.StoreFault.TheVariants.{Device};
ghost use Rattle.cs_pending.specs.Calls.{ReadsStore};
ghost use Rattle.cs_pending.specs.Shows.{ShowsRows, ShowsSome};
ghost use Rattle.cs_pending.specs.View.{View};
ghost use Rattle.cs_pending.specs.outgoing.Outgoing.{IsOutgoing};

use crate::outgoing::putting::put_tables;
use cs_normal::Normal;
use cs_store::log::{BodyFault, MAX_CHANGESET, read_changes};
use cs_store::{RowStore, StoreFault};
use cs_value::{Catalog, Memory};
use std::alloc::{AllocError, Global};

/// What is pending in a store.
#[derive(Drop)]
pub enum Outgoing {
    /// Nothing.
    Nothing,
    /// More than `MAX_CHANGESET` bytes of changes.
    TooLarge,
    /// These changes, in normal form.
    Changes(Normal),
}

/// The changes that these bytes spell, if they are a changeset of the tables in normal form.
fn changes_in(alloc: Global, catalog: &Catalog, bytes: &[u8]) -> Result<Option<Normal>, Memory>
    ensures { (changes : List TableChanges) → IsNormalChangeset changes → FitsCatalog catalog.now changes
        → bytes.now ≡ normal_spelling changes → IfOk result (λ read. read ≡ Some changes) }
{
    match read_changes(alloc, catalog, bytes) {
        Ok(changes) => Ok(Some(changes)),
        Err(BodyFault::NoBody) => Ok(None),
        Err(BodyFault::Memory) => Err(AllocError),
    }
}

/// What is pending in a store, as one changeset in normal form. What the store has that is no change of its table is told to the
/// store.
pub fn gather<S: RowStore>(
    alloc: Global,
    store: &mut S,
    catalog: &Catalog,
) -> Result<Outgoing, StoreFault>
    // The store is only read.
    ensures reads { ReadsStore S.RowStore Device
        (ShowsSome catalog.now (S.contents store.old)) store.old store.new result }

    // It is what the store shows as pending.
    ensures gathered { S.honest store.new → (view : View) → ShowsRows catalog.now (S.contents store.old) view
        → IfOk result (IsOutgoing catalog.now view.pending) }
{
    cs_value::laws::catalogs();
    cs_normal::laws::one_key_stands();
    cs_normal::laws::headers_fit();
    cs_normal::laws::catalog_is_apart();
    cs_normal::laws::fitting_is_normal();
    cs_change::laws::net_takes();
    let mut bytes = Vec::new(alloc);
    match put_tables(alloc, store, catalog.tables(), 0, &mut bytes) {
        Ok(()) => {}
        Err(fault) => return Err(fault),
    }
    let written = bytes.as_slice();
    if written.is_empty() {
        return Ok(Outgoing::Nothing);
    }
    if written.len() as u64 > MAX_CHANGESET {
        return Ok(Outgoing::TooLarge);
    }
    let Some(changes) = changes_in(alloc, catalog, written)? else {
        return Err(store.misread());
    };
    Ok(Outgoing::Changes(changes))
}
