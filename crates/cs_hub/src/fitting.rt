//! Whether an entry is one of a catalog's tables.

ghost use Rattle.std.specs.Prelude.{◌↔◌, IfOk, IsTrue};
ghost use Rattle.cs_store.specs.log.Entry.{MayWiden};
ghost use Rattle.cs_store.specs.log.Stored.{FitsBody, IsEntryOf};
ghost use Rattle.cs_store.specs.declared.log.body.Body.TheVariants.{Changes as ChangesOf, Widen as WidenOf};

use cs_normal::Normal;
use cs_store::log::laws::most_bytes;
use cs_store::log::{Body, LogEntry, MAX_CHANGESET};
use cs_value::{Catalog, Memory};
use cs_widening::widen;
use std::alloc::Global;

/// Whether a changeset in normal form is one of these tables, no larger than an entry's may be.
fn are_changes_of(alloc: Global, catalog: &Catalog, changes: &Normal) -> Result<bool, Memory>
    ensures { IfOk result (λ are. IsTrue are ↔ FitsBody catalog.now (ChangesOf changes.now)) }
{
    let _tables = changes.tables();
    if !changes.fits(catalog) {
        return Ok(false);
    }
    let mut spelled = Vec::new(alloc);
    changes.encode(&mut spelled)?;
    Ok(spelled.len() as u64 <= MAX_CHANGESET)
}

/// Whether the table with this name may be widened to so many columns.
fn may_widen(alloc: Global, catalog: &Catalog, table: &str, width: u32) -> Result<bool, Memory>
    ensures { IfOk result (λ may. IsTrue may ↔ MayWiden catalog.now (WidenOf table.now width)) }
{
    Ok(widen(alloc, catalog, table, width as usize)?.is_some())
}

/// Whether an entry is one of these tables, no larger than one may be.
pub(crate) fn is_entry_of(
    alloc: Global,
    catalog: &Catalog,
    entry: &LogEntry,
) -> Result<bool, Memory>
    ensures { IfOk result (λ is. IsTrue is ↔ IsEntryOf catalog.now entry.now) }
{
    most_bytes();
    let _tables = catalog.tables();
    match &entry.body {
        Body::Changes(changes) => are_changes_of(alloc, catalog, changes),
        Body::Widen { table, width } => may_widen(alloc, catalog, table.as_str(), *width),
    }
}
