//! The rows of a table that gets more columns.

ghost use Rattle.std.specs.Prelude.{◌≡◌, IfOk};
ghost use Rattle.cs_normal.specs.State.{State};
ghost use Rattle.cs_store.specs.Contents.{IsListing, stored_tables};
ghost use Rattle.cs_store.specs.States.{AreEdits, Holds};
ghost use Rattle.cs_store.specs.Written.{pairs_of};
ghost use Rattle.cs_store.specs.declared.fault.StoreFault.TheVariants.{Device};
ghost use Rattle.cs_pending.specs.Calls.{ReadsStore};
ghost use Rattle.cs_widening.specs.Widening.{widened, widened_tables};
ghost use Rattle.cs_padding.specs.Steps.{padded_edits};

use crate::padding::{put_padded, repeated};
use cs_record::NULL;
use cs_store::edits::{PlaceEdit, PlaceEdits};
use cs_store::{RowStore, StoreFault, StoredBody};
use cs_value::{Catalog, Memory};
use std::alloc::Global;

/// The edits that put these bytes behind each body of a table, by its number.
fn padded_rows(
    alloc: Global,
    number: u32,
    listed: &[StoredBody],
    more: &[u8],
) -> Result<PlaceEdits, Memory>
    ensures { IfOk result (λ edits. edits ≡ padded_edits number more.now (pairs_of listed.now)) }
{
    let mut edits = PlaceEdits::new(alloc);
    let mut body = Vec::new(alloc);
    for stored in listed {
        body.clear();
        put_padded(stored.body.as_slice(), more, &mut body)?;
        edits.push(&PlaceEdit::new(number, stored.key.as_slice(), Some(body.as_slice())))?;
    }
    Ok(edits)
}

/// The rows of a table, by its number.
fn list_rows<S: RowStore>(store: &mut S, number: u32) -> Result<Vec<StoredBody>, StoreFault>
    ensures reads { ReadsStore S.RowStore Device (Unit {0}) store.old store.new result }
    ensures listed { S.honest store.new → IfOk result (λ listed. IsListing (stored_tables (S.contents store.old) number) (pairs_of listed.items)) }
{
    match store.list(number) {
        Ok(listed) => Ok(listed),
        Err(fault) => Err(fault),
    }
}

/// The edits of a table's rows, where the table gets so many columns: each row has NULL in those that it lacks. There are none where
/// no table of the catalog has the name, or where it has as many columns or more.
///
/// # Errors
///
/// `Memory` and `Device`.
pub fn widen_rows<S: RowStore>(
    alloc: Global,
    store: &mut S,
    catalog: &Catalog,
    name: &str,
    width: usize,
) -> Result<PlaceEdits, StoreFault>
    // The store is only read.
    ensures reads { ReadsStore S.RowStore Device (Unit {0}) store.old store.new result }

    // A commit of the edits makes of the rows that the store holds those with the new columns.
    ensures widened { S.honest store.new → (before : State) → Holds catalog.now (S.contents store.old) before
        → IfOk result (λ edits. AreEdits (widened_tables name.now width catalog.now) (S.contents store.old) edits (widened name.now width before)) }
{
    cs_value::laws::catalogs();
    cs_widening::laws::bytes_widen();
    let tables = catalog.tables();
    let Some(number) = catalog.find(name) else {
        return Ok(PlaceEdits::new(alloc));
    };
    let columns = tables[number].key_marks.as_slice().len();
    if width <= columns {
        return Ok(PlaceEdits::new(alloc));
    }
    let more = repeated(alloc, NULL, width - columns)?;
    let listed = match list_rows(store, number as u32) {
        Ok(listed) => listed,
        Err(fault) => return Err(fault),
    };
    let edits = padded_rows(alloc, number as u32, listed.as_slice(), more.as_slice())?;
    Ok(edits)
}
