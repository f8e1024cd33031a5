//! What the commits of pushes write.

ghost use Rattle.std.specs.Prelude.{◌≡◌, ◌<◌, ◌^◌, ◌∷◌, [], length, IfOk};
ghost use Rattle.cs_exchange.specs.pushing.Batches.{WritesValues, all_clear, confirm_values, push_values};

use crate::pushing::clearing::clear_tables;
use cs_normal::Normal;
use cs_pending::position::{flight_value, number_value};
use cs_store::edits::PlaceEdits;
use cs_store::{Batch, MetaEdit, MetaName};
use cs_value::{Memory, TableDef};
use std::alloc::Global;

/// Two edits of values.
fn two_values(alloc: Global, first: MetaEdit, second: MetaEdit) -> Result<Vec<MetaEdit>, Memory>
    ensures { IfOk result (λ edits. edits.items ≡ first ∷ second ∷ []) }
{
    let mut edits = Vec::with_capacity(alloc, 2)?;
    edits.push(first)?;
    edits.push(second)?;
    Ok(edits)
}

/// The commit of a push under a number: its places are cleared, and it is under way.
pub(crate) fn push_batch(
    alloc: Global,
    tables: &[TableDef],
    number: u64,
    changes: &Normal,
) -> Result<Batch, Memory>
    requires { length tables.now < 2 ^ 32 }
    ensures { IfOk result (WritesValues (all_clear 0 tables.now changes.now) (push_values number changes.now)) }
{
    let mut pending = PlaceEdits::new(alloc);
    clear_tables(tables, 0, changes, &mut pending)?;
    let count = MetaEdit {
        name: MetaName::Number,
        value: Some(number_value(alloc, number)?),
    };
    let flight = MetaEdit {
        name: MetaName::Flight,
        value: Some(flight_value(alloc, number, changes)?),
    };
    let meta = two_values(alloc, count, flight)?;
    Ok(Batch {
        rows: PlaceEdits::new(alloc),
        pending,
        meta,
        log: None,
    })
}

/// The commit where a push has become the entry before a version.
pub(crate) fn confirm_batch(alloc: Global, version: u64) -> Result<Batch, Memory>
    ensures { IfOk result (WritesValues [] (confirm_values version)) }
{
    let next = MetaEdit {
        name: MetaName::Version,
        value: Some(number_value(alloc, version)?),
    };
    let flight = MetaEdit {
        name: MetaName::Flight,
        value: None,
    };
    let meta = two_values(alloc, next, flight)?;
    Ok(Batch {
        rows: PlaceEdits::new(alloc),
        pending: PlaceEdits::new(alloc),
        meta,
        log: None,
    })
}
