//! The batch that moves a value to the places of its changes.

ghost use Rattle.std.specs.Prelude.{◌≡◌, ◌++◌, ◌∷◌, [], map, fold, take, Some, List, IfOk, OnOk};
ghost use Rattle.cs_store.specs.Contents.{Contents};
ghost use Rattle.cs_change.specs.Spelling.{change_spelling};
ghost use Rattle.cs_store.specs.Written.{after_batch, edit_body, optional_bytes};
ghost use Rattle.cs_normal.specs.Normal.{FitsCatalog};
ghost use Rattle.cs_apply.specs.NormalTasks.{keyed_tasks};
ghost use Rattle.cs_apply.specs.placement.Places.{task_of};
ghost use Rattle.cs_opening.specs.moving.Moved.{moved};
ghost use Rattle.cs_opening.specs.moving.Steps.{edit_parts, task_parts};

use cs_apply::placement::{Placed, place_all};
use cs_change::ChangesBuf;
use cs_normal::Normal;
use cs_store::edits::{PlaceEdit, PlaceEdits};
use cs_store::{Batch, MetaEdit, MetaName};
use cs_value::{Catalog, Memory};
use std::alloc::Global;

/// Appends the edit that puts a change at its place.
fn push_edit(alloc: Global, placed: &Placed<'_>, edits: &mut PlaceEdits) -> Result<(), Memory>
    ensures { OnOk result (map edit_parts edits.new ≡ map edit_parts edits.old ++ task_parts (task_of placed.now) ∷ []) }
{
    let mut changes = ChangesBuf::new(alloc);
    changes.push(&placed.change)?;
    let body = Some(changes.spelling());
    edits.push(&PlaceEdit::new(placed.number, placed.key, body))
}

/// The edits that put changes at their places.
fn edits_of(alloc: Global, placed: &[Placed<'_>]) -> Result<PlaceEdits, Memory>
    ensures { IfOk result (λ edits. map edit_parts edits ≡ map task_parts (map task_of placed.now)) }
{
    let mut edits = PlaceEdits::with_capacity(alloc, placed.len(), 0)?;
    for one in placed {
        push_edit(alloc, one, &mut edits)?;
    }
    Ok(edits)
}

/// The batch that puts the changes at their places, and takes the value away.
pub(crate) fn moving_batch(
    alloc: Global,
    catalog: &Catalog,
    changes: &Normal,
) -> Result<Batch, Memory>
    requires { FitsCatalog catalog.now changes.now }
    ensures { IfOk result (λ batch. (contents : Contents) → after_batch batch contents ≡ moved catalog.now changes.now contents) }
{
    let placed = place_all(alloc, catalog, changes)?;
    let pending = edits_of(alloc, placed.as_slice())?;
    let mut meta = Vec::new(alloc);
    meta.push(MetaEdit {
        name: MetaName::Pending,
        value: None,
    })?;
    Ok(Batch {
        rows: PlaceEdits::new(alloc),
        pending,
        meta,
        log: None,
    })
}
