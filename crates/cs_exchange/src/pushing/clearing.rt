//! Edits that clear the places of a changeset.

ghost use Rattle.std.specs.Prelude.{◌≡◌, ◌<◌, ◌+◌, ◌^◌, ◌++◌, ◌∷◌, [], length, map, OnOk};
ghost use Rattle.std.specs.Map.{keys_of};
ghost use Rattle.cs_normal.specs.Normal.{changes_in};
ghost use Rattle.cs_exchange.specs.pushing.Batches.{all_clear, clears, place_part};

use cs_normal::keyed::KeyedChanges;
use cs_normal::{Normal, changes_of};
use cs_store::edits::{PlaceEdit, PlaceEdits};
use cs_value::{Memory, TableDef};

/// Appends an edit that clears a place.
fn clear_place(number: u32, key: &[u8], edits: &mut PlaceEdits) -> Result<(), Memory>
    ensures { OnOk result (map place_part edits.new ≡ map place_part edits.old ++ clears number key.now ∷ []) }
{
    edits.push(&PlaceEdit::new(number, key, None))
}

/// Appends edits that clear the places of changes, in the table with a number.
fn clear_changes(number: u32, changes: &KeyedChanges, edits: &mut PlaceEdits) -> Result<(), Memory>
    ensures { OnOk result (map place_part edits.new ≡ map place_part edits.old ++ map (clears number) (keys_of changes.now)) }
{
    for at in 0..changes.len() {
        clear_place(number, changes.key(at), edits)?;
    }
    Ok(())
}

/// Appends edits that clear the places of a changeset in a table with a number.
fn clear_table(
    table: &TableDef,
    number: u32,
    changes: &Normal,
    edits: &mut PlaceEdits,
) -> Result<(), Memory>
    ensures { OnOk result (map place_part edits.new
        ≡ map place_part edits.old ++ map (clears number) (keys_of (changes_in table.now.name changes.now))) }
{
    match changes_of(changes.tables(), table.name.as_str()) {
        None => Ok(()),
        Some(found) => clear_changes(number, found, edits),
    }
}

/// Appends edits that clear the places of a changeset in tables, of which the first has this number.
pub(crate) fn clear_tables(
    tables: &[TableDef],
    number: u32,
    changes: &Normal,
    edits: &mut PlaceEdits,
) -> Result<(), Memory>
    requires { number + length tables.now < 2 ^ 32 }
    ensures { OnOk result (map place_part edits.new
        ≡ map place_part edits.old ++ all_clear number tables.now changes.now) }
{
    let Some((table, others)) = tables.split_first() else {
        return Ok(());
    };
    clear_table(table, number, changes, edits)?;
    clear_tables(others, number + 1, changes, edits)
}
