//! The changes of a changeset, each with its place.

ghost use Rattle.std.specs.Prelude.{◌≡◌, ◌++◌, ◌∷◌, [], map, slice_get, Some, take, IfOk, OnOk};
ghost use Rattle.std.specs.List.{AllByRecursion};
ghost use Rattle.cs_apply.specs.NormalTasks.{IsOfOne, keyed_task, keyed_tasks, number_of};
ghost use Rattle.cs_normal.specs.Normal.{FitsCatalog};
ghost use Rattle.cs_apply.specs.placement.Places.{ArePlaced, IsPlaced, task_of};

use cs_change::Change;
use cs_normal::keyed::KeyedChanges;
use cs_normal::{Normal, TableChanges};
use cs_value::{Catalog, Memory, TableDef};
use std::alloc::Global;

/// A change of a changeset, with its place: its table, the table's number in the catalog, and the bytes of its key.
#[derive(Drop)]
pub struct Placed<'a> {
    /// The table's number in the catalog.
    pub number: u32,
    /// The table.
    pub table: &'a TableDef,
    /// The bytes of the key.
    pub key: &'a [u8],
    /// The change.
    pub change: Change<'a>,
}

/// Appends the changes of one table.
fn put_changes<'a>(
    table: &'a TableDef,
    number: u32,
    first: &'a TableChanges,
    out: &mut Vec<Placed<'a>>,
) -> Result<(), Memory>
    requires name { table.now.name ≡ first.now.name }
    requires marks { table.now.key_marks ≡ first.now.marks }
    ensures tasks { OnOk result (map task_of out.new.items ≡ map task_of out.old.items ++ map (keyed_task number first.now) first.now.changes) }
    ensures placed { (tables : _) → slice_get tables number ≡ Some table.now → ArePlaced tables out.old.items → OnOk result (ArePlaced tables out.new.items) }
{
    let changes = &first.changes;
    let mut at = 0;
    while let Some((key, change)) = changes.entry(at) {
        out.push(Placed {
            number,
            table,
            key,
            change,
        })?;
        at += 1;
    }
    Ok(())
}

/// Appends the changes of tables of the catalog.
fn put_tables<'a>(
    catalog: &'a Catalog,
    changes: &'a [TableChanges],
    out: &mut Vec<Placed<'a>>,
) -> Result<(), Memory>
    requires { AllByRecursion (IsOfOne catalog.now) changes.now }
    ensures tasks { OnOk result (map task_of out.new.items ≡ map task_of out.old.items ++ keyed_tasks catalog.now changes.now) }
    ensures placed { ArePlaced catalog.now out.old.items → OnOk result (ArePlaced catalog.now out.new.items) }
{
    cs_value::laws::catalogs();
    let tables = catalog.tables();
    let Some((first, others)) = changes.split_first() else {
        return Ok(());
    };
    let Some(number) = catalog.find(first.name.as_str()) else {
        unreachable!()
    };
    match put_changes(&tables[number], number as u32, first, out) {
        Ok(()) => {}
        Err(fault) => return Err(fault),
    }
    match put_tables(catalog, others, out) {
        Ok(()) => Ok(()),
        Err(fault) => Err(fault),
    }
}

/// The changes of a changeset of the catalog's tables, in order.
pub fn place_all<'a>(
    alloc: Global,
    catalog: &'a Catalog,
    changes: &'a Normal,
) -> Result<Vec<Placed<'a>>, Memory>
    requires { FitsCatalog catalog.now changes.now }
    ensures tasks { IfOk result (λ placed. map task_of placed.items ≡ keyed_tasks catalog.now changes.now) }
    ensures placed { IfOk result (λ placed. ArePlaced catalog.now placed.items) }
{
    let mut out = Vec::new(alloc);
    put_tables(catalog, changes.tables(), &mut out)?;
    Ok(out)
}
