//! The catalog of which one table gets more columns.

ghost use Rattle.std.specs.Prelude.{◌≡◌, ◌↔◌, false, IfOk, IfSome, IsSome};
ghost use Rattle.cs_widening.specs.Widening.{CanWiden, up_to, widened_table, widened_tables};

use crate::laws::widened_are_tables;
use cs_value::{Catalog, Items, MAX_COLUMNS, Marks, Memory, TableDef};
use std::alloc::Global;

/// The marks, and behind them one of no key column for each that is missing.
fn wide_marks(alloc: Global, marks: &[bool], width: usize) -> Result<Marks, Memory>
    ensures { IfOk result (λ wide. wide ≡ up_to width false marks.now) }
{
    let mut wide = Vec::from_slice(alloc, marks)?;
    let missing = width.saturating_sub(marks.len());
    for added in 0..missing {
        wide.push(false)?;
    }
    Ok(Items::from_vec(wide))
}

/// The table, with so many columns where it has the name.
fn wide_table(alloc: Global, table: &TableDef, name: &str, width: usize) -> Result<TableDef, Memory>
    ensures { IfOk result (λ wide. wide ≡ widened_table name.now width table.now) }
{
    if table.name.as_str() != name {
        return table.copy(alloc);
    }
    Ok(TableDef {
        name: table.name.copy(alloc)?,
        key_marks: wide_marks(alloc, table.key_marks.as_slice(), width)?,
    })
}

/// The tables, of which the one with the name has so many columns.
fn wide_tables(
    alloc: Global,
    tables: &[TableDef],
    name: &str,
    width: usize,
) -> Result<Vec<TableDef>, Memory>
    ensures { IfOk result (λ wide. wide.items ≡ widened_tables name.now width tables.now) }
{
    let mut wide = Vec::with_capacity(alloc, tables.len())?;
    for table in tables {
        wide.push(wide_table(alloc, table, name, width)?)?;
    }
    Ok(wide)
}

/// The catalog in which the table with this name has so many columns. `None` where no table has the name, where it has as many
/// columns or more, and above `MAX_COLUMNS`.
///
/// # Errors
///
/// Memory was refused.
pub fn widen(
    alloc: Global,
    catalog: &Catalog,
    name: &str,
    width: usize,
) -> Result<Option<Catalog>, Memory>
    // There is one exactly where the table can get so many.
    ensures some { IfOk result (λ wide. IsSome wide ↔ CanWiden catalog.now name.now width) }

    // It is the catalog with the new columns.
    ensures same { IfOk result (λ wide. IfSome wide (λ wide. wide ≡ widened_tables name.now width catalog.now)) }
{
    widened_are_tables();
    let tables = catalog.tables();
    let Some(place) = catalog.find(name) else {
        return Ok(None);
    };
    if tables[place].key_marks.as_slice().len() >= width || width > MAX_COLUMNS {
        return Ok(None);
    }
    let wide = wide_tables(alloc, tables, name, width)?;
    match Catalog::new(wide) {
        Ok(catalog) => Ok(Some(catalog)),
        Err(_) => unreachable!(),
    }
}
