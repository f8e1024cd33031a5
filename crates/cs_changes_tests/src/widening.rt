//! Catalogs of which a table gets more columns. What becomes of rows and changes is said by laws alone.

use crate::given::catalog_of;
use cs_value::{Catalog, Memory, TableDef};
use cs_widening::widen;
use std::alloc::Global;

/// The tables of the catalog.
const NAMES: [&str; 3] = ["shop", "note", "pair"];

/// They, with the marks of their columns.
const GIVEN: [(&str, &[bool]); 3] = [
    ("shop", &[true, false]),
    ("note", &[true, false]),
    ("pair", &[true, true]),
];

/// The same where `note` has four columns.
const WIDENED: [(&str, &[bool]); 3] = [
    ("shop", &[true, false]),
    ("note", &[true, false, false, false]),
    ("pair", &[true, true]),
];

/// Whether the table has this name and these marks.
fn is_table(table: &TableDef, name: &str, marks: &[bool]) -> bool {
    table.name.as_str() == name && table.key_marks.as_slice() == marks
}

/// Whether the catalog has these tables.
fn are_tables(catalog: &Catalog, named: &[(&str, &[bool])]) -> bool {
    let tables = catalog.tables();
    for (table, (name, marks)) in tables.iter().zip(named) {
        if !is_table(table, name, marks) {
            return false;
        }
    }
    tables.len() == named.len()
}

/// The catalog where `note` has four columns. Where memory is refused, the catalog is looked at, and the call made once more.
fn widened_at_last(alloc: Global, catalog: &Catalog) -> Result<Option<Catalog>, Memory> {
    match widen(alloc, catalog, "note", 4) {
        Ok(told) => Ok(told),
        Err(_) if are_tables(catalog, &GIVEN) => widen(alloc, catalog, "note", 4),
        Err(_) => Ok(None),
    }
}

/// Whether that is the catalog that it has to be, and the other stays; none where memory was refused.
fn is_widened(alloc: Global) -> Option<bool> {
    let catalog = catalog_of(alloc, &NAMES)?;
    let wide = widened_at_last(alloc, &catalog).ok()?;
    let is_wide = match &wide {
        Some(wide) => are_tables(wide, &WIDENED),
        None => false,
    };
    Some(is_wide && are_tables(&catalog, &GIVEN))
}

/// Everything is as it was where memory is refused, and the same call then succeeds. `bench/refuse_tests.sh` refuses each
/// allocation in turn here; where there is no catalog for it, all is tried again.
#[test]
fn refused_memory_leaves_everything(rt: HostRuntime) {
    let kept = match is_widened(rt.alloc()) {
        Some(kept) => kept,
        None => is_widened(rt.alloc()).unwrap_or(false),
    };
    assert!(rt; kept);
}

/// Whether no table of this name can get so many columns; none where memory was refused.
fn is_none_told(alloc: Global, name: &str, width: usize) -> Option<bool> {
    let catalog = catalog_of(alloc, &NAMES)?;
    let told = widen(alloc, &catalog, name, width).ok()?;
    Some(told.is_none())
}

/// No table of the name, another case of one, as many columns as there are, fewer, and more than a table may have.
const NONE: [(&str, usize); 5] = [
    ("item", 3),
    ("NOTE", 3),
    ("note", 2),
    ("note", 1),
    ("note", 2001),
];

#[test]
fn catalogs_that_cannot_be(rt: HostRuntime) {
    for (name, width) in &NONE {
        assert!(rt; is_none_told(rt.alloc(), name, *width) == Some(true));
    }
}
