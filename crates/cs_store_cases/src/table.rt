//! The one table of catalogs here.

use cs_value::{Catalog, Items, TableDef, Text};
use std::alloc::{AllocError, Global};

/// A table of two columns, of which the first is the key.
fn tables(alloc: Global) -> Result<Vec<TableDef>, AllocError> {
    let mut tables = Vec::new(alloc);
    tables.push(TableDef {
        name: Text::from_string(String::from_str(alloc, "t1")?),
        key_marks: Items::from_vec(vec![in alloc; true, false]?),
    })?;
    Ok(tables)
}

/// The catalog of `t1(a key, b)`.
pub fn catalog(alloc: Global) -> Option<Catalog> {
    Catalog::new(tables(alloc).ok()?).ok()
}
