//! What these tests share: a catalog, and bytes in parts.

use cs_value::{Catalog, Items, Memory, TableDef, Text};
use std::alloc::Global;

/// A table of two columns, of which the first is a key column, and the last may be one too.
pub fn table(alloc: Global, name: &str, last: bool) -> Result<TableDef, Memory> {
    Ok(TableDef {
        name: Text::from_string(String::from_str(alloc, name)?),
        key_marks: Items::from_vec(vec![in alloc; true, last]?),
    })
}

fn tables(alloc: Global, names: &[&str; 3]) -> Result<Vec<TableDef>, Memory> {
    let mut tables = Vec::new(alloc);
    tables.push(table(alloc, names[0], false)?)?;
    tables.push(table(alloc, names[1], false)?)?;
    tables.push(table(alloc, names[2], true)?)?;
    Ok(tables)
}

/// The catalog of tables of these names, of which the first two have one key column of two, and the last has two.
pub fn catalog_of(alloc: Global, names: &[&str; 3]) -> Option<Catalog> {
    Catalog::new(tables(alloc, names).ok()?).ok()
}

/// The one of `t1`, `t2` and `t3`.
pub fn catalog(alloc: Global) -> Option<Catalog> {
    catalog_of(alloc, &["t1", "t2", "t3"])
}

/// Whether the bytes are these parts, one behind another.
pub fn is_joined(bytes: &[u8], parts: &[&[u8]]) -> bool {
    let mut rest = bytes;
    for part in parts {
        match rest.split_at_checked(part.len()) {
            Some((front, behind)) if front == *part => rest = behind,
            _ => return false,
        }
    }
    rest.is_empty()
}
