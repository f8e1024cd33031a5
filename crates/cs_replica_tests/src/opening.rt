//! A replica over a store that keeps a table of three columns, opened where a table with these columns, fewer, more or others is handed.

use crate::given::values;
use cs_map_store::MapStore;
use cs_opening::OpenFault;
use cs_pending::EditFault;
use cs_replica::Replica;
use cs_value::{Catalog, Items, TableDef, Text, Value};
use std::alloc::{AllocError, Global};

/// A table with this name and these marks.
fn tables(alloc: Global, name: &str, marks: &[bool]) -> Result<Vec<TableDef>, AllocError> {
    let mut tables = Vec::new(alloc);
    tables.push(TableDef {
        name: Text::from_string(String::from_str(alloc, name)?),
        key_marks: Items::from_vec(Vec::from_slice(alloc, marks)?),
    })?;
    Ok(tables)
}

fn catalog(alloc: Global, name: &str, marks: &[bool]) -> Option<Catalog> {
    Catalog::new(tables(alloc, name, marks).ok()?).ok()
}

/// Inserts a row with this key, the text `v1` and NULL.
fn insert(alloc: Global, replica: &mut Replica<MapStore>, number: i64) -> Result<(), EditFault> {
    let mut row = values(alloc, number, Some("v1"))?.into_vec();
    row.push(Value::Null)?;
    replica.insert(alloc, "t1", &Items::from_vec(row))
}

/// The store of the table `t1` of a key and two other columns, with one row.
fn kept(alloc: Global) -> Option<MapStore> {
    let kept = catalog(alloc, "t1", &[true, false, false])?;
    match Replica::open(alloc, MapStore::new(alloc), &kept, 7) {
        Ok(replica) => {
            let mut replica = replica;
            insert(alloc, &mut replica, 1).ok()?;
            Some(replica.close())
        }
        Err(_) => None,
    }
}

/// The name and the marks of a table that is handed, and why the store isn't opened by it.
type Handed = (&'static str, &'static [bool], Option<OpenFault>);

/// The same columns, fewer, more, another key, and another name.
const HANDED: [Handed; 7] = [
    ("t1", &[true, false, false], None),
    ("t1", &[true, false], None),
    ("t1", &[true], None),
    (
        "t1",
        &[true, false, false, false],
        Some(OpenFault::Mismatch),
    ),
    ("t1", &[true, true], Some(OpenFault::Mismatch)),
    ("t1", &[false, true], Some(OpenFault::Mismatch)),
    ("t2", &[true, false], Some(OpenFault::Mismatch)),
];

/// Whether the store is opened, shows its row and takes another one of three columns, or isn't opened for this reason.
fn is_told(alloc: Global, handed: &Handed) -> Option<bool> {
    let tables = catalog(alloc, handed.0, handed.1)?;
    match Replica::open(alloc, kept(alloc)?, &tables, 7) {
        Ok(replica) => {
            let mut replica = replica;
            let taken = insert(alloc, &mut replica, 2).is_ok();
            let rows = replica.rows(alloc, 0).ok()?;
            Some(handed.2.is_none() && taken && rows.len() == 2)
        }
        Err((_, fault)) => Some(handed.2 == Some(fault)),
    }
}

#[test]
fn a_store_is_opened_by_the_tables_that_it_keeps(rt: HostRuntime) {
    for handed in &HANDED {
        assert!(rt; is_told(rt.alloc(), handed) == Some(true));
    }
}
