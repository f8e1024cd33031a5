//! The lines of a node over a store in memory. What they print is rows of `bench/check_node.sh`.

use cs_map_store::MapStore;
use cs_node_lines::working::{NodeFault, node_on};
use cs_store_cases::catalog;
use std::alloc::Global;

/// Whether a new node prints this of its lines, and ends so.
fn ends(alloc: Global, input: &str, output: &str, end: Result<(), NodeFault>) -> Option<bool> {
    let catalog = catalog(alloc)?;
    let mut reader = input.as_bytes();
    let mut writer = Vec::new(alloc);
    let (ended, _) = node_on(
        alloc,
        MapStore::new(alloc),
        &catalog,
        0,
        &mut reader,
        &mut writer,
    );
    Some(ended == end && writer.as_slice() == output.as_bytes())
}

#[test]
fn a_node_reads_and_works(rt: HostRuntime) {
    let alloc = rt.alloc();
    let told = "ok\nreplica 0 version 0 pending 1 flight 0\nrow t1 1 t=v1\n";
    assert!(rt; ends(alloc, "edit insert t1 1 t=v1\ndump\n", told, Ok(())).unwrap_or(false));
    let unread = Err(NodeFault::Line(2));
    assert!(rt; ends(alloc, "dump\npull\n", "", unread).unwrap_or(false));
}
