//! An entry that isn't defined on the tables before it: a pull tells it, and nothing changes.

ghost use Rattle.std.specs.Prelude.{◌≡◌};

use crate::given::{Here, begun, pulled, sets_first, shows, widening};
use cs_conflict::Wish;
use cs_nodes::NodeFault;
use cs_spine::Spine;
use cs_store::log::{Body, read_body};
use cs_store_cases::catalog;
use std::alloc::Global;

/// The body that makes `v2` of the text `v1` of the row with the key 1 of `t1`.
const UPDATE: &[u8] = b"\0\x54\x02\x01\0t1\0\x17\0\x01\0\0\0\0\0\0\0\x01\x03\x02v1\0\x03\x02v2";

fn update(alloc: Global) -> Option<Body> {
    read_body(alloc, &catalog(alloc)?, UPDATE).ok()
}

/// Whether each of two pulls tells the entry, and the node stays as it was.
fn is_told_twice<'s>(alloc: Global, node: &mut Here<'s>, spine: &'s Spine) -> bool
    requires { node.old.pass.spine ≡ spine.now }
{
    let first = matches!(
        pulled(alloc, node, spine, Wish::Take),
        Err(NodeFault::BadEntry)
    );
    let again = matches!(
        pulled(alloc, node, spine, Wish::Take),
        Err(NodeFault::BadEntry)
    );
    first & again & (shows(alloc, node, &[], 0, 0) == Ok(true))
}

fn stays(alloc: Global, spine: &Spine, body: Body) -> Option<bool> {
    let set = sets_first(spine, body)?;
    let mut node = begun(alloc, spine, 1)?;
    Some(set && is_told_twice(alloc, &mut node, spine))
}

fn stays_untaken(alloc: Global, body: Option<Body>) -> Option<bool> {
    match Spine::new(alloc, 4) {
        Ok(spine) => stays(alloc, &spine, body?),
        Err(_) => None,
    }
}

#[test]
fn an_entry_that_is_not_defined_stays_untaken(rt: HostRuntime) {
    let alloc = rt.alloc();
    assert!(rt; stays_untaken(alloc, update(alloc)) == Some(true));
}

/// One that would give `t1` the two columns that it has, and one of a table that isn't there.
#[test]
fn a_table_that_may_not_be_widened(rt: HostRuntime) {
    let alloc = rt.alloc();
    assert!(rt; stays_untaken(alloc, widening(alloc, "t1", 2)) == Some(true));
    assert!(rt; stays_untaken(alloc, widening(alloc, "t9", 3)) == Some(true));
}
