//! A table that another's entry widens: nodes take it as they push and as they pull, and meet.

ghost use Rattle.std.specs.Prelude.{◌≡◌};

use crate::given::{
    Here, begun, insert_fault, inserts, pulls, pushes, sets_first, shows, widening,
};
use cs_nodes::{NodePush, meet_nodes};
use cs_pending::EditFault;
use cs_spine::Spine;
use std::alloc::Global;

/// The bytes of (1, 'v1', NULL).
const WIDE_ROW: &[u8] = &[1, 0, 0, 0, 0, 0, 0, 0, 1, 3, 2, 0x76, 0x31, 5];

/// A node whose push finds the entry in the cell. What it pushed is pending again, with a third column, and its next push is accepted.
fn pushes_wide<'s>(alloc: Global, node: &mut Here<'s>, spine: &'s Spine) -> bool
    requires { node.old.pass.spine ≡ spine.now }
    ensures { node.new.pass.spine ≡ node.old.pass.spine }
{
    let made = inserts(alloc, node, 1, "v1");
    let other = pushes(alloc, node, spine, NodePush::Other(1));
    let between = shows(alloc, node, &[WIDE_ROW], 1, 1) == Ok(true);
    let narrow = insert_fault(alloc, node, 2, "v2") == Some(EditFault::Width);
    let told = pushes(alloc, node, spine, NodePush::Accepted(2));
    made && other && between && narrow && told && shows(alloc, node, &[WIDE_ROW], 2, 0) == Ok(true)
}

/// A new node, which pulls both entries.
fn pulls_wide<'s>(alloc: Global, node: &mut Here<'s>, spine: &'s Spine) -> bool
    requires { node.old.pass.spine ≡ spine.now }
    ensures { node.new.pass.spine ≡ node.old.pass.spine }
{
    let taken = pulls(alloc, node, spine, 2);
    taken && shows(alloc, node, &[WIDE_ROW], 2, 0) == Ok(true)
}

fn meet_wide(alloc: Global, spine: &Spine) -> Option<bool> {
    let set = sets_first(spine, widening(alloc, "t1", 3)?)?;
    let mut one = begun(alloc, spine, 1)?;
    let mut two = begun(alloc, spine, 2)?;
    let pushed = pushes_wide(alloc, &mut one, spine);
    let pulled = pulls_wide(alloc, &mut two, spine);
    Some(set && pushed && pulled && meet_nodes(spine, &one, &two))
}

#[test]
fn nodes_of_a_wider_table_meet(rt: HostRuntime) {
    let alloc = rt.alloc();
    let told = match Spine::new(alloc, 4) {
        Ok(spine) => meet_wide(alloc, &spine),
        Err(_) => None,
    };
    assert!(rt; told == Some(true));
}
