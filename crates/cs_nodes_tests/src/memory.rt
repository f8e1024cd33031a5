//! Memory that is refused, or a call of the store, to a node that is made, edited, pushed and pulled. It is told, and the same call is then
//! made.

ghost use Rattle.std.specs.Prelude.{◌≡◌, IfSome};

use crate::given::{
    ROW_1, Refusing, begun_refusing, insert_fault, inserts, pulled, pulls, pushed, pushes, shows,
};
use cs_conflict::Wish;
use cs_nodes::{NodeFault, NodePush};
use cs_pending::EditFault;
use cs_spine::Spine;
use cs_store::StoreFault;
use std::alloc::Global;

/// A new node, the first time, whose store refuses the call behind so many, or the second.
fn made<'s>(alloc: Global, spine: &'s Spine, id: u32, passes: u64) -> Option<Refusing<'s>>
    ensures { IfSome result (λ node. node.pass.spine ≡ spine.now) }
{
    match begun_refusing(alloc, spine, id, passes) {
        Some(node) => Some(node),
        None => begun_refusing(alloc, spine, id, u64::MAX),
    }
}

/// Whether the node shows these rows, the first time or the second.
fn shows_at_last<'s>(
    alloc: Global,
    node: &mut Refusing<'s>,
    wanted: &[&[u8]],
    version: u64,
    pending: u64,
) -> bool
    ensures { node.new.pass ≡ node.old.pass }
{
    match shows(alloc, node, wanted, version, pending) {
        Err(StoreFault::Memory | StoreFault::Device) => shows(alloc, node, wanted, version, pending)
            == Ok(true),
        told => told == Ok(true),
    }
}

/// Whether a row gets in, the first time or the second; where that is refused the node shows no row.
fn inserts_at_last<'s>(alloc: Global, node: &mut Refusing<'s>) -> bool
    ensures { node.new.pass ≡ node.old.pass }
{
    match insert_fault(alloc, node, 1, "v1") {
        Some(EditFault::Memory | EditFault::Device) => {
            let kept = shows_at_last(alloc, node, &[], 0, 0);
            kept && inserts(alloc, node, 1, "v1")
        }
        Some(_) => false,
        None => node.pending_len() == 1 || inserts(alloc, node, 1, "v1"),
    }
}

/// Whether a push is accepted, the first time or the second; where that is refused the row stays.
fn pushes_at_last<'s>(alloc: Global, node: &mut Refusing<'s>, spine: &'s Spine) -> bool
    requires { node.old.pass.spine ≡ spine.now }
    ensures { node.new.pass.spine ≡ node.old.pass.spine }
{
    match pushed(alloc, node, spine, Wish::Take) {
        Err(NodeFault::Memory | NodeFault::Device) => {
            if node.pass().len() == 1 {
                // The cell holds the push, which is taken by a pull.
                return pulls(alloc, node, spine, 1);
            }
            !node.is_at_rest() && pushes(alloc, node, spine, NodePush::Accepted(1))
        }
        Ok(told) => told == NodePush::Accepted(1),
        Err(_) => false,
    }
}

/// Whether a pull takes one entry, the first time or the second.
fn pulls_at_last<'s>(alloc: Global, node: &mut Refusing<'s>, spine: &'s Spine) -> bool
    requires { node.old.pass.spine ≡ spine.now }
    ensures { node.new.pass.spine ≡ node.old.pass.spine }
{
    match pulled(alloc, node, spine, Wish::Take) {
        Err(NodeFault::Memory | NodeFault::Device) => {
            let kept = node.version() == 0 && shows_at_last(alloc, node, &[], 0, 0);
            kept && pulls(alloc, node, spine, 1)
        }
        Ok(taken) => taken == 1,
        Err(_) => false,
    }
}

/// A node that inserts a row and pushes it.
fn pushes_row<'s>(alloc: Global, one: &mut Refusing<'s>, spine: &'s Spine) -> bool
    requires { one.old.pass.spine ≡ spine.now }
    ensures { one.new.pass.spine ≡ one.old.pass.spine }
{
    let inserted = inserts_at_last(alloc, one);
    let told = pushes_at_last(alloc, one, spine);
    inserted & told & shows_at_last(alloc, one, &[ROW_1], 1, 0)
}

/// One that pulls it.
fn pulls_row<'s>(alloc: Global, two: &mut Refusing<'s>, spine: &'s Spine) -> bool
    requires { two.old.pass.spine ≡ spine.now }
{
    let taken = pulls_at_last(alloc, two, spine);
    taken & shows_at_last(alloc, two, &[ROW_1], 1, 0)
}

/// The first pushes it, and a second pulls it.
fn live_both<'s>(
    alloc: Global,
    spine: &'s Spine,
    one: &mut Refusing<'s>,
    passes: u64,
) -> Option<bool>
    requires { one.old.pass.spine ≡ spine.now }
{
    let mut two = made(alloc, spine, 2, passes)?;
    let told = pushes_row(alloc, one, spine);
    Some(told & pulls_row(alloc, &mut two, spine))
}

fn live_on(alloc: Global, spine: &Spine, passes: u64) -> Option<bool> {
    let mut one = made(alloc, spine, 1, passes)?;
    live_both(alloc, spine, &mut one, passes)
}

fn live(alloc: Global, passes: u64) -> Option<bool> {
    match Spine::new(alloc, 2) {
        Ok(spine) => live_on(alloc, &spine, passes),
        Err(_) => None,
    }
}

/// `bench/refuse_tests.sh` refuses each allocation in turn here; where it is refused to what stands around the calls, all is tried
/// again.
#[test]
fn refused_memory_leaves_everything(rt: HostRuntime) {
    let alloc = rt.alloc();
    let kept = match live(alloc, u64::MAX) {
        Some(kept) => kept,
        None => live(alloc, u64::MAX) == Some(true),
    };
    assert!(rt; kept);
}

/// Whether both live on where the store of each refuses one call, whichever it is of the first.
fn live_behind_each(alloc: Global) -> bool {
    for passes in 0..60 {
        if live(alloc, passes) != Some(true) {
            return false;
        }
    }
    true
}

#[test]
fn a_call_that_the_device_refuses_leaves_everything(rt: HostRuntime) {
    assert!(rt; live_behind_each(rt.alloc()));
}
