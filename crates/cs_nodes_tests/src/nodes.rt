//! What pushes and pulls of nodes on one row of cells are told, and leave.

ghost use Rattle.std.specs.Prelude.{◌≡◌};

use crate::given::{
    Here, ROW_1, ROW_2, begun, insert_fault, inserts, pulled, pulls, pushed, pushes, shows,
};
use cs_conflict::Wish;
use cs_nodes::{NodeFault, NodePush, meet_nodes};
use cs_pending::EditFault;
use cs_spine::Spine;
use std::alloc::Global;

/// A node that has nothing to push, and one that pushes a row.
fn pushes_first<'s>(alloc: Global, node: &mut Here<'s>, spine: &'s Spine) -> bool
    requires { node.old.pass.spine ≡ spine.now }
    ensures { node.new.pass.spine ≡ node.old.pass.spine }
{
    let nothing = pushes(alloc, node, spine, NodePush::Nothing);
    let made = inserts(alloc, node, 1, "v1");
    let again = insert_fault(alloc, node, 1, "v2") == Some(EditFault::Exists);
    let told = pushes(alloc, node, spine, NodePush::Accepted(1));
    nothing && made && again && told && shows(alloc, node, &[ROW_1], 1, 0) == Ok(true)
}

/// A node whose push finds another's entry in the cell: it is taken, and the next push is accepted.
fn pushes_second<'s>(alloc: Global, node: &mut Here<'s>, spine: &'s Spine) -> bool
    requires { node.old.pass.spine ≡ spine.now }
    ensures { node.new.pass.spine ≡ node.old.pass.spine }
{
    let made = inserts(alloc, node, 2, "v2");
    let other = pushes(alloc, node, spine, NodePush::Other(1));
    let between = shows(alloc, node, &[ROW_1, ROW_2], 1, 1) == Ok(true);
    let told = pushes(alloc, node, spine, NodePush::Accepted(2));
    made && other && between && told && shows(alloc, node, &[ROW_1, ROW_2], 2, 0) == Ok(true)
}

/// Whether the nodes don't meet, whichever is asked first.
fn are_apart<'s>(spine: &'s Spine, one: &Here<'s>, two: &Here<'s>) -> bool
    requires one { one.now.pass.spine ≡ spine.now }
    requires two { two.now.pass.spine ≡ spine.now }
{
    !meet_nodes(spine, one, two) && !meet_nodes(spine, two, one)
}

/// Two nodes push in turn, and pull; between they are apart.
fn take_turns<'s>(alloc: Global, spine: &'s Spine, one: &mut Here<'s>, two: &mut Here<'s>) -> bool
    requires one { one.old.pass.spine ≡ spine.now }
    requires two { two.old.pass.spine ≡ spine.now }
    ensures one { one.new.pass.spine ≡ one.old.pass.spine }
    ensures two { two.new.pass.spine ≡ two.old.pass.spine }
{
    let met = meet_nodes(spine, one, two);
    let first = pushes_first(alloc, one, spine);
    let apart = are_apart(spine, one, two);
    let second = pushes_second(alloc, two, spine);
    let more = pulls(alloc, one, spine, 1) && pulls(alloc, one, spine, 0);
    met & first & apart & second & more
}

/// A third that pulls all at once meets both.
fn meets_both<'s>(
    alloc: Global,
    spine: &'s Spine,
    late: &mut Here<'s>,
    one: &Here<'s>,
    two: &Here<'s>,
) -> bool
    requires late { late.old.pass.spine ≡ spine.now }
    requires one { one.now.pass.spine ≡ spine.now }
    requires two { two.now.pass.spine ≡ spine.now }
{
    let all = pulls(alloc, late, spine, 2);
    let same = meet_nodes(spine, one, late) && meet_nodes(spine, late, two);
    all & same & (shows(alloc, late, &[ROW_1, ROW_2], 2, 0) == Ok(true))
}

fn with_third<'s>(
    alloc: Global,
    spine: &'s Spine,
    one: &mut Here<'s>,
    two: &mut Here<'s>,
) -> Option<bool>
    requires one { one.old.pass.spine ≡ spine.now }
    requires two { two.old.pass.spine ≡ spine.now }
{
    let mut late = begun(alloc, spine, 3)?;
    let turns = take_turns(alloc, spine, one, two);
    Some(turns & meets_both(alloc, spine, &mut late, one, two))
}

fn with_second<'s>(alloc: Global, spine: &'s Spine, one: &mut Here<'s>) -> Option<bool>
    requires { one.old.pass.spine ≡ spine.now }
{
    let mut two = begun(alloc, spine, 2)?;
    with_third(alloc, spine, one, &mut two)
}

/// Two nodes push in turn, and pull; then they meet, and with a third that pulls all at once. Each stands in a function of its own.
fn push_in_turn(alloc: Global, spine: &Spine) -> Option<bool> {
    let mut one = begun(alloc, spine, 1)?;
    with_second(alloc, spine, &mut one)
}

#[test]
fn nodes_push_in_turn(rt: HostRuntime) {
    let alloc = rt.alloc();
    let told = match Spine::new(alloc, 4) {
        Ok(spine) => push_in_turn(alloc, &spine),
        Err(_) => None,
    };
    assert!(rt; told == Some(true));
}

/// Whether a pull ends where the picker stops.
fn is_stopped<'s>(alloc: Global, node: &mut Here<'s>, spine: &'s Spine) -> bool
    requires { node.old.pass.spine ≡ spine.now }
    ensures { node.new.pass.spine ≡ node.old.pass.spine }
{
    matches!(
        &pulled(alloc, node, spine, Wish::Stop),
        Err(NodeFault::Stopped(_))
    )
}

/// A node that wishes to stop at a conflict is behind until it takes the entry.
fn stops_then_takes<'s>(alloc: Global, node: &mut Here<'s>, spine: &'s Spine) -> bool
    requires { node.old.pass.spine ≡ spine.now }
    ensures { node.new.pass.spine ≡ node.old.pass.spine }
{
    let made = inserts(alloc, node, 1, "v9");
    let stopped = is_stopped(alloc, node, spine);
    let behind = pushes(alloc, node, spine, NodePush::Behind);
    let kept = !node.is_at_rest() && node.version() == 0;
    let taken = pulls(alloc, node, spine, 1);
    made && stopped && behind && kept && taken && shows(alloc, node, &[ROW_1], 1, 0) == Ok(true)
}

/// Whether a push finds each cell known, and stays under way.
fn is_full<'s>(alloc: Global, node: &mut Here<'s>, spine: &'s Spine) -> bool
    requires { node.old.pass.spine ≡ spine.now }
    ensures { node.new.pass.spine ≡ node.old.pass.spine }
{
    let made = inserts(alloc, node, 2, "v2");
    let full = matches!(
        &pushed(alloc, node, spine, Wish::Take),
        Err(NodeFault::Full)
    );
    made && full && !node.is_at_rest() && node.pending_len() == 0 && node.version() == 1
}

/// Two nodes on a row of one cell: one fills it, and the other comes to it.
fn fill_one_cell<'s>(
    alloc: Global,
    spine: &'s Spine,
    one: &mut Here<'s>,
    two: &mut Here<'s>,
) -> bool
    requires one { one.old.pass.spine ≡ spine.now }
    requires two { two.old.pass.spine ≡ spine.now }
{
    let first = pushes_first(alloc, one, spine);
    let second = stops_then_takes(alloc, two, spine);
    let met = meet_nodes(spine, one, two);
    first & second & met & is_full(alloc, one, spine)
}

fn with_other<'s>(alloc: Global, spine: &'s Spine, one: &mut Here<'s>) -> Option<bool>
    requires { one.old.pass.spine ≡ spine.now }
{
    let mut two = begun(alloc, spine, 2)?;
    Some(fill_one_cell(alloc, spine, one, &mut two))
}

fn on_one_cell(alloc: Global, spine: &Spine) -> Option<bool> {
    let mut one = begun(alloc, spine, 1)?;
    with_other(alloc, spine, &mut one)
}

#[test]
fn stops_and_fills(rt: HostRuntime) {
    let alloc = rt.alloc();
    let told = match Spine::new(alloc, 1) {
        Ok(spine) => on_one_cell(alloc, &spine),
        Err(_) => None,
    };
    assert!(rt; told == Some(true));
}

/// Whether the parts of a node are where it was.
fn comes_apart(alloc: Global, spine: &Spine) -> Option<bool> {
    let mut node = begun(alloc, spine, 1)?;
    let first = pushes_first(alloc, &mut node, spine);
    let (replica, pass) = node.parts();
    Some(first & (replica.version() == 1) & (pass.len() == 1))
}

#[test]
fn a_node_comes_apart(rt: HostRuntime) {
    let alloc = rt.alloc();
    let told = match Spine::new(alloc, 1) {
        Ok(spine) => comes_apart(alloc, &spine),
        Err(_) => None,
    };
    assert!(rt; told == Some(true));
}
