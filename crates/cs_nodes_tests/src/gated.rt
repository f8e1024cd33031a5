//! Nodes that run their plans, held by their ports. How long one waits has a limit.

ghost use Rattle.std.specs.Prelude.{◌≡◌, IfOk, IfSome, vec_len};

use crate::given::{begun, pulls_second};
use crate::planned::{has_mark, idle, insert_and_push, is_edited, is_pushed};
use cs_nodes::NodePush;
use cs_nodes::plans::{Mark, NodeEnd, Plan, Port, run_nodes};
use cs_spine::Spine;
use cs_store_cases::catalog;
use cs_value::{Catalog, Memory};
use std::alloc::Global;
use std::sync::atomic::{AtomicU64, Ordering};
use std::thread::{self, Threads};
use std::time::{Clock, Duration};

/// How many turns of a millisecond a port waits at most.
const TURNS: u64 = 10_000;

/// What two nodes have come to.
#[derive(Drop)]
struct Gates {
    /// Node 1 is about to make a call.
    first: AtomicU64,
    /// Node 2's push was answered.
    second: AtomicU64,
    /// A port has waited too long.
    late: AtomicU64,
}

impl Gates {
    /// Waits until a gate is open.
    fn wait_for<R: Clock>(&self, rt: &R, gate: &AtomicU64) {
        for _ in 0..TURNS {
            if gate.load(Ordering::SeqCst) == 1 {
                return;
            }
            thread::sleep(rt, Duration::from_millis(1));
        }
        self.late.store(1, Ordering::SeqCst);
    }
}

/// The port of a node. It holds node 2 before its first call until node 1's port was told of a call. It holds node 1 before its push
/// until node 2's was answered.
#[derive(Drop)]
struct Gate<'g, R: Clock> {
    rt: &'g R,
    gates: &'g Gates,
    node: u32,
}

impl<'g, R: Clock> Port for Gate<'g, R> {
    fn before(&mut self, call: usize) {
        match (self.node, call) {
            (1, 0) => self.gates.first.store(1, Ordering::SeqCst),
            (1, 1) => self.gates.wait_for(self.rt, &self.gates.second),
            (2, 0) => self.gates.wait_for(self.rt, &self.gates.first),
            _ => {}
        }
    }

    fn after(&mut self, call: usize) {
        if self.node == 2 && call == 1 {
            self.gates.second.store(1, Ordering::SeqCst);
        }
    }
}

/// The ports of so many nodes.
fn ports<'g, R: Clock>(
    alloc: Global,
    rt: &'g R,
    gates: &'g Gates,
    count: u32,
) -> Result<Vec<Gate<'g, R>>, Memory> {
    let mut ports = Vec::new(alloc);
    for node in 0..count {
        ports.push(Gate { rt, gates, node })?;
    }
    Ok(ports)
}

/// No call; and two nodes that insert a row each, and push it.
fn three_plans(alloc: Global) -> Result<Vec<Plan>, Memory>
    ensures { IfOk result (λ plans. vec_len plans ≡ 3) }
{
    let mut plans = Vec::new(alloc);
    plans.push(idle(alloc))?;
    plans.push(insert_and_push(alloc, 1, "v1", 1)?)?;
    plans.push(insert_and_push(alloc, 2, "v2", 1)?)?;
    Ok(plans)
}

/// The ends of plans, of which the second node is held until the third's push was answered; none where a port waited too long.
fn gated_ends<'s, R: Threads + Clock + Sync>(
    rt: &R,
    alloc: Global,
    catalog: &Catalog,
    spine: &'s Spine,
) -> Option<Vec<NodeEnd<'s>>> {
    let gates = Gates {
        first: AtomicU64::new(0),
        second: AtomicU64::new(0),
        late: AtomicU64::new(0),
    };
    let ports = ports(alloc, rt, &gates, 3).ok()?;
    let plans = three_plans(alloc).ok()?;
    let ends = run_nodes(rt, alloc, catalog, spine, ports, plans).ok()?;
    if gates.late.load(Ordering::SeqCst) == 1 {
        return None;
    }
    Some(ends)
}

/// Whether a node made no call.
fn made_none(end: Option<&NodeEnd<'_>>) -> bool {
    match end {
        Some(end) => end.steps.is_empty() && end.node.version() == 0,
        None => false,
    }
}

/// Whether a node inserted a row and pushed it once, which was told so, and its first push.
fn made_both(end: Option<&NodeEnd<'_>>, told: NodePush) -> bool {
    let edited = Mark {
        known: 0,
        version: 0,
        made: false,
    };
    let pushed = Mark {
        known: 1,
        version: 1,
        made: true,
    };
    match end {
        Some(end) => {
            let steps = end.steps.len() == 2 && is_edited(end, 0) && is_pushed(end, 1, told);
            steps && has_mark(end, 0, edited) && has_mark(end, 1, pushed)
        }
        None => false,
    }
}

/// Whether the second node found the entry of the third in the cell.
fn are_gated(ends: &[NodeEnd<'_>]) -> bool {
    let none = made_none(ends.get(0));
    let other = made_both(ends.get(1), NodePush::Other(1));
    let accepted = made_both(ends.get(2), NodePush::Accepted(1));
    ends.len() == 3 && none && other && accepted
}

/// Whether the nodes ran as their ports let them, and a new node pulls what the third pushed.
fn gated<R: Threads + Clock + Sync>(rt: &R, alloc: Global, spine: &Spine) -> Option<bool> {
    let catalog = catalog(alloc)?;
    let ran = are_gated(gated_ends(rt, alloc, &catalog, spine)?.as_slice());
    let mut late = begun(alloc, spine, 3)?;
    Some(ran && pulls_second(alloc, spine, &mut late))
}

#[test]
fn gate_two_nodes(rt: HostRuntime) {
    let alloc = rt.alloc();
    let told = match Spine::new(alloc, 4) {
        Ok(spine) => gated(&rt, alloc, &spine),
        Err(_) => None,
    };
    assert!(rt; told == Some(true));
}
