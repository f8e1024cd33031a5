//! Nodes that run their plans, each in a thread of its own, and their ends.

ghost use Rattle.std.specs.Prelude.{◌≡◌, ◌≢◌, ◌≤◌, ◌<◌, ◌^◌, ◌↔◌, [], All, IfOk, IsErrOf, Ok, map, vec_capacity, vec_len};
ghost use Rattle.cs_nodes.specs.Nodes.{IsOfOpening};
ghost use Rattle.cs_nodes.specs.plans.Ends.{AreEnds, IsEnd};

use crate::Node;
use crate::plans::fault::RunFault;
use crate::plans::job::Job;
use crate::plans::pairing::make_jobs;
use crate::plans::plan::{Plan, Port, Stepped};
use crate::plans::running::run_plan;
use crate::plans::stepping::Held;
use cs_map_store::MapStore;
use cs_spine::Spine;
use cs_value::{Catalog, Memory};
use std::alloc::{AllocError, Global};
use std::thread::{self, Threads};

/// A node whose plan has run, and what each call came to.
#[derive(Drop)]
pub struct NodeEnd<'s> {
    /// The node.
    pub node: Node<'s, MapStore>,
    /// What the plan's calls came to, in order.
    pub steps: Vec<Stepped>,
}

/// A new node runs a plan.
fn run_job<'s, P: Port + Drop>(
    alloc: Global,
    catalog: &Catalog,
    spine: &'s Spine,
    job: Job<P>,
) -> Result<NodeEnd<'s>, Memory>
    ensures { IfOk result (λ end. IsEnd catalog.now spine.now job.id job.plan end) }
{
    let Job { id, plan, mut port } = job;
    let mut node = match Node::open(alloc, MapStore::new(alloc), catalog, id, spine) {
        Ok(node) => node,
        Err(_) => return Err(AllocError),
    };
    let steps = run_plan(alloc, &mut node, spine, &plan, &mut port)?;
    Ok(NodeEnd { node, steps })
}

/// All ends, where each node came to one.
fn all_ends<'s>(
    mut ends: Vec<NodeEnd<'s>>,
    results: Vec<Result<NodeEnd<'s>, Memory>>,
) -> Result<Vec<NodeEnd<'s>>, Memory>
    requires none { ends.items ≡ [] }
    requires room { vec_len results ≤ vec_capacity ends }
    ensures { IfOk result (λ all. map (λ end. Ok end) all.items ≡ results.entry.items) }
{
    'results: for result in results {
        ends.push_reserved(result?);
    }
    Ok(ends)
}

/// The ends of plans that have a port each.
fn run_even<'s, R: Threads + Sync, P: Port + Send + Drop>(
    rt: &R,
    alloc: Global,
    catalog: &Catalog,
    spine: &'s Spine,
    ports: Vec<P>,
    plans: Vec<Plan>,
) -> Result<Vec<NodeEnd<'s>>, Memory>
    requires even { vec_len ports ≡ vec_len plans }
    requires count { vec_len plans < 2 ^ 32 }
    ensures { IfOk result (λ ends. AreEnds catalog.now spine.now plans.items ends.items) }
{
    let ends = Vec::with_capacity(alloc, plans.len())?;
    let jobs = make_jobs(alloc, ports, plans)?;
    let results = thread::map_vec(rt, jobs, &|job| run_job(alloc, catalog, spine, job))?;
    let all = all_ends(ends, results)?;
    Ok(all)
}

/// Runs each plan in a thread of its own, on a new node over a store in memory. The node's id is the plan's place, from 0 on. All nodes
/// are of one spine. The port at a plan's place is told before and after each of its calls, and goes when the plan has ended. All threads
/// are joined, and the ends come in the order of the plans. Where a thread can't be started the calls run one after another.
///
/// # Errors
///
/// `Uneven` exactly where there aren't as many ports as plans: no call was made then. `Memory` where a node wasn't opened, or a list had
/// no room; the nodes are gone then, and what they have put into cells stays. Memory that is refused to a call of a plan is what that
/// call came to.
pub fn run_nodes<'s, R: Threads + Sync, P: Port + Send + Drop>(
    rt: &R,
    alloc: Global,
    catalog: &Catalog,
    spine: &'s Spine,
    ports: Vec<P>,
    plans: Vec<Plan>,
) -> Result<Vec<NodeEnd<'s>>, RunFault>
    requires count { vec_len plans < 2 ^ 32 }

    // There is an end for each plan, in their order: what its calls made of a new node, one behind another.
    ensures ends { IfOk result (λ ends. AreEnds catalog.now spine.now plans.items ends.items) }

    // Each node is of the spine and began with the catalog, so that any two of them can be asked whether they meet.
    ensures spine { IfOk result (λ ends. All (λ end. end.node.pass.spine ≡ spine.now) ends.items) }
    ensures catalog { IfOk result (λ ends. All (λ end. IsOfOpening catalog.now end.node) ends.items) }
    ensures uneven { IsErrOf result RunFault.Uneven ↔ (vec_len ports ≢ vec_len plans) }
{
    if ports.len() != plans.len() {
        return Err(RunFault::Uneven);
    }
    let ends = run_even(rt, alloc, catalog, spine, ports, plans)?;
    Ok(ends)
}
