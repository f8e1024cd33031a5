//! Nodes that run their plans, held by nobody.

ghost use Rattle.std.specs.Prelude.{◌≡◌, ◌≤◌, All, IfOk, IfSome, vec_len};

use crate::given::{Here, ROW_1, ROW_2, ROW_3, pulled, shows};
use crate::planned::{idle, insert_and_push};
use cs_conflict::Wish;
use cs_nodes::meet_nodes;
use cs_nodes::plans::{NodeEnd, Plan, Port, RunFault, run_nodes};
use cs_spine::Spine;
use cs_store_cases::catalog;
use cs_value::{Catalog, Memory};
use std::alloc::Global;
use std::thread::Threads;

/// A port that does nothing.
#[derive(Drop)]
struct Unwatched;

impl Port for Unwatched {
    fn before(&mut self, _call: usize) {}

    fn after(&mut self, _call: usize) {}
}

fn ports(alloc: Global, count: u32) -> Result<Vec<Unwatched>, Memory> {
    let mut ports = Vec::new(alloc);
    for _ in 0..count {
        ports.push(Unwatched)?;
    }
    Ok(ports)
}

/// Three nodes insert a row each, and push three times. A push takes one entry of another's, or is the last that is needed, so all are
/// accepted whatever the threads do.
fn three_plans(alloc: Global) -> Result<Vec<Plan>, Memory>
    ensures { IfOk result (λ plans. vec_len plans ≡ 3) }
{
    let mut plans = Vec::new(alloc);
    plans.push(insert_and_push(alloc, 1, "v1", 3)?)?;
    plans.push(insert_and_push(alloc, 2, "v2", 3)?)?;
    plans.push(insert_and_push(alloc, 3, "v3", 3)?)?;
    Ok(plans)
}

fn three_ends<'s, R: Threads + Sync>(
    rt: &R,
    alloc: Global,
    catalog: &Catalog,
    spine: &'s Spine,
) -> Option<Vec<NodeEnd<'s>>>
    ensures { IfSome result (λ ends. All (λ end. end.node.pass.spine ≡ spine.now) ends.items) }
{
    let ports = ports(alloc, 3).ok()?;
    let plans = three_plans(alloc).ok()?;
    run_nodes(rt, alloc, catalog, spine, ports, plans).ok()
}

/// The node of the last end.
fn last_node<'s>(ends: &mut Vec<NodeEnd<'s>>, spine: &'s Spine) -> Option<Here<'s>>
    requires { All (λ end. end.node.pass.spine ≡ spine.now) ends.old.items }
    ensures others { All (λ end. end.node.pass.spine ≡ spine.now) ends.new.items }
    ensures node { IfSome result (λ node. node.pass.spine ≡ spine.now) }
{
    let NodeEnd { node, .. } = ends.pop()?;
    Some(node)
}

/// Whether a node shows all rows once it has pulled.
fn shows_all<'s>(alloc: Global, node: &mut Here<'s>, spine: &'s Spine) -> bool
    requires { node.old.pass.spine ≡ spine.now }
    ensures { node.new.pass.spine ≡ node.old.pass.spine }
{
    let pulled = pulled(alloc, node, spine, Wish::Take).is_ok();
    pulled && shows(alloc, node, &[ROW_1, ROW_2, ROW_3], 3, 0) == Ok(true)
}

/// Whether each of two nodes shows all rows once it has pulled, and they meet.
fn meet_once_pulled<'s>(
    alloc: Global,
    spine: &'s Spine,
    one: &mut Here<'s>,
    two: &mut Here<'s>,
) -> bool
    requires one { one.old.pass.spine ≡ spine.now }
    requires two { two.old.pass.spine ≡ spine.now }
    ensures one { one.new.pass.spine ≡ one.old.pass.spine }
    ensures two { two.new.pass.spine ≡ two.old.pass.spine }
{
    let first = shows_all(alloc, one, spine);
    let second = shows_all(alloc, two, spine);
    first && second && meet_nodes(spine, one, two)
}

fn meet_with_third<'s>(
    alloc: Global,
    spine: &'s Spine,
    ends: &mut Vec<NodeEnd<'s>>,
    one: &mut Here<'s>,
    two: &mut Here<'s>,
) -> Option<bool>
    requires ends { All (λ end. end.node.pass.spine ≡ spine.now) ends.old.items }
    requires one { one.old.pass.spine ≡ spine.now }
    requires two { two.old.pass.spine ≡ spine.now }
{
    let mut three = last_node(ends, spine)?;
    let both = meet_once_pulled(alloc, spine, one, two);
    Some(both & meet_once_pulled(alloc, spine, two, &mut three))
}

fn meet_with_second<'s>(
    alloc: Global,
    spine: &'s Spine,
    ends: &mut Vec<NodeEnd<'s>>,
    one: &mut Here<'s>,
) -> Option<bool>
    requires ends { All (λ end. end.node.pass.spine ≡ spine.now) ends.old.items }
    requires one { one.old.pass.spine ≡ spine.now }
{
    let mut two = last_node(ends, spine)?;
    meet_with_third(alloc, spine, ends, one, &mut two)
}

fn meet_once_run<R: Threads + Sync>(rt: &R, alloc: Global, spine: &Spine) -> Option<bool> {
    let catalog = catalog(alloc)?;
    let mut ends = three_ends(rt, alloc, &catalog, spine)?;
    let mut one = last_node(&mut ends, spine)?;
    meet_with_second(alloc, spine, &mut ends, &mut one)
}

/// Three nodes push at once; once each has pulled, they meet.
#[test]
fn ends_meet(rt: HostRuntime) {
    let alloc = rt.alloc();
    let told = match Spine::new(alloc, 4) {
        Ok(spine) => meet_once_run(&rt, alloc, &spine),
        Err(_) => None,
    };
    assert!(rt; told == Some(true));
}

/// So many plans of no call.
fn idle_plans(alloc: Global, count: u32) -> Result<Vec<Plan>, Memory>
    requires { count ≤ 2 }
    ensures { IfOk result (λ plans. vec_len plans ≤ 2) }
{
    let mut plans = Vec::new(alloc);
    if count > 0 {
        plans.push(idle(alloc))?;
    }
    if count > 1 {
        plans.push(idle(alloc))?;
    }
    Ok(plans)
}

/// How many ends there are of so many plans that have so many ports.
fn ends_of<R: Threads + Sync>(
    rt: &R,
    alloc: Global,
    spine: &Spine,
    watched: u32,
    count: u32,
) -> Result<usize, RunFault>
    requires { count ≤ 2 }
{
    let Some(catalog) = catalog(alloc) else {
        return Err(RunFault::Memory);
    };
    let ports = ports(alloc, watched)?;
    let plans = idle_plans(alloc, count)?;
    let ends = run_nodes(rt, alloc, &catalog, spine, ports, plans)?;
    Ok(ends.len())
}

fn are_paired<R: Threads + Sync>(rt: &R, alloc: Global, spine: &Spine) -> bool {
    let fewer = ends_of(rt, alloc, spine, 1, 2) == Err(RunFault::Uneven);
    let more = ends_of(rt, alloc, spine, 2, 1) == Err(RunFault::Uneven);
    let none = ends_of(rt, alloc, spine, 0, 0) == Ok(0);
    fewer && more && none && ends_of(rt, alloc, spine, 2, 2) == Ok(2)
}

#[test]
fn each_plan_has_a_port(rt: HostRuntime) {
    let alloc = rt.alloc();
    let told = match Spine::new(alloc, 1) {
        Ok(spine) => are_paired(&rt, alloc, &spine),
        Err(_) => false,
    };
    assert!(rt; told);
}
