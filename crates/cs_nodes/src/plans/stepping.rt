//! One call of a plan.

ghost use Rattle.std.specs.Prelude.{◌≡◌, ◌&&◌, length, not};
ghost use Rattle.cs_nodes.specs.plans.Ends.{TurnsNode};
ghost use Rattle.cs_nodes.specs.plans.Marks.{is_taken};
ghost use Rattle.cs_nodes.specs.plans.Runs.{RunsStep};
ghost use Rattle.cs_nodes.specs.declared.plans.plan.Step.TheVariants.{Edit as Edits, Pull, Push};

use crate::plans::plan::{Mark, Step, StepOutcome, Stepped};
use crate::{Node, NodePush};
use cs_conflict::Wish;
use cs_conflict::wish_list::Wishes;
use cs_map_store::MapStore;
use cs_spine::Spine;
use cs_value::{Edit, Items};
use std::alloc::Global;

/// A node over the store in memory.
pub(crate) type Held<'s> = Node<'s, MapStore>;

/// What a call came to, and how the node stands after it.
fn stepped<'s>(node: &Held<'s>, outcome: StepOutcome, made: bool) -> Stepped
    ensures outcome { result.outcome ≡ outcome }
    ensures known { result.mark.known ≡ length node.now.pass.known }
    ensures version { result.mark.version ≡ node.now.replica.position.version }
    ensures made { result.mark.made ≡ made }
{
    node.stands();
    Stepped {
        outcome,
        mark: Mark {
            known: node.pass().len(),
            version: node.version(),
            made,
        },
    }
}

fn run_edit<'s>(alloc: Global, node: &mut Held<'s>, edit: &Edit) -> Stepped
    ensures { TurnsNode (λ cells. RunsStep cells (Edits edit.now) result) node.old node.new }
{
    let edited = node.edit(alloc, edit);
    node.stands();
    match edited {
        Ok(()) => stepped(node, StepOutcome::Edited, false),
        Err(fault) => stepped(node, StepOutcome::NotEdited(fault), false),
    }
}

fn run_pull<'s>(
    alloc: Global,
    node: &mut Held<'s>,
    spine: &'s Spine,
    wishes: &Items<Wish>,
) -> Stepped
    requires { node.old.pass.spine ≡ spine.now }
    ensures { TurnsNode (λ cells. RunsStep cells (Pull wishes.now) result) node.old node.new }
{
    let mut picker = Wishes::new(wishes.as_slice());
    let pulled = node.pull(alloc, spine, &mut picker);
    node.stands();
    match pulled {
        Ok(count) => stepped(node, StepOutcome::Pulled(count), false),
        Err(fault) => stepped(node, StepOutcome::Failed(fault), false),
    }
}

/// Whether a push was offered, and the entry of its cell taken.
fn has_taken(told: NodePush) -> bool
    ensures { result ≡ is_taken told }
{
    match told {
        NodePush::Nothing | NodePush::Behind => false,
        NodePush::Accepted(_) | NodePush::Other(_) => true,
    }
}

/// Whether a call made a push, which is there behind it: one is, and none was under way before.
fn is_made(was_under_way: bool, is_there: bool) -> bool
    ensures { result ≡ (not was_under_way && is_there) }
{
    !was_under_way && is_there
}

fn run_push<'s>(
    alloc: Global,
    node: &mut Held<'s>,
    spine: &'s Spine,
    wishes: &Items<Wish>,
) -> Stepped
    requires { node.old.pass.spine ≡ spine.now }
    ensures { TurnsNode (λ cells. RunsStep cells (Push wishes.now) result) node.old node.new }
{
    let was_under_way = node.is_under_way();
    let mut picker = Wishes::new(wishes.as_slice());
    let pushed = node.push(alloc, spine, &mut picker);
    node.stands();
    match pushed {
        Ok(told) => {
            let made = is_made(was_under_way, has_taken(told));
            stepped(node, StepOutcome::Pushed(told), made)
        }
        Err(fault) => {
            let made = is_made(was_under_way, node.is_under_way());
            stepped(node, StepOutcome::Failed(fault), made)
        }
    }
}

/// Has a node make one call.
pub(crate) fn run_step<'s>(
    alloc: Global,
    node: &mut Held<'s>,
    spine: &'s Spine,
    step: &Step,
) -> Stepped
    requires { node.old.pass.spine ≡ spine.now }
    ensures { TurnsNode (λ cells. RunsStep cells step.now result) node.old node.new }
{
    match step {
        Step::Edit(edit) => run_edit(alloc, node, edit),
        Step::Pull(wishes) => run_pull(alloc, node, spine, wishes),
        Step::Push(wishes) => run_push(alloc, node, spine, wishes),
    }
}
