//! Plans over one table, and what came of their calls.

use crate::given::inserting;
use cs_conflict::Wish;
use cs_nodes::NodePush;
use cs_nodes::plans::{Mark, NodeEnd, Plan, Step, StepOutcome};
use cs_value::{Items, Memory};
use std::alloc::Global;

fn no_wishes(alloc: Global) -> Items<Wish> {
    Items::from_vec(Vec::new(alloc))
}

/// A plan of no call.
pub(crate) fn idle(alloc: Global) -> Plan {
    Items::from_vec(Vec::new(alloc))
}

/// A plan that inserts a row of a number and a text into t1 and then pushes so many times.
pub(crate) fn insert_and_push(
    alloc: Global,
    number: i64,
    word: &str,
    pushes: usize,
) -> Result<Plan, Memory> {
    let mut steps = Vec::new(alloc);
    steps.push(Step::Edit(inserting(alloc, number, word)?))?;
    for _ in 0..pushes {
        steps.push(Step::Push(no_wishes(alloc)))?;
    }
    Ok(Items::from_vec(steps))
}

/// Whether a call of a plan was an edit that was made.
pub(crate) fn is_edited(end: &NodeEnd<'_>, call: usize) -> bool {
    match end.steps.get(call) {
        Some(step) => matches!(&step.outcome, StepOutcome::Edited),
        None => false,
    }
}

/// Whether a call of a plan was a push that was told so.
pub(crate) fn is_pushed(end: &NodeEnd<'_>, call: usize, told: NodePush) -> bool {
    match end.steps.get(call) {
        Some(step) => match &step.outcome {
            StepOutcome::Pushed(push) => *push == told,
            _ => false,
        },
        None => false,
    }
}

/// Whether a node stood so after a call of a plan.
pub(crate) fn has_mark(end: &NodeEnd<'_>, call: usize, mark: Mark) -> bool {
    match end.steps.get(call) {
        Some(step) => step.mark == mark,
        None => false,
    }
}
