//! A plan, call by call.

ghost use Rattle.std.specs.Prelude.{◌≡◌, IfOk};
ghost use Rattle.cs_nodes.specs.plans.Ends.{TurnsNode};
ghost use Rattle.cs_nodes.specs.plans.Runs.{RunsPlan};

use crate::plans::plan::{Plan, Port, Stepped};
use crate::plans::stepping::{Held, run_step};
use cs_spine::Spine;
use cs_value::Memory;
use std::alloc::Global;

/// Has a node make a plan's calls, and tells the port before and after each. The room of what they come to is taken before the first.
///
/// # Errors
///
/// `Memory`, and no call was made.
pub(crate) fn run_plan<'s, P: Port>(
    alloc: Global,
    node: &mut Held<'s>,
    spine: &'s Spine,
    plan: &Plan,
    port: &mut P,
) -> Result<Vec<Stepped>, Memory>
    requires { node.old.pass.spine ≡ spine.now }
    ensures { IfOk result (λ steps. TurnsNode (λ cells. RunsPlan cells plan.now steps.items) node.old node.new) }
{
    let mut rest = plan.as_slice();
    let mut steps = Vec::with_capacity(alloc, rest.len())?;
    'calls: while let Some((step, more)) = rest.split_first() {
        let call = steps.len();
        port.before(call);
        let one = run_step(alloc, node, spine, step);
        port.after(call);
        steps.push_reserved(one);
        rest = more;
    }
    Ok(steps)
}
