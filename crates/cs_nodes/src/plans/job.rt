//! A plan that is to be run.

ghost use Rattle.std.specs.Prelude.{◌≡◌, ◌<◌, ◌-◌, ◌^◌};

use crate::plans::plan::Plan;

/// A plan, with the id of its node and its port.
#[derive(Drop)]
pub(crate) struct Job<P> {
    pub(crate) id: u32,
    pub(crate) plan: Plan,
    pub(crate) port: P,
    ghost small: { id < 2 ^ 32 - 1 },
}

impl<P> Job<P> {
    /// The plan with this id and this port.
    pub(crate) fn new(id: u32, plan: Plan, port: P) -> Job<P>
        requires { id < 2 ^ 32 - 1 }
        ensures id { result.id ≡ id }
        ensures plan { result.plan ≡ plan }
    {
        Job { id, plan, port }
    }
}
