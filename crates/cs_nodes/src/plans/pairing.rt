//! Plans beside their ports.

ghost use Rattle.std.specs.Prelude.{◌≡◌, ◌<◌, ◌^◌, IfOk, vec_len};
ghost use Rattle.cs_nodes.specs.plans.Jobs.{AreJobsOf};

use crate::plans::job::Job;
use crate::plans::plan::Plan;
use cs_value::Memory;
use std::alloc::Global;

/// Each plan with its place, as the id of its node, and the port at that place.
pub(crate) fn make_jobs<P: Drop>(
    alloc: Global,
    ports: Vec<P>,
    plans: Vec<Plan>,
) -> Result<Vec<Job<P>>, Memory>
    requires even { vec_len ports ≡ vec_len plans }
    requires count { vec_len plans < 2 ^ 32 }
    ensures { IfOk result (λ jobs. AreJobsOf plans.items jobs.items) }
{
    let mut jobs = Vec::with_capacity(alloc, plans.len())?;
    let mut ports = ports.into_iter();
    'plans: for plan in plans {
        let Some(port) = ports.next() else {
            unreachable!()
        };
        jobs.push_reserved(Job::new(jobs.len() as u32, plan, port));
    }
    Ok(jobs)
}
