//! Nodes that run plans, each in a thread of its own, on one row of cells that they share. A plan is a list of edits, pulls and pushes.
//! `run_nodes` opens a new node over a store in memory for each plan, and has it make the plan's calls. A port of the caller's is told before
//! and after each. All threads are joined, and the nodes come back with what each call came to. By the contract of `run_nodes` each end is what
//! its node's own calls made of a new node, one behind another (`specs/plans/Ends.antt`). It stands on nodes (`cs_nodes`) and on wishes in a
//! list (`cs_conflict::wish_list`). Its tests stand in `cs_nodes_tests`.

mod ending;
mod fault;
mod job;
mod pairing;
mod plan;
mod running;
mod stepping;

pub use ending::{NodeEnd, run_nodes};
pub use fault::RunFault;
pub use plan::{Mark, Plan, Port, Step, StepOutcome, Stepped};
