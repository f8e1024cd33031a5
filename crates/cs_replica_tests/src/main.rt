//! Tests of replicas over the store in memory, by public calls (`cs_replica`, and the crates from `cs_pending::position` on below it).
//! They make each call once, and show what a picker over a closure is told, and whatever the device or the memory refuses. What edits,
//! pushes, pulls and answers leave, and what lines print of it, are rows of `bench/check_node.sh`. `choosing` takes entries by pickers
//! over closures as programs write them.
#![tactic(auto)]

pub mod choosing;
#[cfg(test)]
mod given;
#[cfg(test)]
mod lines;
#[cfg(test)]
mod living;
#[cfg(test)]
mod memory;
#[cfg(test)]
mod moving;
#[cfg(test)]
mod opening;
#[cfg(test)]
mod pulling;
#[cfg(test)]
mod refusing;
#[cfg(test)]
mod together;

fn main() {}
