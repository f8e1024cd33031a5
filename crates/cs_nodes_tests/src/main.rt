//! Tests of nodes (`cs_nodes`, `cs_nodes::following`) over the store in memory, and of plans (`cs_nodes::plans`), by their public calls. They
//! show what pushes and pulls on one row of cells are told and leave, and threads that push at once. They show nodes that run their plans at
//! once, held by their ports or not, and memory that is refused. They stand in a crate of their own since a crate with tests is proved twice.
//! It is a program that does nothing, and no library. What the gate keeps of a library it marks by all ways that crates.txt has down from it.
//! Those are many here.
#![tactic(auto)]

#[cfg(test)]
mod gated;
#[cfg(test)]
mod given;
#[cfg(test)]
mod meeting;
#[cfg(test)]
mod memory;
#[cfg(test)]
mod nodes;
#[cfg(test)]
mod planned;
#[cfg(test)]
mod threads;
#[cfg(test)]
mod undefined;
#[cfg(test)]
mod widened;

fn main() {}
