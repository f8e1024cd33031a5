//! Nodes: replicas that follow one row of cells (`cs_spine`), each owned by a thread with the pass by which it knows the entries. Each
//! call is the replica's own step (`following`), read on what the pass knows as the call ends, whatever other threads do between.
//! `Node` says by its own invariant that its replica stands on what its pass knows; `Node::edit`, `Node::pull` and `Node::push` are the
//! replica's steps; `meet_nodes` says of two nodes that they are at rest at one version, and then their rows are the same.
//! `plans` runs nodes in threads; `books` are hubs on the shared log.
//! Its tests stand in `cs_nodes_tests` and `cs_spine_tests`.
//! What names no section of SQLite's documentation is profile of this project.
#![tactic(auto)]

pub mod books;
pub mod following;
mod meet;
mod node;
pub mod plans;
mod tables;

pub use crate::following::{NodeFault, NodePush};
pub use meet::meet_nodes;
pub use node::Node;
