//! A leaf: bodies behind their places, in order, over one list of bytes. A store in memory keeps its rows in many of them.
//! `stage` prepares what edits make of a leaf, and takes all the memory that this needs. The `Change` that it answers is then
//! made or left, which takes none. `merge_some` is for leaves that are all made anew. Rows that are gone leave their bytes
//! behind. Yet a leaf's bytes are at most twice those of its rows: an invariant of the type (`IsTight`). `laws` says how
//! edits of lists of bodies go together.
//! The crate stands on edits (`cs_store::edits`), on their places (`cs_store`) and on the order of keys (`cs_order`).
//! Its tests stand in `cs_stores_tests`.
#![tactic(auto)]

mod changing;
mod heads;
pub mod laws;
mod leaf;
mod merging;

pub use changing::{Change, stage, stage_one};
pub use leaf::{Leaf, Place};
pub use merging::merge_some;
