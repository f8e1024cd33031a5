//! What a table that gets more columns makes of a store. `widen_rows` gives the edits by which each of its rows has NULL there, and
//! `widen_pending` those of its pending changes; `widen_pending_with` takes edits of those too that aren't committed yet. They are
//! made of the bytes that stand there, and the store is only read. `laws` says that each is one list, and that a commit of both
//! leaves a store that shows what it showed, with the new columns. The crate stands on stores (`cs_store`), on tables that get more
//! columns (`cs_widening`), on changes as they are read (`cs_changeset`), and on what is pending (`cs_pending`). Its tests stand in
//! `cs_stores_tests`. All of it is profile of this project.
#![tactic(auto)]

mod folded;
pub mod laws;
mod padding;
mod pending;
mod rows;

pub use folded::widen_pending_with;
pub use pending::widen_pending;
pub use rows::widen_rows;
