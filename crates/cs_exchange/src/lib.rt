//! What a replica and the hub exchange, as the replica's steps on its store, one commit each. `pushing` makes the push that is
//! under way of what is pending, and ends it where it has become an entry; `taking` merges another's entry into the replica's
//! rows; `pulling` takes the entries of an answer one after another, or what they do together at once. Each module's `laws` say that
//! its answers are one.
//! The crate stands on pending changes and positions (`cs_pending`), conflicts (`cs_conflict`), rebasing (`cs_rebaser`) and
//! messages (`cs_wire`).
//! Its tests stand in `cs_replica_tests`.
//! What names no section of SQLite's documentation is profile of this project.
#![tactic(auto)]

pub mod pulling;
pub mod pushing;
pub mod taking;
