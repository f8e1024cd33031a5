//! A replica: tables that are edited offline, over any store. `Replica` holds the store, the tables and where it stands
//! (`cs_pending::position`). By its own invariant an honest store shows a replica there: its rows, what is pending, what is under way, and
//! nothing else. `open` lays out a new store or judges one that holds something (`cs_opening`); `insert`, `update`, `delete` and `edit`
//! edit rows (`cs_pending`); `rows`, `pending` and `in_flight` give what is shown; `make_push` and `resend` push what is pending
//! (`cs_exchange::pushing`); `take`, `take_merged` and `answer` take what the hub tells (`cs_exchange::pulling`). `laws` says when a
//! replica stands on a log, and that each step keeps it there. Two that are at rest at one version have the same rows. An edit, a push and
//! an answer have one result.
//! Each of these says the step that it is from one shown replica to the next (`specs/Step.antt`).
//! Its tests stand in `cs_replica_tests`.
//! What names no section of SQLite's documentation is profile of this project.
#![tactic(auto)]

mod answering;
mod editing;
pub mod laws;
mod opening;
mod replica;
mod showing;
mod told;

pub use replica::Replica;
pub use told::Told;
