//! A replica's store opened, also one that keeps what is pending as one value. Replicas kept it so before each change had a place of
//! its own. `open_store` opens any store as `cs_opening` does. Where the store keeps such a value, that is moved to the places of
//! its changes, in one commit, if it then shows the replica. Where it doesn't, nothing is written. What would then be held is judged
//! on a copy in memory (`copying`). `laws` says that what a store held is opened at one position, or has one fault.
//! Its tests stand in `cs_replica_tests`.

mod edits;
pub mod laws;
mod moving;
mod planning;

pub use moving::open_store;
