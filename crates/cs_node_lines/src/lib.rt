//! Replicas and hubs worked by lines of text, over any store, reader and writer. `asks` reads what lines ask, and `working` does it
//! on a replica. `following` answers each line as it comes, and `hub` serves a hub's requests. `told` has the texts that are printed.
//! Each says exactly which lines were answered, by what, and what the store holds then, whatever ended it. The crate stands on replicas
//! (`cs_replica`), hubs (`cs_hub`) and lines (`cs_lines`).
//! Its tests stand in `cs_replica_tests`, and its texts are compared by `bench/check_node.sh` and `bench/check_sessions.sh`.
//! What names no section of SQLite's documentation is profile of this project.
#![tactic(auto)]

pub mod asks;
pub mod following;
pub mod hub;
pub mod told;
pub mod working;
