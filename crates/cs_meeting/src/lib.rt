//! A hub and one of its replicas that meet, each over a store of its own, with no network between them. `meet` opens both. Then
//! the replica asks, the hub answers, and the replica takes the answer, turn by turn, until it is at rest or a turn leads
//! nowhere. It prints what became of each as a replica that is worked by lines does. It promises how that ends
//! (`specs/Ends.antt`): each world that the stores showed went on by events of its own (`specs/Turns.antt`), so what holds of
//! worlds holds behind a meeting too. `laws` says that a turn has one outcome, and a meeting one end. The crate stands on
//! `cs_world` for what events make of a world, on `cs_hub` and `cs_replica` for the calls, and on `cs_node_lines` for what is
//! printed. Its tests stand in `bench/check_exchange.sh`.
//! What names no section of SQLite's documentation is profile of this project.
#![tactic(auto)]

mod ask;
mod fault;
pub mod laws;
mod meeting;
mod telling;

pub use ask::{AT_ONCE, Ask, TURNS};
pub use fault::MeetingFault;
pub use telling::meet;
