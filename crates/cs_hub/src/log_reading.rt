//! Reading a hub's log from its store: `entries_at` reads entries, and `entries_told` writes them into an answer without decoding what they
//! do. `catch_at` takes those together that a replica catches up by, and `has_entry` says whether a given entry stands at a version. What the
//! store gives that is no entry of the tables is told to the store. It stands on what stores show of a hub (`log_store`), on catching up
//! (`catching`) and on answers as bytes (`cs_wire`).
//! Its tests stand in `cs_world_tests`.

mod catching;
mod others;
mod reading;
mod telling;

pub use catching::catch_at;
pub use reading::{entries_at, has_entry};
pub use telling::entries_told;
