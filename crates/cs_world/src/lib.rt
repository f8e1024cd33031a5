//! A world: a hub, replicas, and every message that was ever sent between them. `Event` is one thing that may happen, `Outcome` what it
//! comes to. What an event does to the hub's log, to the replicas and to the messages is one readable case each (`specs/Steps.antt`).
//! `World::run` makes any list of events happen over any stores: edits, pushes, pulls, losses, repeats and restarts in any order. Its
//! contract is the headline (`specs/Headline.antt`), which holds over honest stores. Each event makes its step. Each replica's tables are
//! the hub's at its version with its own changes on top. Each pull is the three-way merge, no push conflicts, and each counts once.
//! Replicas at rest at one version have the same rows. So it is of whatever a stop leaves of one of the stores (`specs/Left.antt`), and
//! of a run with stops (`specs/Stops.antt`). `laws` says why: a world that began with nothing stays sound, whatever happens in it, and
//! what is sound has the headline. It knows nothing of text. The crate stands on `cs_hub` and `cs_replica`, whose calls each event makes.
//! Its tests stand in `cs_world_tests`. What names no section of SQLite's documentation is profile of this project.
#![tactic(auto)]

mod event;
mod fault;
pub mod laws;
mod letter;
mod moving;
mod opening;
mod outcome;
mod reading;
mod turning;
mod world;

pub use event::{Event, Wider, WishList};
pub use fault::WorldFault;
pub use outcome::Outcome;
pub use world::World;
