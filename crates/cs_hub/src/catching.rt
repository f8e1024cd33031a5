//! Catching up: what is told to a replica that was away for many pushes. Of the log's entries from its version on, those up to its own next
//! one, or to one that widens a table, are taken together as one changeset. They are taken as long as that has at most as many bytes as an
//! entry's may have. Such an entry is told alone. `specs/catching/Catches.antt` says which entries these are, and what is told (`Caught`).
//! `take_run` takes as many changesets together. `laws` says that there is one answer, and that there is one at all. It says that what is
//! told leads from the log's tables at the one version to those at the other. It stands on consolidation (`cs_group`) and on logs
//! (`cs_store::log`), and on no store.
//! Its tests stand in `cs_world_tests`.

mod alone;
mod caught;
pub mod laws;
mod merging;

pub use alone::is_told_alone;
pub use caught::Caught;
pub use merging::take_run;
