//! What a store holds of a hub: the rows that its log makes, the entries of the log, and the tables that it opened with.
//! `specs/log_store/Shows.antt` says when a store shows a log, and `Catalogs` keeps the tables at each of its versions
//! (`specs/log_store/Versions.antt`). `laws` says that a store shows one log at most. It says too that a commit of an entry shows the
//! longer log, with the edits that make of the rows what the entry makes. It stands on logs (`cs_store::log`), on tables that get more
//! columns (`cs_widening`) and on stores (`cs_store`). What rests on it in the crates above is tested in `cs_world_tests`.

pub(crate) mod catalogs;
pub mod laws;

pub use catalogs::Catalogs;
