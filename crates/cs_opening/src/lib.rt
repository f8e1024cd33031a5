//! Opening a replica over a store. `open_at` opens any store. One that holds nothing is laid out, in one commit. Any other is only
//! read, and opened exactly where all that it holds is that of this replica at one position. All that is the values, the rows, the
//! pending changes, each the net change to the row at its place, and the push under way. Where it holds anything else, the fault says
//! whether the store is another's or damaged. The crate stands on positions (`cs_pending::position`), pending changes (`cs_pending`)
//! and stores (`cs_store`). `laws` says that what a store held has one position or one fault.
//! `moving` opens also a store of an older form, and `copying` serves it. `open_replica` does so by the tables that the store keeps,
//! where these are the handed ones with more columns.
//! Its tests stand in `cs_replica_tests`.
//! What names no section of SQLite's documentation is profile of this project.
#![tactic(auto)]

pub mod copying;
mod fault;
mod flying;
mod fresh;
mod judging;
pub mod laws;
mod leading;
pub mod moving;
mod opening;
mod owning;
mod reading;
mod values;
mod wider;

pub use fault::OpenFault;
pub use fresh::{have_none, holds_nothing};
pub use opening::open_at;
pub use owning::{Owner, is_value, reads_id, reads_tables};
pub use wider::{OpenedReplica, open_replica};
