//! A replica takes another's entry of the log: the three-way merge, row by row. `take_changes` judges the entry on the log's rows before
//! it asks anything. It asks a picker at each change that conflicts with the own row, and makes one commit. The own rows become the
//! merged ones, and what was under way becomes pending. What is pending at each of these places is the net change from what the entry
//! leaves there to the own row. Entries may be long: their places are gone through in loops. `take_changes_to` takes changes that lead
//! to a later version than the next: what entries do together.
//! `flight` makes what is under way pending over the log's rows; `reading` reads the places of the entry, and tells whether each
//! change is defined on the log's rows; `deciding` asks a picker at each change that conflicts with the own row, and merges the
//! rows; `gathering` does all this for an entry, and `committing` commits the gathered edits. `widening` takes an entry that widens a
//! table: what is under way becomes pending, and rows and pending changes get the new columns, in one commit.
//! It stands on positions (`cs_pending::position`), pending changes (`cs_pending`), conflicts and pickers (`cs_conflict`), on
//! the merge and its diamond (`cs_rebaser`), and on rows that get more columns (`cs_padding`).
//! Its tests stand in `cs_replica_tests`, through `Replica`.

mod asking;
mod committing;
mod deciding;
mod fault;
mod flight;
mod gathering;
pub mod laws;
mod reading;
mod rows;
mod site;
mod taking;
mod widening;

pub use fault::TakeFault;
pub use taking::{take_changes, take_changes_to};
pub use widening::take_widen;
