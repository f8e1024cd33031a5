//! A replica pulls the hub's log. `take_entry` takes the entry at the replica's version: its own push is confirmed, and another's is
//! merged into its rows (`taking`), in one commit. `take_entries` takes those of an answer one after another, straight from its
//! bytes, and tells how many it took and why it ended. `take_merged` takes what entries up to a later version do together, as one
//! changeset, in one commit, and `take_told` the same from its bytes. `laws` says that an entry that is pulled leads to the log's next
//! rows. It says also that an entry, a list and a changeset have a result, and only one.
//! It stands on taken entries (`taking`), pushes (`pushing`) and messages (`cs_wire`).
//! Its tests stand in `cs_replica_tests`.

mod fault;
pub mod laws;
mod listing;
mod merging;
mod pulling;
mod told;

pub use fault::{AnswerFault, PullFault};
pub use listing::{Pulled, take_entries};
pub use merging::{take_merged, take_told};
pub use pulling::take_entry;
