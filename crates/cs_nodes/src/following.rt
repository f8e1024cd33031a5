//! A replica that follows a row of cells which threads share (`cs_spine`). Each call is the replica's own step, read on the entries that the
//! thread's pass knows. `edit_row` edits a row, and `rows_of` lists rows. `pull_known` looks for entries and takes all that are known, one after
//! another. `push_known` offers the push that is under way, or one made of what is pending, for the cell behind all that is known. It takes what
//! that cell holds. A replica that stands on what is known (`specs/following/Standing.antt`) does so after each call. It stands on replicas
//! (`cs_replica`) and the row of cells (`cs_spine`). Who owns replica and pass is `cs_nodes`.
//! Its tests stand in `cs_nodes_tests`.

mod editing;
mod fault;
pub mod laws;
mod pulling;
mod pushed;
mod readying;
mod rows;
mod seeing;
mod sending;
mod taking;

pub use editing::edit_row;
pub use fault::NodeFault;
pub use pulling::pull_known;
pub use pushed::NodePush;
pub use readying::is_at_rest;
pub use rows::rows_of;
pub use seeing::see_all;
pub use sending::push_known;
