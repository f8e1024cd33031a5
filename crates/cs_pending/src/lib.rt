//! Edits of rows while changes are pending, in any store. At each place that was edited a store keeps the row that stands there. It
//! keeps too the net change that leads to it from the row that stood there before. So an edit is one commit of one row and one
//! pending change, whatever else is pending. `edit_row` does that for an application, by a table's name, and refuses by the first
//! fault that holds; `edit_rows` makes several edits one commit. For a replica above, `standing_at` reads what stands at a place
//! and what stood there before what is pending. `Settling` gathers the edits of several places for one commit. `lent`, `copied` and
//! `undone` are of rows or none in their bytes.
//! The crate stands on stores (`cs_store`), on net changes (`cs_change::netting`) and on the places of tables (`cs_apply`). `rows` lists rows, `position` is where a
//! replica stands, `outgoing` what is pending as a changeset. `laws` says
//! that a store shows one view, and that an edit leads to one view or has one fault. Its tests stand in `cs_stores_tests`.
//! What names no section of SQLite's documentation is profile of this project.
#![tactic(auto)]

mod editing;
mod edits;
mod fault;
pub mod laws;
pub mod outgoing;
mod places;
mod placing;
pub mod position;
pub mod rows;
mod settling;
mod wanted;

pub use edits::{RowEdit, edit_row, edit_rows};
pub use fault::{EditFault, EditsFault};
pub use places::{copied, lent, undone};
pub use placing::{RowPlace, Standing, standing_at};
pub use settling::Settling;
