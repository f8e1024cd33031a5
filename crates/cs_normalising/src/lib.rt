//! How the normal form of a changeset as read is made, by a catalog. It stands on changesets in normal form and names' places (`cs_normal`)
//! and changes behind their keys (`cs_normal::keyed`). It stands too on changes and groups as read (`cs_change`), the order of keys
//! (`cs_order`) and catalogs (`cs_value`). `normalise` makes the normal form, or tells what is wrong with the first group that is wrong.
//! `normalise_lent` makes the same form over the bytes where it was read: `LentNormal`, whose changes are brought into normal form one by
//! one, where each is asked for. `laws` says that a normal form means what was read, over whole states too, and that there is one, also
//! when it is read again. It says that a changeset fits or has one fault.
//! Its tests stand in `cs_changes_tests`.
//! What names no section of SQLite's documentation is profile of this project.
#![tactic(auto)]

mod groups;
mod key_order;
mod lent_list;
mod lent_normal;
mod lent_table;
mod table_form;
mod unfit;
mod written_forms;

pub use groups::{normalise, normalise_lent};

pub mod laws;

pub use lent_normal::LentNormal;
pub use lent_table::LentTable;
pub use unfit::Unfit;
