//! Changesets in the format of SQLite's session extension. `read` and `encode` are exact. What is read is spelled by
//! exactly the bytes that were read, and what is refused by nothing. The fault and its offset are the definition's.
//! What is read stays in the bytes that it was read from. `laws` says that bytes spell one changeset, or have one fault
//! at one place. The crate stands on changes (`cs_change`), whose public items it hands on, and on records
//! (`cs_record`).
//! Its tests stand in `cs_changes_tests`.
//! What names no section of SQLite's documentation is profile of this project.
#![tactic(auto)]

mod changes;
mod columns;
mod fault;
mod groups;
mod header;
pub mod laws;
mod reading;
mod records;

pub use changes::{read_flag, read_one};
pub use columns::{read_new, read_old, read_value};
pub use cs_change::{Bytes, Change, Changeset, Group, encode};
pub use fault::{CodecFault, Fault, FirstFault};
pub use groups::{HeadedGroup, read_file};
pub use header::{read_columns, read_header};
pub use reading::read;
pub use records::{read_old_fields, read_row};
