//! Changesets and rebase blobs as text, for people: one line a group and one a change or entry. It stands on changes and
//! entries that stay in their bytes (`cs_change`, `cs_blob`) and on their records (`cs_record`), and makes no value of
//! its own. The definitions of `Text` state each text exactly, and each type here promises its own. What `{}` writes of a `ChangesetText`,
//! a `ChangeText`, a `BlobText`, a `TablesText`, a `NameText`, a `ValueText`, a `ValuesText` or a `FieldText` is that text and nothing
//! else. So `format!` ensures it where it succeeds. The text is a format of this project, described in docs/FORMATS.md. `parse` reads
//! what the words of a line spell.
//! Its texts are compared by `bench/check_tools.sh`.
//! What names no section of SQLite's documentation is profile of this project.
#![tactic(auto)]

mod blobs;
mod changesets;
mod common;
pub mod parse;
mod tables;
mod words;

pub use blobs::BlobText;
pub use changesets::{ChangeText, ChangesetText, ValuesText};
pub use tables::TablesText;
pub use words::{FieldText, NameText, ValueText, is_plain};
