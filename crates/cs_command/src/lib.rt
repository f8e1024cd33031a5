//! The command line of `sync`: what its words ask for, and the tables that they name.
//!
//! It stands on `clap`, and on `cs_tools` for the tools that may be asked for. `parse` promises that words are refused for the
//! reasons that the one definition of the command line gives, and no others (`specs/CommandLine.antt`, `sync_app`); `asked_of`
//! that what is taken asks for what that definition says (`wanted_in`); `catalog_of` that table words are the catalog that they
//! spell, or which word is refused first (`specs/CatalogWords.antt`); `files_of` gives the files that are named. `laws` say that
//! these are one, and what some command lines ask for, by computation.
//! Its tests are runs of the built program: `bench/check_program.sh` and `bench/check_sessions.sh`.
//! What names no section of SQLite's documentation is profile of this project.
#![tactic(auto)]

mod asked;
mod command;
pub mod laws;
mod number;
mod table;

pub use asked::{Asked, asked_of, files_of};
pub use command::parse;
pub use table::{TableFault, catalog_of};
