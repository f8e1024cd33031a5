//! A store in SQLite, `SqlStore`: rows, pending changes, values and a log in four tables of a database that any SQLite tool
//! opens. It meets what any store owes (`cs_store`'s `RowStore`); every commit is one transaction, so a stop leaves what the
//! store held or the whole commit. `open_memory` makes one in memory, `open_path` opens a file, and `adopt` takes a
//! connection that the caller opened. Each judges what it finds, and refuses another's database untouched. `laws` says that
//! what a store then holds is one, that whatever a stop leaves opens as a store that holds what was left, and that so do the
//! files of a closed store. `schema` has the tables, `statements` what is read and written of them. The crate stands on what
//! stores owe (`cs_store`) and on `sqlite`.
//! Its tests stand in `cs_sqlite_tests`.
//! What names no section of SQLite's documentation is profile of this project.
#![tactic(auto)]

pub mod laws;
mod parts;
pub mod schema;
pub mod statements;
mod store;

pub use store::SqlStore;
