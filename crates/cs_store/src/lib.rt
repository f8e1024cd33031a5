//! Stores of rows, of pending changes, of values by name and of a log, in bytes. Keys and rows are bytes of records, a
//! pending change is the bytes of a change, and an entry has origin, number and body. `RowStore` says what any store
//! owes. A read answers what stands there and changes nothing, and a commit is whole or changes nothing. `Device` comes
//! only where the count of failures rose or stands at its last value, and a stop leaves something. `Trip` is a store for
//! tests that refuses one call. A store in memory stands in `cs_map_store`.
//! `check` says whether all that a store holds is what its places say, by the catalog that its log opened with; `is_row`,
//! `is_change` and `is_name` judge one piece of it, and `Present` the bodies of the log, one after another. The crate stands on
//! rows and changes (`cs_record`, `cs_change`, `cs_changeset`), on normal changesets and states (`cs_normal`), on tables that get
//! more columns (`cs_widening`), and on the order of keys (`cs_order`). `edits` are edits at places, `log` has the entries of a
//! log. `laws` says that a listing and a commit have one answer, and what a commit leaves at each place. It says too how calls
//! follow one another, that a store holds one state of the tables, and that its log decodes to one catalog.
//! Its tests stand in `cs_stores_tests`.
//! What names no section of SQLite's documentation is profile of this project.
#![tactic(auto)]

mod batch;
pub mod edits;
mod fault;
mod judging;
pub mod laws;
pub mod log;
mod names;
mod present;
mod store;
mod trip;

pub use batch::{Batch, MetaEdit, StoredEntry};
pub use fault::StoreFault;
pub use judging::{is_change, is_name, is_row, mark_bytes, whole_row};
pub use names::MetaName;
pub use present::Present;
pub use store::{RowStore, StoredBody};
pub use trip::{Trip, Written};
