//! The statements of a store in SQLite, over any connection of `sqlite` whose store can be changed. `look` says what a database
//! that was found is, and writes nothing. Its schema is judged, its rowids and keys are shown to be apart, and its log is
//! counted. `read_at` and its like are the queries, and `commit_batch` writes a batch in one transaction. Each says what it
//! makes of the contents, what a fault leaves, and what a stop may leave; `check_store` says whether all that stands there is
//! what its places say. It stands on the schema (`schema`), on what stores hold (`cs_store`) and on `sqlite`.
//! Its tests stand in `cs_sqlite_tests`.

mod checking;
mod counting;
mod looking;
mod reading;
mod spaces;
mod streaming;
mod writing;

pub use checking::check_store;
pub use counting::LogFound;
pub use looking::{Found, look};
pub use reading::{list_at, list_log, read_at, read_log, read_meta};
pub use spaces::Space;
pub use writing::commit_batch;
