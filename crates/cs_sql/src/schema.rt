//! The schema of a store in SQLite: four STRICT tables, `rows`, `meta`, `log` and `pending`, made in this order and nothing
//! beside them. `judge` says what a schema that was found is to a store: of a fresh file, ours, ours of before there was
//! `pending`, or another's; `laws` says that it is one of these alone. `lay_out` makes the tables of a fresh file and
//! `complete` the one that is missing, each in one transaction. At `Err`, and in a stop, nothing is left of it or the
//! whole. The crate stands on `sqlite`.
//! Its tests stand in `cs_sqlite_tests`.

mod judging;
pub mod laws;
mod making;

pub use judging::{Judged, judge};
pub use making::{complete, lay_out};
