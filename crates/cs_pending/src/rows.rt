//! The rows of a table, as a store that shows rows lists them: `rows_of` reads them all, each behind the bytes of its key. What the store
//! lists that is no row of the table is told to the store. `laws` says that a table has one list of rows.
//! It stands on what stores show (`cs_pending`). Its tests stand in `cs_replica_tests`.

pub mod laws;
mod reading;

pub use reading::{RowAtKey, rows_of};
