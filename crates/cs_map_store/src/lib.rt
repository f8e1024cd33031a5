//! A store in memory, `MapStore`. It meets what any store owes (`cs_store`'s `RowStore`), and refuses for want of memory
//! alone. Each of its calls says so, but for `misread`, by which a caller counts that what it gave can't have been written.
//! What it took for a refused commit it gives back, but for room in a leaf, which is for its next rows. A commit of one row or
//! of one pending change costs the logarithm of those that are there. The log is packed (`log`), and an entry is found by its
//! version alone. The crate stands on leaves of bodies (`cs_leaf`), on edits (`cs_store::edits`), on `cs_store`, on the order
//! of keys (`cs_order`) and on catalogs (`cs_value`).
//! Its tests stand in `cs_stores_tests`.
//! What names no section of SQLite's documentation is profile of this project.
#![tactic(auto)]

mod anew;
mod checking;
mod edits;
mod leaves;
mod log;
mod map_store;
mod shelves;
mod slots;

pub use map_store::MapStore;
