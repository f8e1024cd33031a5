//! Where a replica stands: its id, the version of the log that it has come to, and the number of its last push. Also the push
//! that is under way, and how many changes are pending. `Position` holds these in memory. `specs/position/Shows.antt` says what
//! a store holds of a replica at a position: its rows, its pending changes and these values, and nothing else. The log's rows
//! are not stored. They are what is left where what is pending is taken back from the rows, and then what is under way.
//! `number_value`, `id_value`, `flight_value` and `catalog_value` make the values as a store keeps them. `laws` says what a
//! commit shows whose edits lead to another position. It stands on pending changes (`cs_pending`) and stores (`cs_store`);
//! replicas' steps stand above it.
//! Its tests stand in `cs_replica_tests`.

pub mod laws;
mod position;
mod values;

pub use position::{LAST_NUMBER, Position};
pub use values::{catalog_value, flight_value, id_value, number_value};
