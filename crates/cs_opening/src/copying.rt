//! A copy in memory of what a store holds, where it holds rows and values by name alone: `copy_of` reads each table and each value once.
//! What is judged on such a copy is so of the store, which isn't written. It stands on stores (`cs_store`) and on the one in
//! memory (`cs_map_store`).
//! Its tests are those of `cs_replica_tests`, through `moving`.

mod copying;

pub use copying::copy_of;
