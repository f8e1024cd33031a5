//! The changes of a changeset in normal form, each with its place. That is its table, the table's number in a catalog, and the bytes of
//! its key. `place_all` lists them in order, table by table; they are those that are applied (`cs_apply`), on whose list this stands.
//! Its tests are those of `cs_replica_tests`, through `cs_exchange::taking` and `cs_opening::moving`.

mod placed;

pub use placed::{Placed, place_all};
