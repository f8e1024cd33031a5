//! The marks of key columns, as a header has them: `flag_bytes`. It stands apart since `cs_pending::outgoing` (what is to be sent) and
//! `cs_pending::position` (the values that a store keeps of a replica) both write headers. Neither stands on the other. It stands on how a
//! header is spelled (`cs_change`).
//! Its tests are those of `cs_replica_tests` and `cs_stores_tests`, through these.

mod marks;

pub use marks::flag_bytes;
