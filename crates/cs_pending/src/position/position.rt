//! What a replica holds in memory.

use cs_normal::Normal;

/// The last number that a push may have.
pub const LAST_NUMBER: u64 = 9_223_372_036_854_775_807;

/// Where a replica stands.
#[derive(Drop)]
pub struct Position {
    /// The id of the replica.
    pub id: u32,
    /// The version of the hub's log that it has come to.
    pub version: u64,
    /// The number of its last push, 0 before the first.
    pub number: u64,
    /// The changes of the push that is under way.
    pub flight: Option<Normal>,
    /// How many changes are pending.
    pub pending: u64,
}
