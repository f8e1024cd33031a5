//! What a replica that asks to catch up is told.

use cs_normal::Normal;

/// What a replica that asks to catch up is told of the entries from its version on.
#[derive(Drop)]
pub enum Caught {
    /// The first of them, alone: it is its own, or it widens a table.
    Alone,
    /// So many of them, taken together as one changeset.
    Merged { count: u32, changes: Normal },
}
