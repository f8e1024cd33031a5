//! What becomes of an answer.

/// What became of an answer of the hub.
#[derive(Clone, Copy, Debug, PartialEq, Eq)]
pub enum Told {
    /// The push that was under way is the entry before this version, and confirmed.
    Confirmed(u64),
    /// A push was accepted that isn't the one under way; or entries were told together, for another replica or from another version on.
    /// Nothing has changed.
    Ignored,
    /// The push came too late: the newest version of the hub is this. Nothing has changed.
    Stale(u64),
    /// The hub refused, with this code. Nothing has changed.
    Refused(u8),
    /// So many entries were taken, each by itself or together: all that the answer tells from the replica's version on.
    Taken(u64),
    /// So many entries were taken, and at the next the picker wished to stop.
    Stopped(u64),
}
