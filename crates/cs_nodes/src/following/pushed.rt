//! What becomes of a push.

/// What became of a push.
#[derive(Clone, Copy, Debug, PartialEq, Eq)]
pub enum NodePush {
    /// Nothing is pending, and no push is under way.
    Nothing,
    /// Entries are known that the replica hasn't taken: these have to be pulled first.
    Behind,
    /// The push is the entry before this version, to which the replica has come.
    Accepted(u64),
    /// Another's entry is the one before this version, to which the replica has come; the push is pending again.
    Other(u64),
}
