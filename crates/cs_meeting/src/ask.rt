//! What a replica asks of its hub.

/// How many entries are asked for at once.
pub const AT_ONCE: u32 = 1000;

/// How many turns a meeting has at most.
pub const TURNS: u32 = 1 << 30;

/// What a replica asks of its hub.
#[derive(Clone, Copy, Debug, PartialEq, Eq)]
pub enum Ask {
    /// To catch up: for at most `AT_ONCE` entries from its version on, taken together.
    Catch,
    /// To take the push that is under way, once more.
    Resend,
    /// To take what is pending, as a push.
    Push,
}
