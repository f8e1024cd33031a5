//! What heads a push.

/// Whose push it is, the number that its replica gave it, and the version on whose tables it was made.
#[derive(Clone, Copy, Debug, PartialEq, Eq)]
pub struct PushHead {
    pub origin: u32,
    pub number: u64,
    pub base: u64,
}
