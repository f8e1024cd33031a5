//! The answers to a clash.

ghost use Rattle.std.specs.Prelude.{◌≡◌};
ghost use Rattle.cs_conflict.specs.Wishes.{resolution_of};

use crate::conflict::Resolution;

/// What is wished at a clash, a conflict of another's change with an own one.
#[derive(Clone, Copy, Debug, PartialEq, Eq)]
pub enum Wish {
    /// The own row stays: the conflict is answered `Omit`. It is lawful where the own change covers the other's.
    Keep,
    /// The other's change is made over the own row: the conflict is answered `Replace`. It is lawful where there is an own
    /// row, so for each kind but `NotFound`.
    Take,
    /// Neither: the conflict is answered `Abort`, and nothing of the other's changes is made. It is always lawful.
    Stop,
}

impl Wish {
    /// The answer to the conflict. (SQLite's "Session Extension", `sqlite3changeset_apply_v2`, constants returned by the
    /// conflict handler.)
    pub fn resolution(self) -> Resolution
        ensures { result ≡ resolution_of self }
    {
        match self {
            Wish::Keep => Resolution::Omit,
            Wish::Take => Resolution::Replace,
            Wish::Stop => Resolution::Abort,
        }
    }
}
