//! A changeset that stays in the bytes of an answer.

use std::marker::Model;

/// A changeset as the bytes that stand in an answer: whether they are one isn't looked at. Contracts see it as these bytes.
#[derive(Drop)]
pub struct ChangesetBytes<'a> {
    bytes: &'a [u8],
}

impl<'a> Model for ChangesetBytes<'a> {
    ghost use Rattle.std.specs.Prelude.{ℕ, List};

    ghost Value = { List ℕ };

    ghost view = { λ here. here.bytes.now };
}

impl<'a> ChangesetBytes<'a> {
    ghost use Rattle.std.specs.Prelude.{◌≡◌};

    /// The changeset with these bytes.
    pub(crate) fn new(bytes: &'a [u8]) -> ChangesetBytes<'a>
        ensures { result ≡ bytes.now }
    {
        ChangesetBytes { bytes }
    }

    /// The bytes.
    pub fn bytes(&self) -> &'a [u8]
        ensures { result.now ≡ self.now }
    {
        self.bytes
    }
}
