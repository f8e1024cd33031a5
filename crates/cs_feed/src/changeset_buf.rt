//! A changeset that owns its bytes.

use cs_changeset::{Changeset, read};
use cs_value::Memory;
use std::alloc::{AllocError, Global};
use std::marker::Model;

/// A changeset in memory of its own, as the bytes that spell it. Contracts see the bytes, of which the changeset is the
/// one that they spell. (SQLite's "changeset format".)
#[derive(Drop)]
pub struct ChangesetBuf {
    bytes: Vec<u8>,
}

impl Model for ChangesetBuf {
    ghost use Rattle.std.specs.Prelude.{ℕ, List};
    ghost use Rattle.cs_feed.specs.Feeding.{IsChangeset};

    ghost Value = { List ℕ };

    ghost view = { λ owned. owned.bytes.items };

    ghost invariant = { λ owned. IsChangeset owned.bytes.items };
}

impl ChangesetBuf {
    ghost use Rattle.std.specs.Prelude.{◌≡◌, IfOk};
    ghost use Rattle.cs_change.specs.Spelling.{changeset_spelling, FitsChangeset};
    ghost use Rattle.cs_feed.specs.Feeding.{IsChangeset};

    /// The changeset that these bytes spell. It takes no memory.
    pub fn from_vec(bytes: Vec<u8>) -> ChangesetBuf
        requires { IsChangeset bytes.items }
        ensures { result ≡ bytes.items }
    {
        ChangesetBuf { bytes }
    }

    /// The bytes that spell it.
    pub fn bytes(&self) -> &[u8]
        ensures is { result.now ≡ self.now }
        ensures spelled { IsChangeset self.now }
    {
        self.bytes.as_slice()
    }

    /// The bytes that spell it. It takes no memory.
    pub fn into_vec(self) -> Vec<u8>
        ensures is { result.items ≡ self }
        ensures spelled { IsChangeset self }
    {
        let ChangesetBuf { bytes } = self;
        bytes
    }

    /// The changeset, whose changes stay in its bytes. The memory is for the lists of groups and of changes, and for the
    /// header of each group.
    pub fn lend(&self, alloc: Global) -> Result<Changeset<'_>, Memory>
        ensures { IfOk result (λ lent. FitsChangeset lent × (self.now ≡ changeset_spelling lent)) }
    {
        match read(alloc, self.bytes()) {
            Ok(changeset) => Ok(changeset),
            Err(_) => Err(AllocError),
        }
    }
}
