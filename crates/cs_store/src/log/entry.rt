//! The entries of a log.

use crate::log::body::Body;
use cs_value::Memory;
use std::alloc::Global;

/// The most bytes of an entry's changeset: its length has four bytes in a message.
pub const MAX_CHANGESET: u64 = 4_294_967_295;

/// The most entries of a log: of a hub's, and of one that threads share.
pub const MAX_ENTRIES: u32 = 1_048_576;

/// An entry of the log: whose push it was, the number that its replica gave it, and what it does.
#[derive(Drop)]
pub struct LogEntry {
    pub origin: u32,
    pub number: u64,
    pub body: Body,
}

impl LogEntry {
    ghost use Rattle.std.specs.Prelude.{◌≡◌, ◌↔◌, IsTrue, IfOk};

    /// Whether two entries are the same in all parts, the flags of their changes too. It takes no memory.
    pub fn same(&self, other: &LogEntry) -> bool
        ensures { IsTrue result ↔ (self.now ≡ other.now) }
    {
        self.origin == other.origin && self.number == other.number && self.body.same(&other.body)
    }

    /// The same entry, in memory of its own.
    pub fn copy(&self, alloc: Global) -> Result<LogEntry, Memory>
        ensures { IfOk result (λ copied. copied ≡ self.now) }
    {
        Ok(LogEntry {
            origin: self.origin,
            number: self.number,
            body: self.body.copy(alloc)?,
        })
    }
}
