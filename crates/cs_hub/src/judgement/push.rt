//! What the hub makes of pushes.

use cs_store::Batch;
use cs_store::log::LogEntry;

/// What the hub made of a push that it read.
#[derive(Clone, Copy, Debug, PartialEq, Eq)]
pub enum Pushed {
    /// The push is entry `version - 1` of the log: it was appended, or it was there before.
    Accepted(u64),
    /// Another push stands at its base; the log has so many entries.
    Stale(u64),
}

/// What is to be made of a push that was judged.
#[derive(Drop)]
pub enum Judgement {
    /// It is told so, and nothing changes.
    Told(Pushed),
    /// It is to be appended as this entry, by a commit of this batch.
    Append { entry: LogEntry, batch: Batch },
}
