//! A request that was judged.

use cs_store::Batch;
use cs_store::log::LogEntry;

/// What a request is to be answered.
#[derive(Drop)]
pub enum Judged {
    /// These bytes; nothing changes.
    Reply(Vec<u8>),
    /// The entry is to be appended, by a commit of this batch, and then it is this reply.
    Append {
        entry: LogEntry,
        batch: Batch,
        reply: Vec<u8>,
    },
}
