//! What an event comes to.

use cs_exchange::pulling::AnswerFault;
use cs_exchange::pushing::PushFault;
use cs_opening::OpenFault;
use cs_pending::EditFault;
use cs_replica::Told;

/// What an event comes to.
#[derive(Clone, Copy, Debug, PartialEq, Eq)]
pub enum Outcome {
    /// The row was edited, or the replica read its store again.
    Done,
    /// A message was sent, with this number.
    Sent(usize),
    /// An answer of the hub was told to a replica, and this became of it.
    Heard(Told),
    /// There is no replica with this number. Nothing has changed.
    NoReplica,
    /// There is no message with this number. Nothing has changed.
    NoMessage,
    /// The edit was refused. Nothing has changed.
    NotEdited(EditFault),
    /// No push was made. Nothing has changed.
    NotPushed(PushFault),
    /// The answer ended in a fault. What was taken before it stays.
    NotHeard(AnswerFault),
    /// The store wasn't read. Nothing has changed.
    NotReloaded(OpenFault),
    /// Memory was refused. Nothing has changed.
    Memory,
}
