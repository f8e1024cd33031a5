//! Why a replica doesn't follow.

ghost use Rattle.std.specs.Prelude.{◌≡◌};
ghost use Rattle.cs_nodes.specs.following.Faults.{fault_of_pull, fault_of_push};
ghost use Rattle.cs_nodes.specs.declared.following.fault.NodeFault.TheVariants.{Memory};

use cs_conflict::ConflictBuf;
use cs_exchange::pulling::PullFault;
use cs_exchange::pushing::PushFault;
use std::alloc::AllocError;
use thiserror::Error;

/// Why a pull or a push of a node ended. What was done before stays. The text is the name that programs print.
#[derive(Debug, Drop, Error)]
pub enum NodeFault {
    /// Memory was refused. It may come before any other fault.
    #[error("Memory")]
    Memory,
    /// The device that keeps the store failed, and its count of failures rose.
    #[error("Device")]
    Device,
    /// The entry at the replica's version isn't defined on the tables there. The picker was not asked.
    #[error("BadEntry")]
    BadEntry,
    /// At this conflict the picker wished to stop.
    #[error("Stopped")]
    Stopped(ConflictBuf),
    /// Each cell is known to be set. The push stays under way.
    #[error("Full")]
    Full,
    /// The last push had the last number that a push may have.
    #[error("Spent")]
    Spent,
    /// The changes have more bytes than a push may have.
    #[error("TooLarge")]
    TooLarge,
}

impl From<AllocError> for NodeFault {
    ghost from_gives = { λ _ e. e ≡ Memory };

    fn from(_e: AllocError) -> NodeFault {
        NodeFault::Memory
    }
}

/// What is told where an entry at the replica's own version isn't pulled: it is neither behind nor ahead.
pub(crate) fn pull_fault(fault: PullFault) -> NodeFault
    ensures { result ≡ fault_of_pull fault }
{
    match fault {
        PullFault::Memory => NodeFault::Memory,
        PullFault::Behind | PullFault::Gap | PullFault::BadEntry => NodeFault::BadEntry,
        PullFault::Stopped(conflict) => NodeFault::Stopped(conflict),
        PullFault::Device => NodeFault::Device,
    }
}

/// What is told where a push isn't made, or can't be given as an entry. That there is none is told otherwise.
pub(crate) fn push_fault(fault: PushFault) -> NodeFault
    ensures { result ≡ fault_of_push fault }
{
    match fault {
        PushFault::Memory | PushFault::Nothing | PushFault::InFlight => NodeFault::Memory,
        PushFault::Device => NodeFault::Device,
        PushFault::Spent => NodeFault::Spent,
        PushFault::TooLarge => NodeFault::TooLarge,
    }
}
