//! Why a meeting ends early.

ghost use Rattle.std.specs.Prelude.{◌≡◌};
ghost use Rattle.cs_meeting.specs.declared.fault.MeetingFault.TheVariants.{Memory as NoMemory, Write as NotWritten};

use cs_opening::OpenFault;
use std::alloc::{AllocError, AllocFailed};
use std::io;
use thiserror::Error;

/// Why a meeting ended before its time. What was done stays done. The text is what is told of it behind `sync: `.
#[derive(Clone, Copy, Debug, PartialEq, Eq, Error)]
pub enum MeetingFault {
    #[error("Memory")]
    Memory,
    /// The writer failed.
    #[error("Write")]
    Write,
    /// The hub isn't opened.
    #[error("hub {0}")]
    Hub(OpenFault),
    /// The replica isn't opened.
    #[error("{0}")]
    Replica(OpenFault),
}

impl From<io::Error> for MeetingFault {
    ghost from_gives = { λ _ fault. fault ≡ NotWritten };

    fn from(_error: io::Error) -> MeetingFault {
        MeetingFault::Write
    }
}

impl From<AllocError> for MeetingFault {
    ghost from_gives = { λ _ fault. fault ≡ NoMemory };

    fn from(_error: AllocError) -> MeetingFault {
        MeetingFault::Memory
    }
}

impl<T: Drop> From<AllocFailed<T>> for MeetingFault {
    ghost from_gives = { λ _ fault. fault ≡ NoMemory };

    fn from(_error: AllocFailed<T>) -> MeetingFault {
        MeetingFault::Memory
    }
}
