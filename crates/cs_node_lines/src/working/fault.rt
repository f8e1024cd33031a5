//! Why a node ends early.

ghost use Rattle.std.specs.Prelude.{◌≡◌};
ghost use Rattle.cs_node_lines.specs.working.Endings.{of_opening, of_reading};
ghost use Rattle.cs_node_lines.specs.declared.working.fault.NodeFault.TheVariants.{Memory as NoMemory};

use crate::asks::ReadFault;
use cs_opening::OpenFault;
use std::alloc::{AllocError, AllocFailed};
use thiserror::Error;

/// Why a node ended before it did all that its lines ask. What it did before stays done. The text is what is told of it behind
/// `sync: `.
#[derive(Clone, Copy, Debug, PartialEq, Eq, Error)]
pub enum NodeFault {
    #[error("Memory")]
    Memory,
    /// The reader failed, or was asked too often.
    #[error("Read")]
    Read,
    /// The writer failed.
    #[error("Write")]
    Write,
    /// The first line that can't be read, from 1 on.
    #[error("line {0}")]
    Line(u64),
    /// The replica isn't opened.
    #[error("{0}")]
    Open(OpenFault),
}

impl From<AllocError> for NodeFault {
    ghost from_gives = { λ _ fault. fault ≡ NoMemory };

    fn from(_error: AllocError) -> NodeFault {
        NodeFault::Memory
    }
}

impl<T: Drop> From<AllocFailed<T>> for NodeFault {
    ghost from_gives = { λ _ fault. fault ≡ NoMemory };

    fn from(_error: AllocFailed<T>) -> NodeFault {
        NodeFault::Memory
    }
}

impl From<ReadFault> for NodeFault {
    ghost from_gives = { λ fault told. told ≡ of_reading fault };

    fn from(fault: ReadFault) -> NodeFault {
        match fault {
            ReadFault::Memory => NodeFault::Memory,
            ReadFault::Read => NodeFault::Read,
            ReadFault::Line(number) => NodeFault::Line(number),
        }
    }
}

impl From<OpenFault> for NodeFault {
    ghost from_gives = { λ fault told. told ≡ of_opening fault };

    fn from(fault: OpenFault) -> NodeFault {
        match fault {
            OpenFault::Memory => NodeFault::Memory,
            other => NodeFault::Open(other),
        }
    }
}
