//! Why an input isn't read.

ghost use Rattle.std.specs.Prelude.{◌≡◌};
ghost use Rattle.cs_node_lines.specs.declared.asks.fault.ReadFault.TheVariants.{Memory as NoMemory};

use std::alloc::{AllocError, AllocFailed};
use thiserror::Error;

/// Why an input isn't read whole.
#[derive(Clone, Copy, Debug, PartialEq, Eq, Error)]
pub enum ReadFault {
    /// Memory was refused.
    #[error("Memory")]
    Memory,
    /// The reader failed, or was asked too often.
    #[error("Read")]
    Read,
    /// The first line that can't be read, from 1 on.
    #[error("line {0}")]
    Line(u64),
}

impl From<AllocError> for ReadFault {
    ghost from_gives = { λ _ fault. fault ≡ NoMemory };

    fn from(_error: AllocError) -> ReadFault {
        ReadFault::Memory
    }
}

impl<T: Drop> From<AllocFailed<T>> for ReadFault {
    ghost from_gives = { λ _ fault. fault ≡ NoMemory };

    fn from(_error: AllocFailed<T>) -> ReadFault {
        ReadFault::Memory
    }
}
