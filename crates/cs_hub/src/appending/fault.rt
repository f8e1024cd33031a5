//! Why an entry isn't appended.

ghost use Rattle.std.specs.Prelude.{◌≡◌};
ghost use Rattle.cs_hub.specs.declared.appending.fault.AppendFault.TheVariants.{Memory, Device};
ghost use Rattle.cs_store.specs.declared.fault.StoreFault.TheVariants as stored;

use cs_conflict::ConflictBuf;
use cs_store::StoreFault;
use std::alloc::{AllocError, AllocFailed};
use thiserror::Error;

/// Why an entry isn't appended. Nothing has changed then. The text is the name that programs print.
#[derive(Debug, Drop, Error)]
pub enum AppendFault {
    /// Memory was refused. It may come before any other fault.
    #[error("Memory")]
    Memory,
    /// A change isn't defined at its place: the first that isn't, with what stands there.
    #[error("Conflict")]
    Conflict(ConflictBuf),
    /// The device that keeps the store failed, and its count of failures rose.
    #[error("Device")]
    Device,
}

impl From<AllocError> for AppendFault {
    ghost from_gives = { λ _ e. e ≡ Memory };

    fn from(_e: AllocError) -> AppendFault {
        AppendFault::Memory
    }
}

impl<T: Drop> From<AllocFailed<T>> for AppendFault {
    ghost from_gives = { λ _ e. e ≡ Memory };

    fn from(_e: AllocFailed<T>) -> AppendFault {
        AppendFault::Memory
    }
}

impl From<StoreFault> for AppendFault {
    ghost from_gives = { λ fault e. (fault ≡ stored.Memory → e ≡ Memory) × (fault ≡ stored.Device → e ≡ Device) };

    fn from(fault: StoreFault) -> AppendFault {
        match fault {
            StoreFault::Memory => AppendFault::Memory,
            StoreFault::Device => AppendFault::Device,
        }
    }
}
