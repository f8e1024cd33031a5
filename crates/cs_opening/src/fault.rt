//! Why a store isn't opened.

ghost use Rattle.std.specs.Prelude.{◌≡◌};
ghost use Rattle.cs_opening.specs.declared.fault.OpenFault.TheVariants.{Memory, Device};
ghost use Rattle.cs_store.specs.declared.fault.StoreFault.TheVariants as stored;

use cs_store::StoreFault;
use std::alloc::{AllocError, AllocFailed};
use thiserror::Error;

/// Why a store isn't opened. Nothing has changed then. The text is the name that programs print.
#[derive(Clone, Copy, Debug, PartialEq, Eq, Error)]
pub enum OpenFault {
    /// Memory was refused. It may come before any other fault.
    #[error("Memory")]
    Memory = 1,
    /// What the store holds is no replica of these tables. Whose it is can't be read, or it is this replica's and is at no
    /// position.
    #[error("Damaged")]
    Damaged = 2,
    /// The device that keeps the store failed, and its count of failures rose.
    #[error("Device")]
    Device = 3,
    /// The store is that of a replica with another id or other tables, or of none.
    #[error("Mismatch")]
    Mismatch = 4,
}

impl From<AllocError> for OpenFault {
    ghost from_gives = { λ _ e. e ≡ Memory };

    fn from(_e: AllocError) -> OpenFault {
        OpenFault::Memory
    }
}

impl<T: Drop> From<AllocFailed<T>> for OpenFault {
    ghost from_gives = { λ _ e. e ≡ Memory };

    fn from(_e: AllocFailed<T>) -> OpenFault {
        OpenFault::Memory
    }
}

impl From<StoreFault> for OpenFault {
    ghost from_gives = { λ fault e. (fault ≡ stored.Memory → e ≡ Memory) × (fault ≡ stored.Device → e ≡ Device) };

    fn from(fault: StoreFault) -> OpenFault {
        match fault {
            StoreFault::Memory => OpenFault::Memory,
            StoreFault::Device => OpenFault::Device,
        }
    }
}
