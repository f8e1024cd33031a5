//! Why an entry isn't taken.

ghost use Rattle.std.specs.Prelude.{◌≡◌};
ghost use Rattle.cs_store.specs.declared.fault.StoreFault.TheVariants as stored;
ghost use Rattle.cs_exchange.specs.declared.taking.fault.TakeFault.TheVariants.{Memory, Device};

use cs_conflict::ConflictBuf;
use cs_store::StoreFault;
use std::alloc::{AllocError, AllocFailed};
use thiserror::Error;

/// Why an entry isn't taken. Nothing has changed then, in the store and in memory. The text is the name that programs print.
#[derive(Debug, Drop, Error)]
pub enum TakeFault {
    /// Memory was refused. It may come before any other fault, and then the picker may have been asked.
    #[error("Memory")]
    Memory,
    /// The entry isn't defined on the log's rows, or isn't one of the catalog's tables, or no version is left. The picker was not
    /// asked.
    #[error("BadEntry")]
    BadEntry,
    /// At this conflict the picker wished to stop; it is the first at which it did.
    #[error("Stopped")]
    Stopped(ConflictBuf),
    /// The device that keeps the store failed, or what the store holds at a place is no row or no change of the table. The place
    /// is one of the entry or of the push that is under way. The device's count of failures rose.
    #[error("Device")]
    Device,
}

impl From<AllocError> for TakeFault {
    ghost from_gives = { λ _ e. e ≡ Memory };

    fn from(_e: AllocError) -> TakeFault {
        TakeFault::Memory
    }
}

impl<T: Drop> From<AllocFailed<T>> for TakeFault {
    ghost from_gives = { λ _ e. e ≡ Memory };

    fn from(_e: AllocFailed<T>) -> TakeFault {
        TakeFault::Memory
    }
}

impl From<StoreFault> for TakeFault {
    ghost from_gives = { λ fault e. (fault ≡ stored.Memory → e ≡ Memory) × (fault ≡ stored.Device → e ≡ Device) };

    fn from(fault: StoreFault) -> TakeFault {
        match fault {
            StoreFault::Memory => TakeFault::Memory,
            StoreFault::Device => TakeFault::Device,
        }
    }
}
