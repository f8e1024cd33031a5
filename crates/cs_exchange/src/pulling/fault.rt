//! Why entries aren't pulled.

ghost use Rattle.std.specs.Prelude.{◌≡◌};
ghost use Rattle.cs_store.specs.declared.fault.StoreFault.TheVariants as stored;
ghost use Rattle.cs_exchange.specs.declared.taking.fault.TakeFault.TheVariants as take;
ghost use Rattle.cs_exchange.specs.declared.pulling.fault.PullFault.TheVariants.{Memory, BadEntry, Stopped, Device};
ghost use Rattle.cs_conflict.specs.declared.conflict.Conflict.{Conflict};

use crate::taking::TakeFault;
use cs_conflict::ConflictBuf;
use cs_store::StoreFault;
use std::alloc::AllocError;
use thiserror::Error;

/// Why an entry isn't pulled. Nothing has changed then, in the store and in memory. The text is the name that programs print.
#[derive(Debug, Drop, Error)]
pub enum PullFault {
    /// Memory was refused. It may come before any fault but `Behind` and `Gap`.
    #[error("Memory")]
    Memory,
    /// The entry is before the replica's version.
    #[error("Behind")]
    Behind,
    /// The entry is behind the one at the replica's version.
    #[error("Gap")]
    Gap,
    /// The entry isn't defined on the log's rows, can't be read, or no version is left. The picker was not asked.
    #[error("BadEntry")]
    BadEntry,
    /// At this conflict the picker wished to stop; it is the first at which it did.
    #[error("Stopped")]
    Stopped(ConflictBuf),
    /// The device that keeps the store failed, and its count of failures rose.
    #[error("Device")]
    Device,
}

impl From<AllocError> for PullFault {
    ghost from_gives = { λ _ e. e ≡ Memory };

    fn from(_e: AllocError) -> PullFault {
        PullFault::Memory
    }
}

impl From<StoreFault> for PullFault {
    ghost from_gives = { λ fault e. (fault ≡ stored.Memory → e ≡ Memory) × (fault ≡ stored.Device → e ≡ Device) };

    fn from(fault: StoreFault) -> PullFault {
        match fault {
            StoreFault::Memory => PullFault::Memory,
            StoreFault::Device => PullFault::Device,
        }
    }
}

impl From<TakeFault> for PullFault {
    ghost from_gives = { λ fault e. (fault ≡ take.Memory → e ≡ Memory) × (fault ≡ take.BadEntry → e ≡ BadEntry)
        × ((conflict : Conflict) → fault ≡ take.Stopped conflict → e ≡ Stopped conflict) × (fault ≡ take.Device → e ≡ Device) };

    fn from(fault: TakeFault) -> PullFault {
        match fault {
            TakeFault::Memory => PullFault::Memory,
            TakeFault::BadEntry => PullFault::BadEntry,
            TakeFault::Stopped(conflict) => PullFault::Stopped(conflict),
            TakeFault::Device => PullFault::Device,
        }
    }
}

/// Why an answer isn't taken to its end, with how many of its entries were taken: these stay. The text is the name that programs
/// print.
#[derive(Clone, Copy, Debug, PartialEq, Eq, Error)]
pub enum AnswerFault {
    /// Memory was refused.
    #[error("Memory")]
    Memory(u64),
    /// The device that keeps the store failed, and its count of failures rose.
    #[error("Device")]
    Device(u64),
    /// The entry at the replica's version can't be read, isn't defined on the log's rows, or no version is left.
    #[error("BadEntry")]
    BadEntry(u64),
}
