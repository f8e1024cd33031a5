//! Why no push is made.

ghost use Rattle.std.specs.Prelude.{◌≡◌};
ghost use Rattle.cs_exchange.specs.declared.pushing.fault.PushFault.TheVariants.{Memory, Device};
ghost use Rattle.cs_store.specs.declared.fault.StoreFault.TheVariants as stored;

use cs_store::StoreFault;
use std::alloc::{AllocError, AllocFailed};
use thiserror::Error;

/// Why no push is made, or none is given again. Nothing has changed then. The text is the name that programs print.
#[derive(Clone, Copy, Debug, PartialEq, Eq, Error)]
pub enum PushFault {
    /// Memory was refused. It may come before any other fault.
    #[error("Memory")]
    Memory = 1,
    /// Nothing is pending; of a push that is to be given again, none is under way.
    #[error("Nothing")]
    Nothing = 2,
    /// A push is under way.
    #[error("InFlight")]
    InFlight = 3,
    /// The device that keeps the store failed, or what the store holds as pending is no change of its table. The device's count
    /// of failures rose.
    #[error("Device")]
    Device = 4,
    /// The last push had the last number that a push may have.
    #[error("Spent")]
    Spent = 5,
    /// The changes have more bytes than a push may have.
    #[error("TooLarge")]
    TooLarge = 6,
}

impl From<AllocError> for PushFault {
    ghost from_gives = { λ _ e. e ≡ Memory };

    fn from(_e: AllocError) -> PushFault {
        PushFault::Memory
    }
}

impl<T: Drop> From<AllocFailed<T>> for PushFault {
    ghost from_gives = { λ _ e. e ≡ Memory };

    fn from(_e: AllocFailed<T>) -> PushFault {
        PushFault::Memory
    }
}

impl From<StoreFault> for PushFault {
    ghost from_gives = { λ fault e. (fault ≡ stored.Memory → e ≡ Memory) × (fault ≡ stored.Device → e ≡ Device) };

    fn from(fault: StoreFault) -> PushFault {
        match fault {
            StoreFault::Memory => PushFault::Memory,
            StoreFault::Device => PushFault::Device,
        }
    }
}
