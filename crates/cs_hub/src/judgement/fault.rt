//! Why the hub refuses.

ghost use Rattle.std.specs.Prelude.{◌≡◌};
ghost use Rattle.cs_hub.specs.declared.appending.fault.AppendFault.{AppendFault as Append};
ghost use Rattle.cs_hub.specs.declared.appending.fault.AppendFault.TheVariants as append;
ghost use Rattle.cs_conflict.specs.declared.conflict.Conflict.{Conflict as Shown};
ghost use Rattle.cs_hub.specs.declared.judgement.fault.HubFault.TheVariants.{Memory, Conflict, Device};
ghost use Rattle.cs_store.specs.declared.fault.StoreFault.TheVariants as stored;

use crate::appending::AppendFault;
use cs_conflict::ConflictBuf;
use cs_store::StoreFault;
use std::alloc::{AllocError, AllocFailed};
use thiserror::Error;

/// Why the hub refuses a push, a pull, or a table's new columns. Nothing has changed then. The text is the name that programs print.
#[derive(Debug, Drop, Error)]
pub enum HubFault {
    /// Memory was refused. It may come before any other fault.
    #[error("Memory")]
    Memory,
    /// The base, or the first entry asked for, is above the log's length.
    #[error("Ahead")]
    Ahead,
    /// A change is not defined on the tables: the first that isn't, with what stands there.
    #[error("Conflict")]
    Conflict(ConflictBuf),
    /// The changeset has no change.
    #[error("Empty")]
    Empty,
    /// The log has as many entries as it may.
    #[error("Full")]
    Full,
    /// The device that keeps the store failed, and its count of failures rose.
    #[error("Device")]
    Device,
    /// No table has the name, or it can't get so many columns.
    #[error("BadWiden")]
    BadWiden,
}

impl From<AppendFault> for HubFault {
    ghost from_gives = { λ fault e. (fault ≡ append.Memory → e ≡ Memory) × (fault ≡ append.Device → e ≡ Device)
        × ((conflict : Shown) → fault ≡ append.Conflict conflict → e ≡ Conflict conflict) };

    fn from(fault: AppendFault) -> HubFault {
        match fault {
            AppendFault::Memory => HubFault::Memory,
            AppendFault::Conflict(conflict) => HubFault::Conflict(conflict),
            AppendFault::Device => HubFault::Device,
        }
    }
}

impl From<AllocError> for HubFault {
    ghost from_gives = { λ _ e. e ≡ Memory };

    fn from(_e: AllocError) -> HubFault {
        HubFault::Memory
    }
}

impl<T: Drop> From<AllocFailed<T>> for HubFault {
    ghost from_gives = { λ _ e. e ≡ Memory };

    fn from(_e: AllocFailed<T>) -> HubFault {
        HubFault::Memory
    }
}

impl From<StoreFault> for HubFault {
    ghost from_gives = { λ fault e. (fault ≡ stored.Memory → e ≡ Memory) × (fault ≡ stored.Device → e ≡ Device) };

    fn from(fault: StoreFault) -> HubFault {
        match fault {
            StoreFault::Memory => HubFault::Memory,
            StoreFault::Device => HubFault::Device,
        }
    }
}
