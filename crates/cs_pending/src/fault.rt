//! Why an edit is refused, or several.

ghost use Rattle.std.specs.Prelude.{◌≡◌};
ghost use Rattle.cs_pending.specs.EditLists.{fault_at};
ghost use Rattle.cs_pending.specs.declared.fault.EditFault.TheVariants.{Memory, Device};
ghost use Rattle.cs_pending.specs.declared.fault.EditsFault.TheVariants as several;
ghost use Rattle.cs_store.specs.declared.fault.StoreFault.TheVariants as stored;

use cs_store::StoreFault;
use std::alloc::{AllocError, AllocFailed};
use thiserror::Error;

/// Why an edit is refused. Nothing has changed then. The text is the name that programs print.
#[derive(Clone, Copy, Debug, PartialEq, Eq, Error)]
pub enum EditFault {
    /// Memory was refused. It may come before any other fault.
    #[error("Memory")]
    Memory = 1,
    /// No table has the name.
    #[error("NoTable")]
    NoTable = 2,
    /// The row, the fields or the key haven't the table's width.
    #[error("Width")]
    Width = 3,
    /// A value of the key is NULL.
    #[error("NullKey")]
    NullKey = 4,
    /// A row has the key.
    #[error("Exists")]
    Exists = 5,
    /// No row has the key.
    #[error("Missing")]
    Missing = 6,
    /// A field at a key column is defined.
    #[error("KeyColumn")]
    KeyColumn = 7,
    /// The device that keeps the store failed, or what the store holds there is no row or no change of the table. The store's
    /// count of failures rose.
    #[error("Device")]
    Device = 8,
}

impl From<AllocError> for EditFault {
    ghost from_gives = { λ _ e. e ≡ Memory };

    fn from(_e: AllocError) -> EditFault {
        EditFault::Memory
    }
}

impl<T: Drop> From<AllocFailed<T>> for EditFault {
    ghost from_gives = { λ _ e. e ≡ Memory };

    fn from(_e: AllocFailed<T>) -> EditFault {
        EditFault::Memory
    }
}

impl From<StoreFault> for EditFault {
    ghost from_gives = { λ fault e. (fault ≡ stored.Memory → e ≡ Memory) × (fault ≡ stored.Device → e ≡ Device) };

    fn from(fault: StoreFault) -> EditFault {
        match fault {
            StoreFault::Memory => EditFault::Memory,
            StoreFault::Device => EditFault::Device,
        }
    }
}

/// Why edits that are one commit are refused. Nothing has changed then.
#[derive(Clone, Copy, Debug, PartialEq, Eq, Error)]
pub enum EditsFault {
    /// Memory was refused. It may come before any other fault.
    #[error("Memory")]
    Memory,
    /// As `EditFault::Device`.
    #[error("Device")]
    Device,
    /// The edit there, the first being 0, is refused behind those before it.
    #[error("{fault} at {at}")]
    Refused { at: usize, fault: EditFault },
}

impl EditsFault {
    /// The fault of the edit there.
    pub(crate) fn of_edit(at: usize, fault: EditFault) -> EditsFault
        ensures { result ≡ fault_at at fault }
    {
        match fault {
            EditFault::Memory => EditsFault::Memory,
            EditFault::Device => EditsFault::Device,
            _ => EditsFault::Refused { at, fault },
        }
    }
}

impl From<AllocError> for EditsFault {
    ghost from_gives = { λ _ e. e ≡ several.Memory };

    fn from(_e: AllocError) -> EditsFault {
        EditsFault::Memory
    }
}

impl From<StoreFault> for EditsFault {
    ghost from_gives = { λ fault e. (fault ≡ stored.Memory → e ≡ several.Memory) × (fault ≡ stored.Device → e ≡ several.Device) };

    fn from(fault: StoreFault) -> EditsFault {
        match fault {
            StoreFault::Memory => EditsFault::Memory,
            StoreFault::Device => EditsFault::Device,
        }
    }
}
