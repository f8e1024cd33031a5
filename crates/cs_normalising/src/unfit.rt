//! Why a changeset has no normal form.

ghost use Rattle.std.specs.Prelude.{◌≡◌};
ghost use Rattle.cs_normalising.specs.Codes.{unfit_code};
ghost use Rattle.cs_normalising.specs.declared.unfit.Unfit.TheVariants.{Memory as OutOfMemory};

use std::alloc::{AllocError, AllocFailed};
use thiserror::Error;

/// Why a changeset has no normal form. The text is the name that programs print.
#[derive(Clone, Copy, Debug, PartialEq, Eq, Error)]
pub enum Unfit {
    #[error("Memory")]
    Memory = 1,
    /// No table of the catalog has the group's name.
    #[error("UnknownTable")]
    UnknownTable = 2,
    /// The table of the group's name has another column count or other key columns.
    #[error("Shape")]
    Shape = 3,
    /// A change has NULL at a key column.
    #[error("NullKey")]
    NullKey = 4,
    /// Two changes of one table have one key.
    #[error("KeyTwice")]
    KeyTwice = 5,
}

impl Unfit {
    /// The code by which programs tell the reason: 30 to 33, and 1 for want of memory.
    pub fn code(self) -> u8
        ensures { result ≡ unfit_code self }
    {
        match self {
            Unfit::Memory => 1,
            Unfit::UnknownTable => 30,
            Unfit::Shape => 31,
            Unfit::NullKey => 32,
            Unfit::KeyTwice => 33,
        }
    }
}

impl From<AllocError> for Unfit {
    ghost from_gives = { λ _ e. e ≡ OutOfMemory };

    fn from(_e: AllocError) -> Unfit {
        Unfit::Memory
    }
}

impl<T: Drop> From<AllocFailed<T>> for Unfit {
    ghost from_gives = { λ _ e. e ≡ OutOfMemory };

    fn from(_e: AllocFailed<T>) -> Unfit {
        Unfit::Memory
    }
}
