//! Why there is no world.

ghost use Rattle.std.specs.Prelude.{◌≡◌};
ghost use Rattle.cs_opening.specs.declared.fault.OpenFault.TheVariants as opening;
ghost use Rattle.cs_world.specs.declared.fault.WorldFault.TheVariants.{Memory};

use cs_opening::OpenFault;
use std::alloc::{AllocError, AllocFailed};
use thiserror::Error;

/// Why a world isn't made. The text is the name that programs print.
#[derive(Clone, Copy, Debug, PartialEq, Eq, Error)]
pub enum WorldFault {
    /// Memory was refused.
    #[error("Memory")]
    Memory,
    /// A store failed, or gave what wasn't written to it.
    #[error("Device")]
    Device,
}

impl From<AllocError> for WorldFault {
    ghost from_gives = { λ _ fault. fault ≡ Memory };

    fn from(_error: AllocError) -> WorldFault {
        WorldFault::Memory
    }
}

impl<T: Drop> From<AllocFailed<T>> for WorldFault {
    ghost from_gives = { λ _ fault. fault ≡ Memory };

    fn from(_error: AllocFailed<T>) -> WorldFault {
        WorldFault::Memory
    }
}

impl From<OpenFault> for WorldFault {
    ghost from_gives = { λ told fault. told ≡ opening.Memory → fault ≡ Memory };

    fn from(fault: OpenFault) -> WorldFault {
        match fault {
            OpenFault::Memory => WorldFault::Memory,
            OpenFault::Damaged | OpenFault::Device | OpenFault::Mismatch => WorldFault::Device,
        }
    }
}
