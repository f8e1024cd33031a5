//! Why plans weren't run.

ghost use Rattle.std.specs.Prelude.{◌≡◌};
ghost use Rattle.cs_nodes.specs.declared.plans.fault.RunFault.TheVariants.{Memory as OutOfMemory};

use std::alloc::AllocError;
use thiserror::Error;

/// Why plans weren't run. The text of a fault is its name.
#[derive(Clone, Copy, Debug, PartialEq, Eq, Error)]
pub enum RunFault {
    /// Memory was refused to a node that was opened, or to a list.
    #[error("Memory")]
    Memory = 1,
    /// There aren't as many ports as plans.
    #[error("Uneven")]
    Uneven = 2,
}

impl From<AllocError> for RunFault {
    ghost from_gives = { λ _ fault. fault ≡ OutOfMemory };

    fn from(_error: AllocError) -> RunFault {
        RunFault::Memory
    }
}
