//! Why an entry isn't followed.

ghost use Rattle.std.specs.Prelude.{◌≡◌};
ghost use Rattle.cs_hub.specs.Follows.{follow_fault_of};
ghost use Rattle.cs_hub.specs.declared.follow_fault.FollowFault.TheVariants.{Memory};

use crate::appending::AppendFault;
use std::alloc::{AllocError, AllocFailed};
use thiserror::Error;

/// Why a hub doesn't follow an entry. Nothing has changed then. The text is the name that programs print.
#[derive(Debug, Drop, Error)]
pub enum FollowFault {
    /// Memory was refused. It may come before any other fault.
    #[error("Memory")]
    Memory,
    /// The log has as many entries as it may.
    #[error("Full")]
    Full,
    /// It is no entry of the tables, or larger than one may be, or a change of it isn't defined on the newest tables.
    #[error("Undefined")]
    Undefined,
    /// The device that keeps the store failed, and its count of failures rose.
    #[error("Device")]
    Device,
}

impl From<AppendFault> for FollowFault {
    ghost from_gives = { λ fault e. e ≡ follow_fault_of fault };

    fn from(fault: AppendFault) -> FollowFault {
        match fault {
            AppendFault::Memory => FollowFault::Memory,
            AppendFault::Conflict(_) => FollowFault::Undefined,
            AppendFault::Device => FollowFault::Device,
        }
    }
}

impl From<AllocError> for FollowFault {
    ghost from_gives = { λ _ e. e ≡ Memory };

    fn from(_e: AllocError) -> FollowFault {
        FollowFault::Memory
    }
}
