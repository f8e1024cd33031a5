//! Why bytes are no body of an entry.

ghost use Rattle.std.specs.Prelude.{◌≡◌};
ghost use Rattle.cs_store.specs.log.Stored.{body_fault_of_codec, body_fault_of_unfit};
ghost use Rattle.cs_store.specs.declared.log.fault.BodyFault.TheVariants.{Memory as OutOfMemory};

use cs_changeset::CodecFault;
use cs_normalising::Unfit;
use std::alloc::{AllocError, AllocFailed};
use thiserror::Error;

/// Why no body of an entry was read. The text is the name that programs print.
#[derive(Clone, Copy, Debug, PartialEq, Eq, Error)]
pub enum BodyFault {
    #[error("Memory")]
    Memory,
    /// The bytes are not those that a body of the catalog's tables is stored as.
    #[error("NoBody")]
    NoBody,
}

impl From<CodecFault> for BodyFault {
    ghost from_gives = { λ fault e. e ≡ body_fault_of_codec fault };

    fn from(fault: CodecFault) -> BodyFault {
        match fault {
            CodecFault::Memory => BodyFault::Memory,
            CodecFault::At { .. } => BodyFault::NoBody,
        }
    }
}

impl From<Unfit> for BodyFault {
    ghost from_gives = { λ unfit e. e ≡ body_fault_of_unfit unfit };

    fn from(unfit: Unfit) -> BodyFault {
        match unfit {
            Unfit::Memory => BodyFault::Memory,
            _ => BodyFault::NoBody,
        }
    }
}

impl From<AllocError> for BodyFault {
    ghost from_gives = { λ _ e. e ≡ OutOfMemory };

    fn from(_e: AllocError) -> BodyFault {
        BodyFault::Memory
    }
}

impl<T: Drop> From<AllocFailed<T>> for BodyFault {
    ghost from_gives = { λ _ e. e ≡ OutOfMemory };

    fn from(_e: AllocFailed<T>) -> BodyFault {
        BodyFault::Memory
    }
}
