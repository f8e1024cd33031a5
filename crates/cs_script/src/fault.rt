//! Why a script ends early.

ghost use Rattle.std.specs.Prelude.{◌≡◌};
ghost use Rattle.cs_script.specs.declared.fault.ScriptFault.TheVariants.{Memory as NoMemory};

use std::alloc::{AllocError, AllocFailed};
use thiserror::Error;

/// Why a script ended before its text was written whole. The text is what is told of it behind `sync: `.
#[derive(Debug, Drop, Error)]
pub enum ScriptFault {
    #[error("Memory")]
    Memory,
    /// The reader failed, or was asked too often.
    #[error("Read")]
    Read,
    /// The writer failed.
    #[error("Write")]
    Write,
    /// The line with this number, from 1, names no event.
    #[error("line {0}")]
    Line(u64),
}

impl From<AllocError> for ScriptFault {
    ghost from_gives = { λ _ told. told ≡ NoMemory };

    fn from(_error: AllocError) -> ScriptFault {
        ScriptFault::Memory
    }
}

impl<T: Drop> From<AllocFailed<T>> for ScriptFault {
    ghost from_gives = { λ _ told. told ≡ NoMemory };

    fn from(_error: AllocFailed<T>) -> ScriptFault {
        ScriptFault::Memory
    }
}
