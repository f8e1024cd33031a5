//! Why a tool ends early.

ghost use Rattle.std.specs.Prelude.{◌≡◌};
ghost use Rattle.cs_tools.specs.Faults.{of_codec, of_combine, of_configure, of_rebase, of_stream};
ghost use Rattle.cs_tools.specs.declared.fault.ToolFault.TheVariants.{Memory as NoMemory};

use cs_changeset::CodecFault;
use cs_feed::StreamFault;
use cs_group::CombineFault;
use cs_rebaser::{ConfigureFault, RebaseFault};
use std::alloc::{AllocError, AllocFailed};
use thiserror::Error;

/// Why a tool ended before its text was written whole. The text is what is told of it behind `sync: `.
#[derive(Debug, Drop, Error)]
pub enum ToolFault {
    #[error("Memory")]
    Memory,
    /// The reader failed, or was asked too often; or a file couldn't be opened.
    #[error("Read")]
    Read,
    /// The writer failed.
    #[error("Write")]
    Write,
    /// A line is no hex.
    #[error("BadHex")]
    BadHex,
    /// A line or a file spells no changeset, or no rebase blob.
    #[error("{0}")]
    Codec(CodecFault),
    /// The changesets can't be taken together.
    #[error("{0}")]
    Combine(CombineFault),
    /// A rebaser can't be configured with the blob.
    #[error("{0}")]
    Configure(ConfigureFault),
    /// The changeset can't be rebased over it.
    #[error("{0}")]
    Rebase(RebaseFault),
    /// Headers of one table have its key columns in different orders, and the column bytes that came in were asked for.
    #[error("KeyOrder")]
    KeyOrder,
}

impl From<AllocError> for ToolFault {
    ghost from_gives = { λ _ told. told ≡ NoMemory };

    fn from(_error: AllocError) -> ToolFault {
        ToolFault::Memory
    }
}

impl<T: Drop> From<AllocFailed<T>> for ToolFault {
    ghost from_gives = { λ _ told. told ≡ NoMemory };

    fn from(_error: AllocFailed<T>) -> ToolFault {
        ToolFault::Memory
    }
}

impl From<CodecFault> for ToolFault {
    ghost from_gives = { λ fault told. told ≡ of_codec fault };

    fn from(fault: CodecFault) -> ToolFault {
        match fault {
            CodecFault::Memory => ToolFault::Memory,
            other => ToolFault::Codec(other),
        }
    }
}

impl From<StreamFault> for ToolFault {
    ghost from_gives = { λ fault told. told ≡ of_stream fault };

    fn from(fault: StreamFault) -> ToolFault {
        match fault {
            StreamFault::Memory => ToolFault::Memory,
            StreamFault::Read => ToolFault::Read,
            StreamFault::At { fault, offset } => ToolFault::Codec(CodecFault::At { fault, offset }),
        }
    }
}

impl From<CombineFault> for ToolFault {
    ghost from_gives = { λ fault told. told ≡ of_combine fault };

    fn from(fault: CombineFault) -> ToolFault {
        match fault {
            CombineFault::Memory => ToolFault::Memory,
            other => ToolFault::Combine(other),
        }
    }
}

impl From<ConfigureFault> for ToolFault {
    ghost from_gives = { λ fault told. told ≡ of_configure fault };

    fn from(fault: ConfigureFault) -> ToolFault {
        match fault {
            ConfigureFault::Memory => ToolFault::Memory,
            ConfigureFault::KeyTwice => ToolFault::Configure(ConfigureFault::KeyTwice),
        }
    }
}

impl From<RebaseFault> for ToolFault {
    ghost from_gives = { λ fault told. told ≡ of_rebase fault };

    fn from(fault: RebaseFault) -> ToolFault {
        match fault {
            RebaseFault::Memory => ToolFault::Memory,
            RebaseFault::WrongShape => ToolFault::Rebase(RebaseFault::WrongShape),
        }
    }
}
