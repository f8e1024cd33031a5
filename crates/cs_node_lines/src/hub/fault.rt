//! Why a hub stops to answer.

ghost use Rattle.std.specs.Prelude.{◌≡◌};
ghost use Rattle.cs_node_lines.specs.hub.Endings.{of_opening, of_stop};

use cs_lines::Stop;
use cs_opening::OpenFault;
use thiserror::Error;

/// Why a hub stopped before its input's end. What it answered before stays so.
#[derive(Clone, Copy, Debug, PartialEq, Eq, Error)]
pub enum ServingFault {
    /// Memory was refused while the hub was opened.
    #[error("Memory")]
    Memory,
    /// The reader failed, or was asked too often.
    #[error("Read")]
    Read,
    /// The writer failed.
    #[error("Write")]
    Write,
    /// The hub isn't opened.
    #[error("{0}")]
    Open(OpenFault),
}

impl From<Stop> for ServingFault {
    ghost from_gives = { λ stop told. told ≡ of_stop stop };

    fn from(stop: Stop) -> ServingFault {
        match stop {
            Stop::Read => ServingFault::Read,
            Stop::Write => ServingFault::Write,
        }
    }
}

impl From<OpenFault> for ServingFault {
    ghost from_gives = { λ fault told. told ≡ of_opening fault };

    fn from(fault: OpenFault) -> ServingFault {
        match fault {
            OpenFault::Memory => ServingFault::Memory,
            other => ServingFault::Open(other),
        }
    }
}
