//! Why a run ends early.

ghost use Rattle.std.specs.Prelude.{◌≡◌};
ghost use Rattle.sync_cli.specs.Faults.{of_meeting, of_node, of_reading, of_script, of_serving, of_store, of_table, of_tool};
ghost use Rattle.sync_cli.specs.declared.fault.RunFault.TheVariants.{Memory as NoMemory};

use cs_command::TableFault;
use cs_meeting::MeetingFault;
use cs_node_lines::asks::ReadFault;
use cs_node_lines::hub::ServingFault;
use cs_node_lines::working::NodeFault;
use cs_opening::OpenFault;
use cs_script::ScriptFault;
use cs_store::StoreFault;
use cs_tools::ToolFault;
use std::alloc::{AllocError, AllocFailed};
use thiserror::Error;

/// Why a run ended before all was done. The text is what is told of it behind `sync: `.
#[derive(Debug, Drop, Error)]
pub enum RunFault<'w> {
    /// The command line isn't taken, or asks for nothing.
    #[error("command line")]
    CommandLine,
    /// The first word with which the table words up to it are no catalog.
    #[error("table {0}")]
    Table(&'w str),
    #[error("Memory")]
    Memory,
    /// The reader failed, or was asked too often.
    #[error("Read")]
    Read,
    /// The writer failed.
    #[error("Write")]
    Write,
    /// The line with this number, from 1, can't be read.
    #[error("line {0}")]
    Line(u64),
    /// The store isn't opened, or is another's.
    #[error("{0}")]
    Open(OpenFault),
    /// The hub's store isn't opened, or is another's, where a replica meets it.
    #[error("hub {0}")]
    Hub(OpenFault),
    /// The replica that met its hub isn't at rest.
    #[error("not at rest")]
    NotAtRest,
    /// What is wrong with the lines that a tool read.
    #[error("{0}")]
    Lines(ToolFault),
}

impl<'w> From<AllocError> for RunFault<'w> {
    ghost from_gives = { λ _ told. told ≡ NoMemory };

    fn from(_error: AllocError) -> RunFault<'w> {
        RunFault::Memory
    }
}

impl<'w> From<TableFault<'w>> for RunFault<'w> {
    ghost from_gives = { λ fault told. told ≡ of_table fault };

    fn from(fault: TableFault<'w>) -> RunFault<'w> {
        match fault {
            TableFault::Memory => RunFault::Memory,
            TableFault::Word(word) => RunFault::Table(word),
        }
    }
}

impl<'w> From<ToolFault> for RunFault<'w> {
    ghost from_gives = { λ fault told. told ≡ of_tool fault };

    fn from(fault: ToolFault) -> RunFault<'w> {
        match fault {
            ToolFault::Memory => RunFault::Memory,
            ToolFault::Read => RunFault::Read,
            ToolFault::Write => RunFault::Write,
            other => RunFault::Lines(other),
        }
    }
}

impl<'w> From<ServingFault> for RunFault<'w> {
    ghost from_gives = { λ fault told. told ≡ of_serving fault };

    fn from(fault: ServingFault) -> RunFault<'w> {
        match fault {
            ServingFault::Memory => RunFault::Memory,
            ServingFault::Read => RunFault::Read,
            ServingFault::Write => RunFault::Write,
            ServingFault::Open(why) => RunFault::Open(why),
        }
    }
}

impl<'w> From<ScriptFault> for RunFault<'w> {
    ghost from_gives = { λ fault told. told ≡ of_script fault };

    fn from(fault: ScriptFault) -> RunFault<'w> {
        match fault {
            ScriptFault::Memory => RunFault::Memory,
            ScriptFault::Read => RunFault::Read,
            ScriptFault::Write => RunFault::Write,
            ScriptFault::Line(number) => RunFault::Line(number),
        }
    }
}

impl<'w> From<ReadFault> for RunFault<'w> {
    ghost from_gives = { λ fault told. told ≡ of_reading fault };

    fn from(fault: ReadFault) -> RunFault<'w> {
        match fault {
            ReadFault::Memory => RunFault::Memory,
            ReadFault::Read => RunFault::Read,
            ReadFault::Line(number) => RunFault::Line(number),
        }
    }
}

impl<'w> From<NodeFault> for RunFault<'w> {
    ghost from_gives = { λ fault told. told ≡ of_node fault };

    fn from(fault: NodeFault) -> RunFault<'w> {
        match fault {
            NodeFault::Memory => RunFault::Memory,
            NodeFault::Read => RunFault::Read,
            NodeFault::Write => RunFault::Write,
            NodeFault::Line(number) => RunFault::Line(number),
            NodeFault::Open(why) => RunFault::Open(why),
        }
    }
}

impl<'w> From<MeetingFault> for RunFault<'w> {
    ghost from_gives = { λ fault told. told ≡ of_meeting fault };

    fn from(fault: MeetingFault) -> RunFault<'w> {
        match fault {
            MeetingFault::Memory => RunFault::Memory,
            MeetingFault::Write => RunFault::Write,
            MeetingFault::Hub(why) => RunFault::Hub(why),
            MeetingFault::Replica(why) => RunFault::Open(why),
        }
    }
}

impl<'w> From<StoreFault> for RunFault<'w> {
    ghost from_gives = { λ fault told. told ≡ of_store fault };

    fn from(fault: StoreFault) -> RunFault<'w> {
        match fault {
            StoreFault::Memory => RunFault::Memory,
            StoreFault::Device => RunFault::Open(OpenFault::Device),
        }
    }
}
