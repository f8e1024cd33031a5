//! What is told to the caller.

ghost use Rattle.std.specs.Prelude.{◌≡◌};
ghost use Rattle.cs_embed.specs.Answers.{bad_id, damaged, device, done, mismatch, no_memory, no_tables, refused, unread};
ghost use Rattle.cs_embed.specs.Faults.{of_node, of_opening, of_reading, of_serving, of_store};
ghost use Rattle.cs_embed.specs.Tables.{of_headers};

use cs_node_lines::asks::ReadFault;
use cs_node_lines::hub::ServingFault;
use cs_node_lines::working::NodeFault;
use cs_normal::HeaderFault;
use cs_opening::OpenFault;
use cs_store::StoreFault;

/// The number that says that all was done.
const DONE: u32 = 0;

/// The number of want of memory.
const MEMORY: u32 = 1;

/// The number of bytes that declare no tables.
const NO_TABLES: u32 = 50;

/// The number of a line that can't be read.
const LINE: u32 = 60;

/// The number of a file that is ours, and holds what can't have been written to it.
const DAMAGED: u32 = 61;

/// The number of bytes that are no store's file.
const DEVICE: u32 = 62;

/// The number of a file of another id, of other tables, or of the other kind.
const MISMATCH: u32 = 63;

/// The number of an id that no replica has.
const BAD_ID: u32 = 64;

/// What became of a call: the number of its fault, 0 where all was done; the number of the line that can't be read, from 1 on, or
/// 0; how many bytes the texts take, and how many the file, or 0 beside a fault.
#[repr(C)]
#[derive(Clone, Copy, Debug, PartialEq, Eq)]
pub struct Answer {
    pub fault: u32,
    pub line: u64,
    pub told: usize,
    pub file: usize,
}

impl Answer {
    /// All was done, and the texts and the file take so many bytes.
    pub(crate) fn done(told: usize, file: usize) -> Answer
        ensures { result ≡ done told file }
    {
        Answer {
            fault: DONE,
            line: 0,
            told,
            file,
        }
    }

    /// Nothing was done, for the reason of this number.
    fn refused(fault: u32) -> Answer
        ensures { result ≡ refused fault }
    {
        Answer {
            fault,
            line: 0,
            told: 0,
            file: 0,
        }
    }

    /// Memory is wanting.
    pub(crate) fn no_memory() -> Answer
        ensures { result ≡ no_memory }
    {
        Answer::refused(MEMORY)
    }

    /// The declaring bytes declare no tables.
    pub(crate) fn no_tables() -> Answer
        ensures { result ≡ no_tables }
    {
        Answer::refused(NO_TABLES)
    }

    /// No replica has the id.
    pub(crate) fn bad_id() -> Answer
        ensures { result ≡ bad_id }
    {
        Answer::refused(BAD_ID)
    }

    /// A line can't be read.
    fn unread(line: u64) -> Answer
        ensures { result ≡ unread line }
    {
        Answer {
            fault: LINE,
            line,
            told: 0,
            file: 0,
        }
    }
}

impl From<HeaderFault> for Answer {
    ghost from_gives = { λ fault answer. answer ≡ of_headers fault };

    fn from(fault: HeaderFault) -> Answer {
        match fault {
            HeaderFault::Memory => Answer::no_memory(),
            HeaderFault::Shape | HeaderFault::BadCatalog => Answer::no_tables(),
        }
    }
}

impl From<StoreFault> for Answer {
    ghost from_gives = { λ fault answer. answer ≡ of_store fault };

    fn from(fault: StoreFault) -> Answer {
        match fault {
            StoreFault::Memory => Answer::no_memory(),
            StoreFault::Device => Answer::refused(DEVICE),
        }
    }
}

impl From<OpenFault> for Answer {
    ghost from_gives = { λ fault answer. answer ≡ of_opening fault };

    fn from(fault: OpenFault) -> Answer {
        match fault {
            OpenFault::Memory => Answer::no_memory(),
            OpenFault::Damaged => Answer::refused(DAMAGED),
            OpenFault::Device => Answer::refused(DEVICE),
            OpenFault::Mismatch => Answer::refused(MISMATCH),
        }
    }
}

impl From<ReadFault> for Answer {
    ghost from_gives = { λ fault answer. answer ≡ of_reading fault };

    fn from(fault: ReadFault) -> Answer {
        match fault {
            // The lines stand in memory: a read fails there for want of it alone.
            ReadFault::Memory | ReadFault::Read => Answer::no_memory(),
            ReadFault::Line(line) => Answer::unread(line),
        }
    }
}

impl From<NodeFault> for Answer {
    ghost from_gives = { λ fault answer. answer ≡ of_node fault };

    fn from(fault: NodeFault) -> Answer {
        match fault {
            // Texts are put into memory: a write fails there for want of it alone.
            NodeFault::Memory | NodeFault::Read | NodeFault::Write => Answer::no_memory(),
            NodeFault::Line(line) => Answer::unread(line),
            NodeFault::Open(fault) => Answer::from(fault),
        }
    }
}

impl From<ServingFault> for Answer {
    ghost from_gives = { λ fault answer. answer ≡ of_serving fault };

    fn from(fault: ServingFault) -> Answer {
        match fault {
            ServingFault::Memory | ServingFault::Read | ServingFault::Write => Answer::no_memory(),
            ServingFault::Open(fault) => Answer::from(fault),
        }
    }
}
