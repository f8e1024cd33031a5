//! What is told to the caller.

ghost use Rattle.std.specs.Prelude.{◌≡◌};
ghost use Rattle.cs_ffi.specs.Answers.{answer_of, no_memory, read};
ghost use Rattle.cs_ffi.specs.CombinedAnswers.{combine_answer, combine_number, header_number, wrong_lengths};
ghost use Rattle.cs_ffi.specs.NormalAnswers.{no_tables, undeclared, unfit_answer};
ghost use Rattle.cs_ffi.specs.RebasedAnswers.{configure_answer, rebase_answer};
ghost use Rattle.cs_ffi.specs.SqliteAnswers.{key_order};

use cs_changeset::CodecFault;
use cs_group::CombineFault;
use cs_normal::HeaderFault;
use cs_normalising::Unfit;
use cs_rebaser::{ConfigureFault, RebaseFault};
use std::alloc::{AllocError, AllocFailed};

/// The number that says that nothing is wrong.
const READ: u32 = 0;

/// The number of want of memory.
const MEMORY: u32 = 1;

/// The number of bytes that declare no tables.
const NO_TABLES: u32 = 50;

/// The number of lengths that don't add up to the bytes.
const LENGTHS: u32 = 51;

/// The number of a blob of which two entries are of one table and key.
const BLOB_KEY_TWICE: u32 = 52;

/// The number of a blob of which a group has the name of a table and another shape.
const WRONG_SHAPE: u32 = 53;

/// The number of two headers of one table that have its key columns in different orders.
const KEY_ORDER: u32 = 54;

/// What is told of bytes. `fault` is the number of their fault, 0 where they were read. `offset` is that of the fault
/// in bytes from the front, or 0. `count` is how much was read (changes) or is written (bytes), or 0 beside a fault.
#[repr(C)]
#[derive(Clone, Copy, Debug, PartialEq, Eq)]
pub struct Answer {
    pub fault: u32,
    pub offset: usize,
    pub count: usize,
}

/// The number of the reason why there is no catalog of headers.
fn header_number(fault: HeaderFault) -> u32
    ensures { result ≡ header_number fault }
{
    match fault {
        HeaderFault::Memory => MEMORY,
        HeaderFault::Shape => u32::from(Unfit::Shape.code()),
        HeaderFault::BadCatalog => NO_TABLES,
    }
}

/// The number of the reason why changesets can't be taken together.
fn combine_number(fault: CombineFault) -> u32
    ensures { result ≡ combine_number fault }
{
    match fault {
        CombineFault::Memory => MEMORY,
        CombineFault::Headers(fault) => header_number(fault),
        CombineFault::Unfit(fault) => u32::from(fault.code()),
    }
}

impl Answer {
    /// The bytes were read.
    pub(crate) fn read(count: usize) -> Answer
        ensures { result ≡ read count }
    {
        Answer {
            fault: READ,
            offset: 0,
            count,
        }
    }

    /// Memory is wanting.
    pub(crate) fn no_memory() -> Answer
        ensures { result ≡ no_memory }
    {
        Answer {
            fault: MEMORY,
            offset: 0,
            count: 0,
        }
    }

    /// The first bytes declare no tables.
    pub(crate) fn no_tables() -> Answer
        ensures { result ≡ no_tables }
    {
        Answer {
            fault: NO_TABLES,
            offset: 0,
            count: 0,
        }
    }

    /// The headers of the first bytes are no catalog's.
    pub(crate) fn undeclared(fault: HeaderFault) -> Answer
        ensures { result ≡ undeclared fault }
    {
        match fault {
            HeaderFault::Memory => Answer::no_memory(),
            HeaderFault::Shape | HeaderFault::BadCatalog => Answer::no_tables(),
        }
    }

    /// The lengths don't add up to the bytes.
    pub(crate) fn wrong_lengths() -> Answer
        ensures { result ≡ wrong_lengths }
    {
        Answer {
            fault: LENGTHS,
            offset: 0,
            count: 0,
        }
    }

    /// Two headers of one table have its key columns in different orders.
    pub(crate) fn key_order() -> Answer
        ensures { result ≡ key_order }
    {
        Answer {
            fault: KEY_ORDER,
            offset: 0,
            count: 0,
        }
    }

    /// The changeset has no normal form.
    pub(crate) fn unfit(fault: Unfit) -> Answer
        ensures { result ≡ unfit_answer fault }
    {
        Answer {
            fault: u32::from(fault.code()),
            offset: 0,
            count: 0,
        }
    }

    /// The bytes were refused.
    pub(crate) fn refused(fault: CodecFault) -> Answer
        ensures { result ≡ answer_of fault }
    {
        match fault {
            CodecFault::Memory => Answer::no_memory(),
            CodecFault::At { fault, offset } => Answer {
                fault: u32::from(fault.code()),
                offset,
                count: 0,
            },
        }
    }
}

impl From<AllocError> for Answer {
    ghost from_gives = { λ _ answer. answer ≡ no_memory };

    fn from(_error: AllocError) -> Answer {
        Answer::no_memory()
    }
}

impl<T: Drop> From<AllocFailed<T>> for Answer {
    ghost from_gives = { λ _ answer. answer ≡ no_memory };

    fn from(_error: AllocFailed<T>) -> Answer {
        Answer::no_memory()
    }
}

impl From<CombineFault> for Answer {
    ghost from_gives = { λ fault answer. answer ≡ combine_answer fault };

    fn from(fault: CombineFault) -> Answer {
        Answer {
            fault: combine_number(fault),
            offset: 0,
            count: 0,
        }
    }
}

impl From<ConfigureFault> for Answer {
    ghost from_gives = { λ fault answer. answer ≡ configure_answer fault };

    fn from(fault: ConfigureFault) -> Answer {
        match fault {
            ConfigureFault::Memory => Answer::no_memory(),
            ConfigureFault::KeyTwice => Answer {
                fault: BLOB_KEY_TWICE,
                offset: 0,
                count: 0,
            },
        }
    }
}

impl From<RebaseFault> for Answer {
    ghost from_gives = { λ fault answer. answer ≡ rebase_answer fault };

    fn from(fault: RebaseFault) -> Answer {
        match fault {
            RebaseFault::Memory => Answer::no_memory(),
            RebaseFault::WrongShape => Answer {
                fault: WRONG_SHAPE,
                offset: 0,
                count: 0,
            },
        }
    }
}
