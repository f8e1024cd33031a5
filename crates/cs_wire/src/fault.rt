//! Why bytes are no message.

ghost use Rattle.std.specs.Prelude.{◌≡◌};
ghost use Rattle.cs_wire.specs.Codes.{wire_code};

use thiserror::Error;

/// What is wrong with bytes that are no request, or no answer. The text is the name that programs print.
#[derive(Clone, Copy, Debug, PartialEq, Eq, Error)]
pub enum WireFault {
    /// The bytes end early.
    #[error("Truncated")]
    Truncated,
    /// No message has this tag.
    #[error("BadTag")]
    BadTag,
    /// There are bytes behind the message.
    #[error("TooLong")]
    TooLong,
    /// An entry does what no kind of entry does.
    #[error("BadKind")]
    BadKind,
    /// A name is no text in UTF-8.
    #[error("NotUtf8")]
    NotUtf8,
}

impl WireFault {
    /// The code by which programs tell the fault: 2, 20, 21, 23 or 6.
    pub fn code(self) -> u8
        ensures { result ≡ wire_code self }
    {
        match self {
            WireFault::Truncated => 2,
            WireFault::BadTag => 20,
            WireFault::TooLong => 21,
            WireFault::BadKind => 23,
            WireFault::NotUtf8 => 6,
        }
    }
}
