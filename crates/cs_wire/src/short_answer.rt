//! The answers that are a few numbers.

use crate::numbers::{put_u8, put_u32, put_u64};
use crate::push_head::PushHead;

/// The answers but entries.
#[derive(Clone, Copy, Debug, PartialEq, Eq)]
pub enum ShortAnswer {
    /// The push is entry `version - 1`.
    Accepted {
        origin: u32,
        number: u64,
        version: u64,
    },
    /// Another push stands at its base; the log has `newest` entries.
    Stale {
        newest: u64,
    },
    /// A code of refusal.
    Refused(u8),
}

/// The first bytes of these answers.
pub(crate) const ACCEPTED: u8 = 17;

pub(crate) const STALE: u8 = 18;

pub(crate) const REFUSED: u8 = 19;

/// The most bytes of an answer but entries.
pub const SHORT: usize = 21;

impl ShortAnswer {
    ghost use Rattle.std.specs.Prelude.{◌≡◌, ◌+◌, ◌≤◌, ◌++◌, vec_len, vec_capacity};
    ghost use Rattle.cs_wire.specs.Answers.{short_spelling};
    ghost use Rattle.cs_wire.specs.declared.short_answer.ShortAnswer.TheVariants.{Accepted};

    /// The push is the log's entry before this version.
    pub fn accepted(head: PushHead, version: u64) -> ShortAnswer
        ensures { result ≡ Accepted head.origin head.number version }
    {
        ShortAnswer::Accepted {
            origin: head.origin,
            number: head.number,
            version,
        }
    }

    /// Appends the answer. There is room for it: where `SHORT` bytes were reserved, it takes no memory and can't fail.
    pub fn put(&self, out: &mut Vec<u8>)
        requires { vec_len out.old + SHORT ≤ vec_capacity out.old }
        ensures { out.new.items ≡ out.old.items ++ short_spelling self.now }
    {
        match self {
            ShortAnswer::Accepted {
                origin,
                number,
                version,
            } => {
                put_u8(ACCEPTED, out);
                put_u32(*origin, out);
                put_u64(*number, out);
                put_u64(*version, out);
            }
            ShortAnswer::Stale { newest } => {
                put_u8(STALE, out);
                put_u64(*newest, out);
            }
            ShortAnswer::Refused(code) => {
                put_u8(REFUSED, out);
                put_u8(*code, out);
            }
        }
    }
}
