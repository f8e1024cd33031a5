//! An entry of an answer, as it stands in the bytes.

ghost use Rattle.std.specs.Prelude.{◌≡◌, ◌<◌, ◌++◌, length, MatchOption, MatchResult};
ghost use Rattle.cs_wire.specs.Entries.{IsEntryFault, StandsBefore, entry_numbers};

use crate::fault::WireFault;
use crate::numbers::{split_u32, split_u64};
use std::marker::Model;

/// How many kinds of entries there are. They are those of a log's bodies as they stand there (`Body::kind` of `cs_store::log`).
const KINDS: u8 = 2;

/// An entry of an answer: its kind, whose push it was, the number that its replica gave it, and the bytes of what it does.
/// Contracts see it as these four.
#[derive(Drop)]
pub struct WireEntry<'a> {
    kind: u8,
    origin: u32,
    number: u64,
    body: &'a [u8],
}

impl<'a> Model for WireEntry<'a> {
    ghost use Rattle.cs_wire.specs.Entries.{ToldEntry};

    ghost Value = { ToldEntry };

    ghost view = { λ here. record { kind = here.kind; origin = here.origin; number = here.number; body = here.body.now } };
}

impl<'a> WireEntry<'a> {
    ghost use Rattle.std.specs.Prelude.{◌≡◌};

    /// The byte that tells the kind of what the entry does.
    pub fn kind(&self) -> u8
        ensures { result ≡ self.now.kind }
    {
        self.kind
    }

    /// Whose push it was.
    pub fn origin(&self) -> u32
        ensures { result ≡ self.now.origin }
    {
        self.origin
    }

    /// The number that its replica gave the push.
    pub fn number(&self) -> u64
        ensures { result ≡ self.now.number }
    {
        self.number
    }

    /// The bytes of what the entry does, without their kind.
    pub fn body(&self) -> &'a [u8]
        ensures { result.now ≡ self.now.body }
    {
        self.body
    }
}

/// The numbers of an entry, and of a Catch: origin, number, the length of its body; and the rest.
pub(crate) fn split_numbers(bytes: &[u8]) -> Option<(u32, u64, u32, &[u8])>
    ensures { MatchOption result (length bytes.now < 16)
        (λ split. bytes.now ≡ entry_numbers split.0 split.1 split.2 split.3.now) }
{
    let (origin, rest) = split_u32(bytes)?;
    let (number, rest) = split_u64(rest)?;
    let (size, rest) = split_u32(rest)?;
    Some((origin, number, size, rest))
}

/// The entry at the front, and the rest.
pub(crate) fn split_entry(bytes: &[u8]) -> Result<(WireEntry<'_>, &[u8]), WireFault>
    ensures { MatchResult result (λ split. StandsBefore split.0 split.1.now bytes.now) (λ fault. IsEntryFault fault bytes.now) }
{
    let Some((kind, rest)) = bytes.split_first() else {
        return Err(WireFault::Truncated);
    };
    if *kind >= KINDS {
        return Err(WireFault::BadKind);
    }
    let Some((origin, number, size, rest)) = split_numbers(rest) else {
        return Err(WireFault::Truncated);
    };
    let Some((body, rest)) = rest.split_at_checked(size as usize) else {
        return Err(WireFault::Truncated);
    };
    let entry = WireEntry {
        kind: *kind,
        origin,
        number,
        body,
    };
    Ok((entry, rest))
}
