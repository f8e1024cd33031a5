//! Entries that stay in the bytes of an answer.

ghost use Rattle.std.specs.Prelude.{◌≡◌};
ghost use Rattle.cs_wire.specs.Entries.{AreEntries};
ghost use Rattle.cs_wire.specs.Spelled.{SpelledEntries, SpelledEntries-prop};

use crate::entry::{WireEntry, split_entry};
use crate::fault::WireFault;
use std::marker::Model;

/// The entries of an answer as the bytes that spell them, one behind another. Contracts see them as a list.
#[derive(Drop)]
pub struct Entries<'a> {
    bytes: &'a [u8],
    ghost spelled: { SpelledEntries bytes.now } by { SpelledEntries-prop bytes.now },
}

impl<'a> Model for Entries<'a> {
    ghost use Rattle.std.specs.Prelude.{List};
    ghost use Rattle.cs_wire.specs.Entries.{ToldEntry};

    ghost Value = { List ToldEntry };

    ghost view = { λ here. here.spelled.0 };
}

/// Reads so many entries: the whole of the bytes.
fn check_entries(count: u32, bytes: &[u8]) -> Result<(), WireFault>
    ensures { AreEntries count bytes.now result }
{
    let mut rest = bytes;
    for _ in 0..count {
        let (_, more) = split_entry(rest)?;
        rest = more;
    }
    if !rest.is_empty() {
        return Err(WireFault::TooLong);
    }
    Ok(())
}

impl<'a> Entries<'a> {
    ghost use Rattle.std.specs.Prelude.{◌≡◌, [], ◌∷◌, MatchOption};
    ghost use Rattle.cs_wire.specs.Entries.{FindsEntries};
    ghost use Rattle.cs_wire.specs.Spelled.{SpelledEntries, SpellsEntries};

    /// The entries that these bytes spell.
    fn new(bytes: &'a [u8]) -> Entries<'a>
        requires { SpelledEntries bytes.now }
        ensures { SpellsEntries bytes.now result }
    {
        Entries { bytes }
    }

    /// The bytes.
    fn bytes(&self) -> &'a [u8]
        ensures { SpellsEntries result.now self.now }
    {
        self.bytes
    }

    /// Reads so many entries: the whole of the bytes.
    pub(crate) fn decode(count: u32, bytes: &'a [u8]) -> Result<Entries<'a>, WireFault>
        ensures { FindsEntries count bytes.now result }
    {
        check_entries(count, bytes)?;
        Ok(Entries::new(bytes))
    }

    /// The first entry, and the others, if there is one. It takes no memory.
    pub fn split_first(&self) -> Option<(WireEntry<'a>, Entries<'a>)>
        ensures { MatchOption result (self.now ≡ []) (λ parts. self.now ≡ parts.0 ∷ parts.1) }
    {
        let Ok((first, rest)) = split_entry(self.bytes()) else {
            return None;
        };
        Some((first, Entries::new(rest)))
    }
}
