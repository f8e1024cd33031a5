//! What became of an answer of the hub.

ghost use Rattle.std.specs.Prelude.{Some};
ghost use Rattle.cs_node_lines.specs.told.Told.{told_text};

use cs_replica::Told;
use std::fmt;

/// What became of an answer of the hub, at a replica that is at this version then: `accepted V`, `ignored`, `stale N`,
/// `hub refused CODE`, `taken N version V` or `stopped N version V`.
#[derive(Clone, Copy)]
pub struct ToldText {
    /// What became of it.
    pub told: Told,
    /// The version of the replica behind it.
    pub version: u64,
}

impl fmt::Display for ToldText {
    ghost output = { λ text. Some (told_text text.told text.version) };

    fn fmt<W: fmt::Write>(&self, f: &mut fmt::Formatter<W>) -> fmt::Result {
        match self.told {
            Told::Confirmed(newest) => write!(f, "accepted {newest}"),
            Told::Ignored => f.write_str("ignored"),
            Told::Stale(newest) => write!(f, "stale {newest}"),
            Told::Refused(code) => write!(f, "hub refused {code}"),
            Told::Taken(count) => write!(f, "taken {count} version {}", self.version),
            Told::Stopped(count) => write!(f, "stopped {count} version {}", self.version),
        }
    }
}
