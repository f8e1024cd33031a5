//! What is printed of an outcome.

ghost use Rattle.std.specs.Prelude.{Some};
ghost use Rattle.cs_script.specs.Played.{outcome_text};

use cs_node_lines::told::{FaultText, ToldText, edit_fault_name, open_fault_name, push_fault_name};
use cs_world::Outcome;
use std::fmt;

/// What is printed of an outcome: `ok`, `sent K`, what a replica was told, `refused NAME` or `fault NAME after N`.
#[derive(Clone, Copy)]
pub struct OutcomeText {
    /// What the event came to.
    pub outcome: Outcome,
    /// The version of the replica that was told something, behind it.
    pub version: u64,
}

impl fmt::Display for OutcomeText {
    ghost output = { λ text. Some (outcome_text text.outcome text.version) };

    fn fmt<W: fmt::Write>(&self, f: &mut fmt::Formatter<W>) -> fmt::Result {
        let version = self.version;
        match self.outcome {
            Outcome::Done => f.write_str("ok"),
            Outcome::Sent(number) => write!(f, "sent {number}"),
            Outcome::Heard(told) => write!(f, "{}", ToldText { told, version }),
            Outcome::NoReplica => f.write_str("refused NoReplica"),
            Outcome::NoMessage => f.write_str("refused NoMessage"),
            Outcome::NotEdited(fault) => write!(f, "refused {}", edit_fault_name(fault)),
            Outcome::NotPushed(fault) => write!(f, "refused {}", push_fault_name(fault)),
            Outcome::NotHeard(fault) => write!(f, "{}", FaultText(fault)),
            Outcome::NotReloaded(fault) => write!(f, "refused {}", open_fault_name(fault)),
            Outcome::Memory => f.write_str("refused Memory"),
        }
    }
}
