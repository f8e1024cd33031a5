//! Why something was refused.

ghost use Rattle.std.specs.Prelude.{◌≡◌, Some};
ghost use Rattle.cs_node_lines.specs.told.Told.{edit_fault_text, fault_text, open_fault_text, push_fault_text};

use cs_exchange::pulling::AnswerFault;
use cs_exchange::pushing::PushFault;
use cs_opening::OpenFault;
use cs_pending::EditFault;
use std::fmt;

/// The name of a fault of an edit.
pub fn edit_fault_name(fault: EditFault) -> &'static str
    ensures { result.now ≡ edit_fault_text fault }
{
    match fault {
        EditFault::Memory => "Memory",
        EditFault::NoTable => "NoTable",
        EditFault::Width => "Width",
        EditFault::NullKey => "NullKey",
        EditFault::Exists => "Exists",
        EditFault::Missing => "Missing",
        EditFault::KeyColumn => "KeyColumn",
        EditFault::Device => "Device",
    }
}

/// The name of a fault of a push.
pub fn push_fault_name(fault: PushFault) -> &'static str
    ensures { result.now ≡ push_fault_text fault }
{
    match fault {
        PushFault::Memory => "Memory",
        PushFault::Nothing => "Nothing",
        PushFault::InFlight => "InFlight",
        PushFault::Device => "Device",
        PushFault::Spent => "Spent",
        PushFault::TooLarge => "TooLarge",
    }
}

/// The name of a fault of a store that is opened, or read again.
pub fn open_fault_name(fault: OpenFault) -> &'static str
    ensures { result.now ≡ open_fault_text fault }
{
    match fault {
        OpenFault::Memory => "Memory",
        OpenFault::Damaged => "Damaged",
        OpenFault::Device => "Device",
        OpenFault::Mismatch => "Mismatch",
    }
}

/// Why an answer of the hub wasn't taken to its end: `fault NAME after N`, where so many entries were taken before.
#[derive(Clone, Copy)]
pub struct FaultText(pub AnswerFault);

impl fmt::Display for FaultText {
    ghost output = { λ text. Some (fault_text text.0) };

    fn fmt<W: fmt::Write>(&self, f: &mut fmt::Formatter<W>) -> fmt::Result {
        match self.0 {
            AnswerFault::Memory(count) => write!(f, "fault Memory after {count}"),
            AnswerFault::Device(count) => write!(f, "fault Device after {count}"),
            AnswerFault::BadEntry(count) => write!(f, "fault BadEntry after {count}"),
        }
    }
}
