//! The names of faults of bytes that are no answer, and of a store.

ghost use Rattle.std.specs.Prelude.{◌≡◌};
ghost use Rattle.cs_node_lines.specs.working.Texts.{store_fault_text, wire_fault_text};

use cs_store::StoreFault;
use cs_wire::WireFault;

pub(crate) fn wire_fault_name(fault: WireFault) -> &'static str
    ensures { result.now ≡ wire_fault_text fault }
{
    match fault {
        WireFault::Truncated => "Truncated",
        WireFault::BadTag => "BadTag",
        WireFault::TooLong => "TooLong",
        WireFault::BadKind => "BadKind",
        WireFault::NotUtf8 => "NotUtf8",
    }
}

pub(crate) fn store_fault_name(fault: StoreFault) -> &'static str
    ensures { result.now ≡ store_fault_text fault }
{
    match fault {
        StoreFault::Memory => "Memory",
        StoreFault::Device => "Device",
    }
}
