//! Runs of the tools over slices.

use cs_tools::{Form, Tool, ToolFault, run_tool};
use std::alloc::Global;

/// Whether the tool writes this of the input, and leaves that rest of it.
fn leaves(alloc: Global, tool: Tool, input: &str, output: &str, rest: &str) -> bool {
    let mut reader = input.as_bytes();
    let mut writer = Vec::new(alloc);
    match run_tool(alloc, tool, &mut reader, &mut writer) {
        Ok(()) => writer.as_slice() == output.as_bytes() && reader == rest.as_bytes(),
        Err(_) => false,
    }
}

// The line behind the first is left to whoever reads on.
#[test]
fn shows_one_line(rt: HostRuntime) {
    let input = "54020100743100\nnext\n";
    assert!(rt;
        leaves(
            rt.alloc(),
            Tool::ShowChangeset,
            input,
            "table t1 10\n",
            "next\n"
        )
    );
}

/// The INSERT of (1, 'v1') into t1, an empty line and a third one; and the first alone.
const THREE: &str = "54020100743100120001000000000000000103027631\n\nthird\n";

const LOCAL: &str = "54020100743100120001000000000000000103027631\n";

// A third line is left unread.
#[test]
fn rebases_two_lines(rt: HostRuntime) {
    assert!(rt;
        leaves(
            rt.alloc(),
            Tool::Rebase(Form::Normal),
            THREE,
            LOCAL,
            "third\n"
        )
    );
}

/// Whether this is told of the fault.
fn is_told(alloc: Global, fault: ToolFault, name: &str) -> bool {
    match fault.to_string(alloc) {
        Ok(told) => told.as_str() == name,
        Err(_) => false,
    }
}

#[test]
fn faults_of_no_line(rt: HostRuntime) {
    let alloc = rt.alloc();
    assert!(rt; is_told(alloc, ToolFault::Memory, "Memory"));
    assert!(rt; is_told(alloc, ToolFault::Read, "Read"));
    assert!(rt; is_told(alloc, ToolFault::Write, "Write"));
}
