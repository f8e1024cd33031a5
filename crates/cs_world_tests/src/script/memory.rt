//! A script while an allocation is refused, as `bench/refuse_tests.sh` does it with each in turn.

use cs_script::{ScriptFault, run_script};
use cs_store_cases::catalog;
use std::alloc::Global;

/// Two pushes on one version: the second is stale, pulls, keeps its own, and pushes again.
const SCRIPT: &str = "edit 0 insert t1 1 t=v1\n\
    edit 1 insert t1 1 t=v2\n\
    push 0\n\
    push 1\n\
    deliver 0 -\n\
    deliver 1 -\n\
    deliver 2 -\n\
    deliver 3 -\n\
    pull 1 10\n\
    deliver 4 -\n\
    deliver 5 k\n\
    push 1\n\
    deliver 6 -\n\
    deliver 7 -\n\
    pull 0 10\n\
    deliver 8 -\n\
    deliver 9 -\n";

const PRINTED: &str =
    "ok\nok\nsent 0\nsent 1\nsent 2\nsent 3\naccepted 1\nstale 1\nsent 4\nsent 5\n\
    taken 1 version 1\nsent 6\nsent 7\naccepted 2\nsent 8\nsent 9\ntaken 1 version 2\n\
    hub 2\nrow t1 1 t=v2\n\
    replica 0 version 2 pending 0 flight 0\nrow t1 1 t=v2\n\
    replica 1 version 2 pending 0 flight 0\nrow t1 1 t=v2\n";

/// Whether this is printed of the script; none where memory was refused, at which nothing is printed but what the world came to without it.
fn prints(alloc: Global) -> Option<bool> {
    let catalog = catalog(alloc)?;
    let mut input = SCRIPT.as_bytes();
    let mut output = Vec::new(alloc);
    match run_script(alloc, &catalog, 2, &mut input, &mut output) {
        Ok(()) if output.as_slice() == PRINTED.as_bytes() => Some(true),
        Ok(()) => None,
        Err(ScriptFault::Memory) if output.is_empty() => None,
        Err(ScriptFault::Write) => None,
        Err(_) => Some(false),
    }
}

/// The first time or, where memory was refused, the second.
#[test]
fn refused_memory_leaves_everything(rt: HostRuntime) {
    let alloc = rt.alloc();
    let printed = match prints(alloc) {
        Some(printed) => printed,
        None => prints(alloc) == Some(true),
    };
    assert!(rt; printed);
}
