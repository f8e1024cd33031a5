//! Nodes in threads of their own. How long one waits for the other has a limit.

ghost use Rattle.std.specs.Prelude.{◌≡◌};

use crate::given::{Here, ROW_1, ROW_2, begun, inserts, pulls_second, pushes, shows};
use cs_nodes::NodePush;
use cs_spine::Spine;
use std::alloc::Global;
use std::sync::atomic::{AtomicU64, Ordering};
use std::thread::{self, Threads};
use std::time::{Clock, Duration};

/// How many turns of a millisecond a thread waits at most.
const TURNS: u64 = 10_000;

/// What two threads have come to.
#[derive(Drop)]
struct Gates {
    /// The first node was called.
    first: AtomicU64,
    /// The second node's push was answered.
    second: AtomicU64,
}

/// Waits until a gate is open, and says whether it is.
fn wait_for<R: Clock>(rt: &R, gate: &AtomicU64) -> bool {
    for _ in 0..TURNS {
        if gate.load(Ordering::SeqCst) == 1 {
            return true;
        }
        thread::sleep(rt, Duration::from_millis(1));
    }
    false
}

/// The first node inserts a row, and pushes only once the second's push was answered: it finds the second's entry.
fn runs_first<'s, R: Clock>(
    rt: &R,
    alloc: Global,
    spine: &'s Spine,
    gates: &Gates,
    node: Here<'s>,
) -> bool
    requires { node.pass.spine ≡ spine.now }
{
    let mut node = node;
    gates.first.store(1, Ordering::SeqCst);
    let made = inserts(alloc, &mut node, 1, "v1");
    let open = wait_for(rt, &gates.second);
    let other = pushes(alloc, &mut node, spine, NodePush::Other(1));
    made & open & other & (shows(alloc, &mut node, &[ROW_1, ROW_2], 1, 1) == Ok(true))
}

/// The second waits until the first was called, inserts a row, and pushes it.
fn runs_second<'s, R: Clock>(
    rt: &R,
    alloc: Global,
    spine: &'s Spine,
    gates: &Gates,
    node: Here<'s>,
) -> bool
    requires { node.pass.spine ≡ spine.now }
{
    let mut node = node;
    let open = wait_for(rt, &gates.first);
    let made = inserts(alloc, &mut node, 2, "v2");
    let told = pushes(alloc, &mut node, spine, NodePush::Accepted(1));
    gates.second.store(1, Ordering::SeqCst);
    open & made & told & (shows(alloc, &mut node, &[ROW_2], 1, 0) == Ok(true))
}

/// Both run at once.
fn run_both<R: Threads + Clock + Sync>(rt: &R, alloc: Global, spine: &Spine) -> Option<bool> {
    let one = begun(alloc, spine, 1)?;
    let two = begun(alloc, spine, 2)?;
    let gates = Gates {
        first: AtomicU64::new(0),
        second: AtomicU64::new(0),
    };
    let (first, second) = thread::join(
        rt,
        || runs_first(rt, alloc, spine, &gates, one),
        || runs_second(rt, alloc, spine, &gates, two),
    );
    Some(first & second)
}

fn run_and_pull<'s, R: Threads + Clock + Sync>(
    rt: &R,
    alloc: Global,
    spine: &'s Spine,
    late: &mut Here<'s>,
) -> Option<bool>
    requires { late.old.pass.spine ≡ spine.now }
{
    let both = run_both(rt, alloc, spine)?;
    Some(both & pulls_second(alloc, spine, late))
}

/// Both run at once; then a new node pulls the second's entry, and shows its row.
fn gated<R: Threads + Clock + Sync>(rt: &R, alloc: Global, spine: &Spine) -> Option<bool> {
    let mut late = begun(alloc, spine, 3)?;
    run_and_pull(rt, alloc, spine, &mut late)
}

#[test]
fn gate_two_nodes(rt: HostRuntime) {
    let alloc = rt.alloc();
    let told = match Spine::new(alloc, 4) {
        Ok(spine) => gated(&rt, alloc, &spine),
        Err(_) => None,
    };
    assert!(rt; told == Some(true));
}
