//! Entries taken by pickers over closures as callers write them: one whose answers are lawful by themselves, and one that is guarded.

ghost use Rattle.std.specs.Prelude.{◌≡◌};
ghost use Rattle.cs_conflict.specs.Pickers.{IsLawfulAt};

use cs_conflict::{Chooser, Clash, Guard, Wish};
use cs_exchange::pulling::PullFault;
use cs_replica::Replica;
use cs_store::RowStore;
use cs_store::log::LogEntry;
use std::alloc::Global;

/// The own row wherever the own change covers the other's, else the other's change.
fn own_first(clash: &Clash<'_>) -> Wish
    ensures { IsLawfulAt clash.now result }
{
    cs_conflict::laws::not_found_is_covered();
    if clash.covers { Wish::Keep } else { Wish::Take }
}

/// Takes an entry: the own row comes first. It is counted how often the closure was asked.
pub fn take_own_first<S: RowStore>(
    alloc: Global,
    replica: &mut Replica<S>,
    index: u64,
    entry: &LogEntry,
    asked: &mut u64,
) -> Result<(), PullFault> {
    let mut chooser = Chooser::new(
        |clash: &Clash<'_>| -> Wish
            ensures { IsLawfulAt clash.now result }
        {
            *asked = asked.saturating_add(1);
            own_first(clash)
        },
    );
    replica.take(alloc, index, entry, &mut chooser)
}

/// Takes an entry: each clash is answered by this wish, where it is lawful.
pub fn take_always<S: RowStore>(
    alloc: Global,
    replica: &mut Replica<S>,
    index: u64,
    entry: &LogEntry,
    wish: Wish,
) -> Result<(), PullFault> {
    let mut guard = Guard::new(move |_clash: &Clash<'_>| -> Wish { wish });
    replica.take(alloc, index, entry, &mut guard)
}
