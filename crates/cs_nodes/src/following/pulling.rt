//! A pull: entries are looked for, and all that are known are taken.

ghost use Rattle.std.specs.Prelude.{◌≡◌, ◌+◌, ◌≤◌, Err, IfOk, IsOk, length};
ghost use Rattle.cs_pending.specs.View.{View};
ghost use Rattle.cs_pending.specs.position.Shows.{ShowsSomeAt};
ghost use Rattle.cs_exchange.specs.pulling.Calls.{WritesInTurn};
ghost use Rattle.cs_replica.specs.Holding.{Shows};
ghost use Rattle.cs_nodes.specs.following.Pulls.{IsNextKnown, IsPulledAmong, PullsAll};
ghost use Rattle.cs_nodes.specs.following.Standing.{Begins, IsBadAt, StandsWhereHonest, TablesGoOn};
ghost use Rattle.cs_nodes.specs.declared.following.fault.NodeFault.TheVariants.{BadEntry, Device};

use crate::following::fault::NodeFault;
use crate::following::seeing::see_all;
use crate::following::taking::take_known;
use cs_conflict::Picker;
use cs_replica::Replica;
use cs_spine::{Pass, Spine};
use cs_store::RowStore;
use std::alloc::Global;

/// Looks at one cell behind another until one is not set. Then takes the entries that are known, from the one at the replica's version
/// on, each in a commit of its own. Returns how many. What was taken stays, whatever comes later.
///
/// # Errors
///
/// `BadEntry` at an entry that isn't defined on the tables there, `Stopped` where the picker stops, `Memory` and `Device`.
pub fn pull_known<'s, S: RowStore, P: Picker>(
    alloc: Global,
    replica: &mut Replica<S>,
    spine: &'s Spine,
    pass: &mut Pass<'s>,
    picker: &mut P,
) -> Result<usize, NodeFault>
    requires spine { pass.old.spine ≡ spine.now }
    requires ready { P.is_ready picker.old }
    requires within { replica.old.position.version ≤ length pass.old.known }
    ensures spine { pass.new.spine ≡ pass.old.spine }
    ensures ready { P.is_ready picker.new }
    ensures begins { Begins pass.old.known pass.new.known }

    // Those before the one at which it ended were pulled, one after another.
    ensures pulled { S.honest replica.new.store → (before : View) → Shows S.contents replica.old before
        → PullsAll P.picks replica.old.catalog pass.new.known result replica.old.position before picker.old replica.new.catalog replica.new.position (S.contents replica.new.store) picker.new }

    // Each in a commit of its own. Those that were taken stay, however it ended. A stop then leaves what the store holds, or, at an
    // `Err`, that with the next entry taken too. Where nothing was written, it may also leave what it could before.
    ensures writes { WritesInTurn S.RowStore (IsOk result) (result ≡ Err Device)
        (ShowsSomeAt replica.old.catalog replica.old.position (S.contents replica.old.store))
        (IsPulledAmong P.picks replica.old.catalog pass.new.known replica.old.position (S.contents replica.old.store) picker.old)
        (IsNextKnown P.picks replica.new.catalog pass.new.known replica.new.position (S.contents replica.new.store)) replica.old.store replica.new.store }

    // At `Ok` it has come to the last that is known.
    ensures level { IfOk result (λ count. (replica.new.position.version ≡ length pass.new.known) × (replica.new.position.version ≡ replica.old.position.version + count)) }
    ensures within { replica.new.position.version ≤ length pass.new.known }

    // The tables are those that the entries leave which were taken.
    ensures catalog { TablesGoOn pass.new.known replica.old.catalog replica.old.position.version replica.new.catalog replica.new.position.version }

    // It stands on what is known, where it did; and an entry that is told to be bad isn't defined there.
    ensures stands { StandsWhereHonest S.RowStore pass.old.known replica.old → StandsWhereHonest S.RowStore pass.new.known replica.new }
    ensures bad { StandsWhereHonest S.RowStore pass.old.known replica.old → result ≡ Err BadEntry → S.honest replica.new.store
        → IsBadAt replica.new.catalog pass.new.known replica.new.position.version }
{
    crate::following::laws::stands_wider::<S>();
    see_all(spine, pass);
    match take_known(alloc, replica, spine, pass, picker) {
        Ok(count) => Ok(count),
        Err(fault) => Err(fault),
    }
}
