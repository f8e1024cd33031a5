//! A push that is offered, and what the cell holds.

ghost use Rattle.std.specs.Prelude.{◌≡◌, ◌≢◌, ◌≤◌, ◌<◌, ◌↔◌, ◌+◌, List, Ok, Err, IfOk, IsOk, length};
ghost use Rattle.cs_store.specs.declared.log.entry.LogEntry.{LogEntry as Entry};
ghost use Rattle.cs_pending.specs.View.{View};
ghost use Rattle.cs_pending.specs.position.Shows.{ShowsSomeAt};
ghost use Rattle.cs_exchange.specs.pulling.Calls.{WritesInTurn};
ghost use Rattle.cs_replica.specs.Holding.{Shows};
ghost use Rattle.cs_nodes.specs.following.Pushes.{HasTaken, IsAtRest, IsSentAmong, IsSentNext, PushesOn};
ghost use Rattle.cs_nodes.specs.following.Standing.{Begins, IsBadAt, StandsWhereHonest, TablesGoOn};
ghost use Rattle.cs_nodes.specs.declared.following.fault.NodeFault.TheVariants.{BadEntry, Device, Full};
ghost use Rattle.cs_nodes.specs.declared.following.pushed.NodePush.TheVariants.{Nothing, Behind};

use crate::following::fault::NodeFault;
use crate::following::pushed::NodePush;
use crate::following::readying::{flight_entry, is_at_rest, make_ready};
use crate::following::taking::take_standing;
use cs_conflict::Picker;
use cs_replica::Replica;
use cs_spine::{OfferFault, Offered, Pass, Spine};
use cs_store::RowStore;
use std::alloc::Global;

/// Offers the push that is under way, or one made of what is pending, for the next cell, and takes what that cell holds.
fn send<'s, S: RowStore, P: Picker>(
    alloc: Global,
    replica: &mut Replica<S>,
    spine: &'s Spine,
    pass: &mut Pass<'s>,
    picker: &mut P,
) -> Result<NodePush, NodeFault>
    requires spine { pass.old.spine ≡ spine.now }
    requires ready { P.is_ready picker.old }
    requires within { replica.old.position.version ≤ length pass.old.known }
    requires level { replica.old.position.version ≡ length pass.old.known }
    ensures spine { pass.new.spine ≡ pass.old.spine }
    ensures ready { P.is_ready picker.new }

    // What is told, what it has made of the replica, and what the pass knows then.
    ensures pushed { S.honest replica.new.store → StandsWhereHonest S.RowStore pass.old.known replica.old
        → (before : View) → Shows S.contents replica.old before
        → PushesOn P.picks replica.old.catalog pass.old.known replica.old.position before picker.old spine.now.cap result pass.new.known replica.new.catalog replica.new.position (S.contents replica.new.store) picker.new }

    // The push, and what comes of it, are commits of their own.
    ensures writes { WritesInTurn S.RowStore (HasTaken result) (result ≡ Err Device)
        (ShowsSomeAt replica.old.catalog replica.old.position (S.contents replica.old.store))
        (IsSentAmong P.picks replica.old.catalog replica.old.position (S.contents replica.old.store) picker.old)
        (IsSentNext P.picks replica.new.catalog pass.new.known replica.new.position (S.contents replica.new.store)) replica.old.store replica.new.store }
    ensures full { result ≡ Err Full → length pass.old.known ≡ spine.now.cap }
    ensures begins { Begins pass.old.known pass.new.known }
    ensures within { replica.new.position.version ≤ length pass.new.known }

    // The tables are those that the entries leave which were taken.
    ensures catalog { TablesGoOn pass.new.known replica.old.catalog replica.old.position.version replica.new.catalog replica.new.position.version }

    // It stands on what is known, where it did; and an entry that is told to be bad isn't defined there.
    ensures stands { StandsWhereHonest S.RowStore pass.old.known replica.old → StandsWhereHonest S.RowStore pass.new.known replica.new }
    ensures bad { StandsWhereHonest S.RowStore pass.old.known replica.old → result ≡ Err BadEntry → S.honest replica.new.store
        → IsBadAt replica.new.catalog pass.new.known replica.new.position.version }
{
    cs_replica::laws::stands_longer();
    cs_store::log::laws::catalogs_are_tables();
    let ready = match make_ready(alloc, replica) {
        Ok(ready) => ready,
        Err(fault) => return Err(fault),
    };
    if !ready {
        return Ok(NodePush::Nothing);
    }
    replica.shown();
    let found = match flight_entry(alloc, replica) {
        Ok(found) => found,
        Err(_) => return Err(NodeFault::Memory),
    };
    let Some(mine) = found else {
        return Ok(NodePush::Nothing);
    };
    let at = pass.len();
    let offered = match spine.offer(pass, &mine) {
        Ok(offered) => offered,
        Err(OfferFault::Full) => return Err(NodeFault::Full),
        Err(OfferFault::Memory) => return Err(NodeFault::Memory),
    };
    let _known = pass.len();
    match take_standing(alloc, replica, spine.entry(pass, at), picker) {
        Ok(()) => {}
        Err(fault) => return Err(fault),
    }
    match offered {
        Offered::Mine => Ok(NodePush::Accepted(replica.version())),
        Offered::Other => Ok(NodePush::Other(replica.version())),
    }
}

/// Offers the push that is under way, or one made of what is pending, for the cell at the replica's version. Then takes what that cell
/// holds: the push is confirmed, or another's entry taken.
///
/// # Errors
///
/// `Full` where each cell is known, `BadEntry` and `Stopped` of the entry in the cell, `Spent` and `TooLarge` of the push that is made;
/// `Memory` and `Device`.
pub fn push_known<'s, S: RowStore, P: Picker>(
    alloc: Global,
    replica: &mut Replica<S>,
    spine: &'s Spine,
    pass: &mut Pass<'s>,
    picker: &mut P,
) -> Result<NodePush, NodeFault>
    requires spine { pass.old.spine ≡ spine.now }
    requires ready { P.is_ready picker.old }
    requires within { replica.old.position.version ≤ length pass.old.known }
    ensures spine { pass.new.spine ≡ pass.old.spine }
    ensures ready { P.is_ready picker.new }

    // What is told, what it has made of the replica, and what the pass knows then.
    ensures pushed { S.honest replica.new.store → StandsWhereHonest S.RowStore pass.old.known replica.old
        → (before : View) → Shows S.contents replica.old before
        → PushesOn P.picks replica.old.catalog pass.old.known replica.old.position before picker.old spine.now.cap result pass.new.known replica.new.catalog replica.new.position (S.contents replica.new.store) picker.new }

    // The push, and what comes of it, are commits of their own. What was made stays, however it ended, at `Full` too. A stop then
    // leaves what the store holds, or, where no entry was taken, that with one commit more. That commit makes the push or takes the
    // entry at the version. Where nothing was written, it may also leave what it could before.
    ensures writes { WritesInTurn S.RowStore (HasTaken result) (result ≡ Err Device)
        (ShowsSomeAt replica.old.catalog replica.old.position (S.contents replica.old.store))
        (IsSentAmong P.picks replica.old.catalog replica.old.position (S.contents replica.old.store) picker.old)
        (IsSentNext P.picks replica.new.catalog pass.new.known replica.new.position (S.contents replica.new.store)) replica.old.store replica.new.store }

    // Nothing is told first, then that it is behind; and nothing has changed then.
    ensures nothing { IsAtRest replica.old.position → (result ≡ Ok Nothing) × (replica.new ≡ replica.old) × (pass.new ≡ pass.old) }
    ensures behind { (IsAtRest replica.old.position → ⊥) → replica.old.position.version < length pass.old.known
        → (result ≡ Ok Behind) × (replica.new ≡ replica.old) × (pass.new ≡ pass.old) }
    ensures full { result ≡ Err Full → length pass.old.known ≡ spine.now.cap }
    ensures begins { Begins pass.old.known pass.new.known }
    ensures within { replica.new.position.version ≤ length pass.new.known }

    // The tables are those that the entries leave which were taken.
    ensures catalog { TablesGoOn pass.new.known replica.old.catalog replica.old.position.version replica.new.catalog replica.new.position.version }

    // It stands on what is known, where it did; and an entry that is told to be bad isn't defined there.
    ensures stands { StandsWhereHonest S.RowStore pass.old.known replica.old → StandsWhereHonest S.RowStore pass.new.known replica.new }
    ensures bad { StandsWhereHonest S.RowStore pass.old.known replica.old → result ≡ Err BadEntry → S.honest replica.new.store
        → IsBadAt replica.new.catalog pass.new.known replica.new.position.version }
{
    if is_at_rest(replica) {
        return Ok(NodePush::Nothing);
    }
    if replica.version() < pass.len() as u64 {
        return Ok(NodePush::Behind);
    }
    send(alloc, replica, spine, pass, picker)
}
