//! A push that is ready to be offered.

ghost use Rattle.std.specs.Prelude.{◌≡◌, ◌≢◌, ◌↔◌, true, List, None, Ok, Err, IfErr, IfOk, IfSome, IsTrue, OnErr};
ghost use Rattle.cs_store.specs.log.Entry.{entry_changes};
ghost use Rattle.cs_store.specs.log.Log.{tables_at};
ghost use Rattle.cs_store.specs.declared.log.entry.LogEntry.{LogEntry as Entry};
ghost use Rattle.cs_normal.specs.State.{IsDefinedOn};
ghost use Rattle.cs_pending.specs.View.{View};
ghost use Rattle.cs_pending.specs.position.Shows.{ShowsSomeAt};
ghost use Rattle.cs_exchange.specs.pulling.Calls.{WritesInTurn};
ghost use Rattle.cs_exchange.specs.pushing.Pushes.{IsPushMadeIn};
ghost use Rattle.cs_replica.specs.Holding.{Shows};
ghost use Rattle.cs_nodes.specs.following.Faults.{told_of_push};
ghost use Rattle.cs_nodes.specs.following.Pushes.{IsAtRest, IsReadied, IsReadyFault};
ghost use Rattle.cs_replica.specs.Flight.{flight_entry as entry_of};
ghost use Rattle.cs_nodes.specs.following.Standing.{StandsWhereHonest};
ghost use Rattle.cs_value.specs.Catalog.{AreTables};
ghost use Rattle.cs_nodes.specs.declared.following.fault.NodeFault.TheVariants.{Device, Full};

use crate::following::fault::{NodeFault, push_fault};
use cs_exchange::pushing::PushFault;
use cs_replica::Replica;
use cs_store::RowStore;
use cs_store::log::LogEntry;
use cs_value::Memory;
use std::alloc::Global;

/// Whether nothing is pending and no push is under way. It takes no memory.
pub fn is_at_rest<S: RowStore>(replica: &Replica<S>) -> bool
    ensures { IsTrue result ↔ IsAtRest replica.now.position }
{
    replica.in_flight().is_none() && replica.pending_len() == 0
}

/// The push that is under way, as the entry that it would be; `None` where none is.
pub(crate) fn flight_entry<S: RowStore>(
    alloc: Global,
    replica: &Replica<S>,
) -> Result<Option<LogEntry>, Memory>
    ensures entry { IfOk result (λ entry. entry ≡ entry_of replica.now.position) }

    // It is defined on the tables at the version of what the replica stands on.
    ensures defined { (known : List Entry) → StandsWhereHonest S.RowStore known replica.now → S.honest replica.now.store
        → IfOk result (λ found. IfSome found (λ entry. IsDefinedOn replica.now.catalog (entry_changes entry) (tables_at known replica.now.position.version))) }
{
    cs_replica::laws::flight_fits();
    cs_store::log::laws::catalogs_are_tables();
    cs_normal::laws::defined_is_applied();
    replica.shown();
    if replica.in_flight().is_none() {
        return Ok(None);
    }
    replica.flight_entry(alloc)
}

/// What is told where no push was made: that there is nothing to push, or the fault.
fn not_made(fault: PushFault) -> Result<bool, NodeFault>
    ensures { result ≡ told_of_push fault }
{
    match fault {
        PushFault::Nothing | PushFault::InFlight => Ok(false),
        fault => Err(push_fault(fault)),
    }
}

/// Makes what is pending the push that is under way, and says whether there was something.
fn make_one<S: RowStore>(alloc: Global, replica: &mut Replica<S>) -> Result<bool, NodeFault>
    requires { replica.old.position.flight ≡ None }
    ensures writes { WritesInTurn S.RowStore (result ≡ Ok true) (result ≡ Err Device)
        (ShowsSomeAt replica.old.catalog replica.old.position (S.contents replica.old.store))
        (IsPushMadeIn replica.old.catalog replica.old.position (S.contents replica.old.store))
        (IsPushMadeIn replica.old.catalog replica.new.position (S.contents replica.new.store)) replica.old.store replica.new.store }
    ensures readied { S.honest replica.new.store → AreTables replica.old.catalog → (before : View) → Shows S.contents replica.old before
        → IfOk result (λ some. IsReadied replica.old.catalog replica.old.position before some replica.new.position (S.contents replica.new.store)) }
    ensures refused { S.honest replica.new.store → (before : View) → Shows S.contents replica.old before
        → IfErr result (λ fault. IsReadyFault fault replica.old.catalog replica.old.position before × Shows S.contents replica.new before) }
    ensures version { replica.new.position.version ≡ replica.old.position.version }
    ensures catalog { replica.new.catalog ≡ replica.old.catalog }
    ensures kept { OnErr result (replica.new.position ≡ replica.old.position) }
    ensures stands { (known : List Entry) → StandsWhereHonest S.RowStore known replica.old → StandsWhereHonest S.RowStore known replica.new }
    ensures full { result ≢ Err Full }
{
    cs_store::log::laws::one_body();
    cs_store::log::laws::catalogs_are_tables();
    cs_replica::laws::steps_stand();
    match replica.make_push(alloc) {
        Ok(_request) => {
            replica.shown();
            return Ok(true);
        }
        Err(fault) => return not_made(fault),
    }
}

/// Makes what is pending the push that is under way, where none is, and says whether one is then.
pub(crate) fn make_ready<S: RowStore>(
    alloc: Global,
    replica: &mut Replica<S>,
) -> Result<bool, NodeFault>
    ensures writes { WritesInTurn S.RowStore (result ≡ Ok true) (result ≡ Err Device)
        (ShowsSomeAt replica.old.catalog replica.old.position (S.contents replica.old.store))
        (IsPushMadeIn replica.old.catalog replica.old.position (S.contents replica.old.store))
        (IsPushMadeIn replica.old.catalog replica.new.position (S.contents replica.new.store)) replica.old.store replica.new.store }
    ensures readied { S.honest replica.new.store → AreTables replica.old.catalog → (before : View) → Shows S.contents replica.old before
        → IfOk result (λ some. IsReadied replica.old.catalog replica.old.position before some replica.new.position (S.contents replica.new.store)) }
    ensures refused { S.honest replica.new.store → (before : View) → Shows S.contents replica.old before
        → IfErr result (λ fault. IsReadyFault fault replica.old.catalog replica.old.position before × Shows S.contents replica.new before) }
    ensures version { replica.new.position.version ≡ replica.old.position.version }
    ensures catalog { replica.new.catalog ≡ replica.old.catalog }
    ensures kept { OnErr result (replica.new.position ≡ replica.old.position) }
    ensures stands { (known : List Entry) → StandsWhereHonest S.RowStore known replica.old → StandsWhereHonest S.RowStore known replica.new }
    ensures full { result ≢ Err Full }
{
    if replica.in_flight().is_some() {
        return Ok(true);
    }
    make_one(alloc, replica)
}
