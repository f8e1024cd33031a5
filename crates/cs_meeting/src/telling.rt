//! A meeting over two stores, as it is printed.

ghost use Rattle.std.specs.Prelude.{◌≡◌, ◌≢◌, ◌<◌, ◌-◌, ◌^◌, OnOk, Some, false, true};
ghost use Rattle.cs_meeting.specs.Ends.{EndsMeeting};
ghost use Rattle.cs_meeting.specs.Asks.{next_ask};
ghost use Rattle.cs_meeting.specs.Steps.{AllMet, MetTold, TellsPlace, TurnTold};
ghost use Rattle.cs_node_lines.specs.told.Dump.{replica_text};
ghost use Rattle.cs_text.specs.Text.{line};

use crate::ask::{Ask, TURNS};
use crate::fault::MeetingFault;
use crate::meeting::Meeting;
use cs_conflict::Wish;
use cs_hub::Hub;
use cs_lines::LineOutput;
use cs_node_lines::working::{Reply, place_of, write_reply};
use cs_replica::Replica;
use cs_store::RowStore;
use cs_value::Catalog;
use std::alloc::Global;

impl<S: RowStore> Meeting<S> {
    /// Takes a turn, prints what became of it, and tells whether the replica came to another version.
    fn told_turn<W: LineOutput>(
        &mut self,
        catalog: &Catalog,
        ask: Ask,
        wish: Wish,
        writer: &mut W,
    ) -> Result<bool, MeetingFault>
        requires catalog { self.old.hub.catalog ≡ catalog.now }
        requires next { next_ask self.old.hub.newest self.old.replica.position ≡ Some ask }
        ensures told { TurnTold S.RowStore wish result (W.failed writer.new) (W.contents writer.old) (W.contents writer.new) self.old self.new }
        ensures catalog { self.new.hub.catalog ≡ self.old.hub.catalog }
        ensures sent { OnOk result (W.sent writer.new) }
    {
        let version = self.replica.version();
        let wishes = self.wishes(wish)?;
        let reply = self.turn(catalog, ask, wishes.as_slice())?;
        write_reply(writer, &reply)?;
        Ok(self.has_moved(version))
    }

    /// Whether the replica is at another version than this.
    fn has_moved(&self, version: u64) -> bool
        ensures still { result ≡ false → self.now.replica.position.version ≡ version }
        ensures moved { result ≡ true → self.now.replica.position.version ≢ version }
    {
        self.replica.version() != version
    }

    /// Takes turns until the replica is at rest, or one leaves it at its version, and tells whether it is at rest.
    fn told_turns<W: LineOutput>(
        &mut self,
        catalog: &Catalog,
        wish: Wish,
        writer: &mut W,
    ) -> Result<bool, MeetingFault>
        requires { self.old.hub.catalog ≡ catalog.now }
        ensures told { AllMet S.RowStore wish result (W.failed writer.new) (W.contents writer.old) (W.contents writer.new) self.old self.new }
        ensures sent { OnOk result (W.sent writer.old → W.sent writer.new) }
    {
        for _turn in 0..TURNS {
            let Some(ask) = self.next_ask() else {
                return Ok(true);
            };
            match self.told_turn(catalog, ask, wish, writer) {
                Ok(true) => {}
                Ok(false) => return Ok(false),
                Err(fault) => return Err(fault),
            }
        }
        Ok(false)
    }

    /// Prints where the replica stands.
    fn tell_place<W: LineOutput>(&self, writer: &mut W) -> Result<(), MeetingFault>
        ensures told { TellsPlace result (W.failed writer.new) (W.contents writer.old) (W.contents writer.new) (line (replica_text self.now.replica.position.id self.now.replica.position)) }
        ensures sent { OnOk result (W.sent writer.new) }
    {
        let text = place_of(self.alloc, &self.replica)?;
        write_reply(writer, &Reply::Text(text))?;
        Ok(())
    }

    /// Takes turns, and prints where the replica stands in the end.
    fn told_meeting<W: LineOutput>(
        &mut self,
        catalog: &Catalog,
        wish: Wish,
        writer: &mut W,
    ) -> Result<bool, MeetingFault>
        requires { self.old.hub.catalog ≡ catalog.now }
        ensures told { MetTold S.RowStore wish result (W.failed writer.new) (W.contents writer.old) (W.contents writer.new) self.old self.new }
        ensures sent { OnOk result (W.sent writer.new) }
    {
        match self.told_turns(catalog, wish, writer) {
            Ok(at_rest) => match self.tell_place(writer) {
                Ok(()) => Ok(at_rest),
                Err(fault) => Err(fault),
            },
            Err(fault) => Err(fault),
        }
    }
}

/// Opens the hub of these tables over a store, and the replica with this id over another, and has them meet: turn by turn the
/// replica asks, the hub answers, and the replica takes the answer. It asks for entries until it is at the newest version, and
/// then has its own changes taken. At each clash the same is wished, made lawful. What became of each turn is printed and sent
/// before the next, and in the end where the replica stands. Tells whether it is at rest then: at the newest version, with
/// nothing of its own. Else a turn left it at its version, as where a wish stopped or the hub refused something, or there were
/// `TURNS`. An id is at most 4,294,967,294. Both stores come back in any case.
///
/// # Errors
///
/// `Hub` and `Replica` where one isn't opened: then nothing is printed, and its store holds what it held. `Write`, and `Memory`:
/// what was done stays done.
pub fn meet<S: RowStore, W: LineOutput>(
    alloc: Global,
    hub_store: S,
    store: S,
    catalog: &Catalog,
    id: u32,
    wish: Wish,
    writer: &mut W,
) -> (Result<bool, MeetingFault>, S, S)
    requires { id < 2 ^ 32 - 1 }
    ensures ends { EndsMeeting S.RowStore catalog.now id wish hub_store result.1 store result.2 (W.failed writer.new) (W.contents writer.old) (W.contents writer.new) result.0 }
    ensures sent { OnOk result.0 (W.sent writer.new) }
{
    let _tables = catalog.tables();
    let hub = match Hub::open(alloc, hub_store, catalog) {
        Ok(hub) => hub,
        Err((hub_store, fault)) => return (Err(MeetingFault::Hub(fault)), hub_store, store),
    };
    let replica = match Replica::open(alloc, store, catalog, id) {
        Ok(replica) => replica,
        Err((store, fault)) => return (Err(MeetingFault::Replica(fault)), hub.close(), store),
    };
    let mut meeting = Meeting {
        alloc,
        hub,
        replica,
    };
    let ended = meeting.told_meeting(catalog, wish, writer);
    (ended, meeting.hub.close(), meeting.replica.close())
}
