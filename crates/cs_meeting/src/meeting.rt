//! The turns of a meeting.

ghost use Rattle.std.specs.Prelude.{◌≡◌, ℕ, List, Ok, Err, IfOk, replicate};
ghost use Rattle.cs_meeting.specs.Asks.{next_ask, own_count};
ghost use Rattle.cs_meeting.specs.Steps.{Asks, Delivers, MakesTurn};
ghost use Rattle.cs_wire.specs.Requests.{HasShortBytes, asked_by_owned};

use crate::ask::{AT_ONCE, Ask};
use cs_conflict::Wish;
use cs_exchange::pushing::PushFault;
use cs_hub::Hub;
use cs_node_lines::following::seen_line;
use cs_node_lines::told::push_fault_name;
use cs_node_lines::working::{Reply, flight_len};
use cs_replica::Replica;
use cs_store::RowStore;
use cs_value::{Catalog, Memory};
use cs_wire::RequestBuf;
use std::alloc::{AllocError, Global};
use std::marker::Model;

/// A hub and one of its replicas. Contracts see it as what both hold.
#[derive(Drop)]
pub(crate) struct Meeting<S: RowStore> {
    pub(crate) alloc: Global,
    pub(crate) hub: Hub<S>,
    pub(crate) replica: Replica<S>,
}

impl<S: RowStore> Model for Meeting<S> {
    ghost use Rattle.cs_meeting.specs.Held.{Held};

    ghost Value = { Held S };

    ghost view = { λ meeting. record { hub = meeting.hub; replica = meeting.replica } };
}

impl<S: RowStore> Meeting<S> {
    /// What the replica asks next, if anything.
    pub(crate) fn next_ask(&self) -> Option<Ask>
        ensures { result ≡ next_ask self.now.hub.newest self.now.replica.position }
    {
        if self.replica.version() != self.hub.newest() {
            return Some(Ask::Catch);
        }
        if self.replica.in_flight().is_some() {
            return Some(Ask::Resend);
        }
        if self.replica.pending_len() == 0 {
            return None;
        }
        Some(Ask::Push)
    }

    /// A wish for each change that is the replica's own: an answer of the hub meets each once.
    pub(crate) fn wishes(&self, wish: Wish) -> Result<Vec<Wish>, Memory>
        ensures { IfOk result (λ wishes. wishes.items ≡ replicate (own_count self.now.replica.position) wish) }
    {
        let pending = self.replica.pending_len() as usize;
        let Some(own) = pending.checked_add(flight_len(&self.replica)) else {
            return Err(AllocError);
        };
        Ok(vec![in self.alloc; wish; own]?)
    }

    /// Makes a request of it.
    fn ask(&mut self, ask: Ask) -> Result<RequestBuf, PushFault>
        ensures short { IfOk result (λ request. HasShortBytes (asked_by_owned request)) }
        ensures asks { Asks S.RowStore ask result self.old self.new }
        ensures catalog { self.new.hub.catalog ≡ self.old.hub.catalog }
    {
        cs_world::laws::steps_are_sound();
        cs_store::log::laws::most_entries();
        match ask {
            Ask::Catch => Ok(RequestBuf::Catch {
                origin: self.replica.id(),
                first: self.replica.version(),
                limit: AT_ONCE,
            }),
            Ask::Resend => self.replica.resend(self.alloc),
            Ask::Push => self.replica.make_push(self.alloc),
        }
    }

    /// Has the hub answer a request, and the replica hear the answer by these wishes, and gives what is printed of it.
    fn deliver(
        &mut self,
        catalog: &Catalog,
        request: &RequestBuf,
        wishes: &[Wish],
    ) -> Result<Reply, Memory>
        requires catalog { self.old.hub.catalog ≡ catalog.now }
        requires short { HasShortBytes (asked_by_owned request.now) }
        ensures delivers { Delivers S.RowStore (asked_by_owned request.now) wishes.now result self.old self.new }
        ensures catalog { self.new.hub.catalog ≡ self.old.hub.catalog }
    {
        cs_world::laws::answers_fit();
        cs_world::laws::steps_are_sound();
        cs_node_lines::following::laws::seen_is_heard();
        cs_store::log::laws::most_entries();
        cs_wire::laws::one_told_answer();
        let mut bytes = Vec::new(self.alloc);
        if request.encode(&mut bytes).is_err() {
            return Ok(Reply::Refused("Memory"));
        }
        let Ok(answer) = self.hub.serve(bytes.as_slice()) else {
            return Ok(Reply::Refused("Memory"));
        };
        seen_line(
            self.alloc,
            &mut self.replica,
            catalog,
            answer.as_slice(),
            wishes,
        )
    }

    /// Takes a turn: the replica asks, the hub answers, and the replica hears the answer by these wishes. Gives what is printed
    /// of it.
    pub(crate) fn turn(
        &mut self,
        catalog: &Catalog,
        ask: Ask,
        wishes: &[Wish],
    ) -> Result<Reply, Memory>
        requires { self.old.hub.catalog ≡ catalog.now }
        ensures makes { MakesTurn S.RowStore ask wishes.now result self.old self.new }
        ensures catalog { self.new.hub.catalog ≡ self.old.hub.catalog }
    {
        match self.ask(ask) {
            Ok(request) => self.deliver(catalog, &request, wishes),
            Err(fault) => Ok(Reply::Refused(push_fault_name(fault))),
        }
    }
}
