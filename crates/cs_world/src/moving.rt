//! The hub, the replicas and the messages, moved by events.

ghost use Rattle.std.specs.Prelude.{◌≡◌, ◌<◌, ◌++◌, [], ◌∷◌, List, Some, IfOk, OnErr, length, vec_capacity, vec_len};
ghost use Rattle.cs_world.specs.declared.event.Event.TheVariants.{AskCatch, AskPull, AskWiden, Deliver, MakePush, OnEdit, Resend, Restart};
ghost use Rattle.cs_world.specs.declared.outcome.Outcome.TheVariants as told;
ghost use Rattle.cs_store.specs.declared.log.entry.TheConstants.{MAX_ENTRIES};
ghost use Rattle.cs_world.specs.Fails.{AsksHub};
ghost use Rattle.cs_world.specs.Moves.{Moves};

use crate::event::{Event, Wider};
use crate::letter::{Letter, Posted};
use crate::outcome::Outcome;
use crate::turning::reload_replica;
use cs_conflict::Wish;
use cs_conflict::wish_list::Wishes;
use cs_hub::Hub;
use cs_replica::{Replica, Told};
use cs_store::RowStore;
use cs_value::Edit;
use cs_wire::{Answer, RequestBuf};
use std::alloc::Global;
use std::marker::Model;

/// The hub, the replicas, and every message that was ever sent.
#[derive(Drop)]
pub(crate) struct Core<S: RowStore> {
    pub(crate) alloc: Global,
    pub(crate) hub: Hub<S>,
    pub(crate) replicas: Vec<Replica<S>>,
    pub(crate) letters: Vec<Letter>,
}

impl<S: RowStore> Model for Core<S> {
    ghost use Rattle.cs_world.specs.Holding.{Holding};

    ghost Value = { Holding S };

    ghost view = { λ core. record { hub = core.hub; replicas = core.replicas.items; letters = core.letters.items } };
}

/// Puts a message behind the others, in room that was made.
fn send(letters: &mut Vec<Letter>, letter: Letter) -> Outcome
    requires { vec_len letters.old < vec_capacity letters.old }
    ensures sent { result ≡ told.Sent (length letters.old.items) }
    ensures items { letters.new.items ≡ letters.old.items ++ letter ∷ [] }
{
    let number = letters.len();
    letters.push_reserved(letter);
    Outcome::Sent(number)
}

impl<S: RowStore> Core<S> {
    /// What an event does, and what it comes to.
    pub(crate) fn step(&mut self, event: &Event) -> Outcome
        ensures moves { Moves S.RowStore MAX_ENTRIES self.old event.now result self.new }
        ensures asks { AsksHub S.RowStore MAX_ENTRIES event.now result self.old self.new }
    {
        match event {
            Event::OnEdit { replica, edit } => self.edit(*replica, edit),
            Event::MakePush { replica } => self.make_push(*replica),
            Event::Resend { replica } => self.resend(*replica),
            Event::AskPull { replica, limit } => self.ask_pull(*replica, *limit),
            Event::AskCatch { replica, limit } => self.ask_catch(*replica, *limit),
            Event::AskWiden(wider) => self.ask_widen(wider),
            Event::Deliver { message, wishes } => self.deliver(*message, wishes.as_slice()),
            Event::Restart { replica } => self.restart(*replica),
        }
    }

    fn edit(&mut self, which: u32, edit: &Edit) -> Outcome
        ensures { Moves S.RowStore MAX_ENTRIES self.old (OnEdit which edit.now) result self.new }
    {
        let Some(replica) = self.replicas.get_mut(which as usize) else {
            return Outcome::NoReplica;
        };
        match replica.edit(self.alloc, edit) {
            Ok(()) => return Outcome::Done,
            Err(fault) => return Outcome::NotEdited(fault),
        }
    }

    fn make_push(&mut self, which: u32) -> Outcome
        ensures { Moves S.RowStore MAX_ENTRIES self.old (MakePush which) result self.new }
    {
        if self.letters.reserve(1).is_err() {
            return Outcome::Memory;
        }
        let Some(replica) = self.replicas.get_mut(which as usize) else {
            return Outcome::NoReplica;
        };
        match replica.make_push(self.alloc) {
            Ok(request) => send(
                &mut self.letters,
                Letter::Asks {
                    replica: which,
                    request: Posted::new(request),
                },
            ),
            Err(fault) => Outcome::NotPushed(fault),
        }
    }

    fn resend(&mut self, which: u32) -> Outcome
        ensures { Moves S.RowStore MAX_ENTRIES self.old (Resend which) result self.new }
    {
        if self.letters.reserve(1).is_err() {
            return Outcome::Memory;
        }
        let Some(replica) = self.replicas.get(which as usize) else {
            return Outcome::NoReplica;
        };
        match replica.resend(self.alloc) {
            Ok(request) => send(
                &mut self.letters,
                Letter::Asks {
                    replica: which,
                    request: Posted::new(request),
                },
            ),
            Err(fault) => Outcome::NotPushed(fault),
        }
    }

    fn ask_pull(&mut self, which: u32, limit: u32) -> Outcome
        ensures { Moves S.RowStore MAX_ENTRIES self.old (AskPull which limit) result self.new }
    {
        if self.letters.reserve(1).is_err() {
            return Outcome::Memory;
        }
        let Some(replica) = self.replicas.get(which as usize) else {
            return Outcome::NoReplica;
        };
        let request = RequestBuf::Pull {
            first: replica.version(),
            limit,
        };
        send(
            &mut self.letters,
            Letter::Asks {
                replica: which,
                request: Posted::new(request),
            },
        )
    }

    fn ask_catch(&mut self, which: u32, limit: u32) -> Outcome
        ensures { Moves S.RowStore MAX_ENTRIES self.old (AskCatch which limit) result self.new }
    {
        if self.letters.reserve(1).is_err() {
            return Outcome::Memory;
        }
        let Some(replica) = self.replicas.get(which as usize) else {
            return Outcome::NoReplica;
        };
        let request = RequestBuf::Catch {
            origin: replica.id(),
            first: replica.version(),
            limit,
        };
        send(
            &mut self.letters,
            Letter::Asks {
                replica: which,
                request: Posted::new(request),
            },
        )
    }

    fn ask_widen(&mut self, wider: &Wider) -> Outcome
        ensures { Moves S.RowStore MAX_ENTRIES self.old (AskWiden wider.now) result self.new }
    {
        if self.letters.reserve(1).is_err() {
            return Outcome::Memory;
        }
        match wider.request(self.alloc) {
            Ok(request) => send(&mut self.letters, Letter::Orders { request }),
            Err(_) => Outcome::Memory,
        }
    }

    fn restart(&mut self, which: u32) -> Outcome
        ensures { Moves S.RowStore MAX_ENTRIES self.old (Restart which) result self.new }
    {
        let Some(replica) = self.replicas.get_mut(which as usize) else {
            return Outcome::NoReplica;
        };
        match reload_replica(self.alloc, replica) {
            Ok(()) => return Outcome::Done,
            Err(fault) => return Outcome::NotReloaded(fault),
        }
    }

    fn deliver(&mut self, which: usize, wishes: &[Wish]) -> Outcome
        ensures moves { Moves S.RowStore MAX_ENTRIES self.old (Deliver which wishes.now) result self.new }
        ensures asks { AsksHub S.RowStore MAX_ENTRIES (Deliver which wishes.now) result self.old self.new }
    {
        crate::laws::answers_fit();
        cs_hub::log_store::laws::one_log();
        cs_store::log::laws::most_entries();
        cs_wire::laws::one_told_answer();
        let _tables = self.hub.tables();
        if self.letters.reserve(1).is_err() {
            return Outcome::Memory;
        }
        match self.letters.get(which) {
            None => Outcome::NoMessage,
            Some(Letter::Asks { replica, request }) => {
                let Ok(bytes) = request.encode(self.alloc) else {
                    return Outcome::Memory;
                };
                let Ok(answer) = self.hub.serve(bytes.as_slice()) else {
                    return Outcome::Memory;
                };
                let replica = *replica;
                send(&mut self.letters, Letter::Tells { replica, answer })
            }
            Some(Letter::Orders { request }) => {
                let Ok(bytes) = request.encode(self.alloc) else {
                    return Outcome::Memory;
                };
                let Ok(answer) = self.hub.serve(bytes.as_slice()) else {
                    return Outcome::Memory;
                };
                send(&mut self.letters, Letter::Replies { answer })
            }
            Some(Letter::Replies { answer: _ }) => Outcome::Heard(Told::Ignored),
            Some(Letter::Tells { replica, answer }) => {
                // Over honest stores each answer of the hub can be read.
                let Ok(answer) = Answer::decode(answer.as_slice()) else {
                    return Outcome::NoMessage;
                };
                let Some(replica) = self.replicas.get_mut(*replica as usize) else {
                    return Outcome::NoReplica;
                };
                let mut picker = Wishes::new(wishes);
                match replica.answer(self.alloc, &answer, &mut picker) {
                    Ok(told) => return Outcome::Heard(told),
                    Err(fault) => return Outcome::NotHeard(fault),
                }
            }
        }
    }
}
