//! A book.

ghost use Rattle.std.specs.Prelude.{◌≡◌, ◌≢◌, ◌⊎◌, ◌↔◌, ◌<◌, ◌≤◌, ◌+◌, ◌∷◌, ◌++◌, [], Err, IfOk, IsFalse, IsTrue, MatchResult, Ok, OnErr, OnOk, Some, length, slice_get, vec_capacity, vec_len};
ghost use Rattle.cs_hub.specs.appending.Appended.{AppendsEntry};
ghost use Rattle.cs_nodes.specs.following.Standing.{Begins};
ghost use Rattle.cs_hub.specs.Holding.{versions_of};
ghost use Rattle.cs_hub.specs.Judges.{AppendsJudged, HasRoom, IsJudged, ReadsHub};
ghost use Rattle.cs_hub.specs.Opened.{Opens};
ghost use Rattle.cs_hub.specs.Serves.{Serves};
ghost use Rattle.cs_hub.specs.log_opening.Opens.{IsHubFault};
ghost use Rattle.cs_hub.specs.declared.follow_fault.FollowFault.TheVariants.{Device, Full, Undefined};
ghost use Rattle.cs_store.specs.declared.log.entry.TheConstants.{MAX_ENTRIES as MOST};
ghost use Rattle.cs_hub.specs.judgement.Judged.{hub_of};
ghost use Rattle.cs_store.specs.declared.log.entry.LogEntry.{LogEntry as Entry};
ghost use Rattle.cs_spine.specs.declared.spine.Offered.TheVariants.{Mine};
ghost use Rattle.cs_store.specs.Calls.{MoreFailures};
ghost use Rattle.cs_store.specs.Contents.{nothing};
ghost use Rattle.cs_store.specs.declared.fault.StoreFault.TheVariants as stored;
ghost use Rattle.cs_nodes.specs.books.Answers.{AnswersOn, HasTaken, IsAnswered, IsStuckAt};
ghost use Rattle.cs_nodes.specs.books.Books.{IsLater, most_cells};
ghost use Rattle.cs_nodes.specs.books.Steps.{CameLater, Halts, IsFinished};

use crate::books::refusing::refuse;
use cs_hub::{FollowFault, Hub, Judged};
use cs_opening::OpenFault;
use cs_spine::{OfferFault, Offered, Pass, Spine};
use cs_store::log::{LogEntry, MAX_ENTRIES};
use cs_store::{Batch, RowStore, StoreFault};
use cs_value::{Catalog, Memory};
use cs_wire::{SHORT, ShortAnswer};
use std::alloc::{AllocError, Global};
use std::marker::Model;

/// A hub over a store of its own, and a pass of the row of cells that it follows. Contracts see it as what these are.
#[derive(Drop)]
pub struct Book<'s, S: RowStore> {
    alloc: Global,
    spine: &'s Spine,
    hub: Hub<S>,
    pass: Pass<'s>,
}

impl<'s, S: RowStore> Model for Book<'s, S> {
    ghost use Rattle.cs_nodes.specs.books.Books.{BookState, IsBook};

    ghost Value = { BookState S };

    ghost view = { λ book. record { row = book.spine.now; hub = book.hub; pass = book.pass } };

    ghost invariant = { λ book. IsBook S.RowStore (record { row = book.spine.now; hub = book.hub; pass = book.pass }) };
}

impl<'s, S: RowStore + Drop> Book<'s, S> {
    /// A new book over a store that holds nothing: its hub has no entry, and its pass knows nothing. It keeps `alloc` for later calls.
    ///
    /// # Errors
    ///
    /// Those of `Hub::open`. The store is gone then.
    pub fn open(
        alloc: Global,
        store: S,
        catalog: &Catalog,
        spine: &'s Spine,
    ) -> Result<Book<'s, S>, OpenFault>
        requires bare { S.contents store ≡ nothing }
        ensures pass { IfOk result (λ book. (book.row ≡ spine.now) × (book.pass.known ≡ [])) }
        ensures catalog { IfOk result (λ book. book.hub.catalog ≡ catalog.now) }
        ensures fresh { IfOk result (λ book. book.hub.newest ≡ 0) }

        // What a stop leaves, and how the count of failures goes. At `Err` that is of the store as it was when it was let go, and what is
        // told of it holds.
        ensures opens { MatchResult result
            (λ book. Opens S.RowStore catalog.now store book.hub.store (Ok tt))
            (λ fault. (last : S) × Opens S.RowStore catalog.now store last (Err fault)
            × (S.honest last → IsHubFault catalog.now (S.contents store) fault)) }
    {
        let pass = spine.pass()?;
        match Hub::open(alloc, store, catalog) {
            Ok(hub) => {
                // A new hub has no entry.
                if hub.newest() != 0 {
                    return Err(OpenFault::Damaged);
                }
                Ok(Book {
                    alloc,
                    spine,
                    hub,
                    pass,
                })
            }
            Err((_store, fault)) => Err(fault),
        }
    }
}

impl<'s, S: RowStore> Book<'s, S> {
    /// How many entries it has taken. It takes no memory.
    pub fn version(&self) -> u64
        ensures { result ≡ self.now.hub.newest }
    {
        self.hub.newest()
    }

    /// What the book's thread knows.
    pub fn pass(&self) -> &Pass<'s>
        ensures { result.now ≡ self.now.pass }
    {
        &self.pass
    }

    /// The most entries that it takes: one a cell, and no more than a hub has.
    fn limit(&self) -> u32
        ensures { result ≡ most_cells self.now.row }
    {
        self.spine.cap().min(MAX_ENTRIES as usize) as u32
    }

    /// Looks for an entry that it hasn't taken.
    fn finds_more(&mut self) -> bool
        ensures row { self.new.row ≡ self.old.row }
        ensures hub { self.new.hub ≡ self.old.hub }
        ensures begins { Begins self.old.pass.known self.new.pass.known }
        ensures more { IsTrue result → self.new.hub.newest < length self.new.pass.known }
        ensures level { IsFalse result → self.new.hub.newest ≡ length self.new.pass.known }
        ensures few { length self.new.pass.known ≤ MOST }
        ensures front { S.honest self.new.hub.store → HasTaken self.new.hub.catalog self.new.pass.known self.new.hub.newest }
    {
        if self.hub.newest() < self.pass.len() as u64 {
            return true;
        }
        if self.pass.len() >= MAX_ENTRIES as usize {
            return false;
        }
        let spine = self.spine;
        match spine.see(&mut self.pass) {
            Some(_) => return true,
            None => return false,
        }
    }

    /// Takes the next entry that it knows.
    fn take_next(&mut self) -> Result<(), FollowFault>
        requires { self.old.hub.newest < length self.old.pass.known }
        ensures later { IsLater S.RowStore (IsFinished result) self.old self.new }
        ensures pass { self.new.pass ≡ self.old.pass }
        ensures taken { OnOk result (self.new.hub.newest ≡ self.old.hub.newest + 1) }
        ensures front { S.honest self.new.hub.store → HasTaken self.new.hub.catalog self.new.pass.known self.new.hub.newest }
        ensures full { result ≢ Err Full }
        ensures device { result ≡ Err Device → MoreFailures (S.failed self.old.hub.store) (S.failed self.new.hub.store) }
        ensures stuck { result ≡ Err Undefined → S.honest self.new.hub.store → IsStuckAt self.new.hub.catalog self.new.pass.known self.new.hub.newest }
    {
        let entry = self.spine.entry(&self.pass, self.hub.newest() as usize);
        self.hub.follow(entry)
    }

    /// Takes all entries that it knows and sees.
    fn catch_up(&mut self) -> Result<(), FollowFault>
        ensures later { IsLater S.RowStore (IsFinished result) self.old self.new }
        ensures level { OnOk result (self.new.hub.newest ≡ length self.new.pass.known) }
        ensures front { S.honest self.new.hub.store → HasTaken self.new.hub.catalog self.new.pass.known self.new.hub.newest }
        ensures full { result ≢ Err Full }
        ensures device { result ≡ Err Device → MoreFailures (S.failed self.old.hub.store) (S.failed self.new.hub.store) }
        ensures stuck { result ≡ Err Undefined → S.honest self.new.hub.store → IsStuckAt self.new.hub.catalog self.new.pass.known self.new.hub.newest }
    {
        'entries: while self.finds_more() {
            match self.take_next() {
                Ok(()) => {}
                Err(fault) => return Err(fault),
            }
        }
        Ok(())
    }

    /// Judges a request by all that it knows.
    fn judge(&mut self, request: &[u8]) -> Result<Judged, Memory>
        requires { self.old.hub.newest ≡ length self.old.pass.known }
        ensures row { self.new.row ≡ self.old.row }
        ensures pass { self.new.pass ≡ self.old.pass }
        ensures reads { ReadsHub S.RowStore self.old.hub self.new.hub }
        ensures same_reads { S.honest self.new.hub.store → S.misreads self.new.hub.store ≡ S.misreads self.old.hub.store }
        ensures room { IfOk result (HasRoom (length self.old.pass.known) (most_cells self.old.row)) }
        ensures appends { S.honest self.new.hub.store → IfOk result (AppendsJudged (versions_of self.new.hub) (S.contents self.new.hub.store)) }
        ensures judged { S.honest self.new.hub.store → IfOk result (IsJudged (MoreFailures (S.failed self.old.hub.store) (S.failed self.new.hub.store))
            (most_cells self.old.row) self.old.hub.catalog self.old.pass.known request.now) }
    {
        let limit = self.limit();
        self.hub.judge(limit, request)
    }

    /// Offers an entry for the next cell, and knows what that cell holds from then on.
    fn offer(&mut self, entry: &LogEntry) -> Result<Offered, Memory>
        requires { length self.old.pass.known < most_cells self.old.row }
        ensures row { self.new.row ≡ self.old.row }
        ensures hub { self.new.hub ≡ self.old.hub }
        ensures learned { IfOk result (λ offered. (held : Entry) × (self.new.pass.known ≡ self.old.pass.known ++ held ∷ [])
            × ((offered ≡ Mine) ↔ (held ≡ entry.now))) }
        ensures kept { OnErr result (self.new.pass ≡ self.old.pass) }
    {
        let spine = self.spine;
        match spine.offer(&mut self.pass, entry) {
            Ok(offered) => Ok(offered),
            Err(OfferFault::Memory) => Err(AllocError),
            Err(OfferFault::Full) => unreachable!(),
        }
    }

    /// Takes the next entry that it knows, which it has judged, by the batch that came with it.
    fn take_judged(&mut self, entry: &LogEntry, batch: &Batch) -> Result<(), StoreFault>
        requires known { slice_get self.old.pass.known self.old.hub.newest ≡ Some entry.now }
        requires tried { S.honest self.old.hub.store → AppendsEntry (versions_of self.old.hub) entry.now (S.contents self.old.hub.store) batch.now }
        ensures later { IsLater S.RowStore (OnErr result ⊥) self.old self.new }
        ensures pass { self.new.pass ≡ self.old.pass }
        ensures taken { OnOk result (self.new.hub.newest ≡ self.old.hub.newest + 1) }
        ensures front { S.honest self.new.hub.store → HasTaken self.new.hub.catalog self.new.pass.known self.new.hub.newest }
        ensures device { result ≡ Err stored.Device → MoreFailures (S.failed self.old.hub.store) (S.failed self.new.hub.store) }
    {
        self.hub.append_judged(entry, batch)
    }

    /// Takes the entry that it has set, and answers so.
    fn settle(
        &mut self,
        entry: &LogEntry,
        batch: &Batch,
        reply: Vec<u8>,
        room: Vec<u8>,
    ) -> Result<Vec<u8>, Memory>
        requires known { slice_get self.old.pass.known self.old.hub.newest ≡ Some entry.now }
        requires tried { S.honest self.old.hub.store → AppendsEntry (versions_of self.old.hub) entry.now (S.contents self.old.hub.store) batch.now }
        requires room { vec_len room + SHORT ≤ vec_capacity room }
        requires empty { room.items ≡ [] }
        ensures later { IsLater S.RowStore (IsAnswered result) self.old self.new }
        ensures pass { self.new.pass ≡ self.old.pass }
        ensures front { S.honest self.new.hub.store → HasTaken self.new.hub.catalog self.new.pass.known self.new.hub.newest }
        ensures settled { IfOk result (λ answer. S.honest self.new.hub.store → ((answer.items ≡ reply.items) × (self.new.hub.newest ≡ self.old.hub.newest + 1))
            ⊎ Halts (MoreFailures (S.failed self.old.hub.store) (S.failed self.new.hub.store)) self.new.hub.catalog self.new.pass.known self.new.hub.newest answer.items) }
    {
        match self.take_judged(entry, batch) {
            Ok(()) => Ok(reply),
            Err(StoreFault::Memory) => Err(AllocError),
            Err(StoreFault::Device) => refuse(FollowFault::Device, room),
        }
    }

    /// Takes what came into the cell before a push that was to be appended: it is stale then. The request is named for the clauses.
    fn answer_later(&mut self, _request: &[u8], room: Vec<u8>) -> Result<Vec<u8>, Memory>
        requires room { vec_len room + SHORT ≤ vec_capacity room }
        requires empty { room.items ≡ [] }
        requires later { S.honest self.old.hub.store → CameLater (most_cells self.old.row) self.old.hub.catalog self.old.pass.known _request.now }
        ensures later { IsLater S.RowStore (IsAnswered result) self.old self.new }
        ensures served { IfOk result (λ answer. S.honest self.new.hub.store
            → AnswersOn (MoreFailures (S.failed self.old.hub.store) (S.failed self.new.hub.store)) (most_cells self.new.row) self.new.hub.catalog
            self.new.pass.known self.new.hub.newest _request.now answer.items) }
    {
        cs_hub::laws::stale_behind_another();
        match self.catch_up() {
            Ok(()) => {}
            Err(fault) => return refuse(fault, room),
        }
        let mut answer = room;
        let newest = self.hub.newest();
        ShortAnswer::Stale { newest }.put(&mut answer);
        Ok(answer)
    }

    /// Offers the entry of a push for the next cell, takes what that cell holds, and answers.
    fn send(
        &mut self,
        request: &[u8],
        entry: &LogEntry,
        batch: &Batch,
        reply: Vec<u8>,
        room: Vec<u8>,
    ) -> Result<Vec<u8>, Memory>
        requires level { self.old.hub.newest ≡ length self.old.pass.known }
        requires more { length self.old.pass.known < most_cells self.old.row }
        requires tried { S.honest self.old.hub.store → AppendsEntry (versions_of self.old.hub) entry.now (S.contents self.old.hub.store) batch.now }
        requires room { vec_len room + SHORT ≤ vec_capacity room }
        requires empty { room.items ≡ [] }
        requires judged { S.honest self.old.hub.store → Serves (most_cells self.old.row) (hub_of self.old.hub.catalog self.old.pass.known) request.now reply.items
            (hub_of self.old.hub.catalog (self.old.pass.known ++ entry.now ∷ [])) }
        ensures later { IsLater S.RowStore (IsAnswered result) self.old self.new }
        ensures served { IfOk result (λ answer. S.honest self.new.hub.store
            → AnswersOn (MoreFailures (S.failed self.old.hub.store) (S.failed self.new.hub.store)) (most_cells self.new.row) self.new.hub.catalog
            self.new.pass.known self.new.hub.newest request.now answer.items) }
    {
        cs_hub::laws::served_again();
        match self.offer(entry)? {
            Offered::Mine => self.settle(entry, batch, reply, room),
            Offered::Other => self.answer_later(request, room),
        }
    }

    /// Answers the bytes of a request with the bytes of an answer. All entries that can be seen are taken first, each in a commit of its
    /// own. A push that is to be appended is offered for the next cell, and what that cell holds is taken. The answer is then the hub's on
    /// all that is known as the call ends. The room of the answer to a push that is set is taken before.
    ///
    /// # Errors
    ///
    /// `Memory` where memory was refused. What was seen and taken stays, also a push that has come into its cell: it is told as that when
    /// the request comes again.
    pub fn serve(&mut self, request: &[u8]) -> Result<Vec<u8>, Memory>
        // The book is that of the same row of cells and tables; it knows more, and has taken more of it. Where it answers otherwise than
        // that the device failed, all that it has taken stands, also after a stop.
        ensures later { IsLater S.RowStore (IsAnswered result) self.old self.new }

        // The answer is the hub's on all that is known; or that the next entry doesn't fit; or that the device failed.
        ensures served { IfOk result (λ answer. S.honest self.new.hub.store
            → AnswersOn (MoreFailures (S.failed self.old.hub.store) (S.failed self.new.hub.store)) (most_cells self.new.row) self.new.hub.catalog
            self.new.pass.known self.new.hub.newest request.now answer.items) }
    {
        let room = Vec::with_capacity(self.alloc, SHORT)?;
        match self.catch_up() {
            Ok(()) => {}
            Err(fault) => return refuse(fault, room),
        }
        match self.judge(request)? {
            Judged::Reply(answer) => Ok(answer),
            Judged::Append {
                entry,
                batch,
                reply,
            } => self.send(request, &entry, &batch, reply, room),
        }
    }
}
