//! The hub over any store, and what it answers.

ghost use Rattle.std.specs.Prelude.{◌≡◌, ◌≢◌, ◌↔◌, ◌+◌, ◌<◌, ◌≤◌, ◌∷◌, ◌++◌, [], List, Some, IfErr, IfOk, IsErrOf, MatchResult, OnErr, OnOk, Ok, Err, length, min, slice_get};
ghost use Rattle.cs_hub.specs.appending.Appended.{AppendsEntry, IsAppendedIn};
ghost use Rattle.cs_store.specs.log.Log.{state_of};
ghost use Rattle.cs_store.specs.declared.log.entry.LogEntry.{LogEntry as Entry};
ghost use Rattle.cs_store.specs.declared.log.entry.TheConstants.{MAX_CHANGESET, MAX_ENTRIES};
ghost use Rattle.cs_hub.specs.log_opening.Opens.{IsHubAt, IsHubFault};
ghost use Rattle.cs_hub.specs.log_store.Shows.{ShowsLog};
ghost use Rattle.cs_normal.specs.Normal.{FitsCatalog, normal_spelling};
ghost use Rattle.cs_pending.specs.Calls.{ReadsStore, WritesStore};
ghost use Rattle.cs_pending.specs.rows.Rows.{AreRowsOf};
ghost use Rattle.cs_store.specs.Contents.{Contents, nothing};
ghost use Rattle.cs_store.specs.declared.fault.StoreFault.TheVariants as stored;
ghost use Rattle.cs_value.specs.Catalog.{AreTables};
ghost use Rattle.cs_value.specs.declared.catalog.TableDef.{TableDef as Table};
ghost use Rattle.cs_hub.specs.judgement.Hub.{entries_from};
ghost use Rattle.cs_hub.specs.judgement.Pushes.{Push};
ghost use Rattle.cs_hub.specs.declared.judgement.fault.HubFault.TheVariants.{Device, Memory};
ghost use Rattle.cs_hub.specs.Calls.{AnswersHub, IsEntriesFault, IsServedIn, ServesStore, StaysHub};
ghost use Rattle.cs_hub.specs.Follows.{FitsBehind, IsFollowFault};
ghost use Rattle.cs_hub.specs.Holding.{Shows, ShowsSome, versions_of};
ghost use Rattle.cs_hub.specs.Serves.{widen_head};
ghost use Rattle.cs_hub.specs.log_store.Versions.{judging_tables};
ghost use Rattle.cs_hub.specs.Judges.{AcceptsNext, AppendsJudged, HasRoom, IsJudged, ReadsHub};
ghost use Rattle.cs_hub.specs.declared.follow_fault.FollowFault.TheVariants as follow;
ghost use Rattle.cs_hub.specs.declared.follow_fault.FollowFault.TheVariants.{Full};
ghost use Rattle.cs_store.specs.Calls.{MoreFailures};
ghost use Rattle.cs_hub.specs.Opened.{Opens};
ghost use Rattle.cs_hub.specs.PushedOf.{IsPushedOf, IsSameOrAppended};

use crate::appending::{append, append_tried};
use crate::fitting::is_entry_of;
use crate::follow_fault::FollowFault;
use crate::judged::Judged;
use crate::judgement::{HubFault, Judgement, Pushed, WIDEN_ORIGIN, judge_at};
use crate::judging::{judge_told, widen_told};
use crate::log_opening::open_log;
use crate::log_reading::entries_at;
use crate::log_store::Catalogs;
use crate::refusal::Refusal;
use crate::serving::{catch_told, pull_at, refuse};
use cs_normal::Normal;
use cs_opening::OpenFault;
use cs_pending::rows::{RowAtKey, rows_of};
use cs_store::log::laws::catalog_by_widens;
use cs_store::log::{LogEntry, MAX_ENTRIES};
use cs_store::{Batch, RowStore, StoreFault};
use cs_value::{Catalog, Memory, TableDef};
use cs_wire::{PushHead, Request};
use std::alloc::{AllocError, Global};
use std::marker::Model;

/// An append-only log of accepted pushes, and the rows that it makes, in a store. Contracts see it as what it holds: the store, the
/// tables that it opened with, how many entries the log has, and the tables that it widened. What they say of the log they say where the
/// store shows one.
#[derive(Drop)]
pub struct Hub<S: RowStore> {
    alloc: Global,
    store: S,
    catalogs: Catalogs,
}

impl<S: RowStore> Model for Hub<S> {
    ghost use Rattle.cs_hub.specs.Holding.{Holding};

    ghost Value = { Holding S };

    ghost view = { λ hub. record {
      store = hub.store;
      catalog = hub.catalogs.opening;
      newest = hub.catalogs.newest;
      widens = hub.catalogs.widens;
    } };
}

/// The numbers by which the entry of a request is told, where that widens a table.
fn widen_head(number: u64, base: u64) -> PushHead
    ensures { result ≡ widen_head number base }
{
    PushHead {
        origin: WIDEN_ORIGIN,
        number,
        base,
    }
}

impl<S: RowStore> Hub<S> {
    /// Opens the hub of these tables over a store. A store that holds nothing is laid out, in one commit: the log has no entry. Any other
    /// is only read, and judged; that its rows are those that its entries make is taken as it stands. It keeps `alloc` for later calls.
    /// At `Err` the store comes back as it was.
    ///
    /// # Errors
    ///
    /// `Damaged` where the store's id or tables can't be read; `Mismatch` where they are a replica's or another hub's; `Damaged` where it
    /// is not what a hub's store is; `Memory` and `Device`.
    pub fn open(alloc: Global, store: S, catalog: &Catalog) -> Result<Hub<S>, (S, OpenFault)>
        // It is the hub of these tables, and the store a hub's, with so many entries.
        ensures tables { IfOk result (λ hub. hub.catalog ≡ catalog.now) }
        ensures opened { IfOk result (λ hub. S.honest hub.store
            → IsHubAt catalog.now (S.contents store) (S.contents hub.store) hub.newest) }

        // Of a store that held nothing it shows the log without entries, and of any other the log that the store showed.
        ensures fresh { IfOk result (λ hub. S.honest hub.store → S.contents store ≡ nothing → Shows S.contents hub []) }
        ensures shown { IfOk result (λ hub. S.honest hub.store → (log : List Entry)
            → ShowsLog catalog.now (S.contents store) log → Shows S.contents hub log) }

        // At `Err` the store is as it was, and what is told of it holds.
        ensures kept { IfErr result (λ told. S.honest told.0 → S.contents told.0 ≡ S.contents store) }
        ensures refused { IfErr result (λ told. S.honest told.0 → IsHubFault catalog.now (S.contents store) told.1) }

        // What a stop leaves, and how the count of failures goes.
        ensures opens { MatchResult result
            (λ hub. Opens S.RowStore catalog.now store hub.store (Ok tt))
            (λ told. Opens S.RowStore catalog.now store told.0 (Err told.1)) }
    {
        crate::laws::opened_shows();
        let _tables = catalog.tables();
        let mut store = store;
        match open_log(alloc, &mut store, catalog) {
            Ok(catalogs) => Ok(Hub {
                alloc,
                store,
                catalogs,
            }),
            Err(fault) => Err((store, fault)),
        }
    }

    /// The tables that the hub opened with, in the catalog's order.
    pub fn tables(&self) -> &[TableDef]
        ensures same { result.now ≡ self.now.catalog }
        ensures tables { AreTables self.now.catalog }
    {
        self.catalogs.opening().tables()
    }

    /// The tables by which a push with this base is judged: those at the base, or at the newest version where that is below it.
    pub fn judging(&self, base: u64) -> &Catalog
        ensures { result.now ≡ judging_tables (versions_of self.now) base }
    {
        self.catalogs.judging(base)
    }

    /// How many entries the log has, which is the newest version.
    pub fn newest(&self) -> u64
        ensures { result ≡ self.now.newest }
    {
        self.catalogs.newest() as u64
    }

    /// The entries from `first` on, at most `limit`. The store is only read.
    ///
    /// # Errors
    ///
    /// `Ahead` where `first` is above the log's length; `Memory` and `Device`.
    pub fn entries(&mut self, first: u64, limit: u32) -> Result<Vec<LogEntry>, HubFault>
        // They are those of the log that the store shows.
        ensures found { S.honest self.new.store → (log : List Entry) → Shows S.contents self.old log
            → IfOk result (λ entries. (first ≤ length log) × (entries.items ≡ entries_from first limit log)) }
        ensures refused { S.honest self.new.store → (log : List Entry) → Shows S.contents self.old log
            → IfErr result (IsEntriesFault log first) }

        // The store is only read, and the hub stays as it is.
        ensures reads { ReadsStore S.RowStore Device
            (ShowsSome S.contents self.old) self.old.store self.new.store result }
        ensures catalog { self.new.catalog ≡ self.old.catalog }
        ensures newest { self.new.newest ≡ self.old.newest }
        ensures widens { self.new.widens ≡ self.old.widens }
    {
        let newest = self.catalogs.newest();
        if first > newest as u64 {
            return Err(HubFault::Ahead);
        }
        let first = first as u32;
        let count = limit.min(newest - first);
        let entries = match entries_at(self.alloc, &mut self.store, &self.catalogs, first, count) {
            Ok(entries) => entries,
            Err(fault) => return Err(HubFault::from(fault)),
        };
        Ok(entries)
    }

    /// The rows of the table with this number in the catalog, at the newest version. Each stands behind the bytes of its key, and they
    /// are in the order of these bytes. There are none past the last table. The store is only read.
    ///
    /// # Errors
    ///
    /// `Memory` and `Device`.
    pub fn rows(&mut self, table: usize) -> Result<Vec<RowAtKey>, StoreFault>
        // They are the rows that the log makes.
        ensures listed { S.honest self.new.store → (log : List Entry) → Shows S.contents self.old log → (def : Table)
            → slice_get self.old.catalog table ≡ Some def → IfOk result (λ rows. AreRowsOf (state_of log def.name) rows.items) }
        ensures none { length self.old.catalog ≤ table → IfOk result (λ rows. rows.items ≡ []) }

        // The store is only read, and the hub stays as it is.
        ensures reads { ReadsStore S.RowStore stored.Device
            (ShowsSome S.contents self.old) self.old.store self.new.store result }
        ensures catalog { self.new.catalog ≡ self.old.catalog }
        ensures newest { self.new.newest ≡ self.old.newest }
        ensures widens { self.new.widens ≡ self.old.widens }
    {
        cs_store::log::laws::log_states();
        catalog_by_widens();
        let _tables = self.catalogs.opening().tables();
        rows_of(self.alloc, &mut self.store, self.catalogs.present(), table)
    }

    /// Takes a push: a changeset that the replica `head.origin` made as its push `head.number` on the tables of the version
    /// `head.base`. The first case that fits holds: no change, a base above the newest version, or one below it. Below, it is the
    /// same push again or another one. The next cases are a full log, and a change that is not defined on the tables. Else the push
    /// is appended.
    ///
    /// # Errors
    ///
    /// `Empty`, `Ahead`, `Full` and `Conflict` in these cases; `Memory` and `Device`. Nothing has changed then.
    pub fn push(&mut self, head: PushHead, changes: Normal) -> Result<Pushed, HubFault>
        requires fits { FitsCatalog (judging_tables (versions_of self.old) head.base) changes }
        requires size { length (normal_spelling changes) ≤ MAX_CHANGESET }

        // The answer is that to the push by the log that the store showed; the store then shows the log after it.
        ensures answered { S.honest self.new.store → (log : List Entry) → Shows S.contents self.old log
            → IsPushedOf MAX_ENTRIES self.old.catalog log (record { head = head; changes = changes }) (Shows S.contents self.new) result }

        // The store was only read, or the push appended, in one commit, and then it is accepted.
        ensures writes { WritesStore S.RowStore Device (ShowsSome S.contents self.old)
            (IsSameOrAppended MAX_ENTRIES (versions_of self.old) (record { head = head; changes = changes }) (S.contents self.old.store))
            self.old.store self.new.store result }

        // A refusal for another reason than want of memory or a failed device comes before anything is written. A stop leaves nothing more.
        ensures unwritten { S.honest self.new.store → result ≢ Err Memory → result ≢ Err Device
            → OnErr result ((left : Contents) → S.may_leave self.new.store left → S.may_leave self.old.store left) }
        ensures catalog { self.new.catalog ≡ self.old.catalog }
        ensures kept { OnErr result (self.new.newest ≡ self.old.newest) }
        ensures widens { OnErr result (self.new.widens ≡ self.old.widens) }
    {
        let next = self.catalogs.newest() as u64 + 1;
        match judge_at(
            self.alloc,
            &mut self.store,
            &self.catalogs,
            MAX_ENTRIES,
            head,
            changes,
        ) {
            Ok(Judgement::Told(pushed)) => Ok(pushed),
            Ok(Judgement::Append { entry, batch }) => match self.append_judged(&entry, &batch) {
                Ok(()) => Ok(Pushed::Accepted(next)),
                Err(fault) => Err(HubFault::from(fault)),
            },
            Err(fault) => Err(fault),
        }
    }

    /// Answers the bytes of a request with the bytes of an answer. The room of the answer to a push is taken before anything changes. A
    /// device that fails is told as a refusal, with nothing changed.
    ///
    /// # Errors
    ///
    /// `Memory` where memory was refused; nothing has changed then.
    pub fn serve(&mut self, request: &[u8]) -> Result<Vec<u8>, Memory>
        // The answer is that to the request by the log that the store showed; the store then shows the log after it.
        ensures served { IfOk result (λ answer.
            AnswersHub S.RowStore MAX_ENTRIES self.old request.now answer.items self.new) }
        ensures refused { OnErr result (StaysHub S.RowStore self.old self.new) }

        // What becomes of the store: where the request was served, a stop leaves what it then holds; else maybe this very request served.
        ensures store { ServesStore S.RowStore (versions_of self.old) (ShowsSome S.contents self.old)
            (IsServedIn MAX_ENTRIES (versions_of self.old) request.now (S.contents self.old.store)) self.old.store self.new.store result }
    {
        match self.judge(MAX_ENTRIES, request)? {
            Judged::Reply(answer) => Ok(answer),
            Judged::Append {
                entry,
                batch,
                reply,
            } => match self.append_judged(&entry, &batch) {
                Ok(()) => Ok(reply),
                Err(StoreFault::Memory) => Err(AllocError),
                Err(StoreFault::Device) => refuse(self.alloc, &Refusal::ByHub(HubFault::Device)),
            },
        }
    }

    /// Judges the bytes of a request as `serve` would, were its limit the smaller of this one and `MAX_ENTRIES`. It returns the answer
    /// that `serve` would give, or the entry that it would append, with the answer then. The store is only read, and a device that
    /// fails is told as a refusal.
    ///
    /// # Errors
    ///
    /// `Memory` where memory was refused.
    pub fn judge(&mut self, limit: u32, request: &[u8]) -> Result<Judged, Memory>
        // What is told is the answer to the request by the log that the store shows.
        ensures judged { S.honest self.new.store → (log : List Entry) → Shows S.contents self.old log
            → IfOk result (IsJudged (MoreFailures (S.failed self.old.store) (S.failed self.new.store)) (min limit MAX_ENTRIES) self.old.catalog log request.now) }
        ensures room { IfOk result (HasRoom self.old.newest (min limit MAX_ENTRIES)) }
        ensures accepts { IfOk result (AcceptsNext self.old.newest) }

        // What is to be appended is, by a commit of the batch to what the store holds.
        ensures appends { S.honest self.new.store → IfOk result (AppendsJudged (versions_of self.new) (S.contents self.new.store)) }

        // The store is only read, and the hub stays as it is.
        ensures reads { ReadsHub S.RowStore self.old self.new }
    {
        let limit = limit.min(MAX_ENTRIES);
        match Request::decode(request) {
            Err(fault) => Ok(Judged::Reply(refuse(self.alloc, &Refusal::NoRequest(fault))?)),
            Ok(Request::Pull { first, limit }) => Ok(Judged::Reply(pull_at(
                self.alloc,
                &mut self.store,
                &self.catalogs,
                first,
                limit,
            )?)),
            Ok(
                Request::Catch {
                    origin,
                    first,
                    limit,
                },
            ) => Ok(Judged::Reply(catch_told(
                self.alloc,
                &mut self.store,
                &self.catalogs,
                origin,
                first,
                limit,
            )?)),
            Ok(
                Request::Widen {
                    number,
                    base,
                    width,
                    table,
                },
            ) => widen_told(
                self.alloc,
                &mut self.store,
                &self.catalogs,
                limit,
                widen_head(number, base),
                table,
                width,
            ),
            Ok(Request::Push { head, changeset }) => judge_told(
                self.alloc,
                &mut self.store,
                &self.catalogs,
                limit,
                head,
                changeset,
            ),
        }
    }

    /// Appends an entry that others decided, where it fits behind the log. That is, it is one of the tables, no larger than one may
    /// be, and each change is defined on the newest tables. The entry and what it makes of the rows are one commit.
    ///
    /// # Errors
    ///
    /// `Full` where the log has `MAX_ENTRIES`; `Undefined` where the entry doesn't fit; `Memory` and `Device`. Nothing has changed then.
    pub fn follow(&mut self, entry: &LogEntry) -> Result<(), FollowFault>
        // The store then shows the log with the entry; what is told instead holds of the log that it shows.
        ensures followed { S.honest self.new.store → (log : List Entry) → Shows S.contents self.old log
            → OnOk result (FitsBehind self.old.catalog log entry.now × Shows S.contents self.new (log ++ entry.now ∷ [])) }
        ensures refused { S.honest self.new.store → (log : List Entry) → Shows S.contents self.old log
            → IfErr result (IsFollowFault self.old.catalog log entry.now) }
        ensures full { IsErrOf result Full ↔ (MAX_ENTRIES ≤ self.old.newest) }

        // The entry is appended, in one commit.
        ensures writes { WritesStore S.RowStore follow.Device (ShowsSome S.contents self.old)
            (IsAppendedIn (versions_of self.old) entry.now (S.contents self.old.store)) self.old.store self.new.store result }
        ensures catalog { self.new.catalog ≡ self.old.catalog }
        ensures counted { OnOk result (self.new.newest ≡ self.old.newest + 1) }
        ensures kept { OnErr result (self.new.newest ≡ self.old.newest) }
        ensures widens { OnErr result (self.new.widens ≡ self.old.widens) }
    {
        catalog_by_widens();
        if self.catalogs.newest() >= MAX_ENTRIES {
            return Err(FollowFault::Full);
        }
        if !is_entry_of(self.alloc, self.catalogs.present(), entry)? {
            return Err(FollowFault::Undefined);
        }
        match append(self.alloc, &mut self.store, &mut self.catalogs, entry) {
            Ok(()) => Ok(()),
            Err(fault) => Err(FollowFault::from(fault)),
        }
    }

    /// Appends the entry of a push that was judged (`judge`), by a commit of the batch that came with it. The store still holds what it
    /// held then.
    ///
    /// # Errors
    ///
    /// `Memory` and `Device`. Nothing has changed then.
    pub fn append_judged(&mut self, entry: &LogEntry, batch: &Batch) -> Result<(), StoreFault>
        requires room { self.old.newest < MAX_ENTRIES }
        requires tried { S.honest self.old.store → AppendsEntry (versions_of self.old) entry.now (S.contents self.old.store) batch.now }

        // The store then shows the log with the entry, which was appended in one commit.
        ensures appended { S.honest self.new.store → (log : List Entry) → Shows S.contents self.old log
            → OnOk result (Shows S.contents self.new (log ++ entry.now ∷ [])) }
        ensures writes { WritesStore S.RowStore stored.Device (ShowsSome S.contents self.old)
            (IsAppendedIn (versions_of self.old) entry.now (S.contents self.old.store)) self.old.store self.new.store result }
        ensures catalog { self.new.catalog ≡ self.old.catalog }
        ensures counted { OnOk result (self.new.newest ≡ self.old.newest + 1) }
        ensures kept { OnErr result (self.new.newest ≡ self.old.newest) }
        ensures widens { OnErr result (self.new.widens ≡ self.old.widens) }
    {
        append_tried(
            self.alloc,
            &mut self.store,
            &mut self.catalogs,
            entry,
            batch,
        )
    }

    /// The store, as it is. It takes no memory.
    pub fn close(self) -> S
        ensures { result ≡ self.store }
    {
        self.store
    }
}
