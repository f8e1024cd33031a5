//! A replica over any store.

ghost use Rattle.std.specs.Prelude.{◌≡◌, ◌⊎◌, ◌≤◌, ◌<◌, ◌-◌, ◌^◌, [], length, MatchResult, Ok, Err, IfOk, IfErr, OnOk, OnErr};
ghost use Rattle.std.specs.Option.{option_copied};
ghost use Rattle.cs_pending.specs.Calls.{ReadsStore, WritesStore};
ghost use Rattle.cs_pending.specs.EditLists.{AreEdited, IsEditsFault, asked_of_edit, table_of_edit};
ghost use Rattle.cs_pending.specs.Edits.{AskDelete, AskInsert, AskUpdate, IsOfStore, edit as edit_of};
ghost use Rattle.cs_pending.specs.View.{View};
ghost use Rattle.cs_pending.specs.declared.fault.EditFault.TheVariants.{Device};
ghost use Rattle.cs_pending.specs.declared.fault.EditsFault.TheVariants as several;
ghost use Rattle.cs_pending.specs.outgoing.Outgoing.{IsOutgoing};
ghost use Rattle.cs_store.specs.log.Log.{catalog_after};
ghost use Rattle.cs_store.specs.declared.fault.StoreFault.TheVariants as stored;
ghost use Rattle.cs_opening.specs.Wider.{AreWider, IsOpenedBy, IsRefused};
ghost use Rattle.cs_opening.specs.declared.fault.OpenFault.TheVariants as opening;
ghost use Rattle.cs_pending.specs.position.Laws.{FitsPosition};
ghost use Rattle.cs_pending.specs.position.Shows.{ShowsSomeAt};
ghost use Rattle.cs_exchange.specs.pushing.Pushes.{IsPushFault, IsPushMadeIn, IsPushOf};
ghost use Rattle.cs_exchange.specs.declared.pushing.fault.PushFault.TheVariants as push;
ghost use Rattle.cs_wire.specs.Requests.{HasShortBytes, asked_by_owned};
ghost use Rattle.cs_exchange.specs.taking.Takes.{IsTakenTo, brought, taken};
ghost use Rattle.cs_exchange.specs.pulling.Calls.{WritesInTurn};
ghost use Rattle.cs_exchange.specs.pulling.Merged.{IsMergeFault};
ghost use Rattle.cs_exchange.specs.pulling.Pulls.{IsPullFault, IsPulledAt};
ghost use Rattle.cs_exchange.specs.declared.pulling.fault.PullFault.TheVariants as pull;
ghost use Rattle.cs_replica.specs.Answered.{Answers, IsAnsweredAmong, IsAnsweredNext, IsDone, SaysDevice};
ghost use Rattle.cs_replica.specs.Edited.{IsEditedIn, IsSteppedIn, with_pending};
ghost use Rattle.cs_replica.specs.Flight.{flight_entry};
ghost use Rattle.cs_replica.specs.Holding.{Shows};
ghost use Rattle.cs_replica.specs.Leaves.{CallLeaves, Counts};
ghost use Rattle.cs_replica.specs.Opened.{Opens, Reopens};
ghost use Rattle.cs_replica.specs.Step.{AreEditedBy, AreEditedTo, AreRowsIn, IsAnsweredTo, IsEditedBy, IsEditedTo, IsPushedTo, IsResent, Turns};

use crate::answering::answer_at;
use crate::editing::{edit_all_at, edit_at};
use crate::opening::{in_range, reopen_at};
use crate::showing::{gather_at, rows_at};
use crate::told::Told;
use cs_conflict::Picker;
use cs_exchange::pulling::{AnswerFault, PullFault, take_entry, take_merged};
use cs_exchange::pushing::{PushFault, make_push, resend};
use cs_normal::Normal;
use cs_opening::{OpenFault, open_replica};
use cs_pending::outgoing::Outgoing;
use cs_pending::position::Position;
use cs_pending::rows::RowAtKey;
use cs_pending::{EditFault, EditsFault, RowEdit};
use cs_store::log::{Body, LogEntry};
use cs_store::{RowStore, StoreFault};
use cs_value::{Catalog, Edit, Field, Key, Memory, Row};
use cs_wire::{Answer, RequestBuf};
use std::alloc::Global;
use std::marker::Model;

/// Tables that are edited offline, over a store. Contracts see it as what it holds.
#[derive(Drop)]
pub struct Replica<S: RowStore> {
    store: S,
    catalog: Catalog,
    position: Position,
}

impl<S: RowStore> Model for Replica<S> {
    ghost use Rattle.cs_replica.specs.Holding.{Holding, ShowsWhereHonest};

    ghost Value = { Holding S };

    ghost view = { λ r. record { store = r.store; catalog = r.catalog; position = r.position } };

    ghost invariant = { λ r. ShowsWhereHonest S.RowStore (record { store = r.store; catalog = r.catalog; position = r.position }) };
}

impl<S: RowStore> Replica<S> {
    /// Opens the replica with this id over a store. A store that holds nothing is laid out in one commit. The replica is then at
    /// version 0 with no row, nothing pending and nothing under way. Of any other store each row and each pending change is read
    /// once, and judged. Where it keeps what is pending as one value, as replicas once did, that is moved to the places of its
    /// changes, in one commit. An id is at most 4,294,967,294: the last number is a hub's own. At `Err` the store comes back as it
    /// was. A log may have given the tables more columns since: where the store keeps such, it is opened by them.
    ///
    /// # Errors
    ///
    /// `Damaged` where the store's id or tables can't be read; `Mismatch` where they are another's; `Damaged` where it shows no
    /// replica at any position; `Memory` and `Device`.
    pub fn open(
        alloc: Global,
        store: S,
        catalog: &Catalog,
        id: u32,
    ) -> Result<Replica<S>, (S, OpenFault)>
        requires { id < 2 ^ 32 - 1 }

        // It is the replica with this id, of these tables, or of these with more columns.
        ensures of { IfOk result (λ replica. AreWider catalog.now replica.catalog × (replica.position.id ≡ id)) }

        // It is new where the store held nothing, and else where the store shows it, its value of pending changes moved where it kept one.
        // Its tables are those that the store keeps.
        ensures opened { IfOk result (λ replica. S.honest replica.store
            → IsOpenedBy catalog.now id (S.contents store) (S.contents replica.store) replica.catalog replica.position) }

        // At `Err` the store is as it was, and what is told of it holds.
        ensures kept { IfErr result (λ told. S.honest told.0 → S.contents told.0 ≡ S.contents store) }
        ensures refused { IfErr result (λ told. S.honest told.0 → IsRefused catalog.now id (S.contents store) told.1) }

        // What a stop leaves, and how the count of failures goes.
        ensures opens { MatchResult result
            (λ replica. Opens S.RowStore catalog.now id store replica.store (Ok tt))
            (λ told. Opens S.RowStore catalog.now id store told.0 (Err told.1)) }
    {
        let mut store = store;
        match open_replica(alloc, &mut store, catalog, id) {
            Ok(opened) => Ok(Replica {
                store,
                catalog: opened.catalog,
                position: opened.position,
            }),
            Err(fault) => Err((store, fault)),
        }
    }

    /// Forgets what it holds in memory of the store, and reads the store again.
    ///
    /// # Errors
    ///
    /// `Memory` and `Device`, and of a store that isn't as it was left those of `open`. What it holds in memory stays then.
    pub fn reload(&mut self, alloc: Global) -> Result<(), OpenFault>
        // The store holds what it held, and the replica is where it was.
        ensures reopens { Reopens S.RowStore self.old.store self.new.store result }
        ensures same { S.honest self.new.store → self.new.position ≡ self.old.position }

        // Of a store that is as it was left nothing else is told.
        ensures refused { S.honest self.new.store → IfErr result (λ fault. (fault ≡ opening.Memory) ⊎ (fault ≡ opening.Device)) }
        ensures catalog { self.new.catalog ≡ self.old.catalog }
    {
        self.position = reopen_at(alloc, &mut self.store, &self.catalog, &self.position)?;
        Ok(())
    }

    /// Where its store is honest, it shows rows, and what is pending, at its position. The numbers of that are in range.
    pub fn shown(&self)
        ensures shown { S.honest self.now.store → (view : View) × Shows S.contents self.now view }
        ensures fits { FitsPosition self.now.position }
    {
        in_range(&self.position);
    }

    /// Its tables, as they are now: those of the log at its version. It takes no memory.
    pub fn catalog(&self) -> &Catalog
        ensures { result.now ≡ self.now.catalog }
    {
        &self.catalog
    }

    /// Its id. It takes no memory.
    pub fn id(&self) -> u32
        ensures { result ≡ self.now.position.id }
    {
        self.position.id
    }

    /// The version of the log that it has come to. It takes no memory.
    pub fn version(&self) -> u64
        ensures { result ≡ self.now.position.version }
    {
        self.position.version
    }

    /// How many changes are pending. It takes no memory.
    pub fn pending_len(&self) -> u64
        ensures { result ≡ self.now.position.pending }
    {
        self.position.pending
    }

    /// The changes of the push that is under way, if one is. It takes no memory.
    pub fn in_flight(&self) -> Option<&Normal>
        ensures { option_copied result ≡ self.now.position.flight }
    {
        self.position.flight.as_ref()
    }

    /// What is pending, as one changeset in normal form, or that nothing is, or that it has more bytes than a push may have. The
    /// store is only read.
    pub fn pending(&mut self, alloc: Global) -> Result<Outgoing, StoreFault>
        // It is what the store shows as pending.
        ensures gathered { S.honest self.new.store → (view : View) → Shows S.contents self.old view
            → IfOk result (IsOutgoing self.old.catalog view.pending) }

        // The store is only read, and the replica stays as it is.
        ensures reads { ReadsStore S.RowStore stored.Device
            (ShowsSomeAt self.old.catalog self.old.position (S.contents self.old.store)) self.old.store self.new.store result }
        ensures catalog { self.new.catalog ≡ self.old.catalog }
        ensures kept { self.new.position ≡ self.old.position }
    {
        gather_at(alloc, &mut self.store, &self.catalog, &self.position)
    }

    /// The rows of the table with this number in the catalog, each behind the bytes of its key and in the order of these. None past
    /// the last table. The store is only read.
    pub fn rows(&mut self, alloc: Global, table: usize) -> Result<Vec<RowAtKey>, StoreFault>
        // They are the rows that the store shows.
        ensures listed { S.honest self.new.store → (view : View) → Shows S.contents self.old view
            → IfOk result (λ rows. AreRowsIn self.old.catalog view.tables table rows.items) }
        ensures none { length self.old.catalog ≤ table → IfOk result (λ rows. rows.items ≡ []) }

        // The store is only read, and the replica stays as it is.
        ensures reads { ReadsStore S.RowStore stored.Device
            (ShowsSomeAt self.old.catalog self.old.position (S.contents self.old.store)) self.old.store self.new.store result }
        ensures catalog { self.new.catalog ≡ self.old.catalog }
        ensures kept { self.new.position ≡ self.old.position }

        // What it shows is the same, and so is what a stop leaves.
        ensures turned { Turns S.RowStore (λ before after. after ≡ before) self.old self.new }
        ensures left { CallLeaves S.RowStore (λ position now left. ⊥) self.old self.new }
        ensures counts { Counts S.RowStore (result ≡ Err stored.Device) self.old self.new }
    {
        rows_at(alloc, &mut self.store, &self.catalog, &self.position, table)
    }

    /// Puts a row where there is none: one row and one pending change are written, in one commit. The first fault that holds is
    /// told: `NoTable`, `Width`, `NullKey`, `Exists`.
    pub fn insert(&mut self, alloc: Global, table: &str, row: &Row) -> Result<(), EditFault>
        // The edit is made, in one commit; at `Err` nothing has changed.
        ensures writes { WritesStore S.RowStore Device (ShowsSomeAt self.old.catalog self.old.position (S.contents self.old.store))
            (IsEditedIn self.old.catalog self.old.position table.now (AskInsert row.now) (S.contents self.old.store)) self.old.store self.new.store result }

        // What is told is the fault of the edit, or one of the store.
        ensures refused { S.honest self.new.store → (view : View) → Shows S.contents self.old view
            → IfErr result (λ fault. IsOfStore fault ⊎ (edit_of self.old.catalog table.now (AskInsert row.now) view ≡ Err fault)) }

        // The tables, the version, the number and the flight stay.
        ensures catalog { self.new.catalog ≡ self.old.catalog }
        ensures moved { OnOk result (self.new.position ≡ with_pending self.old.position self.new.position.pending) }
        ensures kept { OnErr result (self.new.position ≡ self.old.position) }
    {
        edit_at(
            alloc,
            &mut self.store,
            &self.catalog,
            &mut self.position,
            table,
            &RowEdit::Insert(row),
        )
    }

    /// Puts fields into the row with a key; a field that is undefined stays as it is, and fields that change nothing write nothing.
    /// The first fault that holds is told: `NoTable`, `Width` (of key or fields), `NullKey`, `KeyColumn`, `Missing`.
    pub fn update(
        &mut self,
        alloc: Global,
        table: &str,
        key: &Key,
        fields: &[Field],
    ) -> Result<(), EditFault>
        // The edit is made, in one commit; at `Err` nothing has changed.
        ensures writes { WritesStore S.RowStore Device (ShowsSomeAt self.old.catalog self.old.position (S.contents self.old.store))
            (IsEditedIn self.old.catalog self.old.position table.now (AskUpdate key.now fields.now) (S.contents self.old.store)) self.old.store self.new.store result }

        // What is told is the fault of the edit, or one of the store.
        ensures refused { S.honest self.new.store → (view : View) → Shows S.contents self.old view
            → IfErr result (λ fault. IsOfStore fault ⊎ (edit_of self.old.catalog table.now (AskUpdate key.now fields.now) view ≡ Err fault)) }

        // The tables, the version, the number and the flight stay.
        ensures catalog { self.new.catalog ≡ self.old.catalog }
        ensures moved { OnOk result (self.new.position ≡ with_pending self.old.position self.new.position.pending) }
        ensures kept { OnErr result (self.new.position ≡ self.old.position) }
    {
        edit_at(
            alloc,
            &mut self.store,
            &self.catalog,
            &mut self.position,
            table,
            &RowEdit::Update(key, fields),
        )
    }

    /// Takes away the row with a key. The first fault that holds is told: `NoTable`, `Width`, `NullKey`, `Missing`.
    pub fn delete(&mut self, alloc: Global, table: &str, key: &Key) -> Result<(), EditFault>
        // The edit is made, in one commit; at `Err` nothing has changed.
        ensures writes { WritesStore S.RowStore Device (ShowsSomeAt self.old.catalog self.old.position (S.contents self.old.store))
            (IsEditedIn self.old.catalog self.old.position table.now (AskDelete key.now) (S.contents self.old.store)) self.old.store self.new.store result }

        // What is told is the fault of the edit, or one of the store.
        ensures refused { S.honest self.new.store → (view : View) → Shows S.contents self.old view
            → IfErr result (λ fault. IsOfStore fault ⊎ (edit_of self.old.catalog table.now (AskDelete key.now) view ≡ Err fault)) }

        // The tables, the version, the number and the flight stay.
        ensures catalog { self.new.catalog ≡ self.old.catalog }
        ensures moved { OnOk result (self.new.position ≡ with_pending self.old.position self.new.position.pending) }
        ensures kept { OnErr result (self.new.position ≡ self.old.position) }
    {
        edit_at(
            alloc,
            &mut self.store,
            &self.catalog,
            &mut self.position,
            table,
            &RowEdit::Delete(key),
        )
    }

    /// Makes an edit of one row, as `insert`, `update` or `delete` does, with the same faults.
    pub fn edit(&mut self, alloc: Global, edit: &Edit) -> Result<(), EditFault>
        // The edit is made, in one commit; at `Err` nothing has changed.
        ensures writes { WritesStore S.RowStore Device (ShowsSomeAt self.old.catalog self.old.position (S.contents self.old.store))
            (IsEditedIn self.old.catalog self.old.position (table_of_edit edit.now) (asked_of_edit edit.now) (S.contents self.old.store)) self.old.store self.new.store result }

        // What is told is the fault of the edit, or one of the store.
        ensures refused { S.honest self.new.store → (view : View) → Shows S.contents self.old view
            → IfErr result (λ fault. IsOfStore fault ⊎ (edit_of self.old.catalog (table_of_edit edit.now) (asked_of_edit edit.now) view ≡ Err fault)) }

        // The tables, the version, the number and the flight stay.
        ensures catalog { self.new.catalog ≡ self.old.catalog }
        ensures moved { OnOk result (self.new.position ≡ with_pending self.old.position self.new.position.pending) }
        ensures kept { OnErr result (self.new.position ≡ self.old.position) }

        // The step that it is, what a stop leaves, and that a failed device is told only where its count rose.
        ensures turned { Turns S.RowStore (IsEditedTo edit.now result) self.old self.new }
        ensures left { CallLeaves S.RowStore (IsEditedBy self.old.catalog edit.now) self.old self.new }
        ensures counts { Counts S.RowStore (result ≡ Err Device) self.old self.new }
    {
        cs_pending::position::laws::one_position();
        let (table, row_edit) = RowEdit::of(edit);
        let edited = edit_at(
            alloc,
            &mut self.store,
            &self.catalog,
            &mut self.position,
            table,
            &row_edit,
        );
        self.shown();
        edited
    }

    /// Makes edits one behind another, all or none: what they leave together is one commit, so that a stop leaves all of them or none.
    /// Each is looked up among those before it, so a list of n takes time by n squared.
    ///
    /// # Errors
    ///
    /// `Refused` at the first edit that is refused behind those before it; `Memory` and `Device`. Nothing has changed then.
    pub fn edit_all(&mut self, alloc: Global, edits: &[Edit]) -> Result<(), EditsFault>
        // All are made, in one commit; at `Err` nothing has changed.
        ensures writes { WritesStore S.RowStore several.Device (ShowsSomeAt self.old.catalog self.old.position (S.contents self.old.store))
            (IsSteppedIn self.old.catalog self.old.position (AreEdited self.old.catalog edits.now) (S.contents self.old.store)) self.old.store self.new.store result }

        // What is told is the fault of the first that is refused, or one of the store.
        ensures refused { S.honest self.new.store → (view : View) → Shows S.contents self.old view
            → IfErr result (IsEditsFault self.old.catalog edits.now view) }

        // The tables, the version, the number and the flight stay.
        ensures catalog { self.new.catalog ≡ self.old.catalog }
        ensures moved { OnOk result (self.new.position ≡ with_pending self.old.position self.new.position.pending) }
        ensures kept { OnErr result (self.new.position ≡ self.old.position) }

        // The step that it is, what a stop leaves, and that a failed device is told only where its count rose.
        ensures turned { Turns S.RowStore (AreEditedTo edits.now result) self.old self.new }
        ensures left { CallLeaves S.RowStore (AreEditedBy self.old.catalog edits.now) self.old self.new }
        ensures counts { Counts S.RowStore (result ≡ Err several.Device) self.old self.new }
    {
        cs_pending::position::laws::one_position();
        let edited = edit_all_at(
            alloc,
            &mut self.store,
            &self.catalog,
            &mut self.position,
            edits,
        );
        self.shown();
        edited
    }

    /// Makes what is pending the push that is under way, in one commit before it answers. It gives the request that tells the hub
    /// of the push. The first fault that holds is told: `Nothing`, `InFlight`, `Spent`, `TooLarge`.
    pub fn make_push(&mut self, alloc: Global) -> Result<RequestBuf, PushFault>
        // What was pending is under way, in one commit; at `Err` nothing has changed.
        ensures writes { WritesStore S.RowStore push.Device (ShowsSomeAt self.old.catalog self.old.position (S.contents self.old.store))
            (IsPushMadeIn self.old.catalog self.old.position (S.contents self.old.store)) self.old.store self.new.store result }

        // The request is of the push that is under way, and can be written.
        ensures moved { IfOk result (IsPushOf self.old.position self.new.position) }
        ensures short { IfOk result (λ request. HasShortBytes (asked_by_owned request)) }

        // What is told holds.
        ensures refused { S.honest self.new.store → (view : View) → Shows S.contents self.old view
            → IfErr result (λ fault. IsPushFault fault self.old.catalog self.old.position view) }

        // The tables stay, and at `Err` the position.
        ensures catalog { self.new.catalog ≡ self.old.catalog }
        ensures kept { OnErr result (self.new.position ≡ self.old.position) }

        // The step that it is, what a stop leaves, and that a failed device is told only where its count rose.
        ensures turned { Turns S.RowStore (IsPushedTo result) self.old self.new }
        ensures left { CallLeaves S.RowStore (IsPushMadeIn self.old.catalog) self.old self.new }
        ensures counts { Counts S.RowStore (result ≡ Err push.Device) self.old self.new }
    {
        cs_pending::position::laws::one_position();
        let pushed = make_push(alloc, &mut self.store, &self.catalog, &mut self.position);
        self.shown();
        pushed
    }

    /// Gives the request of the push that is under way once more: the same bytes. `Nothing` where none is.
    pub fn resend(&self, alloc: Global) -> Result<RequestBuf, PushFault>
        ensures resent { IsResent result self.now.position }
        ensures short { IfOk result (λ request. HasShortBytes (asked_by_owned request)) }
    {
        match resend(alloc, &self.position) {
            Ok(request) => Ok(request),
            Err(fault) => Err(fault),
        }
    }

    /// The push that is under way, as the entry of the log that it would be; `None` where none is.
    ///
    /// # Errors
    ///
    /// `Memory`.
    pub fn flight_entry(&self, alloc: Global) -> Result<Option<LogEntry>, Memory>
        ensures { IfOk result (λ entry. entry ≡ flight_entry self.now.position) }
    {
        match &self.position.flight {
            Some(changes) => {
                let changes = changes.copy(alloc)?;
                Ok(Some(LogEntry {
                    origin: self.position.id,
                    number: self.position.number,
                    body: Body::Changes(changes),
                }))
            }
            None => Ok(None),
        }
    }

    /// Takes the entry of the hub's log that is told at an index. Where it is the push that is under way, that is confirmed. Of
    /// another's each row becomes the three-way merge of the log's row at the version, the own one, and the log's at the next.
    /// The picker decides by its wishes. An entry that widens a table gives it its columns, here and in the catalog, and asks nobody.
    /// It is one commit. The first fault that holds is told: `Behind`, `Gap`, `BadEntry`, `Stopped`.
    pub fn take<P: Picker>(
        &mut self,
        alloc: Global,
        index: u64,
        entry: &LogEntry,
        picker: &mut P,
    ) -> Result<(), PullFault>
        requires ready { P.is_ready picker.old }
        ensures ready { P.is_ready picker.new }

        // The entry was taken, in one commit, or nothing has changed.
        ensures writes { WritesStore S.RowStore pull.Device (ShowsSomeAt self.old.catalog self.old.position (S.contents self.old.store))
            (IsPulledAt P.picks self.old.catalog self.old.position index entry.now picker.old picker.new (S.contents self.old.store)) self.old.store self.new.store result }

        // It was the one at the version, and the replica is behind it.
        ensures next { OnOk result ((index ≡ self.old.position.version) × (self.old.position.version < 2 ^ 64 - 1)) }
        ensures moved { OnOk result (self.new.position ≡ taken self.old.position self.new.position.pending) }

        // What is told holds.
        ensures refused { S.honest self.new.store → (view : View) → Shows S.contents self.old view
            → IfErr result (IsPullFault P.picks self.old.catalog self.old.position index entry.now view picker.old picker.new) }

        // The tables are those that the entry leaves. At `Err` they stay, and the position.
        ensures wide { OnOk result (self.new.catalog ≡ catalog_after self.old.catalog entry.now.body) }
        ensures catalog { OnErr result (self.new.catalog ≡ self.old.catalog) }
        ensures kept { OnErr result (self.new.position ≡ self.old.position) }
    {
        take_entry(
            alloc,
            &mut self.store,
            &mut self.catalog,
            &mut self.position,
            index,
            entry,
            picker,
        )
    }

    /// Takes what the entries of the hub's log from an index up to a version do, as one changeset. Each row becomes the three-way
    /// merge of the log's row at the one, the own one, and the log's at the other. The picker decides by its wishes. A push that is
    /// under way becomes pending. It is one commit. The first fault that holds is told: `Behind`, `Gap`, `BadEntry`, `Stopped`.
    pub fn take_merged<P: Picker>(
        &mut self,
        alloc: Global,
        first: u64,
        next: u64,
        changes: &Normal,
        picker: &mut P,
    ) -> Result<(), PullFault>
        requires ready { P.is_ready picker.old }
        ensures ready { P.is_ready picker.new }

        // The changeset was taken, in one commit, or nothing has changed.
        ensures writes { WritesStore S.RowStore pull.Device (ShowsSomeAt self.old.catalog self.old.position (S.contents self.old.store))
            (IsTakenTo P.picks self.old.catalog self.old.position next changes.now picker.old picker.new (S.contents self.old.store)) self.old.store self.new.store result }

        // It was what is told from the version on, and the replica has come to the version it leads to.
        ensures next { OnOk result ((first ≡ self.old.position.version) × (first < next)) }
        ensures moved { OnOk result (self.new.position ≡ brought self.old.position next self.new.position.pending) }

        // What is told holds.
        ensures refused { S.honest self.new.store → (view : View) → Shows S.contents self.old view
            → IfErr result (IsMergeFault P.picks self.old.catalog self.old.position first next changes.now view picker.old picker.new) }

        // The tables stay, and at `Err` the position.
        ensures catalog { self.new.catalog ≡ self.old.catalog }
        ensures kept { OnErr result (self.new.position ≡ self.old.position) }
    {
        take_merged(
            alloc,
            &mut self.store,
            &self.catalog,
            &mut self.position,
            first,
            next,
            changes,
            picker,
        )
    }

    /// Takes an answer of the hub. A push that was accepted is confirmed, where it is the one that is under way. Entries are taken one
    /// after another, each in a commit of its own. Those before the version are passed over. The list ends where the picker stops, and
    /// at an entry behind the one at the version. What was taken stays, whatever comes later. Entries that are told together are taken
    /// in one commit, where they are for this replica and begin at its version.
    pub fn answer<P: Picker>(
        &mut self,
        alloc: Global,
        answer: &Answer<'_>,
        picker: &mut P,
    ) -> Result<Told, AnswerFault>
        requires ready { P.is_ready picker.old }
        ensures ready { P.is_ready picker.new }

        // What it made of the replica, and what is told of that.
        ensures told { S.honest self.new.store → (before : View) → Shows S.contents self.old before
            → Answers P.picks self.old.catalog answer.now result self.old.position before picker.old self.new.catalog self.new.position (S.contents self.new.store) picker.new }

        // In whole commits, one after another.
        ensures writes { WritesInTurn S.RowStore (IsDone result) (SaysDevice result)
            (ShowsSomeAt self.old.catalog self.old.position (S.contents self.old.store))
            (IsAnsweredAmong P.picks self.old.catalog answer.now self.old.position (S.contents self.old.store) picker.old)
            (IsAnsweredNext P.picks self.new.catalog answer.now self.new.position (S.contents self.new.store)) self.old.store self.new.store }

        // The step that it is, what a stop leaves, and that a failed device is told only where its count rose.
        ensures turned { Turns S.RowStore (IsAnsweredTo P.picks answer.now picker.old result) self.old self.new }
        ensures left { CallLeaves S.RowStore (IsAnsweredNext P.picks self.new.catalog answer.now) self.old self.new }
        ensures counts { Counts S.RowStore (SaysDevice result) self.old self.new }
    {
        cs_pending::position::laws::one_position();
        let told = answer_at(
            alloc,
            &mut self.store,
            &mut self.catalog,
            &mut self.position,
            answer,
            picker,
        );
        self.shown();
        told
    }

    /// The store, as it is. It takes no memory.
    pub fn close(self) -> S
        ensures { result ≡ self.store }
    {
        self.store
    }
}
