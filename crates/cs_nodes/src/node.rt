//! A node.

ghost use Rattle.std.specs.Prelude.{◌≡◌, ◌⊎◌, ◌≤◌, ◌<◌, ◌+◌, ◌-◌, ◌^◌, ◌↔◌, [], Err, IfErr, IfOk, IsOk, IsSome, IsTrue, MatchResult, Ok, OnErr, OnOk, Some, length, slice_get};
ghost use Rattle.cs_pending.specs.Calls.{ReadsStore, WritesStore};
ghost use Rattle.cs_pending.specs.Edits.{IsOfStore, edit as edit_of};
ghost use Rattle.cs_opening.specs.Fresh.{first_position};
ghost use Rattle.cs_opening.specs.declared.fault.OpenFault.TheVariants as opening;
ghost use Rattle.cs_pending.specs.Laws.{empty_view};
ghost use Rattle.cs_pending.specs.View.{View};
ghost use Rattle.cs_store.specs.Contents.{nothing};
ghost use Rattle.cs_pending.specs.declared.fault.EditFault.TheVariants as editing;
ghost use Rattle.cs_pending.specs.position.Shows.{ShowsSomeAt};
ghost use Rattle.cs_nodes.specs.following.Calls.{WritesInTurn};
ghost use Rattle.cs_replica.specs.Edited.{IsEditedIn, with_pending};
ghost use Rattle.cs_replica.specs.Holding.{Shows};
ghost use Rattle.cs_replica.specs.Opened.{Opens};
ghost use Rattle.cs_pending.specs.rows.Rows.{AreRowsOf};
ghost use Rattle.cs_store.specs.declared.fault.StoreFault.TheVariants as stored;
ghost use Rattle.cs_value.specs.declared.catalog.TableDef.{TableDef};
ghost use Rattle.cs_pending.specs.EditLists.{asked_of_edit, table_of_edit};
ghost use Rattle.cs_nodes.specs.following.Pulls.{IsNextKnown, IsPulledAmong, PullsAll};
ghost use Rattle.cs_nodes.specs.following.Pushes.{HasTaken, IsAtRest, IsSentAmong, IsSentNext, PushesOn};
ghost use Rattle.cs_nodes.specs.following.Standing.{Begins, IsBadAt, StandsWhereHonest, TablesGoOn};
ghost use Rattle.cs_nodes.specs.declared.following.fault.NodeFault.TheVariants.{BadEntry, Device, Full};
ghost use Rattle.cs_nodes.specs.declared.following.pushed.NodePush.TheVariants.{Behind, Nothing};
ghost use Rattle.cs_nodes.specs.Nodes.{IsNode};

use crate::following::{
    NodeFault, NodePush, edit_row, is_at_rest, pull_known, push_known, rows_of,
};
use crate::tables::is_at_first;
use cs_conflict::Picker;
use cs_opening::OpenFault;
use cs_pending::EditFault;
use cs_pending::rows::RowAtKey;
use cs_replica::Replica;
use cs_spine::{Pass, Spine};
use cs_store::{RowStore, StoreFault};
use cs_value::{Catalog, Edit};
use std::alloc::Global;
use std::marker::Model;

/// A replica, and a pass of the row of cells that it follows. Contracts see it as both.
#[derive(Drop)]
pub struct Node<'s, S: RowStore> {
    replica: Replica<S>,
    pass: Pass<'s>,
}

impl<'s, S: RowStore> Model for Node<'s, S> {
    ghost use Rattle.cs_nodes.specs.Nodes.{IsNode, NodeState};

    ghost Value = { NodeState S };

    ghost view = { λ node. record { replica = node.replica; pass = node.pass } };

    ghost invariant = { λ node. IsNode S.RowStore (record { replica = node.replica; pass = node.pass }) };
}

impl<'s, S: RowStore> Node<'s, S> {
    /// A new node over a store that holds nothing. Its replica, with this id, is at version 0 with no row, nothing pending and nothing
    /// under way. Its pass knows nothing. An id is at most 4,294,967,294. At `Err` the store comes back as it was.
    ///
    /// # Errors
    ///
    /// `Memory` and `Device`; of a store that isn't honest any fault of `Replica::open`.
    pub fn open(
        alloc: Global,
        store: S,
        catalog: &Catalog,
        id: u32,
        spine: &'s Spine,
    ) -> Result<Node<'s, S>, (S, OpenFault)>
        requires id { id < 2 ^ 32 - 1 }
        requires bare { S.contents store ≡ nothing }
        ensures pass { IfOk result (λ node. (node.pass.spine ≡ spine.now) × (node.pass.known ≡ [])) }

        ensures catalog { IfOk result (λ node. node.replica.catalog ≡ catalog.now) }
        ensures fresh { IfOk result (λ node. S.honest node.replica.store
            → (node.replica.position ≡ first_position id) × Shows S.contents node.replica empty_view) }

        // At `Err` the store is as it was, and memory was refused or the device failed.
        ensures kept { IfErr result (λ told. S.honest told.0 → S.contents told.0 ≡ S.contents store) }
        ensures refused { IfErr result (λ told. S.honest told.0 → (told.1 ≡ opening.Memory) ⊎ (told.1 ≡ opening.Device)) }

        // What a stop leaves, and how the count of failures goes.
        ensures opens { MatchResult result
            (λ node. Opens S.RowStore catalog.now id store node.replica.store (Ok tt))
            (λ told. Opens S.RowStore catalog.now id store told.0 (Err told.1)) }
    {
        crate::following::laws::fresh_stands();
        let _tables = catalog.tables();
        let pass = match spine.pass() {
            Ok(pass) => pass,
            Err(fault) => return Err((store, OpenFault::from(fault))),
        };
        match Replica::open(alloc, store, catalog, id) {
            Ok(replica) => {
                // Over an honest store a new replica is at version 0, and has the handed tables.
                if !is_at_first(&replica, catalog) {
                    return Err((replica.close(), OpenFault::Damaged));
                }
                Ok(Node::new(replica, pass))
            }
            Err(told) => Err(told),
        }
    }

    /// A node of a replica that stands on what the pass knows, as a new one does (`crate::following::laws::fresh_stands`). It takes no
    /// memory.
    pub fn new(replica: Replica<S>, pass: Pass<'s>) -> Node<'s, S>
        requires within { replica.position.version ≤ length pass.known }
        requires stands { StandsWhereHonest S.RowStore pass.known replica }
        ensures { result ≡ record { replica = replica; pass = pass.entry } }
    {
        Node { replica, pass }
    }

    /// The replica has taken no more than the pass knows, and where its store is honest it stands on that.
    pub fn stands(&self)
        ensures { IsNode S.RowStore self.now }
    {
        let _ = &self.replica;
    }

    /// The version that it has come to. It takes no memory.
    pub fn version(&self) -> u64
        ensures { result ≡ self.now.replica.position.version }
    {
        self.replica.version()
    }

    /// How many changes are pending. It takes no memory.
    pub fn pending_len(&self) -> u64
        ensures { result ≡ self.now.replica.position.pending }
    {
        self.replica.pending_len()
    }

    /// Whether a push is under way. It takes no memory.
    pub fn is_under_way(&self) -> bool
        ensures { IsTrue result ↔ IsSome self.now.replica.position.flight }
    {
        self.replica.in_flight().is_some()
    }

    /// Whether nothing is pending and no push is under way. It takes no memory.
    pub fn is_at_rest(&self) -> bool
        ensures { IsTrue result ↔ IsAtRest self.now.replica.position }
    {
        is_at_rest(&self.replica)
    }

    /// What the node's thread knows.
    pub fn pass(&self) -> &Pass<'s>
        ensures { result.now ≡ self.now.pass }
    {
        &self.pass
    }

    /// The rows of the table with this number in the catalog. Each stands behind the bytes of its key, and they are in the order of
    /// these bytes. There are none past the last table. The store is only read.
    pub fn rows(&mut self, alloc: Global, table: usize) -> Result<Vec<RowAtKey>, StoreFault>
        // They are the rows that the store shows.
        ensures listed { S.honest self.new.replica.store → (view : View) → Shows S.contents self.old.replica view → (def : TableDef)
            → slice_get self.old.replica.catalog table ≡ Some def → IfOk result (λ rows. AreRowsOf (view.tables def.name) rows.items) }
        ensures none { length self.old.replica.catalog ≤ table → IfOk result (λ rows. rows.items ≡ []) }

        // The store is only read, and the node stays as it is.
        ensures reads { ReadsStore S.RowStore stored.Device
            (ShowsSomeAt self.old.replica.catalog self.old.replica.position (S.contents self.old.replica.store)) self.old.replica.store self.new.replica.store result }
        ensures catalog { self.new.replica.catalog ≡ self.old.replica.catalog }
        ensures kept { self.new.replica.position ≡ self.old.replica.position }
        ensures pass { self.new.pass ≡ self.old.pass }
    {
        rows_of(alloc, &mut self.replica, table)
    }

    /// Makes an edit of one row. The first fault that holds is told: `NoTable`, `Width`, `NullKey`, `KeyColumn`, `Exists`, `Missing`.
    ///
    /// # Errors
    ///
    /// These, `Memory` and `Device`. Nothing has changed then.
    pub fn edit(&mut self, alloc: Global, edit: &Edit) -> Result<(), EditFault>
        // The edit is made, in one commit; at `Err` nothing has changed.
        ensures writes { WritesStore S.RowStore editing.Device
            (ShowsSomeAt self.old.replica.catalog self.old.replica.position (S.contents self.old.replica.store))
            (IsEditedIn self.old.replica.catalog self.old.replica.position (table_of_edit edit.now) (asked_of_edit edit.now) (S.contents self.old.replica.store))
            self.old.replica.store self.new.replica.store result }

        // What is told is the fault of the edit, or one of the store.
        ensures refused { S.honest self.new.replica.store → (view : View) → Shows S.contents self.old.replica view
            → IfErr result (λ fault. IsOfStore fault ⊎ (edit_of self.old.replica.catalog (table_of_edit edit.now) (asked_of_edit edit.now) view ≡ Err fault)) }

        // The tables, the version, the number and the flight stay, and what the pass knows.
        ensures catalog { self.new.replica.catalog ≡ self.old.replica.catalog }
        ensures moved { OnOk result (self.new.replica.position ≡ with_pending self.old.replica.position self.new.replica.position.pending) }
        ensures kept { OnErr result (self.new.replica.position ≡ self.old.replica.position) }
        ensures pass { self.new.pass ≡ self.old.pass }
    {
        edit_row(alloc, &mut self.replica, edit)
    }

    /// Looks at one cell behind another until one is not set. Then takes the entries that are known, from the one at the replica's
    /// version on, each in a commit of its own. Returns how many. What was taken stays, whatever comes later.
    ///
    /// # Errors
    ///
    /// `BadEntry` at an entry that isn't defined on the tables there, `Stopped` where the picker stops, `Memory` and `Device`.
    pub fn pull<P: Picker>(
        &mut self,
        alloc: Global,
        spine: &'s Spine,
        picker: &mut P,
    ) -> Result<usize, NodeFault>
        requires spine { self.old.pass.spine ≡ spine.now }
        requires ready { P.is_ready picker.old }
        ensures spine { self.new.pass.spine ≡ self.old.pass.spine }
        ensures ready { P.is_ready picker.new }
        ensures begins { Begins self.old.pass.known self.new.pass.known }

        // Those before the one at which it ended were pulled, one after another, of what is known as it ends.
        ensures pulled { S.honest self.new.replica.store → (before : View) → Shows S.contents self.old.replica before
            → PullsAll P.picks self.old.replica.catalog self.new.pass.known result self.old.replica.position before picker.old
            self.new.replica.catalog self.new.replica.position (S.contents self.new.replica.store) picker.new }

        // Each in a commit of its own. Those that were taken stay, however it ended. A stop then leaves what the store holds, or, at an
        // `Err`, that with the next entry taken too. Where nothing was written, it may also leave what it could before.
        ensures writes { WritesInTurn S.RowStore (IsOk result) (result ≡ Err Device)
            (ShowsSomeAt self.old.replica.catalog self.old.replica.position (S.contents self.old.replica.store))
            (IsPulledAmong P.picks self.old.replica.catalog self.new.pass.known self.old.replica.position (S.contents self.old.replica.store) picker.old)
            (IsNextKnown P.picks self.new.replica.catalog self.new.pass.known self.new.replica.position (S.contents self.new.replica.store))
            self.old.replica.store self.new.replica.store }

        // At `Ok` it has come to the last that is known.
        ensures level { IfOk result (λ count. (self.new.replica.position.version ≡ length self.new.pass.known)
            × (self.new.replica.position.version ≡ self.old.replica.position.version + count)) }

        // The tables are those that the entries leave which were taken.
        ensures catalog { TablesGoOn self.new.pass.known self.old.replica.catalog self.old.replica.position.version self.new.replica.catalog self.new.replica.position.version }

        // An entry that is told to be bad isn't defined on the tables that those before it make.
        ensures bad { result ≡ Err BadEntry → S.honest self.new.replica.store
            → IsBadAt self.new.replica.catalog self.new.pass.known self.new.replica.position.version }
    {
        pull_known(alloc, &mut self.replica, spine, &mut self.pass, picker)
    }

    /// Offers the push that is under way, or one made of what is pending, for the cell at the replica's version. Then takes what that
    /// cell holds: the push is confirmed, or another's entry taken. Nothing to push is told first, then that entries are known which
    /// weren't taken.
    ///
    /// # Errors
    ///
    /// `Full` where each cell is known, `BadEntry` and `Stopped` of the entry in the cell, `Spent` and `TooLarge` of the push that is
    /// made; `Memory` and `Device`. The last step then stays out, or both do.
    pub fn push<P: Picker>(
        &mut self,
        alloc: Global,
        spine: &'s Spine,
        picker: &mut P,
    ) -> Result<NodePush, NodeFault>
        requires spine { self.old.pass.spine ≡ spine.now }
        requires ready { P.is_ready picker.old }
        ensures spine { self.new.pass.spine ≡ self.old.pass.spine }
        ensures ready { P.is_ready picker.new }
        ensures begins { Begins self.old.pass.known self.new.pass.known }

        // What is told, what it has made of the replica, and what the pass knows then.
        ensures pushed { S.honest self.new.replica.store → (before : View) → Shows S.contents self.old.replica before
            → PushesOn P.picks self.old.replica.catalog self.old.pass.known self.old.replica.position before picker.old spine.now.cap result
            self.new.pass.known self.new.replica.catalog self.new.replica.position (S.contents self.new.replica.store) picker.new }

        // The push, and what comes of it, are commits of their own. What was made stays, however it ended, at `Full` too. A stop then
        // leaves what the store holds, or, where no entry was taken, that with one commit more. That commit makes the push or takes
        // the entry at the version. Where nothing was written, it may also leave what it could before.
        ensures writes { WritesInTurn S.RowStore (HasTaken result) (result ≡ Err Device)
            (ShowsSomeAt self.old.replica.catalog self.old.replica.position (S.contents self.old.replica.store))
            (IsSentAmong P.picks self.old.replica.catalog self.old.replica.position (S.contents self.old.replica.store) picker.old)
            (IsSentNext P.picks self.new.replica.catalog self.new.pass.known self.new.replica.position (S.contents self.new.replica.store))
            self.old.replica.store self.new.replica.store }

        // Nothing is told first, then that it is behind; and nothing has changed then.
        ensures nothing { IsAtRest self.old.replica.position → (result ≡ Ok Nothing) × (self.new ≡ self.old) }
        ensures behind { (IsAtRest self.old.replica.position → ⊥) → self.old.replica.position.version < length self.old.pass.known
            → (result ≡ Ok Behind) × (self.new ≡ self.old) }
        ensures full { result ≡ Err Full → length self.old.pass.known ≡ spine.now.cap }

        // The tables are those that the entries leave which were taken.
        ensures catalog { TablesGoOn self.new.pass.known self.old.replica.catalog self.old.replica.position.version self.new.replica.catalog self.new.replica.position.version }

        // An entry that is told to be bad isn't defined on the tables that those before it make.
        ensures bad { result ≡ Err BadEntry → S.honest self.new.replica.store
            → IsBadAt self.new.replica.catalog self.new.pass.known self.new.replica.position.version }
    {
        push_known(alloc, &mut self.replica, spine, &mut self.pass, picker)
    }

    /// The replica and the pass, as they are. It takes no memory.
    pub fn parts(self) -> (Replica<S>, Pass<'s>)
        ensures replica { result.0 ≡ self.entry.replica }
        ensures pass { result.1 ≡ self.entry.pass }
    {
        let Node { replica, pass } = self;
        (replica, pass)
    }
}
