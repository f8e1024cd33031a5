//! A store in memory.

ghost use Rattle.std.specs.Prelude.{◌≡◌, [], fold, OnOk, OnErr};
ghost use Rattle.cs_store.specs.Written.{after_batch, appended, edit_meta, optional_entry};
ghost use Rattle.cs_map_store.specs.Packed.{HasRoomFor};
ghost use Rattle.cs_map_store.specs.Slots.{HasOwnNames, held_in, log_of, meta_of, shown};
ghost use Rattle.cs_map_store.specs.Steps.{HasSlots, IsEmptyOnlyAt, IsKept, step_keys};

use crate::checking::{Shelf, both_hold, check_log};
use crate::leaves::Near;
use crate::log::PackedLog;
use crate::shelves::{Leaves, Shelves};
use crate::slots::{
    SlotKey, Slots, Step, make_slots, read_slot, steps_of, sweep_steps, write_steps,
};
use cs_leaf::Place;
use cs_store::laws::decoding;
use cs_store::{Batch, MetaName, RowStore, StoreFault, StoredBody, StoredEntry};
use cs_value::Catalog;
use std::alloc::{AllocError, Global};
use std::collections::BTreeMap;
use std::marker::Model;

/// A store in memory. Contracts see what it holds, and the count of its misreads. Of its calls `misread` alone raises the
/// count and tells `Device`, and a stop leaves what it holds. Its rows lie in leaves, in order, each packed into one list of
/// bytes, and so do its pending changes. Beside where a row stands, the first 16 bytes of its key are kept as a number.
/// Bytes are compared only where these numbers are equal. A look-up begins where the last one ended. Where its place isn't
/// near, it begins where that would be if keys were spread evenly, and halves the leaves and then one leaf. A commit of one
/// row or of one pending change amends its leaf in place, so it costs the logarithm of those that are there. It also walks
/// over the list of leaves where one is cut or goes. A leaf is made anew at several edits at once, or where more than half
/// of its bytes would be of rows that are gone. So no leaf's bytes are more than twice those of its rows. The log lies in
/// chunks of 256 entries, each with one list for all bodies. So an entry takes 24 bytes beside its own, but in the last
/// chunk. It has at most 4,294,967,295 entries; a commit of one more answers `Memory`.
#[derive(Drop)]
pub struct MapStore {
    alloc: Global,
    shelves: Shelves,
    slots: Slots,
    log: PackedLog,
    near: Near,
    near_pending: Near,
    misreads: u64,
}

impl Model for MapStore {
    ghost use Rattle.cs_map_store.specs.Slots.{InMemory, held_in, in_memory_code};
    ghost use Rattle.cs_map_store.specs.Steps.{IsKept};

    ghost Value = { InMemory };

    ghost coded = { in_memory_code };

    ghost view = { λ store. record {
      held = held_in store.shelves.rows store.shelves.pending store.slots.entries store.log.items;
      misreads = store.misreads;
    } };

    // Each slot has a value, so what was taken for a refused commit is given back.
    ghost invariant = { λ store. IsKept store.slots };
}

impl MapStore {
    ghost use Rattle.std.specs.Prelude.{◌≡◌};
    ghost use Rattle.cs_map_store.specs.Slots.{new_store};

    /// A store that holds nothing. It takes no memory, and keeps `alloc` for later calls.
    pub fn new(alloc: Global) -> MapStore
        ensures { result ≡ new_store }
    {
        MapStore {
            alloc,
            shelves: Shelves {
                rows: Leaves::new(alloc),
                pending: Leaves::new(alloc),
            },
            slots: BTreeMap::new(alloc),
            log: PackedLog::new(alloc),
            near: Near::start(),
            near_pending: Near::start(),
            misreads: 0,
        }
    }
}

/// Takes the room in which values and an entry will be written. At `Err` it may leave slots with nothing in them.
fn take_room(
    alloc: Global,
    slots: &mut Slots,
    log: &mut PackedLog,
    steps: &[Step],
    entry: &Option<StoredEntry>,
) -> Result<(), AllocError>
    ensures shown { shown slots.new.entries ≡ shown slots.old.entries }
    ensures has { OnOk result (HasSlots slots.new steps.now) }
    ensures empty { IsEmptyOnlyAt [] slots.old → IsEmptyOnlyAt (step_keys steps.now) slots.new }
    ensures items { log.new.items ≡ log.old.items }
    ensures room { OnOk result (HasRoomFor log.new (optional_entry entry.now)) }
    ensures err { OnErr result (log.new ≡ log.old) }
{
    make_slots(alloc, slots, steps)?;
    log.make_room(alloc, entry)
}

/// Writes the values and the entry of a batch. What was taken for a refused one is given back.
fn write_rest(
    alloc: Global,
    slots: &mut Slots,
    log: &mut PackedLog,
    batch: &Batch,
) -> Result<(), AllocError>
    requires { IsEmptyOnlyAt [] slots.old }
    ensures meta { OnOk result (meta_of (shown slots.new.entries) ≡ fold edit_meta (meta_of (shown slots.old.entries)) batch.now.meta.items) }
    ensures log { OnOk result (log_of log.new.items ≡ appended (log_of log.old.items) (optional_entry batch.now.log)) }
    ensures same_meta { OnErr result (shown slots.new.entries ≡ shown slots.old.entries) }
    ensures same_log { OnErr result (log.new ≡ log.old) }
    ensures filled { IsEmptyOnlyAt [] slots.new }
    ensures names { HasOwnNames (meta_of (shown slots.old.entries)) → HasOwnNames (meta_of (shown slots.new.entries)) }
{
    let steps = steps_of(alloc, batch)?;
    let cleared = Vec::with_capacity(alloc, steps.len())?;
    if let Err(e) = take_room(alloc, slots, log, steps.as_slice(), &batch.log) {
        sweep_steps(slots, steps.as_slice());
        return Err(e);
    }
    write_steps(slots, steps, cleared);
    log.append(&batch.log);
    Ok(())
}

/// Takes all the memory that the batch needs, and then writes it. Leaves are looked for near where the last look-ups ended.
fn write(
    alloc: Global,
    shelves: &mut Shelves,
    near: Near,
    near_pending: Near,
    slots: &mut Slots,
    log: &mut PackedLog,
    batch: &Batch,
) -> Result<(), AllocError>
    requires { IsKept slots.old }
    ensures ok { OnOk result (held_in shelves.new.rows shelves.new.pending slots.new.entries log.new.items
        ≡ after_batch batch.now (held_in shelves.old.rows shelves.old.pending slots.old.entries log.old.items)) }
    ensures err { OnErr result (held_in shelves.new.rows shelves.new.pending slots.new.entries log.new.items
        ≡ held_in shelves.old.rows shelves.old.pending slots.old.entries log.old.items) }
    ensures given_back { OnErr result (log.new ≡ log.old) }
    ensures kept { IsKept slots.new }
{
    let rows = shelves.rows.stage(alloc, near, &batch.rows.lend())?;
    let changes = batch.pending.lend();
    let pending = match shelves.pending.stage(alloc, near_pending, &changes) {
        Ok(pending) => pending,
        Err(e) => {
            shelves.rows = rows.leave();
            return Err(e);
        }
    };
    if let Err(e) = write_rest(alloc, slots, log, batch) {
        shelves.rows = rows.leave();
        shelves.pending = pending.leave();
        return Err(e);
    }
    shelves.rows = rows.make(alloc);
    shelves.pending = pending.make(alloc);
    Ok(())
}

impl RowStore for MapStore {
    ghost use Rattle.std.specs.Prelude.{◌≡◌, ◌<◌, ◌+◌, ◌-◌, ◌^◌, ℕ, ◌↔◌, refl, min, IfOk, IfErr, IsTrue};
    ghost use Rattle.cs_store.specs.Whole.{IsWhole};
    ghost use Rattle.cs_store.specs.Calls.{OnlyReads, Commits, CountsMisread};
    ghost use Rattle.cs_store.specs.Contents.{Contents, HasEachEntry, IsListing, stored_tables, stored_pending, meta_value, log_entry, log_count, log_range};
    ghost use Rattle.cs_store.specs.Written.{after_batch, if_there, items_of, optional_bytes, optional_entry, pairs_of};
    ghost use Rattle.cs_store.specs.declared.fault.StoreFault.TheVariants.{Memory, Device};
    ghost use Rattle.cs_map_store.specs.Slots.{held_by, is_honest, leaves_held, misreads_of};

    ghost contents = { held_by };

    ghost honest = { is_honest };

    ghost failed = { misreads_of };

    ghost may_leave = { leaves_held };

    ghost misreads = { misreads_of };

    ghost leaves = { λ store _. ∣ (store.held, refl) ∣₁ };

    fn get(&mut self, table: u32, key: &[u8]) -> Result<Option<Vec<u8>>, StoreFault>
        ensures found { is_honest self.new → IfOk result (λ row. optional_bytes row ≡ stored_tables self.old.held table key.now) }
        ensures reads { OnlyReads is_honest held_by misreads_of leaves_held misreads_of self.old self.new result }
        ensures memory { IfErr result (λ fault. fault ≡ Memory) }
        ensures count { self.new.misreads ≡ self.old.misreads }
    {
        let place = Place::new(table, key);
        let row = self.shelves.rows.find(self.alloc, &mut self.near, &place)?;
        Ok(row)
    }

    fn get_into(&mut self, table: u32, key: &[u8], row: &mut Vec<u8>) -> Result<bool, StoreFault>
        ensures found { is_honest self.new → IfOk result (λ there. stored_tables self.old.held table key.now ≡ if_there there row.new.items) }
        ensures reads { OnlyReads is_honest held_by misreads_of leaves_held misreads_of self.old self.new result }
        ensures memory { IfErr result (λ fault. fault ≡ Memory) }
        ensures count { self.new.misreads ≡ self.old.misreads }
    {
        let place = Place::new(table, key);
        let there = self.shelves.rows.put(&mut self.near, &place, row)?;
        Ok(there)
    }

    fn list(&mut self, table: u32) -> Result<Vec<StoredBody>, StoreFault>
        ensures listed { is_honest self.new → IfOk result (λ rows. IsListing (stored_tables self.old.held table) (pairs_of rows.items)) }
        ensures reads { OnlyReads is_honest held_by misreads_of leaves_held misreads_of self.old self.new result }
        ensures memory { IfErr result (λ fault. fault ≡ Memory) }
        ensures count { self.new.misreads ≡ self.old.misreads }
    {
        let rows = self.shelves.rows.list(self.alloc, table)?;
        Ok(rows)
    }

    fn pend_get(&mut self, table: u32, key: &[u8]) -> Result<Option<Vec<u8>>, StoreFault>
        ensures found { is_honest self.new → IfOk result (λ change. optional_bytes change ≡ stored_pending self.old.held table key.now) }
        ensures reads { OnlyReads is_honest held_by misreads_of leaves_held misreads_of self.old self.new result }
        ensures memory { IfErr result (λ fault. fault ≡ Memory) }
        ensures count { self.new.misreads ≡ self.old.misreads }
    {
        let place = Place::new(table, key);
        let pending = &self.shelves.pending;
        let change = pending.find(self.alloc, &mut self.near_pending, &place)?;
        Ok(change)
    }

    fn pend_list(&mut self, table: u32) -> Result<Vec<StoredBody>, StoreFault>
        ensures listed { is_honest self.new → IfOk result (λ changes. IsListing (stored_pending self.old.held table) (pairs_of changes.items)) }
        ensures reads { OnlyReads is_honest held_by misreads_of leaves_held misreads_of self.old self.new result }
        ensures memory { IfErr result (λ fault. fault ≡ Memory) }
        ensures count { self.new.misreads ≡ self.old.misreads }
    {
        let changes = self.shelves.pending.list(self.alloc, table)?;
        Ok(changes)
    }

    fn meta(&mut self, name: MetaName) -> Result<Option<Vec<u8>>, StoreFault>
        ensures found { is_honest self.new → IfOk result (λ value. optional_bytes value ≡ meta_value self.old.held name) }
        ensures reads { OnlyReads is_honest held_by misreads_of leaves_held misreads_of self.old self.new result }
        ensures memory { IfErr result (λ fault. fault ≡ Memory) }
        ensures count { self.new.misreads ≡ self.old.misreads }
    {
        let own: SlotKey = (0, Vec::from_slice(self.alloc, name.text().as_bytes())?);
        let value = read_slot(self.alloc, &self.slots, &own)?;
        Ok(value)
    }

    fn log_len(&mut self) -> Result<u32, StoreFault>
        ensures counted { is_honest self.new → IfOk result (λ count. count ≡ log_count self.old.held) }
        ensures reads { OnlyReads is_honest held_by misreads_of leaves_held misreads_of self.old self.new result }
        ensures memory { IfErr result (λ fault. fault ≡ Memory) }
        ensures count { self.new.misreads ≡ self.old.misreads }
    {
        Ok(self.log.len())
    }

    fn log_get(&mut self, version: u32) -> Result<Option<StoredEntry>, StoreFault>
        ensures found { is_honest self.new → IfOk result (λ entry. optional_entry entry ≡ log_entry self.old.held version) }
        ensures reads { OnlyReads is_honest held_by misreads_of leaves_held misreads_of self.old self.new result }
        ensures memory { IfErr result (λ fault. fault ≡ Memory) }
        ensures count { self.new.misreads ≡ self.old.misreads }
    {
        let entry = self.log.get(self.alloc, version)?;
        Ok(entry)
    }

    fn log_list(&mut self, first: u32, count: u32) -> Result<Vec<StoredEntry>, StoreFault>
        requires { first + count < 2 ^ 32 }
        ensures listed { is_honest self.new → IfOk result (λ entries. items_of entries.items ≡ log_range self.old.held first count) }
        ensures reads { OnlyReads is_honest held_by misreads_of leaves_held misreads_of self.old self.new result }
        ensures memory { IfErr result (λ fault. fault ≡ Memory) }
        ensures count { self.new.misreads ≡ self.old.misreads }
    {
        let entries = self.log.list(self.alloc, first, count)?;
        Ok(entries)
    }

    fn log_is_whole(&mut self) -> Result<bool, StoreFault>
        ensures told { is_honest self.new → IfOk result (λ whole. IsTrue whole ↔ HasEachEntry self.old.held) }
        ensures reads { OnlyReads is_honest held_by misreads_of leaves_held misreads_of self.old self.new result }
        ensures memory { IfErr result (λ fault. fault ≡ Memory) }
        ensures count { self.new.misreads ≡ self.old.misreads }
    {
        // An entry's version is its place in the list.
        let _log = &self.log;
        Ok(true)
    }

    fn commit(&mut self, batch: &Batch) -> Result<(), StoreFault>
        ensures commits { Commits is_honest held_by misreads_of leaves_held misreads_of (after_batch batch.now self.old.held) self.old self.new result }
        ensures memory { IfErr result (λ fault. fault ≡ Memory) }
        ensures count { self.new.misreads ≡ self.old.misreads }
    {
        write(
            self.alloc,
            &mut self.shelves,
            self.near,
            self.near_pending,
            &mut self.slots,
            &mut self.log,
            batch,
        )?;
        Ok(())
    }

    fn misread(&mut self) -> StoreFault
        ensures told { result ≡ Device }
        ensures counted { CountsMisread is_honest held_by misreads_of leaves_held misreads_of self.old self.new result }
        ensures count { self.new.misreads ≡ min (self.old.misreads + 1) (2 ^ 64 - 1) }
    {
        self.misreads = self.misreads.saturating_add(1);
        StoreFault::Device
    }

    fn check(&mut self, catalog: &Catalog) -> Result<bool, StoreFault>
        ensures checked { is_honest self.new → IfOk result (λ good. IsTrue good ↔ IsWhole catalog.now self.old.held) }
        ensures reads { OnlyReads is_honest held_by misreads_of leaves_held misreads_of self.old self.new result }
        ensures memory { IfErr result (λ fault. fault ≡ Memory) }
        ensures count { self.new.misreads ≡ self.old.misreads }
    {
        decoding();
        let _ = catalog.tables();
        let Some(present) = check_log(self.alloc, catalog, &self.log)? else {
            return Ok(false);
        };
        // Values have no names but ours, by the type's invariant.
        let catalog = present.catalog();
        let rows = self.shelves.rows.check(self.alloc, catalog, Shelf::Rows)?;
        let pending = self
            .shelves
            .pending
            .check(self.alloc, catalog, Shelf::Pending)?;
        Ok(both_hold(rows, pending))
    }

    fn failures(&self) -> u64 {
        self.misreads
    }
}
