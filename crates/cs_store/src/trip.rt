//! A store for tests that refuses one call, and counts what is written.

ghost use Rattle.std.specs.Prelude.{◌≡◌, ◌+◌, ◌-◌, ◌<◌, ◌^◌, ℕ, Some, None, Ok, Err, Option, min, ◌↔◌, IfOk, IsTrue, OnOk, OnErr};
ghost use Rattle.cs_store.specs.Trips.{Trips, after_call, at_call, contents_in, failed_in, honest_in, may_leave_in, misreads_in, nothing_written, own_failures, wrote_by};
ghost use Rattle.cs_store.specs.Calls.{OnlyReads, Commits, CountsMisread};
ghost use Rattle.cs_store.specs.Contents.{Contents, HasEachEntry, IsListing, stored_tables, stored_pending, meta_value, log_entry, log_count, log_range};
ghost use Rattle.cs_store.specs.Whole.{IsWhole};
ghost use Rattle.cs_store.specs.Written.{after_batch, items_of, optional_bytes, optional_entry, pairs_of};
ghost use Rattle.cs_store.specs.declared.fault.StoreFault.TheVariants.{Device};

use crate::{Batch, MetaName, RowStore, StoreFault, StoredBody, StoredEntry};
use cs_value::Catalog;

/// How much commits that succeeded have written. Each count stays at 18,446,744,073,709,551,615.
#[derive(Clone, Copy, Debug, PartialEq, Eq)]
pub struct Written {
    /// Edits of rows.
    pub rows: u64,
    /// Edits of pending changes.
    pub pending: u64,
    /// Edits of values by name.
    pub meta: u64,
    /// Entries of the log.
    pub log: u64,
}

impl Written {
    /// Nothing.
    fn nothing() -> Written
        ensures { result ≡ nothing_written }
    {
        Written {
            rows: 0,
            pending: 0,
            meta: 0,
            log: 0,
        }
    }

    /// The counts with those of a batch.
    fn with(self, batch: &Batch) -> Written
        ensures { result ≡ wrote_by self batch.now }
    {
        let entries = if batch.log.is_some() { 1 } else { 0 };
        Written {
            rows: self.rows.saturating_add(batch.rows.len() as u64),
            pending: self.pending.saturating_add(batch.pending.len() as u64),
            meta: self.meta.saturating_add(batch.meta.len() as u64),
            log: self.log.saturating_add(entries),
        }
    }
}

/// A store for tests, also of the crates above. It passes so many calls on, answers the next one `Device` with nothing
/// changed, and passes on again. `misread` and `failures` are passed on always, and aren't counted among the calls. It counts
/// what commits that succeed write.
#[derive(Drop)]
pub struct Trip<S> {
    /// The store that is asked.
    pub inner: S,
    /// How many calls are still passed on before the one that is refused; none after it.
    pub passes: Option<u64>,
    /// What commits that succeeded have written.
    pub wrote: Written,
}

impl<S: RowStore> Trip<S> {
    /// Refuses the call behind the first `passes`.
    pub fn new(inner: S, passes: u64) -> Trip<S>
        ensures inner { result.inner ≡ inner }
        ensures passes { result.passes ≡ Some passes }
        ensures wrote { result.wrote ≡ nothing_written }
    {
        Trip {
            inner,
            passes: Some(passes),
            wrote: Written::nothing(),
        }
    }

    /// What commits that succeeded have written.
    pub fn written(&self) -> Written
        ensures { result ≡ self.now.wrote }
    {
        self.wrote
    }
}

/// Counts a call, or refuses it.
fn pass(passes: &mut Option<u64>) -> Result<(), StoreFault>
    ensures left { passes.new ≡ after_call passes.old }
    ensures passed { OnOk result (own_failures passes.new ≡ own_failures passes.old) }
    ensures refused { OnErr result ((own_failures passes.old ≡ 0) × (own_failures passes.new ≡ 1)) }
    ensures call { at_call passes.old (result ≡ Err Device) (result ≡ Ok tt) }
{
    match *passes {
        None => Ok(()),
        Some(0) => {
            *passes = None;
            Err(StoreFault::Device)
        }
        Some(left) => {
            *passes = Some(left - 1);
            Ok(())
        }
    }
}

impl<S: RowStore> RowStore for Trip<S> {
    ghost contents = { λ t. S.contents t.inner };

    ghost honest = { λ t. S.honest t.inner };

    ghost failed = { λ t. min (S.failed t.inner + own_failures t.passes) (2 ^ 64 - 1) };

    ghost may_leave = { λ t. S.may_leave t.inner };

    ghost misreads = { λ t. S.misreads t.inner };

    ghost leaves = { λ t. S.leaves t.inner };

    fn get(&mut self, table: u32, key: &[u8]) -> Result<Option<Vec<u8>>, StoreFault>
        ensures found { S.honest self.new.inner → IfOk result (λ row. optional_bytes row ≡ stored_tables (S.contents self.old.inner) table key.now) }
        ensures reads { OnlyReads (honest_in S.honest) (contents_in S.contents) (failed_in S.failed) (may_leave_in S.may_leave) (misreads_in S.misreads) self.old self.new result }
        ensures trips { Trips self.old self.new result (OnlyReads S.honest S.contents S.failed S.may_leave S.misreads self.old.inner self.new.inner result) }
        ensures wrote { self.new.wrote ≡ self.old.wrote }
    {
        pass(&mut self.passes)?;
        self.inner.get(table, key)
    }

    fn list(&mut self, table: u32) -> Result<Vec<StoredBody>, StoreFault>
        ensures listed { S.honest self.new.inner → IfOk result (λ rows. IsListing (stored_tables (S.contents self.old.inner) table) (pairs_of rows.items)) }
        ensures reads { OnlyReads (honest_in S.honest) (contents_in S.contents) (failed_in S.failed) (may_leave_in S.may_leave) (misreads_in S.misreads) self.old self.new result }
        ensures trips { Trips self.old self.new result (OnlyReads S.honest S.contents S.failed S.may_leave S.misreads self.old.inner self.new.inner result) }
        ensures wrote { self.new.wrote ≡ self.old.wrote }
    {
        pass(&mut self.passes)?;
        self.inner.list(table)
    }

    fn pend_get(&mut self, table: u32, key: &[u8]) -> Result<Option<Vec<u8>>, StoreFault>
        ensures found { S.honest self.new.inner → IfOk result (λ change. optional_bytes change ≡ stored_pending (S.contents self.old.inner) table key.now) }
        ensures reads { OnlyReads (honest_in S.honest) (contents_in S.contents) (failed_in S.failed) (may_leave_in S.may_leave) (misreads_in S.misreads) self.old self.new result }
        ensures trips { Trips self.old self.new result (OnlyReads S.honest S.contents S.failed S.may_leave S.misreads self.old.inner self.new.inner result) }
        ensures wrote { self.new.wrote ≡ self.old.wrote }
    {
        pass(&mut self.passes)?;
        self.inner.pend_get(table, key)
    }

    fn pend_list(&mut self, table: u32) -> Result<Vec<StoredBody>, StoreFault>
        ensures listed { S.honest self.new.inner → IfOk result (λ changes. IsListing (stored_pending (S.contents self.old.inner) table) (pairs_of changes.items)) }
        ensures reads { OnlyReads (honest_in S.honest) (contents_in S.contents) (failed_in S.failed) (may_leave_in S.may_leave) (misreads_in S.misreads) self.old self.new result }
        ensures trips { Trips self.old self.new result (OnlyReads S.honest S.contents S.failed S.may_leave S.misreads self.old.inner self.new.inner result) }
        ensures wrote { self.new.wrote ≡ self.old.wrote }
    {
        pass(&mut self.passes)?;
        self.inner.pend_list(table)
    }

    fn meta(&mut self, name: MetaName) -> Result<Option<Vec<u8>>, StoreFault>
        ensures found { S.honest self.new.inner → IfOk result (λ value. optional_bytes value ≡ meta_value (S.contents self.old.inner) name) }
        ensures reads { OnlyReads (honest_in S.honest) (contents_in S.contents) (failed_in S.failed) (may_leave_in S.may_leave) (misreads_in S.misreads) self.old self.new result }
        ensures trips { Trips self.old self.new result (OnlyReads S.honest S.contents S.failed S.may_leave S.misreads self.old.inner self.new.inner result) }
        ensures wrote { self.new.wrote ≡ self.old.wrote }
    {
        pass(&mut self.passes)?;
        self.inner.meta(name)
    }

    fn log_len(&mut self) -> Result<u32, StoreFault>
        ensures counted { S.honest self.new.inner → IfOk result (λ count. count ≡ log_count (S.contents self.old.inner)) }
        ensures reads { OnlyReads (honest_in S.honest) (contents_in S.contents) (failed_in S.failed) (may_leave_in S.may_leave) (misreads_in S.misreads) self.old self.new result }
        ensures trips { Trips self.old self.new result (OnlyReads S.honest S.contents S.failed S.may_leave S.misreads self.old.inner self.new.inner result) }
        ensures wrote { self.new.wrote ≡ self.old.wrote }
    {
        pass(&mut self.passes)?;
        self.inner.log_len()
    }

    fn log_get(&mut self, version: u32) -> Result<Option<StoredEntry>, StoreFault>
        ensures found { S.honest self.new.inner → IfOk result (λ entry. optional_entry entry ≡ log_entry (S.contents self.old.inner) version) }
        ensures reads { OnlyReads (honest_in S.honest) (contents_in S.contents) (failed_in S.failed) (may_leave_in S.may_leave) (misreads_in S.misreads) self.old self.new result }
        ensures trips { Trips self.old self.new result (OnlyReads S.honest S.contents S.failed S.may_leave S.misreads self.old.inner self.new.inner result) }
        ensures wrote { self.new.wrote ≡ self.old.wrote }
    {
        pass(&mut self.passes)?;
        self.inner.log_get(version)
    }

    fn log_list(&mut self, first: u32, count: u32) -> Result<Vec<StoredEntry>, StoreFault>
        requires { first + count < 2 ^ 32 }
        ensures listed { S.honest self.new.inner → IfOk result (λ entries. items_of entries.items ≡ log_range (S.contents self.old.inner) first count) }
        ensures reads { OnlyReads (honest_in S.honest) (contents_in S.contents) (failed_in S.failed) (may_leave_in S.may_leave) (misreads_in S.misreads) self.old self.new result }
        ensures trips { Trips self.old self.new result (OnlyReads S.honest S.contents S.failed S.may_leave S.misreads self.old.inner self.new.inner result) }
        ensures wrote { self.new.wrote ≡ self.old.wrote }
    {
        pass(&mut self.passes)?;
        self.inner.log_list(first, count)
    }

    fn log_is_whole(&mut self) -> Result<bool, StoreFault>
        ensures told { S.honest self.new.inner → IfOk result (λ whole. IsTrue whole ↔ HasEachEntry (S.contents self.old.inner)) }
        ensures reads { OnlyReads (honest_in S.honest) (contents_in S.contents) (failed_in S.failed) (may_leave_in S.may_leave) (misreads_in S.misreads) self.old self.new result }
        ensures trips { Trips self.old self.new result (OnlyReads S.honest S.contents S.failed S.may_leave S.misreads self.old.inner self.new.inner result) }
        ensures wrote { self.new.wrote ≡ self.old.wrote }
    {
        pass(&mut self.passes)?;
        self.inner.log_is_whole()
    }

    fn commit(&mut self, batch: &Batch) -> Result<(), StoreFault>
        ensures commits { Commits (honest_in S.honest) (contents_in S.contents) (failed_in S.failed) (may_leave_in S.may_leave) (misreads_in S.misreads)
            (after_batch batch.now (S.contents self.old.inner)) self.old self.new result }
        ensures trips { Trips self.old self.new result (Commits S.honest S.contents S.failed S.may_leave S.misreads
            (after_batch batch.now (S.contents self.old.inner)) self.old.inner self.new.inner result) }
        ensures wrote { OnOk result (self.new.wrote ≡ wrote_by self.old.wrote batch.now) }
        ensures kept { OnErr result (self.new.wrote ≡ self.old.wrote) }
    {
        pass(&mut self.passes)?;
        self.inner.commit(batch)?;
        self.wrote = self.wrote.with(batch);
        Ok(())
    }

    fn misread(&mut self) -> StoreFault
        ensures told { result ≡ Device }
        ensures counted { CountsMisread (honest_in S.honest) (contents_in S.contents) (failed_in S.failed) (may_leave_in S.may_leave) (misreads_in S.misreads) self.old self.new result }
        ensures passed { CountsMisread S.honest S.contents S.failed S.may_leave S.misreads self.old.inner self.new.inner result }
        ensures passes { self.new.passes ≡ self.old.passes }
        ensures wrote { self.new.wrote ≡ self.old.wrote }
    {
        self.inner.misread()
    }

    fn check(&mut self, catalog: &Catalog) -> Result<bool, StoreFault>
        ensures checked { S.honest self.new.inner → IfOk result (λ good. IsTrue good ↔ IsWhole catalog.now (S.contents self.old.inner)) }
        ensures reads { OnlyReads (honest_in S.honest) (contents_in S.contents) (failed_in S.failed) (may_leave_in S.may_leave) (misreads_in S.misreads) self.old self.new result }
        ensures trips { Trips self.old self.new result (OnlyReads S.honest S.contents S.failed S.may_leave S.misreads self.old.inner self.new.inner result) }
        ensures wrote { self.new.wrote ≡ self.old.wrote }
    {
        pass(&mut self.passes)?;
        self.inner.check(catalog)
    }

    fn failures(&self) -> u64 {
        let tripped = if self.passes.is_none() { 1 } else { 0 };
        self.inner.failures().saturating_add(tripped)
    }
}
