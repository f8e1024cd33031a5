//! What a store owes its callers.

ghost use Rattle.std.specs.Prelude.{◌≡◌, ◌↔◌, ◌+◌, ◌<◌, ◌^◌, ℕ, IfOk, IsTrue};
ghost use Rattle.cs_store.specs.Calls.{OnlyReads, Commits, CountsMisread};
ghost use Rattle.cs_store.specs.Contents.{Contents, HasEachEntry, IsListing, stored_tables, stored_pending, meta_value, log_entry, log_count, log_range};
ghost use Rattle.cs_store.specs.Written.{after_batch, if_there, items_of, optional_bytes, optional_entry, pairs_of};
ghost use Rattle.cs_store.specs.Whole.{IsWhole};
ghost use Rattle.cs_store.specs.declared.fault.StoreFault.TheVariants.{Device};

use crate::{Batch, MetaName, StoreFault, StoredEntry};
use cs_value::Catalog;

/// A body behind the bytes of its key: a row, or a pending change.
#[derive(Debug, Drop)]
pub struct StoredBody {
    /// The bytes of the key.
    pub key: Vec<u8>,
    /// The bytes of the body.
    pub body: Vec<u8>,
}

/// A store of rows, of pending changes at the places of their rows, of values by name and of a log, in bytes. Reads take
/// `&mut self`, since a device's failure raises `failures`. What a call says of contents it says
/// where the store is honest as the call ends. A store that is honest then was so before.
///
/// # Errors
///
/// Each call but `misread` and `failures` may answer `Memory`, where memory was refused, and `Device`. At `Device` the
/// count of failures rose or stands at its last value. At either, what the store holds has not changed.
pub trait RowStore {
    /// What it holds, as far as its calls have told.
    ghost contents: { Self → Contents };

    /// So far the device has returned what was written, and nothing else has written it.
    ghost honest: { Self → Type 0 };

    /// How often the device has failed.
    ghost failed: { Self → ℕ };

    /// What a stop at this moment may leave.
    ghost may_leave: { Self → Contents → Type 0 };

    /// How often `misread` was called, up to 18,446,744,073,709,551,615. No other call changes it.
    ghost misreads: { Self → ℕ };

    /// The row at a table's number and the bytes of a key, if there is one.
    fn get(&mut self, table: u32, key: &[u8]) -> Result<Option<Vec<u8>>, StoreFault>
        ensures found { honest self.new → IfOk result (λ row.
            optional_bytes row ≡ stored_tables (contents self.old) table key.now) }
        ensures reads { OnlyReads honest contents failed may_leave misreads self.old self.new result };

    /// Puts the row at a table's number and the bytes of a key in the list, and tells whether there is one. What was in the list
    /// goes, and the store may use its memory again. Where there is no row, and at an `Err`, the list may hold anything.
    fn get_into(&mut self, table: u32, key: &[u8], row: &mut Vec<u8>) -> Result<bool, StoreFault>
        ensures found { honest self.new → IfOk result (λ there.
            stored_tables (contents self.old) table key.now ≡ if_there there row.new.items) }
        ensures reads { OnlyReads honest contents failed may_leave misreads self.old self.new result }
    {
        let Some(body) = self.get(table, key)? else {
            return Ok(false);
        };
        *row = body;
        Ok(true)
    }

    /// The rows of a table, by ascending bytes of the key.
    fn list(&mut self, table: u32) -> Result<Vec<StoredBody>, StoreFault>
        ensures listed { honest self.new → IfOk result (λ rows.
            IsListing (stored_tables (contents self.old) table) (pairs_of rows.items)) }
        ensures reads { OnlyReads honest contents failed may_leave misreads self.old self.new result };

    /// The pending change at a table's number and the bytes of a key, if there is one.
    fn pend_get(&mut self, table: u32, key: &[u8]) -> Result<Option<Vec<u8>>, StoreFault>
        ensures found { honest self.new → IfOk result (λ change.
            optional_bytes change ≡ stored_pending (contents self.old) table key.now) }
        ensures reads { OnlyReads honest contents failed may_leave misreads self.old self.new result };

    /// The pending changes of a table, by ascending bytes of the key.
    fn pend_list(&mut self, table: u32) -> Result<Vec<StoredBody>, StoreFault>
        ensures listed { honest self.new → IfOk result (λ changes.
            IsListing (stored_pending (contents self.old) table) (pairs_of changes.items)) }
        ensures reads { OnlyReads honest contents failed may_leave misreads self.old self.new result };

    /// The value of a name, if there is one.
    fn meta(&mut self, name: MetaName) -> Result<Option<Vec<u8>>, StoreFault>
        ensures found { honest self.new → IfOk result (λ value.
            optional_bytes value ≡ meta_value (contents self.old) name) }
        ensures reads { OnlyReads honest contents failed may_leave misreads self.old self.new result };

    /// How many entries the log has.
    fn log_len(&mut self) -> Result<u32, StoreFault>
        ensures counted { honest self.new → IfOk result (λ count. count ≡ log_count (contents self.old)) }
        ensures reads { OnlyReads honest contents failed may_leave misreads self.old self.new result };

    /// The entry of the log at a version, the first being 0, if there is one.
    fn log_get(&mut self, version: u32) -> Result<Option<StoredEntry>, StoreFault>
        ensures found { honest self.new → IfOk result (λ entry.
            optional_entry entry ≡ log_entry (contents self.old) version) }
        ensures reads { OnlyReads honest contents failed may_leave misreads self.old self.new result };

    /// The entries of the log from a version on, at most so many, up to the first version that has none.
    fn log_list(&mut self, first: u32, count: u32) -> Result<Vec<StoredEntry>, StoreFault>
        requires { first + count < 2 ^ 32 }
        ensures listed { honest self.new → IfOk result (λ entries. items_of entries.items ≡ log_range (contents self.old) first count) }
        ensures reads { OnlyReads honest contents failed may_leave misreads self.old self.new result };

    /// Whether an entry stands at each version below their count.
    fn log_is_whole(&mut self) -> Result<bool, StoreFault>
        ensures told { honest self.new → IfOk result (λ whole. IsTrue whole ↔ HasEachEntry (contents self.old)) }
        ensures reads { OnlyReads honest contents failed may_leave misreads self.old self.new result };

    /// Writes the batch, whole.
    fn commit(&mut self, batch: &Batch) -> Result<(), StoreFault>
        ensures { Commits honest contents failed may_leave misreads (after_batch batch.now (contents self.old)) self.old self.new result };

    /// Counts a failed call, since what a call gave can't have been written to this store. Such is a body that is no row of
    /// its table, or an entry that doesn't decode. The answer is the fault to tell, `Device`, and nothing else changes.
    fn misread(&mut self) -> StoreFault
        ensures told { result ≡ Device }
        ensures counted { CountsMisread honest contents failed may_leave misreads self.old self.new result };

    /// Whether all that it holds is what its places say. The body of each entry decodes, by the tables that the log opened with and the
    /// entries before it widened. By the tables behind the last entry each row is one of a table, at the table's number and its own key,
    /// and so is each pending change. No value has a name but ours.
    fn check(&mut self, catalog: &Catalog) -> Result<bool, StoreFault>
        ensures checked { honest self.new → IfOk result (λ good. IsTrue good ↔ IsWhole catalog.now (contents self.old)) }
        ensures reads { OnlyReads honest contents failed may_leave misreads self.old self.new result };

    /// How often the device has failed; at 18,446,744,073,709,551,615 the count stays.
    fn failures(&self) -> u64
        ensures { result ≡ failed self.now };

    /// A stop leaves something.
    ghost leaves: { (s : Self) → honest s → ∥ ((left : Contents) × may_leave s left) ∥₁ };
}
