//! A store over a connection.

ghost use Rattle.std.specs.Prelude.{◌≡◌, ◌⊎◌, ◌<◌, ◌^◌, false, IfErr, IfOk, IfSome, IsTrue};
ghost use Rattle.sqlite.specs.Files.{file_state, over_files};
ghost use Rattle.sqlite.specs.Held.{state};
ghost use Rattle.sqlite.specs.State.{HasCleanDisk, Survives};
ghost use Rattle.sqlite.specs.Steps.{over_memory};
ghost use Rattle.sqlite.specs.WalFiles.{image_at};
ghost use Rattle.cs_store.specs.Contents.{nothing};
ghost use Rattle.cs_store.specs.Written.{optional_entry};
ghost use Rattle.cs_sql.specs.schema.Schemas.{no_schema, front_schema};
ghost use Rattle.cs_sql.specs.statements.Tables.{contents_in};
ghost use Rattle.cs_sql.specs.statements.Steps.{IsReady};
ghost use Rattle.cs_sql.specs.statements.Found.{IsFrontKept, IsLogOf, front_in};
ghost use Rattle.cs_sql.specs.Causes.{EngineFails};
ghost use Rattle.cs_sql.specs.Keeping.{IsAdopted, IsAt, IsFresh, IsGivenBack, IsMadeOf, IsToldAs, LeavesHeld, LeavesStore, ShowsForeign, ShowsStore, count_with, holds, made_over};
ghost use Rattle.cs_sql.specs.Opening.{IsOpenedAt, OpenedHolds, TellsWhy};

use crate::schema::{complete, lay_out};
use crate::statements::{
    Found, LogFound, Space, check_store, commit_batch, list_at, list_log, look, read_at, read_log,
    read_meta,
};
use cs_store::{Batch, MetaName, RowStore, StoreFault, StoredBody, StoredEntry};
use cs_value::Catalog;
use sqlite::{Alter, Connection, Error, ErrorCode, FileFrom, FileStore, MemStore, Start};
use std::alloc::Global;
use std::marker::Model;
use std::rt::HostRuntime;
use std::snapshot::Snapshot;

/// A store of rows, pending changes, values and a log in the tables of a connection of `sqlite`. Each commit is one
/// transaction, whatever the batch. A call of `sqlite` that fails for another reason than want of memory is counted as a
/// failure of the device.
#[derive(Drop)]
pub struct SqlStore<A: Alter> {
    conn: Connection<A>,
    /// What the connection held when a commit last succeeded: what it shows where it is still open.
    last: Snapshot<Connection<A>>,
    /// What is so of the log.
    log: LogFound,
    failures: u64,
    misreads: u64,
    alloc: Global,
}

impl<A: Alter> Model for SqlStore<A> {
    ghost use Rattle.cs_sql.specs.Keeping.{Kept, kept_code, IsSteady};

    ghost Value = { Kept A };

    ghost coded = { kept_code A.code };

    ghost view = { λ s. record { conn = s.conn; last = s.last.value; log = s.log; failures = s.failures; misreads = s.misreads } };

    ghost invariant = { λ s. IsSteady A.Store s.conn s.last.value s.log };
}

/// What a fault of `sqlite` is told as. One that isn't want of memory is counted.
fn fault_of(error: &Error, failures: &mut u64) -> StoreFault
    ensures told { IsToldAs result failures.old failures.new }
    ensures memory { error.now ≡ Error.SqliteFailure ErrorCode.OutOfMemory → result ≡ StoreFault.Memory }
{
    if let Error::SqliteFailure(ErrorCode::OutOfMemory) = error {
        return StoreFault::Memory;
    }
    *failures = failures.saturating_add(1);
    StoreFault::Device
}

/// How many entries the log has with the batch's.
fn entries_with(entries: u32, batch: &Batch) -> Option<u32>
    ensures { IfSome result (λ count. (count ≡ count_with entries (optional_entry batch.now.log)) × (count < 2 ^ 32)) }
{
    match &batch.log {
        Some(_) => entries.checked_add(1),
        None => Some(entries),
    }
}

impl SqlStore<MemStore> {
    /// A store in memory that holds nothing.
    ///
    /// # Errors
    ///
    /// `Memory` alone, where memory was refused.
    pub fn open_memory(alloc: Global) -> Result<SqlStore<MemStore>, StoreFault>
        ensures made { IfOk result (λ s. IsFresh over_memory s nothing) }
        ensures memory { IfErr result (λ fault. fault ≡ StoreFault.Memory) }
    {
        let conn = Connection::open_in_memory(alloc)?;
        match SqlStore::make(alloc, conn) {
            Ok(store) => Ok(store),
            Err((_, fault)) => Err(fault),
        }
    }
}

impl<A: Alter> SqlStore<A> {
    /// A store over a connection on the store's tables, as the last commit left it.
    fn over(alloc: Global, conn: Connection<A>, log: LogFound) -> SqlStore<A>
        requires idle { conn.in_transaction ≡ false }
        requires ready { HasCleanDisk (state A.Store conn) → IsReady (state A.Store conn) }
        requires log { HasCleanDisk (state A.Store conn) → IsLogOf (contents_in (state A.Store conn).now.trees) log }
        requires open { HasCleanDisk (state A.Store conn) → IsTrue (state A.Store conn).is_open }
        ensures made { result ≡ made_over conn log }
        ensures opens { HasCleanDisk (state A.Store conn) → LeavesStore (state A.Store conn) }
    {
        let _ = conn.schema();
        let last = Snapshot::of(&conn);
        SqlStore {
            conn,
            last,
            log,
            failures: 0,
            misreads: 0,
            alloc,
        }
    }

    /// A store that holds nothing, over a connection to a database that has no table.
    fn make(
        alloc: Global,
        mut conn: Connection<A>,
    ) -> Result<SqlStore<A>, (Connection<A>, StoreFault)>
        requires idle { conn.in_transaction ≡ false }
        requires fresh { HasCleanDisk (state A.Store conn) → IsAt no_schema (state A.Store conn) }
        ensures made { IfOk result (λ s. HasCleanDisk (state A.Store s.conn) → IsFresh A.Store s nothing) }
        ensures survives { IfOk result (λ s. Survives (state A.Store conn) (state A.Store s.conn) (IsMadeOf (state A.Store conn).now)) }
        ensures kept { IfErr result (λ e. IsGivenBack A.Store (state A.Store conn) e.0) }
        ensures cause { IfErr result (λ e. HasCleanDisk (state A.Store e.0) → e.1 ≡ StoreFault.Device → EngineFails (state A.Store conn) (state A.Store e.0)) }
    {
        match lay_out(&mut conn) {
            Ok(()) => {
                let log = LogFound {
                    entries: 0,
                    is_whole: true,
                };
                Ok(SqlStore::over(alloc, conn, log))
            }
            Err(error) => Err((conn, fault_of(&error, &mut 0))),
        }
    }

    /// A store over a connection to a database that has the store's tables but for `pending`, of whose log that was found.
    fn extend(
        alloc: Global,
        mut conn: Connection<A>,
        log: LogFound,
    ) -> Result<SqlStore<A>, (Connection<A>, StoreFault)>
        requires idle { conn.in_transaction ≡ false }
        requires front { HasCleanDisk (state A.Store conn) → IsAt front_schema (state A.Store conn) }
        requires kept { HasCleanDisk (state A.Store conn) → IsFrontKept (state A.Store conn).now.trees }
        requires log { HasCleanDisk (state A.Store conn) → IsLogOf (front_in (state A.Store conn).now.trees) log }
        ensures made { IfOk result (λ s. HasCleanDisk (state A.Store s.conn) → IsFresh A.Store s (front_in (state A.Store conn).now.trees)) }
        ensures survives { IfOk result (λ s. Survives (state A.Store conn) (state A.Store s.conn) (IsMadeOf (state A.Store conn).now)) }
        ensures kept { IfErr result (λ e. IsGivenBack A.Store (state A.Store conn) e.0) }
        ensures cause { IfErr result (λ e. HasCleanDisk (state A.Store e.0) → e.1 ≡ StoreFault.Device → EngineFails (state A.Store conn) (state A.Store e.0)) }
    {
        match complete(&mut conn) {
            Ok(()) => Ok(SqlStore::over(alloc, conn, log)),
            Err(error) => Err((conn, fault_of(&error, &mut 0))),
        }
    }

    /// A store over a connection that the caller opened and that is in no transaction. It holds what the connection shows; a
    /// database without a table gets the store's, and one that has all but `pending` gets that.
    ///
    /// # Errors
    ///
    /// `Memory`, where `sqlite` answered that. `Device`, where it failed otherwise: its disk failed, the connection was shut, or
    /// a query took more steps than the caller allows (`EngineFails`). `Device` too, where the database is another's
    /// (`IsFound Foreign`). Then its schema isn't the store's, rowids aren't numbers apart, or the log has more entries than
    /// there are versions. No database of another is taken, and nothing is written to one. A log whose versions have gaps is
    /// taken as it is, and `log_is_whole` tells. The connection is given back as it was, and what a stop leaves of it opens as
    /// it would have before (`LeavesHeld`).
    pub fn adopt(
        alloc: Global,
        mut conn: Connection<A>,
    ) -> Result<SqlStore<A>, (Connection<A>, StoreFault)>
        requires idle { conn.in_transaction ≡ false }
        ensures adopted { IfOk result (λ s. HasCleanDisk (state A.Store s.conn) → IsAdopted A.Store (state A.Store conn) s) }
        ensures survives { IfOk result (λ s. Survives (state A.Store conn) (state A.Store s.conn) (IsMadeOf (state A.Store conn).now)) }
        ensures kept { IfErr result (λ e. IsGivenBack A.Store (state A.Store conn) e.0) }
        ensures cause { IfErr result (λ e. HasCleanDisk (state A.Store e.0) → e.1 ≡ StoreFault.Device → EngineFails (state A.Store conn) (state A.Store e.0) ⊎ ShowsForeign (state A.Store conn)) }
        ensures leaves { IfErr result (λ e. HasCleanDisk (state A.Store e.0) → LeavesHeld (state A.Store conn) (state A.Store e.0)) }
    {
        let _ = conn.is_autocommit();
        let _ = conn.schema();
        match look(&mut conn) {
            Ok(Found::Fresh) => SqlStore::make(alloc, conn),
            Ok(Found::Front(log)) => SqlStore::extend(alloc, conn, log),
            Ok(Found::Ours(log)) => Ok(SqlStore::over(alloc, conn, log)),
            Ok(Found::Foreign) => Err((conn, StoreFault::Device)),
            Err(error) => Err((conn, fault_of(&error, &mut 0))),
        }
    }

    /// That what a stop leaves opens as a store is so of each store.
    pub(crate) fn leaves_store(&self)
        ensures { HasCleanDisk (state A.Store self.now.conn) → LeavesStore (state A.Store self.now.conn) }
    {
        let _ = &self.conn;
    }

    /// The connection, as it is and in no transaction. Where its disk is clean and it is open, what it committed last is a
    /// store's database that holds what the store held. So its files, once they are closed, open as a store that holds that
    /// (`laws::files_open_again`).
    pub fn close(self) -> Connection<A>
        ensures same { result ≡ self.conn }
        ensures idle { result.in_transaction ≡ false }
        ensures shows { HasCleanDisk (state A.Store result) → IsTrue (state A.Store result).is_open → ShowsStore (holds A.Store self) (state A.Store result) }
        ensures opens { HasCleanDisk (state A.Store result) → LeavesStore (state A.Store result) }
    {
        let _ = self.conn.schema();
        self.conn
    }
}

impl<S: Start> SqlStore<FileStore<FileFrom<S>>> {
    /// A store in the file at a path, as `sqlite`'s `open_from` opens it and `adopt` takes it.
    ///
    /// # Errors
    ///
    /// `Memory`, where `sqlite` answered that, and `Device`, where it answered another fault at the open (`is_open_error` lists
    /// them) or `adopt` answers that.
    pub fn open_path(
        rt: &HostRuntime,
        path: &str,
        start: S,
    ) -> Result<SqlStore<FileStore<FileFrom<S>>>, StoreFault>
        ensures opened { IfOk result (λ s. HasCleanDisk (file_state s.conn) → IsOpenedAt (image_at S.Start) s) }
        ensures holds { IfOk result (λ s. HasCleanDisk (file_state s.conn) → OpenedHolds (image_at S.Start) (holds over_files s)) }
        ensures cause { TellsWhy (image_at S.Start) result }
    {
        match Connection::open_from(rt, path, false, start) {
            Ok(conn) => match SqlStore::adopt(rt.alloc(), conn) {
                Ok(store) => Ok(store),
                Err((_, fault)) => Err(fault),
            },
            Err((error, _)) => Err(fault_of(&error, &mut 0)),
        }
    }
}

impl<A: Alter> RowStore for SqlStore<A> {
    ghost use Rattle.std.specs.Prelude.{refl};
    ghost use Rattle.std.proofs.Math.Logic.{∥∥₁_map};
    ghost use Rattle.sqlite.specs.Held.{state};
    ghost use Rattle.sqlite.specs.State.{HasCleanDisk};
    ghost use Rattle.cs_sql.specs.statements.Tables.{contents_in};
    ghost use Rattle.cs_sql.specs.Keeping.{holds, MayLeave};

    ghost contents = { λ s. holds A.Store s };

    ghost honest = { λ s. HasCleanDisk (state A.Store s.conn) };

    ghost failed = { λ s. s.failures };

    ghost may_leave = { λ s. MayLeave A.Store s };

    ghost misreads = { λ s. s.misreads };

    ghost leaves = { λ s clean. ∥∥₁_map (A.Store.survives s.conn.store clean) (λ left. (contents_in left.0, (left.0, left.1, refl))) };

    fn get(&mut self, table: u32, key: &[u8]) -> Result<Option<Vec<u8>>, StoreFault> {
        match read_at(&mut self.conn, Space::Rows, table, key) {
            Ok(body) => Ok(body),
            Err(error) => Err(fault_of(&error, &mut self.failures)),
        }
    }

    fn list(&mut self, table: u32) -> Result<Vec<StoredBody>, StoreFault> {
        match list_at(self.alloc, &mut self.conn, Space::Rows, table) {
            Ok(rows) => Ok(rows),
            Err(error) => Err(fault_of(&error, &mut self.failures)),
        }
    }

    fn pend_get(&mut self, table: u32, key: &[u8]) -> Result<Option<Vec<u8>>, StoreFault> {
        match read_at(&mut self.conn, Space::Pending, table, key) {
            Ok(change) => Ok(change),
            Err(error) => Err(fault_of(&error, &mut self.failures)),
        }
    }

    fn pend_list(&mut self, table: u32) -> Result<Vec<StoredBody>, StoreFault> {
        match list_at(self.alloc, &mut self.conn, Space::Pending, table) {
            Ok(changes) => Ok(changes),
            Err(error) => Err(fault_of(&error, &mut self.failures)),
        }
    }

    fn meta(&mut self, name: MetaName) -> Result<Option<Vec<u8>>, StoreFault> {
        match read_meta(&mut self.conn, name.text()) {
            Ok(value) => Ok(value),
            Err(error) => Err(fault_of(&error, &mut self.failures)),
        }
    }

    fn log_len(&mut self) -> Result<u32, StoreFault> {
        Ok(self.log.entries)
    }

    fn log_get(&mut self, version: u32) -> Result<Option<StoredEntry>, StoreFault> {
        match read_log(&mut self.conn, version) {
            Ok(entry) => Ok(entry),
            Err(error) => Err(fault_of(&error, &mut self.failures)),
        }
    }

    fn log_list(&mut self, first: u32, count: u32) -> Result<Vec<StoredEntry>, StoreFault> {
        match list_log(self.alloc, &mut self.conn, first, count) {
            Ok(entries) => Ok(entries),
            Err(error) => Err(fault_of(&error, &mut self.failures)),
        }
    }

    fn log_is_whole(&mut self) -> Result<bool, StoreFault> {
        Ok(self.log.is_whole)
    }

    fn commit(&mut self, batch: &Batch) -> Result<(), StoreFault> {
        // A log has no more entries than there are versions.
        let Some(entries) = entries_with(self.log.entries, batch) else {
            return Err(StoreFault::Memory);
        };
        match commit_batch(&mut self.conn, batch, self.log.entries) {
            Ok(()) => {
                self.last = Snapshot::of(&self.conn);
                // The new entry stands at the old count, where none stood: it fills no gap and leaves none.
                self.log.entries = entries;
                Ok(())
            }
            Err(error) => Err(fault_of(&error, &mut self.failures)),
        }
    }

    fn misread(&mut self) -> StoreFault {
        self.failures = self.failures.saturating_add(1);
        self.misreads = self.misreads.saturating_add(1);
        StoreFault::Device
    }

    fn check(&mut self, catalog: &Catalog) -> Result<bool, StoreFault> {
        match check_store(self.alloc, &mut self.conn, catalog) {
            Ok(good) => Ok(good),
            Err(error) => Err(fault_of(&error, &mut self.failures)),
        }
    }

    fn failures(&self) -> u64 {
        self.failures
    }
}
