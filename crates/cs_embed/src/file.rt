//! A store in the bytes of a file.

ghost use Rattle.std.specs.Prelude.{◌≡◌, false, IfOk, IsTrue};
ghost use Rattle.sqlite.specs.Files.{IsOpened, file_state, over_files};
ghost use Rattle.sqlite.specs.Start.{FindsIn};
ghost use Rattle.sqlite.specs.State.{HasCleanDisk};
ghost use Rattle.sqlite_disk.specs.Memory.{memory_bytes, memory_is_usable};
ghost use Rattle.cs_sql.specs.Keeping.{holds};
ghost use Rattle.cs_sql.specs.Opening.{IsOpenedAt};
ghost use Rattle.cs_embed.specs.Files.{HoldTrees, KeepStore, OpenTo, alone};
ghost use Rattle.cs_embed.specs.Watched.{inner_of};

use crate::watched::Watched;
use cs_sql::SqlStore;
use cs_store::StoreFault;
use sqlite::{Connection, Error, ErrorCode, FileStore, Files, Options};
use sqlite_disk::{Disk, Memory};
use std::alloc::Global;
use std::io;

/// What the log's frames are told apart by. The log begins empty and is copied into the file before that is handed over, so any
/// number will do.
const SALT: u64 = 7;

/// A file in memory.
pub type File = Watched<Memory>;

/// A store over a file in memory.
pub type Filed = SqlStore<FileStore<File>>;

/// A file in memory that holds these bytes.
fn memory_of(alloc: Global, bytes: &[u8]) -> io::Result<Memory>
    ensures usable { IfOk result (λ file. IsTrue (memory_is_usable file)) }
    ensures bytes { IfOk result (λ file. memory_bytes file ≡ bytes.now) }
{
    let mut file = Memory::new(alloc);
    file.write_at(0, bytes)?;
    file.sync()?;
    Ok(file)
}

/// What an error of an opening is told as. A file in memory fails for want of memory alone.
fn opening_fault(error: &Error) -> StoreFault {
    match error {
        Error::SqliteFailure(ErrorCode::OutOfMemory | ErrorCode::SystemIoFailure) => {
            StoreFault::Memory
        }
        _ => StoreFault::Device,
    }
}

/// A connection to the database in a file, whose log is empty.
fn connect(alloc: Global, db: Memory) -> Result<Connection<FileStore<File>>, StoreFault>
    requires { IsTrue (memory_is_usable db) }
    ensures idle { IfOk result (λ conn. conn.in_transaction ≡ false) }
    ensures opened { IfOk result (λ conn. HasCleanDisk (file_state conn) → IsOpened conn) }
    ensures found { IfOk result (λ conn. HasCleanDisk (file_state conn) → FindsIn (alone (memory_bytes db)) (file_state conn)) }
{
    let files = Files {
        log: Watched::new(Memory::new(alloc)),
        db: Watched::new(db),
    };
    match Connection::open_files(alloc, files, Options::new(SALT)) {
        Ok(conn) => Ok(conn),
        Err((error, _)) => Err(opening_fault(&error)),
    }
}

/// The database file of two of which no write failed. Else memory was wanting.
fn unless_failed(files: Files<File>) -> Result<File, StoreFault>
    ensures { IfOk result (λ db. db ≡ files.db) }
{
    if files.log.has_failed() || files.db.has_failed() {
        return Err(StoreFault::Memory);
    }
    Ok(files.db)
}

/// The file of a connection, with the log copied in.
fn disconnect(conn: Connection<FileStore<File>>) -> Result<File, StoreFault>
    ensures clean { IfOk result (λ _. HasCleanDisk (file_state conn)) }
    ensures was_open { IfOk result (λ _. IsTrue (file_state conn).is_open) }
    ensures left { IfOk result (λ file. HoldTrees (memory_bytes (inner_of file)) (file_state conn).committed.trees) }
{
    match conn.close_files() {
        Ok(files) => unless_failed(files),
        Err((Error::SqliteFailure(ErrorCode::OutOfMemory), _)) => Err(StoreFault::Memory),
        Err((_, store)) => match unless_failed(store.close()) {
            Ok(_) => Err(StoreFault::Device),
            Err(fault) => Err(fault),
        },
    }
}

/// Why a connection is no store's: where memory was wanting for its file, that, and else this.
fn unadopted(conn: Connection<FileStore<File>>, fault: StoreFault) -> StoreFault {
    match disconnect(conn) {
        Ok(_) => fault,
        Err(why) => why,
    }
}

/// The store in a file of these bytes. One of no bytes is new.
pub fn open_file(alloc: Global, bytes: &[u8]) -> Result<Filed, StoreFault>
    ensures opened { IfOk result (λ store. HasCleanDisk (file_state store.conn) → IsOpenedAt (alone bytes.now) store) }
    ensures holds { IfOk result (λ store. HasCleanDisk (file_state store.conn) → OpenTo bytes.now (holds over_files store)) }
{
    let Ok(db) = memory_of(alloc, bytes) else {
        return Err(StoreFault::Memory);
    };
    let conn = connect(alloc, db)?;
    match SqlStore::adopt(alloc, conn) {
        Ok(store) => Ok(store),
        Err((conn, fault)) => Err(unadopted(conn, fault)),
    }
}

/// The file as the store left it, with the log copied in. Where memory was wanting for the file, also earlier on, there is none.
pub fn close_file(store: Filed) -> Result<File, StoreFault>
    ensures clean { IfOk result (λ _. HasCleanDisk (file_state store.conn)) }
    ensures was_open { IfOk result (λ _. IsTrue (file_state store.conn).is_open) }
    ensures left { IfOk result (λ file. HoldTrees (memory_bytes (inner_of file)) (file_state store.conn).committed.trees) }
    ensures holds { IfOk result (λ file. KeepStore (memory_bytes (inner_of file)) (holds over_files store)) }
{
    disconnect(store.close())
}
