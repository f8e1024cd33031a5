//! Where stores in files come from, and readers of files.

ghost use Rattle.std.specs.Prelude.{List, ℕ, IfErr, IfOk};
ghost use Rattle.cs_store.specs.declared.fault.StoreFault.{StoreFault as Fault};

use cs_sql::SqlStore;
use cs_store::{RowStore, StoreFault};
use cs_tools::InputFiles;
use sqlite::{FileFrom, FileStore, Unknown};
use std::fs::File;
use std::io;
use std::io::BufReader;
use std::rt::HostRuntime;

/// The bytes of the buffer through which a file is read.
const INPUT_BUFFER: usize = 65_536;

/// Opens stores in files, and lets them go.
pub trait Opener {
    /// What it opens.
    type Store: RowStore;

    /// It gave this store for the file at a path.
    ghost gave: { Self → List ℕ → Self.Store → Type 0 };

    /// It gave none for the file at a path, and told this.
    ghost refused: { Self → List ℕ → Fault → Type 0 };

    /// It took this store back.
    ghost took: { Self → Self.Store → Type 0 };

    /// The store in the file at a path, which is made where there is none.
    fn open(&mut self, path: &str) -> Result<Self::Store, StoreFault>
        ensures gave { IfOk result (λ store. gave self.new path.now store) }
        ensures refused { IfErr result (λ fault. refused self.new path.now fault) }
        ensures kept { (path : List ℕ) (one : Self.Store) → gave self.old path one → gave self.new path one };

    /// Lets a store go.
    fn close(&mut self, store: Self::Store)
        ensures took { took self.new store }
        ensures kept { (path : List ℕ) (one : Self.Store) → gave self.old path one → gave self.new path one }
        ensures told { (path : List ℕ) (fault : Fault) → refused self.old path fault → refused self.new path fault }
        ensures still { (one : Self.Store) → took self.old one → took self.new one };
}

/// Opens files of the file system.
#[derive(Drop)]
pub struct Paths<'r> {
    rt: &'r HostRuntime,
}

impl<'r> Paths<'r> {
    /// Those of this runtime.
    pub fn new(rt: &'r HostRuntime) -> Paths<'r> {
        Paths { rt }
    }
}

impl<'r> Opener for Paths<'r> {
    type Store = SqlStore<FileStore<FileFrom<Unknown>>>;

    // What a path's file held is known to the file system alone.
    ghost gave = { λ paths path store. Unit {0} };

    ghost refused = { λ paths path fault. Unit {0} };

    ghost took = { λ paths store. Unit {0} };

    fn open(&mut self, path: &str) -> Result<SqlStore<FileStore<FileFrom<Unknown>>>, StoreFault> {
        match SqlStore::open_path(self.rt, path, Unknown) {
            Ok(store) => Ok(store),
            Err(fault) => Err(fault),
        }
    }

    fn close(&mut self, store: SqlStore<FileStore<FileFrom<Unknown>>>) {
        // Each commit stands in the file's log by now, so a failure here loses nothing.
        let _ = store.close().close();
    }
}

impl<'r> InputFiles for Paths<'r> {
    type Input = BufReader<File>;

    // What a path's file held is known to the file system alone.
    ghost opened = { λ paths path input. Unit {0} };

    ghost unopened = { λ paths path. Unit {0} };

    fn open_input(&mut self, path: &str) -> io::Result<BufReader<File>> {
        let file = File::open(self.rt, path)?;
        BufReader::with_capacity(self.rt.alloc(), INPUT_BUFFER, file)
    }
}
