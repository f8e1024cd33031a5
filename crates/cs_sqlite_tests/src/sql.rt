//! Stores in SQLite, in memory, beside what was written by hand, and databases that SQL made, of which some are no store's.

use cs_sql::SqlStore;
use cs_store::{RowStore, StoreFault};
use cs_store_cases::{HELD, NOTHING_SHOWN, image_of, is_found, shows, shows_commits};
use sqlite::{Alter, Connection, Error, MemStore};
use std::alloc::Global;

/// What is asked of a store that holds nothing. It is what it shows behind commits, whether it is whole where it holds this, and how it
/// counts.
#[derive(Clone, Copy)]
enum Asks {
    Commits,
    Held(usize),
    Misread,
}

/// Whether a misread is told as the device's, is counted, and leaves a new store as it was.
fn counts_a_misread<S: RowStore + Drop>(alloc: Global, store: S) -> bool {
    let mut store = store;
    let before = store.failures();
    let told = store.misread();
    let counted = before == 0 && told == StoreFault::Device && store.failures() == 1;
    counted && shows(alloc, &mut store, NOTHING_SHOWN) == Ok(true)
}

fn is_so_of<S: RowStore + Drop>(alloc: Global, store: S, asks: Asks) -> bool {
    match asks {
        Asks::Commits => shows_commits(alloc, store),
        Asks::Held(at) => match HELD.get(at) {
            Some(held) => is_found(alloc, store, held),
            None => false,
        },
        Asks::Misread => counts_a_misread(alloc, store),
    }
}

/// Whether that is so of a store in memory. What handles one is dear to prove, so this does nothing else.
fn is_so(alloc: Global, asks: Asks) -> bool {
    match SqlStore::open_memory(alloc) {
        Ok(store) => is_so_of(alloc, store, asks),
        Err(_) => false,
    }
}

#[test]
fn a_store_in_memory_shows_what_was_committed(rt: HostRuntime) {
    assert!(rt; is_so(rt.alloc(), Asks::Commits));
    assert!(rt; is_so(rt.alloc(), Asks::Misread));
}

#[test]
fn a_store_is_whole_where_all_is_what_its_place_says(rt: HostRuntime) {
    for at in 0..HELD.len() {
        assert!(rt; is_so(rt.alloc(), Asks::Held(at)));
    }
}

/// What SQL makes: the three tables of a store that had no `pending`, a row, a value and two entries.
const FRONT: &str =
    "CREATE TABLE rows (tab INTEGER NOT NULL, key BLOB NOT NULL, body BLOB NOT NULL, PRIMARY KEY (tab, key)) STRICT;
CREATE TABLE meta (name TEXT NOT NULL PRIMARY KEY, body BLOB NOT NULL) STRICT;
CREATE TABLE log (version INTEGER PRIMARY KEY, origin INTEGER NOT NULL, number INTEGER NOT NULL, body BLOB NOT NULL) STRICT;
INSERT INTO rows VALUES (7, x'31', x'61');
INSERT INTO meta VALUES ('id', x'69');
INSERT INTO log VALUES (0, 7, 1, x'6f');
INSERT INTO log VALUES (1, 4294967295, -1, x'74');";

/// The same with the table, so that it is a store's.
const PENDING: &str =
    "CREATE TABLE pending (tab INTEGER NOT NULL, key BLOB NOT NULL, body BLOB NOT NULL, PRIMARY KEY (tab, key)) STRICT";

const FRONT_SHOWN: &[u8] = b"||1=a;||||||||i|.|.|.|.|.|7.1=o;4294967295.18446744073709551615=t;|";

/// Runs SQL, each text one after another.
fn run<A: Alter>(conn: &mut Connection<A>, texts: &[&str]) -> Result<(), Error> {
    for text in texts {
        conn.execute_batch(*text)?;
    }
    Ok(())
}

/// A database in memory that this SQL made.
fn made(alloc: Global, texts: &[&str]) -> Option<Connection<MemStore>> {
    let mut conn = Connection::open_in_memory(alloc).ok()?;
    run(&mut conn, texts).ok()?;
    Some(conn)
}

/// How many tables a database has.
fn tables_in<A: Alter>(conn: &mut Connection<A>) -> Option<i64> {
    conn.query_row(
        "SELECT count(*) FROM sqlite_schema WHERE type = 'table'",
        &[],
    )
    .ok()?
    .get(0)
    .ok()
}

/// What becomes of a database that this SQL made: what a store shows that adopts it. Where it is refused as `Device` and given back, it is
/// how many tables it has.
fn adopted(alloc: Global, texts: &[&str]) -> Option<Result<Vec<u8>, i64>> {
    let conn = made(alloc, texts)?;
    if !conn.is_autocommit() {
        return None;
    }
    match SqlStore::adopt(alloc, conn) {
        Ok(store) => Some(Ok(image_of(alloc, store)?)),
        Err((mut conn, StoreFault::Device)) => Some(Err(tables_in(&mut conn)?)),
        Err(_) => None,
    }
}

fn becomes(alloc: Global, texts: &[&str], wanted: Result<&[u8], i64>) -> bool {
    match (adopted(alloc, texts), wanted) {
        (Some(Ok(image)), Ok(shown)) => image.as_slice() == shown,
        (Some(Err(tables)), Err(left)) => tables == left,
        _ => false,
    }
}

/// A fresh database, a store from before pending changes had a table, a store, another's, and a store whose log lacks its first entry. Of the
/// last none is listed, and the log isn't whole.
#[test]
fn a_database_that_was_found_is_judged(rt: HostRuntime) {
    let cases: [(&[&'static str], Result<&'static [u8], i64>); 5] = [
        (&[], Ok(NOTHING_SHOWN)),
        (&[FRONT], Ok(FRONT_SHOWN)),
        (&[FRONT, PENDING], Ok(FRONT_SHOWN)),
        (&["CREATE TABLE note (id INTEGER PRIMARY KEY)"], Err(1)),
        (
            &[FRONT, PENDING, "DELETE FROM log WHERE version = 0"],
            Ok(b"||1=a;||||||||i|.|.|.|.|.|!|"),
        ),
    ];
    for (texts, wanted) in cases {
        assert!(rt; becomes(rt.alloc(), texts, wanted));
    }
}
