//! The queries, each a function of its own.

ghost use Rattle.std.specs.Prelude.{◌≡◌, ◌↔◌, ◌<◌, ◌+◌, ◌^◌, ◌++◌, ℕ, pos, List, [], ◌∷◌, map, false, IsTrue, IfOk, OnOk};
ghost use Rattle.std.specs.FinMap.{get};
ghost use Rattle.sqlite.specs.Held.{state};
ghost use Rattle.sqlite.specs.Given.{IsPlain};
ghost use Rattle.sqlite.specs.Listing.{understood};
ghost use Rattle.sqlite.specs.Order.{Row as Values};
ghost use Rattle.sqlite.specs.State.{HasCleanDisk, Shown, Survives};
ghost use Rattle.sqlite.specs.Values.{bound};
ghost use Rattle.cs_store.specs.Written.{items_of, optional_bytes, optional_entry, item_of, pairs_of};
ghost use Rattle.cs_store.specs.Contents.{IsListing, log_range};
ghost use Rattle.cs_sql.specs.schema.Schemas.{store_schema};
ghost use Rattle.cs_sql.specs.statements.Tables.{IsKept, contents_in, number_of};
ghost use Rattle.cs_sql.specs.statements.Steps.{AreTaken, IsReady, Stays, first_read, body_read, item_read, pair_read, placed};

use crate::statements::spaces::Space;
use crate::statements::streaming::{Reader, is_place, one_more, probe, read_ready};
use cs_store::{StoredBody, StoredEntry};
use sqlite::{Alter, Connection, Error, Row, params};
use sqlite_value::value::ValueRef;
use std::alloc::Global;

/// The body that an answer shows, if it has a row.
fn body_of(rows: &[Row]) -> Result<Option<Vec<u8>>, Error>
    ensures { IfOk result (λ body. optional_bytes body ≡ first_read body_read rows.now) }
{
    match rows.first() {
        Some(row) => Ok(Some(row.get(0)?)),
        None => Ok(None),
    }
}

/// The number with the same 64 bits that has no sign.
fn unsigned(number: i64) -> u64
    ensures { result ≡ number_of number }
{
    if number >= 0 {
        number as u64
    } else {
        18_446_744_073_709_551_615 - (-1 - number) as u64
    }
}

/// The entry that a row shows.
fn entry_in(row: &Row) -> Result<StoredEntry, Error>
    ensures { IfOk result (λ entry. item_of entry ≡ item_read row.now) }
{
    Ok(StoredEntry {
        origin: row.get(0)?,
        number: unsigned(row.get(1)?),
        body: row.get(2)?,
    })
}

/// The entry that an answer shows, if it has a row.
fn entry_of(rows: &[Row]) -> Result<Option<StoredEntry>, Error>
    ensures { IfOk result (λ entry. optional_entry entry ≡ first_read item_read rows.now) }
{
    match rows.first() {
        Some(row) => Ok(Some(entry_in(row)?)),
        None => Ok(None),
    }
}

/// The keys and the bodies that an answer shows.
fn pairs_in(alloc: Global, rows: &[Row]) -> Result<Vec<StoredBody>, Error>
    ensures { IfOk result (λ pairs. pairs_of pairs.items ≡ map pair_read rows.now) }
{
    let mut pairs = Vec::with_capacity(alloc, rows.len())?;
    for row in rows {
        pairs.push(StoredBody {
            key: row.get(0)?,
            body: row.get(1)?,
        })?;
    }
    Ok(pairs)
}

/// Entries of the log, as they are read of the rows that show them.
#[derive(Drop)]
pub(crate) struct Entries {
    entries: Vec<StoredEntry>,
    /// The version of the next.
    next: u64,
    /// Whether a row showed another version.
    has_ended: bool,
}

impl Entries {
    /// No entries, the first having this version.
    fn new(alloc: Global, first: u32) -> Entries
        ensures { AreTaken first result [] }
    {
        Entries {
            entries: Vec::new(alloc),
            next: first as u64,
            has_ended: false,
        }
    }

    /// Whether an entry at the version is the next.
    fn takes(&self, version: i64) -> bool
        ensures { IsTrue result ↔ ((self.now.has_ended ≡ false) × (version ≡ pos self.now.next)) }
    {
        !self.has_ended && is_place(version, self.next)
    }

    /// The entry that a row shows, where its version is the next.
    fn take(&mut self, row: &Row) -> Result<(), Error>
        ensures { OnOk result ((first : ℕ) (rows : List Values) → AreTaken first self.old rows → AreTaken first self.new (rows ++ row.now ∷ [])) }
    {
        let version: i64 = row.get(3)?;
        if self.takes(version) {
            self.next = one_more(self.next)?;
            self.entries.push(entry_in(row)?)?;
            Ok(())
        } else {
            self.has_ended = true;
            Ok(())
        }
    }
}

impl Reader for Entries {
    ghost use Rattle.std.specs.Prelude.{ℕ, []};
    ghost use Rattle.cs_sql.specs.statements.Steps.{AreTaken};

    ghost has_read = { λ start taken rows. (first : ℕ) → AreTaken first start [] → AreTaken first taken rows };

    ghost tells = { λ _. Unit {0} };

    fn read(&mut self, row: &Row) -> Result<(), Error> {
        self.take(row)
    }
}

/// The rows that a query on the store's tables shows, between two transactions.
fn query_ready<S: Alter>(
    conn: &mut Connection<S>,
    sql: &str,
    params: &[ValueRef<'_>],
) -> Result<Vec<Row>, Error>
    requires idle { conn.old.in_transaction ≡ false }
    requires ready { HasCleanDisk (state S.Store conn.old) → IsTrue (state S.Store conn.old).is_open → IsReady (state S.Store conn.old) }
    requires plain { IsPlain (understood store_schema sql.now) }
    ensures idle { conn.new.in_transaction ≡ false }
    ensures ok { HasCleanDisk (state S.Store conn.new) → IfOk result (λ rows. IsTrue (state S.Store conn.old).is_open × IsKept (state S.Store conn.old).now × Shown sql.now (bound params.now) (state S.Store conn.old) (state S.Store conn.new) rows.items) }
    ensures same { HasCleanDisk (state S.Store conn.new) → Stays (state S.Store conn.old) (state S.Store conn.new) }
    ensures survives { Survives (state S.Store conn.old) (state S.Store conn.new) (λ _. ⊥) }
{
    probe(conn)?;
    conn.query_all(sql, params)
}

/// The body at a place: that of its row, or of the pending change there.
pub fn read_at<S: Alter>(
    conn: &mut Connection<S>,
    space: Space,
    table: u32,
    key: &[u8],
) -> Result<Option<Vec<u8>>, Error>
    requires idle { conn.old.in_transaction ≡ false }
    requires ready { HasCleanDisk (state S.Store conn.old) → IsTrue (state S.Store conn.old).is_open → IsReady (state S.Store conn.old) }
    ensures idle { conn.new.in_transaction ≡ false }
    ensures ok { HasCleanDisk (state S.Store conn.new) → IfOk result (λ body. IsTrue (state S.Store conn.old).is_open × (optional_bytes body ≡ get (placed space (contents_in (state S.Store conn.old).now.trees)) (pos table, key.now))) }
    ensures same { HasCleanDisk (state S.Store conn.new) → Stays (state S.Store conn.old) (state S.Store conn.new) }
    ensures survives { Survives (state S.Store conn.old) (state S.Store conn.new) (λ _. ⊥) }
{
    let rows = query_ready(conn, space.texts().select, params![table, key])?;
    body_of(&rows)
}

/// A value of meta.
pub fn read_meta<S: Alter>(conn: &mut Connection<S>, name: &str) -> Result<Option<Vec<u8>>, Error>
    requires idle { conn.old.in_transaction ≡ false }
    requires ready { HasCleanDisk (state S.Store conn.old) → IsTrue (state S.Store conn.old).is_open → IsReady (state S.Store conn.old) }
    ensures idle { conn.new.in_transaction ≡ false }
    ensures ok { HasCleanDisk (state S.Store conn.new) → IfOk result (λ body. IsTrue (state S.Store conn.old).is_open × (optional_bytes body ≡ get (contents_in (state S.Store conn.old).now.trees).meta name.now)) }
    ensures same { HasCleanDisk (state S.Store conn.new) → Stays (state S.Store conn.old) (state S.Store conn.new) }
    ensures survives { Survives (state S.Store conn.old) (state S.Store conn.new) (λ _. ⊥) }
{
    let rows = query_ready(conn, "SELECT body FROM meta WHERE name = ?1", params![name])?;
    body_of(&rows)
}

/// The entry of the log at a version.
pub fn read_log<S: Alter>(
    conn: &mut Connection<S>,
    version: u32,
) -> Result<Option<StoredEntry>, Error>
    requires idle { conn.old.in_transaction ≡ false }
    requires ready { HasCleanDisk (state S.Store conn.old) → IsTrue (state S.Store conn.old).is_open → IsReady (state S.Store conn.old) }
    ensures idle { conn.new.in_transaction ≡ false }
    ensures ok { HasCleanDisk (state S.Store conn.new) → IfOk result (λ entry. IsTrue (state S.Store conn.old).is_open × (optional_entry entry ≡ get (contents_in (state S.Store conn.old).now.trees).log (pos version))) }
    ensures same { HasCleanDisk (state S.Store conn.new) → Stays (state S.Store conn.old) (state S.Store conn.new) }
    ensures survives { Survives (state S.Store conn.old) (state S.Store conn.new) (λ _. ⊥) }
{
    let rows = query_ready(
        conn,
        "SELECT origin, number, body FROM log WHERE version = ?1",
        params![version],
    )?;
    entry_of(&rows)
}

/// The entries of the log from a version on, at most so many, up to the first version that has none.
pub fn list_log<S: Alter>(
    alloc: Global,
    conn: &mut Connection<S>,
    first: u32,
    count: u32,
) -> Result<Vec<StoredEntry>, Error>
    requires fits { first + count < 2 ^ 32 }
    requires idle { conn.old.in_transaction ≡ false }
    requires ready { HasCleanDisk (state S.Store conn.old) → IsTrue (state S.Store conn.old).is_open → IsReady (state S.Store conn.old) }
    ensures idle { conn.new.in_transaction ≡ false }
    ensures ok { HasCleanDisk (state S.Store conn.new) → IfOk result (λ entries. IsTrue (state S.Store conn.old).is_open × (items_of entries.items ≡ log_range (contents_in (state S.Store conn.old).now.trees) first count)) }
    ensures same { HasCleanDisk (state S.Store conn.new) → Stays (state S.Store conn.old) (state S.Store conn.new) }
    ensures survives { Survives (state S.Store conn.old) (state S.Store conn.new) (λ _. ⊥) }
{
    let end = first + count;
    let mut entries = Entries::new(alloc, first);
    read_ready(
        conn,
        "SELECT origin, number, body, version FROM log WHERE version >= ?1 AND version < ?2 ORDER BY version",
        params![first, end],
        &mut entries,
    )?;
    Ok(entries.entries)
}

/// The bodies of a table with their keys, by ascending bytes of the key.
pub fn list_at<S: Alter>(
    alloc: Global,
    conn: &mut Connection<S>,
    space: Space,
    table: u32,
) -> Result<Vec<StoredBody>, Error>
    requires idle { conn.old.in_transaction ≡ false }
    requires ready { HasCleanDisk (state S.Store conn.old) → IsTrue (state S.Store conn.old).is_open → IsReady (state S.Store conn.old) }
    ensures idle { conn.new.in_transaction ≡ false }
    ensures ok { HasCleanDisk (state S.Store conn.new) → IfOk result (λ pairs. IsTrue (state S.Store conn.old).is_open × IsListing (λ key. get (placed space (contents_in (state S.Store conn.old).now.trees)) (pos table, key)) (pairs_of pairs.items)) }
    ensures same { HasCleanDisk (state S.Store conn.new) → Stays (state S.Store conn.old) (state S.Store conn.new) }
    ensures survives { Survives (state S.Store conn.old) (state S.Store conn.new) (λ _. ⊥) }
{
    let rows = query_ready(conn, space.texts().list, params![table])?;
    pairs_in(alloc, &rows)
}
