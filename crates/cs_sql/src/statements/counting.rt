//! The rowids of a file that was found are read one at a time and shown to be apart. The entries of its log are counted.

ghost use Rattle.std.specs.Prelude.{◌≡◌, ◌↔◌, ◌<◌, ◌≤◌, ◌^◌, ◌&&◌, ◌++◌, [], ◌∷◌, List, false, IsTrue, IfErr, IfOk, IfSome, MatchOption, OnOk};
ghost use Rattle.std.specs.declared.cmp.Ordering.TheVariants.{Less};
ghost use Rattle.std.specs.Ordering.{int_cmp};
ghost use Rattle.sqlite.specs.Held.{state};
ghost use Rattle.sqlite.specs.Given.{IsPlain};
ghost use Rattle.sqlite.specs.Listing.{understood};
ghost use Rattle.sqlite.specs.Order.{Row as Values, column};
ghost use Rattle.sqlite.specs.State.{HasCleanDisk, IsUnchanged, Survives};
ghost use Rattle.sqlite_value.specs.declared.value.Value.TheVariants.{Int};
ghost use Rattle.cs_sql.specs.schema.Schemas.{store_schema};
ghost use Rattle.cs_sql.specs.statements.Steps.{Serves, Stays};
ghost use Rattle.cs_sql.specs.Causes.{IsCaused, IsGranted};
ghost use Rattle.cs_sql.specs.statements.Found.{AreApart, AreCountable, AreSeen, HasFront, IsCounted, ShowsIds, ShowsNumber};

use crate::statements::streaming::{Reader, is_place, one_more, read_each};
use sqlite::{Alter, Connection, Error, ErrorCode, Row};
use sqlite_value::value::ValueRef;

/// What was found of a log.
#[derive(Clone, Copy)]
pub struct LogFound {
    /// How many entries it has.
    pub entries: u32,
    /// Whether an entry stands at each version below that number.
    pub is_whole: bool,
}

/// What is told of the rowids of a table, as far as they were read.
#[derive(Drop)]
pub(crate) struct Ids {
    /// How many they are.
    count: u64,
    last: Option<i64>,
    /// Whether each is a number, below the next.
    rise: bool,
    /// Whether each is the number of its place, the first being 0.
    are_numbered: bool,
}

/// Whether the number is above the last, if there is one.
fn is_above(last: Option<i64>, number: i64) -> bool
    ensures { IsTrue result ↔ IfSome last (λ last. int_cmp last number ≡ Less) }
{
    match last {
        Some(last) => last < number,
        None => true,
    }
}

fn both(some: bool, other: bool) -> bool
    ensures { result ≡ (some && other) }
{
    some && other
}

/// The number that a row shows, if it is one.
fn number_in(row: &Row) -> Option<i64>
    ensures { MatchOption result (¬ ShowsNumber row.now) (λ id. column row.now 0 ≡ Int id) }
{
    match row.get_ref(0) {
        Ok(ValueRef::Int(id)) => Some(id),
        _ => None,
    }
}

impl Ids {
    /// What is told with one more.
    fn with(&self, id: i64) -> Result<Ids, Error>
        ensures more { IfOk result (λ more. (rows : List Values) (row : Values) → AreSeen self.now rows → column row 0 ≡ Int id → AreSeen more (rows ++ row ∷ [])) }
        ensures memory { IfErr result (λ e. e ≡ Error.SqliteFailure ErrorCode.OutOfMemory) }
    {
        Ok(Ids {
            count: one_more(self.count)?,
            last: Some(id),
            rise: both(self.rise, is_above(self.last, id)),
            are_numbered: both(self.are_numbered, is_place(id, self.count)),
        })
    }

    /// What is told with one more, which isn't a number.
    fn with_other(&self) -> Result<Ids, Error>
        ensures more { IfOk result (λ more. (rows : List Values) (row : Values) → AreSeen self.now rows → ¬ ShowsNumber row → AreSeen more (rows ++ row ∷ [])) }
        ensures memory { IfErr result (λ e. e ≡ Error.SqliteFailure ErrorCode.OutOfMemory) }
    {
        Ok(Ids {
            count: one_more(self.count)?,
            last: None,
            rise: false,
            are_numbered: false,
        })
    }

    /// What is told with the rowid of one more row.
    fn with_row(&self, row: &Row) -> Result<Ids, Error>
        ensures more { IfOk result (λ more. (rows : List Values) → AreSeen self.now rows → AreSeen more (rows ++ row.now ∷ [])) }
        ensures memory { IfErr result (λ e. e ≡ Error.SqliteFailure ErrorCode.OutOfMemory) }
    {
        match number_in(row) {
            Some(id) => self.with(id),
            None => self.with_other(),
        }
    }

    /// What was found of a log with these rowids, if their count fits the versions.
    fn of_log(&self) -> Option<LogFound>
        ensures { MatchOption result (2 ^ 32 ≤ self.now.count) (λ found. (found.entries ≡ self.now.count) × (found.is_whole ≡ self.now.are_numbered) × (self.now.count < 2 ^ 32)) }
    {
        if self.count <= 4_294_967_295 {
            Some(LogFound {
                entries: self.count as u32,
                is_whole: self.are_numbered,
            })
        } else {
            None
        }
    }
}

impl Reader for Ids {
    ghost use Rattle.std.specs.Prelude.{◌≡◌};
    ghost use Rattle.cs_sql.specs.statements.Found.{AreSeen};
    ghost use Rattle.sqlite.specs.declared.error.Error.TheVariants.{SqliteFailure};
    ghost use Rattle.sqlite.specs.declared.error.ErrorCode.TheVariants.{OutOfMemory};

    ghost has_read = { λ start seen rows. AreSeen seen rows };

    ghost tells = { λ e. e ≡ SqliteFailure OutOfMemory };

    fn read(&mut self, row: &Row) -> Result<(), Error> {
        *self = self.with_row(row)?;
        Ok(())
    }
}

/// The rowids of a table, which the query shows.
fn read_ids<S: Alter>(conn: &mut Connection<S>, sql: &str) -> Result<Ids, Error>
    requires serves { HasCleanDisk (state S.Store conn.old) → Serves (state S.Store conn.old) }
    requires plain { HasCleanDisk (state S.Store conn.old) → IsPlain (understood (state S.Store conn.old).now.schema sql.now) }
    ensures mode { conn.old.in_transaction ≡ false → conn.new.in_transaction ≡ false }
    ensures shown { HasCleanDisk (state S.Store conn.new) → IfOk result (ShowsIds sql.now (state S.Store conn.old) (state S.Store conn.new)) }
    ensures ok { HasCleanDisk (state S.Store conn.new) → OnOk result (IsUnchanged (state S.Store conn.old) (state S.Store conn.new)) }
    ensures same { HasCleanDisk (state S.Store conn.new) → Stays (state S.Store conn.old) (state S.Store conn.new) }
    ensures cause { HasCleanDisk (state S.Store conn.new) → IsGranted sql.now [] (state S.Store conn.old).now → IfErr result (IsCaused (state S.Store conn.old) (state S.Store conn.new)) }
    ensures survives { Survives (state S.Store conn.old) (state S.Store conn.new) (λ _. ⊥) }
{
    let mut ids = Ids {
        count: 0,
        last: None,
        rise: true,
        are_numbered: true,
    };
    read_each(conn, sql, &[], &mut ids)?;
    Ok(ids)
}

/// What is found of the log, if the rowids of each table but `pending` are numbers apart and the log's count fits the versions.
/// It is nothing where that isn't so.
pub(crate) fn count_front<S: Alter>(conn: &mut Connection<S>) -> Result<Option<LogFound>, Error>
    requires serves { HasCleanDisk (state S.Store conn.old) → Serves (state S.Store conn.old) }
    requires front { HasCleanDisk (state S.Store conn.old) → HasFront (state S.Store conn.old).now.schema }
    ensures mode { conn.old.in_transaction ≡ false → conn.new.in_transaction ≡ false }
    ensures counted { HasCleanDisk (state S.Store conn.new) → IfOk result (λ o. MatchOption o (¬ AreCountable (state S.Store conn.old).now.trees) (IsCounted (state S.Store conn.old).now.trees)) }
    ensures ok { HasCleanDisk (state S.Store conn.new) → OnOk result (IsUnchanged (state S.Store conn.old) (state S.Store conn.new)) }
    ensures same { HasCleanDisk (state S.Store conn.new) → Stays (state S.Store conn.old) (state S.Store conn.new) }
    ensures cause { HasCleanDisk (state S.Store conn.new) → IfErr result (IsCaused (state S.Store conn.old) (state S.Store conn.new)) }
    ensures survives { Survives (state S.Store conn.old) (state S.Store conn.new) (λ _. ⊥) }
{
    let rows = read_ids(conn, "SELECT rowid FROM rows ORDER BY rowid")?;
    let meta = read_ids(conn, "SELECT rowid FROM meta ORDER BY rowid")?;
    let log = read_ids(conn, "SELECT rowid FROM log ORDER BY rowid")?;
    if rows.rise && meta.rise && log.rise {
        Ok(log.of_log())
    } else {
        Ok(None)
    }
}

/// Whether the rowids of `pending` are numbers apart.
pub(crate) fn is_pending_apart<S: Alter>(conn: &mut Connection<S>) -> Result<bool, Error>
    requires serves { HasCleanDisk (state S.Store conn.old) → Serves (state S.Store conn.old) }
    requires ours { HasCleanDisk (state S.Store conn.old) → (state S.Store conn.old).now.schema ≡ store_schema }
    ensures mode { conn.old.in_transaction ≡ false → conn.new.in_transaction ≡ false }
    ensures apart { HasCleanDisk (state S.Store conn.new) → IfOk result (λ are. IsTrue are ↔ AreApart ((state S.Store conn.old).now.trees 5)) }
    ensures ok { HasCleanDisk (state S.Store conn.new) → OnOk result (IsUnchanged (state S.Store conn.old) (state S.Store conn.new)) }
    ensures same { HasCleanDisk (state S.Store conn.new) → Stays (state S.Store conn.old) (state S.Store conn.new) }
    ensures cause { HasCleanDisk (state S.Store conn.new) → IfErr result (IsCaused (state S.Store conn.old) (state S.Store conn.new)) }
    ensures survives { Survives (state S.Store conn.old) (state S.Store conn.new) (λ _. ⊥) }
{
    let ids = read_ids(conn, "SELECT rowid FROM pending ORDER BY rowid")?;
    Ok(ids.rise)
}
