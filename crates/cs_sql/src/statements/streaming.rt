//! The rows of an answer, read one at a time.

ghost use Rattle.std.specs.Prelude.{◌≡◌, ◌⊎◌, ◌↔◌, ◌+◌, ◌++◌, pos, [], ◌∷◌, List, false, IsTrue, IfErr, IfOk, OnOk};
ghost use Rattle.sqlite.specs.Held.{state};
ghost use Rattle.sqlite.specs.Given.{IsPlain};
ghost use Rattle.sqlite.specs.Listing.{understood};
ghost use Rattle.sqlite.specs.Order.{Row as Values};
ghost use Rattle.sqlite.specs.State.{HasCleanDisk, IsUnchanged, Shown, Survives};
ghost use Rattle.sqlite.specs.Values.{bound};
ghost use Rattle.sqlite.specs.declared.error.Error.{Error as SqlError};
ghost use Rattle.cs_sql.specs.Causes.{IsCaused, IsGranted};
ghost use Rattle.cs_sql.specs.schema.Schemas.{store_schema};
ghost use Rattle.cs_sql.specs.statements.Tables.{IsKept};
ghost use Rattle.cs_sql.specs.statements.Steps.{IsReady, Serves, Stays};

use sqlite::{Alter, Connection, Error, ErrorCode, Row};
use sqlite_value::value::ValueRef;

/// What reads the rows of an answer, one after another.
pub(crate) trait Reader {
    /// The first, once it has read these rows, is the second.
    ghost has_read: { Self → Self → List Values → Type 0 };

    /// It may refuse a row by this error.
    ghost tells: { SqlError → Type 0 };

    /// Reads the next row.
    fn read(&mut self, row: &Row) -> Result<(), Error>
        ensures more { OnOk result ((start : Self) (rows : List Values) → has_read start self.old rows → has_read start self.new (rows ++ row.now ∷ [])) }
        ensures told { IfErr result tells };
}

/// Tests that the connection still serves.
pub(crate) fn probe<S: Alter>(conn: &mut Connection<S>) -> Result<(), Error>
    requires settled { HasCleanDisk (state S.Store conn.old) → IsTrue (state S.Store conn.old).is_open → (state S.Store conn.old).committed ≡ (state S.Store conn.old).now }
    ensures mode { conn.old.in_transaction ≡ false → conn.new.in_transaction ≡ false }
    ensures ok { HasCleanDisk (state S.Store conn.new) → OnOk result (IsUnchanged (state S.Store conn.old) (state S.Store conn.new)) }
    ensures same { HasCleanDisk (state S.Store conn.new) → Stays (state S.Store conn.old) (state S.Store conn.new) }
    ensures cause { HasCleanDisk (state S.Store conn.new) → IfErr result (IsCaused (state S.Store conn.old) (state S.Store conn.new)) }
    ensures survives { Survives (state S.Store conn.old) (state S.Store conn.new) (λ _. ⊥) }
{
    let _empty = conn.prepare("")?;
    Ok(())
}

/// One more. What has so many is too much for any memory.
pub(crate) fn one_more(count: u64) -> Result<u64, Error>
    ensures more { IfOk result (λ more. more ≡ count + 1) }
    ensures memory { IfErr result (λ e. e ≡ Error.SqliteFailure ErrorCode.OutOfMemory) }
{
    match count.checked_add(1) {
        Some(more) => Ok(more),
        None => Err(Error::SqliteFailure(ErrorCode::OutOfMemory)),
    }
}

/// Whether the number is that of the place.
pub(crate) fn is_place(number: i64, place: u64) -> bool
    ensures { IsTrue result ↔ (number ≡ pos place) }
{
    number >= 0 && number as u64 == place
}

/// Has a reader read each row of an answer, in order.
pub(crate) fn read_each<S: Alter, R: Reader>(
    conn: &mut Connection<S>,
    sql: &str,
    params: &[ValueRef<'_>],
    reader: &mut R,
) -> Result<(), Error>
    requires serves { HasCleanDisk (state S.Store conn.old) → Serves (state S.Store conn.old) }
    requires plain { HasCleanDisk (state S.Store conn.old) → IsPlain (understood (state S.Store conn.old).now.schema sql.now) }
    requires starts { R.has_read reader.old reader.old [] }
    ensures mode { conn.old.in_transaction ≡ false → conn.new.in_transaction ≡ false }
    ensures shown { HasCleanDisk (state S.Store conn.new) → OnOk result ((rows : List Values) × Shown sql.now (bound params.now) (state S.Store conn.old) (state S.Store conn.new) rows × R.has_read reader.old reader.new rows) }
    ensures ok { HasCleanDisk (state S.Store conn.new) → OnOk result (IsUnchanged (state S.Store conn.old) (state S.Store conn.new)) }
    ensures same { HasCleanDisk (state S.Store conn.new) → Stays (state S.Store conn.old) (state S.Store conn.new) }
    ensures cause { HasCleanDisk (state S.Store conn.new) → IsGranted sql.now (bound params.now) (state S.Store conn.old).now → IfErr result (λ e. IsCaused (state S.Store conn.old) (state S.Store conn.new) e ⊎ R.tells e) }
    ensures survives { Survives (state S.Store conn.old) (state S.Store conn.new) (λ _. ⊥) }
{
    let mut rows = conn.query(sql, params)?;
    'rows: for _ in 0..u64::MAX {
        rows.advance()?;
        let Some(row) = rows.get() else {
            return Ok(());
        };
        reader.read(row)?;
    }
    // An answer of so many rows is too much for any memory.
    Err(Error::SqliteFailure(ErrorCode::OutOfMemory))
}

/// The same on the store's tables, between two transactions.
pub(crate) fn read_ready<S: Alter, R: Reader>(
    conn: &mut Connection<S>,
    sql: &str,
    params: &[ValueRef<'_>],
    reader: &mut R,
) -> Result<(), Error>
    requires idle { conn.old.in_transaction ≡ false }
    requires ready { HasCleanDisk (state S.Store conn.old) → IsTrue (state S.Store conn.old).is_open → IsReady (state S.Store conn.old) }
    requires plain { IsPlain (understood store_schema sql.now) }
    requires starts { R.has_read reader.old reader.old [] }
    ensures idle { conn.new.in_transaction ≡ false }
    ensures ok { HasCleanDisk (state S.Store conn.new) → OnOk result (IsTrue (state S.Store conn.old).is_open × IsKept (state S.Store conn.old).now
        × (rows : List Values) × Shown sql.now (bound params.now) (state S.Store conn.old) (state S.Store conn.new) rows × R.has_read reader.old reader.new rows) }
    ensures same { HasCleanDisk (state S.Store conn.new) → Stays (state S.Store conn.old) (state S.Store conn.new) }
    ensures survives { Survives (state S.Store conn.old) (state S.Store conn.new) (λ _. ⊥) }
{
    probe(conn)?;
    read_each(conn, sql, params, reader)
}
