//! Whether all that the tables hold is what its places say.

ghost use Rattle.std.specs.Prelude.{◌≡◌, ◌↔◌, ◌≤◌, ◌++◌, ℕ, List, [], ◌∷◌, pos, length, map, true, false, IfOk, MatchOption, IsTrue, OnOk};
ghost use Rattle.sqlite.specs.Held.{state};
ghost use Rattle.sqlite.specs.State.{HasCleanDisk, Survives};
ghost use Rattle.sqlite_value.specs.Order.{bytes};
ghost use Rattle.sqlite_value.specs.Value.{owned};
ghost use Rattle.sqlite.specs.Order.{Row as Values};
ghost use Rattle.cs_value.specs.Catalog.{AreTables};
ghost use Rattle.cs_value.specs.declared.catalog.TableDef.{TableDef};
ghost use Rattle.cs_store.specs.Whole.{AreJudged, IsPresent, IsWhole, log_bodies};
ghost use Rattle.cs_sql.specs.declared.statements.checking.Unordered.TheVariants.{Rows, Pending, Meta};
ghost use Rattle.cs_sql.specs.statements.Tables.{contents_in};
ghost use Rattle.cs_sql.specs.statements.Steps.{IsReady, Stays, body_read};
ghost use Rattle.cs_sql.specs.statements.Checked.{HasOwn, ShowsOwn, part_of};

use crate::parts::Part;
use crate::statements::streaming::{Reader, read_ready};
use cs_store::laws::decoding;
use cs_store::{Present, is_change, is_name, is_row};
use cs_value::Catalog;
use sqlite::{Alter, Connection, Error, Row};
use sqlite_value::value::ValueRef;
use std::alloc::Global;

/// The tables of which each row is judged by itself. The bodies of the log are judged in order.
#[derive(Clone, Copy)]
pub enum Unordered {
    Rows,
    Pending,
    Meta,
}

impl Unordered {
    fn part(self) -> Part
        ensures { result ≡ part_of self }
    {
        match self {
            Unordered::Rows => Part::Rows,
            Unordered::Pending => Part::Pending,
            Unordered::Meta => Part::Meta,
        }
    }
}

/// The number of a table of the catalog, if it is one.
fn table_number(catalog: &Catalog, number: i64) -> Option<u32>
    ensures { MatchOption result ((table : ℕ) → number ≡ pos table → length catalog.now ≤ table) (λ table. number ≡ pos table) }
{
    let tables = catalog.tables();
    if number >= 0 && number < tables.len() as i64 {
        Some(number as u32)
    } else {
        None
    }
}

/// The bytes of a text or a blob; none of another value.
fn bytes_of<'a>(value: &ValueRef<'a>) -> &'a [u8]
    ensures { result.now ≡ bytes (owned value.now) }
{
    match value {
        ValueRef::Text(text) => text,
        ValueRef::Blob(blob) => blob,
        _ => &[],
    }
}

/// Whether a row is one of the catalog's table that it names, at its own key.
fn shows_row(alloc: Global, catalog: &Catalog, row: &Row) -> Result<bool, Error>
    ensures { IfOk result (λ own. IsTrue own ↔ ShowsOwn Rows catalog.now row.now) }
{
    let number: i64 = row.get(0)?;
    let key = row.get_ref(1)?;
    let body = row.get_ref(2)?;
    let Some(table) = table_number(catalog, number) else {
        return Ok(false);
    };
    Ok(is_row(alloc, catalog, table, bytes_of(&key), bytes_of(&body))?)
}

/// The same of a pending change.
fn shows_change(alloc: Global, catalog: &Catalog, row: &Row) -> Result<bool, Error>
    ensures { IfOk result (λ own. IsTrue own ↔ ShowsOwn Pending catalog.now row.now) }
{
    let number: i64 = row.get(0)?;
    let key = row.get_ref(1)?;
    let body = row.get_ref(2)?;
    let Some(table) = table_number(catalog, number) else {
        return Ok(false);
    };
    Ok(is_change(alloc, catalog, table, bytes_of(&key), bytes_of(&body))?)
}

/// Whether a name is one of ours.
fn shows_name(row: &Row) -> Result<bool, Error>
    ensures { IfOk result (λ own. IsTrue own ↔ ShowsOwn Meta [] row.now) }
{
    let value = row.get_ref(0)?;
    Ok(is_name(bytes_of(&value)))
}

fn shows_own(alloc: Global, catalog: &Catalog, part: Unordered, row: &Row) -> Result<bool, Error>
    ensures { IfOk result (λ own. IsTrue own ↔ ShowsOwn part catalog.now row.now) }
{
    match part {
        Unordered::Rows => shows_row(alloc, catalog, row),
        Unordered::Pending => shows_change(alloc, catalog, row),
        Unordered::Meta => shows_name(row),
    }
}

/// Judges the rows of one of the tables, one after another.
#[derive(Drop)]
struct Judge<'a> {
    alloc: Global,
    catalog: &'a Catalog,
    part: Unordered,
    /// Whether each so far is one that the table may hold.
    all_own: bool,
}

impl<'a> Judge<'a> {
    fn new(alloc: Global, catalog: &'a Catalog, part: Unordered) -> Judge<'a>
        ensures { (result.part ≡ part) × (result.catalog.now ≡ catalog.now) × IsTrue result.all_own }
    {
        Judge {
            alloc,
            catalog,
            part,
            all_own: true,
        }
    }

    /// Judges one more.
    fn judge(&mut self, row: &Row) -> Result<(), Error>
        ensures same { OnOk result ((self.new.part ≡ self.old.part) × (self.new.catalog.now ≡ self.old.catalog.now)) }
        ensures own { OnOk result (IsTrue self.new.all_own ↔ (IsTrue self.old.all_own × ShowsOwn self.old.part self.old.catalog.now row.now)) }
    {
        if self.all_own {
            self.all_own = shows_own(self.alloc, self.catalog, self.part, row)?;
        }
        Ok(())
    }
}

impl Reader for Judge<'_> {
    ghost use Rattle.std.specs.Prelude.{◌≡◌, ◌↔◌, IsTrue};
    ghost use Rattle.std.specs.List.{AllByRecursion};
    ghost use Rattle.cs_sql.specs.statements.Checked.{ShowsOwn};

    ghost has_read = { λ start judge rows. (judge.part ≡ start.part) × (judge.catalog.now ≡ start.catalog.now) × (IsTrue start.all_own → (IsTrue judge.all_own ↔ AllByRecursion (ShowsOwn start.part start.catalog.now) rows)) };

    ghost tells = { λ _. Unit {0} };

    fn read(&mut self, row: &Row) -> Result<(), Error> {
        self.judge(row)
    }
}

/// Whether all that one of the tables holds is what its places say.
fn check_part<S: Alter>(
    alloc: Global,
    conn: &mut Connection<S>,
    catalog: &Catalog,
    part: Unordered,
) -> Result<bool, Error>
    requires idle { conn.old.in_transaction ≡ false }
    requires ready { HasCleanDisk (state S.Store conn.old) → IsTrue (state S.Store conn.old).is_open → IsReady (state S.Store conn.old) }
    ensures idle { conn.new.in_transaction ≡ false }
    ensures ok { HasCleanDisk (state S.Store conn.new) → IfOk result (λ own. IsTrue (state S.Store conn.old).is_open × (IsTrue own ↔ HasOwn part catalog.now (contents_in (state S.Store conn.old).now.trees))) }
    ensures same { HasCleanDisk (state S.Store conn.new) → Stays (state S.Store conn.old) (state S.Store conn.new) }
    ensures survives { Survives (state S.Store conn.old) (state S.Store conn.new) (λ _. ⊥) }
{
    let mut judge = Judge::new(alloc, catalog, part);
    read_ready(conn, part.part().query(), &[], &mut judge)?;
    Ok(judge.all_own)
}

/// Judges the bodies of the log, one after another.
#[derive(Drop)]
struct LogJudge<'a> {
    alloc: Global,
    /// The catalog behind those that decode.
    present: Present<'a>,
    /// Whether each so far does.
    decode: bool,
}

impl<'a> LogJudge<'a> {
    fn new(alloc: Global, catalog: &'a Catalog) -> LogJudge<'a>
        ensures { (result.present ≡ catalog.now) × IsTrue result.decode }
    {
        LogJudge {
            alloc,
            present: Present::new(catalog),
            decode: true,
        }
    }

    /// Judges one more.
    fn judge(&mut self, row: &Row) -> Result<(), Error>
        ensures { OnOk result ((opening : List TableDef) (rows : List Values) → AreTables opening
            → AreJudged opening (map body_read rows) self.old.decode self.old.present
            → AreJudged opening (map body_read (rows ++ row.now ∷ [])) self.new.decode self.new.present) }
    {
        decoding();
        if self.decode {
            let body = row.get_ref(0)?;
            self.decode = self.present.judge_body(self.alloc, bytes_of(&body))?;
        }
        Ok(())
    }
}

impl Reader for LogJudge<'_> {
    ghost use Rattle.std.specs.Prelude.{◌≡◌, true, map};
    ghost use Rattle.cs_value.specs.Catalog.{AreTables};
    ghost use Rattle.cs_store.specs.Whole.{AreJudged};
    ghost use Rattle.cs_sql.specs.statements.Steps.{body_read};

    ghost has_read = { λ start judge rows. AreTables start.present → start.decode ≡ true → AreJudged start.present (map body_read rows) judge.decode judge.present };

    ghost tells = { λ _. Unit {0} };

    fn read(&mut self, row: &Row) -> Result<(), Error> {
        self.judge(row)
    }
}

/// The catalog behind the last entry, if the bodies of the log decode.
fn check_log<'a, S: Alter>(
    alloc: Global,
    conn: &mut Connection<S>,
    catalog: &'a Catalog,
) -> Result<Option<Present<'a>>, Error>
    requires idle { conn.old.in_transaction ≡ false }
    requires ready { HasCleanDisk (state S.Store conn.old) → IsTrue (state S.Store conn.old).is_open → IsReady (state S.Store conn.old) }
    ensures idle { conn.new.in_transaction ≡ false }
    ensures ok { HasCleanDisk (state S.Store conn.new) → IfOk result (λ behind. IsTrue (state S.Store conn.old).is_open × MatchOption behind
        (AreJudged catalog.now (log_bodies (contents_in (state S.Store conn.old).now.trees)) false catalog.now)
        (λ present. IsPresent catalog.now (contents_in (state S.Store conn.old).now.trees) present)) }
    ensures same { HasCleanDisk (state S.Store conn.new) → Stays (state S.Store conn.old) (state S.Store conn.new) }
    ensures survives { Survives (state S.Store conn.old) (state S.Store conn.new) (λ _. ⊥) }
{
    let _ = catalog.tables();
    let mut judge = LogJudge::new(alloc, catalog);
    read_ready(conn, Part::Log.query(), &[], &mut judge)?;
    let LogJudge {
        present,
        decode,
        ..
    } = judge;
    if decode { Ok(Some(present)) } else { Ok(None) }
}

fn all_three(rows: bool, pending: bool, meta: bool) -> bool
    ensures { IsTrue result ↔ (IsTrue rows × IsTrue pending × IsTrue meta) }
{
    rows && pending && meta
}

/// Whether all that the store holds is what its places say.
pub fn check_store<S: Alter>(
    alloc: Global,
    conn: &mut Connection<S>,
    catalog: &Catalog,
) -> Result<bool, Error>
    requires idle { conn.old.in_transaction ≡ false }
    requires ready { HasCleanDisk (state S.Store conn.old) → IsTrue (state S.Store conn.old).is_open → IsReady (state S.Store conn.old) }
    ensures idle { conn.new.in_transaction ≡ false }
    ensures ok { HasCleanDisk (state S.Store conn.new) → IfOk result (λ good. IsTrue (state S.Store conn.old).is_open × (IsTrue good ↔ IsWhole catalog.now (contents_in (state S.Store conn.old).now.trees))) }
    ensures same { HasCleanDisk (state S.Store conn.new) → Stays (state S.Store conn.old) (state S.Store conn.new) }
    ensures survives { Survives (state S.Store conn.old) (state S.Store conn.new) (λ _. ⊥) }
{
    decoding();
    let _ = catalog.tables();
    let Some(present) = check_log(alloc, conn, catalog)? else {
        return Ok(false);
    };
    let catalog = present.catalog();
    let rows = check_part(alloc, conn, catalog, Unordered::Rows)?;
    let pending = check_part(alloc, conn, catalog, Unordered::Pending)?;
    let meta = check_part(alloc, conn, catalog, Unordered::Meta)?;
    Ok(all_three(rows, pending, meta))
}
