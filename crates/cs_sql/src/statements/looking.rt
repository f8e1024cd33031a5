//! What a connection that a caller opened shows.

ghost use Rattle.std.specs.Prelude.{◌≡◌, false, IsTrue, IfErr, IfOk};
ghost use Rattle.sqlite.specs.Held.{state};
ghost use Rattle.sqlite.specs.Effect.{IsDatabase};
ghost use Rattle.sqlite.specs.State.{HasCleanDisk, Survives};
ghost use Rattle.cs_sql.specs.Causes.{IsCaused};
ghost use Rattle.cs_sql.specs.schema.Schemas.{front_schema, store_schema};
ghost use Rattle.cs_sql.specs.statements.Steps.{Serves, Stays};
ghost use Rattle.cs_sql.specs.statements.Found.{IsFound, IsUntouched};

use crate::schema::{Judged, judge};
use crate::statements::counting::{LogFound, count_front, is_pending_apart};
use crate::statements::streaming::probe;
use sqlite::{Alter, Connection, Error};

/// What a database was found to be.
pub enum Found {
    /// It has no table.
    Fresh,
    /// It has a store's tables but for `pending`, and that was found of its log.
    Front(LogFound),
    /// It has a store's tables, and that was found of its log.
    Ours(LogFound),
    /// It has another schema, or rowids that aren't numbers apart, or more entries of the log than there are versions.
    Foreign,
}

/// What a connection on the tables but `pending` shows.
fn look_front<S: Alter>(conn: &mut Connection<S>) -> Result<Found, Error>
    requires serves { HasCleanDisk (state S.Store conn.old) → Serves (state S.Store conn.old) }
    requires sound { HasCleanDisk (state S.Store conn.old) → IsDatabase (state S.Store conn.old).now }
    requires front { HasCleanDisk (state S.Store conn.old) → (state S.Store conn.old).now.schema ≡ front_schema }
    ensures mode { conn.old.in_transaction ≡ false → conn.new.in_transaction ≡ false }
    ensures found { HasCleanDisk (state S.Store conn.new) → IfOk result (λ found. IsFound found (state S.Store conn.old).now × IsUntouched (state S.Store conn.old) (state S.Store conn.new)) }
    ensures same { HasCleanDisk (state S.Store conn.new) → Stays (state S.Store conn.old) (state S.Store conn.new) }
    ensures cause { HasCleanDisk (state S.Store conn.new) → IfErr result (IsCaused (state S.Store conn.old) (state S.Store conn.new)) }
    ensures survives { Survives (state S.Store conn.old) (state S.Store conn.new) (λ _. ⊥) }
{
    match count_front(conn)? {
        Some(log) => Ok(Found::Front(log)),
        None => Ok(Found::Foreign),
    }
}

/// What a connection on a store's tables shows.
fn look_ours<S: Alter>(conn: &mut Connection<S>) -> Result<Found, Error>
    requires serves { HasCleanDisk (state S.Store conn.old) → Serves (state S.Store conn.old) }
    requires sound { HasCleanDisk (state S.Store conn.old) → IsDatabase (state S.Store conn.old).now }
    requires ours { HasCleanDisk (state S.Store conn.old) → (state S.Store conn.old).now.schema ≡ store_schema }
    ensures mode { conn.old.in_transaction ≡ false → conn.new.in_transaction ≡ false }
    ensures found { HasCleanDisk (state S.Store conn.new) → IfOk result (λ found. IsFound found (state S.Store conn.old).now × IsUntouched (state S.Store conn.old) (state S.Store conn.new)) }
    ensures same { HasCleanDisk (state S.Store conn.new) → Stays (state S.Store conn.old) (state S.Store conn.new) }
    ensures cause { HasCleanDisk (state S.Store conn.new) → IfErr result (IsCaused (state S.Store conn.old) (state S.Store conn.new)) }
    ensures survives { Survives (state S.Store conn.old) (state S.Store conn.new) (λ _. ⊥) }
{
    let Some(log) = count_front(conn)? else {
        return Ok(Found::Foreign);
    };
    if is_pending_apart(conn)? {
        Ok(Found::Ours(log))
    } else {
        Ok(Found::Foreign)
    }
}

/// What a connection between two transactions shows. Nothing is written.
pub fn look<S: Alter>(conn: &mut Connection<S>) -> Result<Found, Error>
    requires idle { conn.old.in_transaction ≡ false }
    requires settled { HasCleanDisk (state S.Store conn.old) → IsTrue (state S.Store conn.old).is_open → (state S.Store conn.old).committed ≡ (state S.Store conn.old).now }
    ensures idle { conn.new.in_transaction ≡ false }
    ensures found { HasCleanDisk (state S.Store conn.new) → IfOk result (λ found. IsFound found (state S.Store conn.old).now × IsUntouched (state S.Store conn.old) (state S.Store conn.new)) }
    ensures same { HasCleanDisk (state S.Store conn.new) → Stays (state S.Store conn.old) (state S.Store conn.new) }
    ensures cause { HasCleanDisk (state S.Store conn.new) → IfErr result (IsCaused (state S.Store conn.old) (state S.Store conn.new)) }
    ensures survives { Survives (state S.Store conn.old) (state S.Store conn.new) (λ _. ⊥) }
{
    probe(conn)?;
    match judge(conn.schema()) {
        Judged::Fresh => Ok(Found::Fresh),
        Judged::Front => look_front(conn),
        Judged::Ours => look_ours(conn),
        Judged::Foreign => Ok(Found::Foreign),
    }
}
