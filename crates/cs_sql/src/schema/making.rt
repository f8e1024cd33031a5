//! The tables are made, in one transaction.

ghost use Rattle.std.specs.Prelude.{◌≡◌, false, IfErr, IsTrue, OnOk, OnErr};
ghost use Rattle.sqlite.specs.Held.{state};
ghost use Rattle.sqlite.specs.State.{HasCleanDisk, KeepsCommit, Survives};
ghost use Rattle.cs_sql.specs.schema.Schemas.{no_schema, front_schema};
ghost use Rattle.cs_sql.specs.schema.Making.{Adds, AreCompleted, AreLaidOut, IsAmong, IsCompleted, IsLaidOut, IsUndone, Lays, schema_before};
ghost use Rattle.cs_sql.specs.Causes.{IsCaused};

use crate::parts::Part;
use sqlite::{Alter, Connection, Error, Transaction};

/// Makes a table of a store beside those that are made before it, whatever these hold.
fn make_table<S: Alter>(tx: &mut Transaction<'_, S>, part: Part) -> Result<usize, Error>
    requires { HasCleanDisk (state S.Store tx.old.conn.now) → IsAmong (schema_before part) (state S.Store tx.old.conn.now) }
    ensures same_reference { tx.new.conn.ghost_name ≡ tx.old.conn.ghost_name }
    ensures ok { HasCleanDisk (state S.Store tx.new.conn.now) → OnOk result (Adds part (state S.Store tx.old.conn.now) (state S.Store tx.new.conn.now)) }
    ensures err { HasCleanDisk (state S.Store tx.new.conn.now) → OnErr result (KeepsCommit (state S.Store tx.old.conn.now) (state S.Store tx.new.conn.now)) }
    ensures cause { HasCleanDisk (state S.Store tx.new.conn.now) → IfErr result (IsCaused (state S.Store tx.old.conn.now) (state S.Store tx.new.conn.now)) }
    ensures survives { Survives (state S.Store tx.old.conn.now) (state S.Store tx.new.conn.now) (λ _. ⊥) }
{
    tx.execute(part.create(), &[])
}

fn make_all<S: Alter>(tx: &mut Transaction<'_, S>) -> Result<(), Error>
    requires { HasCleanDisk (state S.Store tx.old.conn.now) → IsAmong no_schema (state S.Store tx.old.conn.now) }
    ensures same_reference { tx.new.conn.ghost_name ≡ tx.old.conn.ghost_name }
    ensures ok { HasCleanDisk (state S.Store tx.new.conn.now) → OnOk result (Lays (state S.Store tx.old.conn.now) (state S.Store tx.new.conn.now)) }
    ensures err { HasCleanDisk (state S.Store tx.new.conn.now) → OnErr result (KeepsCommit (state S.Store tx.old.conn.now) (state S.Store tx.new.conn.now)) }
    ensures cause { HasCleanDisk (state S.Store tx.new.conn.now) → IfErr result (IsCaused (state S.Store tx.old.conn.now) (state S.Store tx.new.conn.now)) }
    ensures survives { Survives (state S.Store tx.old.conn.now) (state S.Store tx.new.conn.now) (λ _. ⊥) }
{
    make_table(tx, Part::Rows)?;
    make_table(tx, Part::Meta)?;
    make_table(tx, Part::Log)?;
    make_table(tx, Part::Pending)?;
    Ok(())
}

/// Makes the tables of a store in a database that has none, in one transaction.
pub fn lay_out<S: Alter>(conn: &mut Connection<S>) -> Result<(), Error>
    requires idle { conn.old.in_transaction ≡ false }
    requires empty { HasCleanDisk (state S.Store conn.old) → IsTrue (state S.Store conn.old).is_open → (state S.Store conn.old).now.schema ≡ no_schema }
    ensures idle { conn.new.in_transaction ≡ false }
    ensures ok { HasCleanDisk (state S.Store conn.new) → OnOk result (IsLaidOut (state S.Store conn.old) (state S.Store conn.new)) }
    ensures err { HasCleanDisk (state S.Store conn.new) → OnErr result (IsUndone (state S.Store conn.old) (state S.Store conn.new)) }
    ensures cause { HasCleanDisk (state S.Store conn.new) → IfErr result (IsCaused (state S.Store conn.old) (state S.Store conn.new)) }
    ensures survives { Survives (state S.Store conn.old) (state S.Store conn.new) AreLaidOut }
{
    let mut tx = conn.transaction();
    make_all(&mut tx)?;
    tx.commit()
}

/// Makes the table of pending changes in a database that has a store's other three, in one transaction.
pub fn complete<S: Alter>(conn: &mut Connection<S>) -> Result<(), Error>
    requires idle { conn.old.in_transaction ≡ false }
    requires front { HasCleanDisk (state S.Store conn.old) → IsTrue (state S.Store conn.old).is_open → (state S.Store conn.old).now.schema ≡ front_schema }
    ensures idle { conn.new.in_transaction ≡ false }
    ensures ok { HasCleanDisk (state S.Store conn.new) → OnOk result (IsCompleted (state S.Store conn.old) (state S.Store conn.new)) }
    ensures err { HasCleanDisk (state S.Store conn.new) → OnErr result (IsUndone (state S.Store conn.old) (state S.Store conn.new)) }
    ensures cause { HasCleanDisk (state S.Store conn.new) → IfErr result (IsCaused (state S.Store conn.old) (state S.Store conn.new)) }
    ensures survives { Survives (state S.Store conn.old) (state S.Store conn.new) (AreCompleted (state S.Store conn.old).now.trees) }
{
    let mut tx = conn.transaction();
    make_table(&mut tx, Part::Pending)?;
    tx.commit()
}
