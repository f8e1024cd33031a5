//! The statements of a commit, each a function of its own.

ghost use Rattle.std.specs.Prelude.{◌≡◌, ℤ, pos, false, Some, None, IsTrue, OnOk, OnErr, IfSome};
ghost use Rattle.std.specs.FinMap.{get};
ghost use Rattle.sqlite.specs.Held.{state};
ghost use Rattle.sqlite.specs.State.{HasCleanDisk, KeepsCommit, Survives};
ghost use Rattle.cs_sql.specs.statements.Tables.{contents_in, number_of};
ghost use Rattle.cs_store.specs.Written.{item_of, optional_entry};
ghost use Rattle.cs_sql.specs.schema.Making.{IsUndone};
ghost use Rattle.cs_sql.specs.statements.Steps.{IsInside, Edits, placed, without_at, with_at, with_edit, with_edits, without_named, with_named, with_value, with_values, with_log, with_batch, HasBatch, IsReady, IsWritten};

use crate::statements::spaces::Space;
use crate::statements::streaming::probe;
use cs_store::edits::{LentEdits, PlaceEdit};
use cs_store::{Batch, MetaEdit, StoredEntry};
use sqlite::{Alter, Connection, Error, Transaction, params};

/// Removes the body at a place, if there is one.
fn remove_at<S: Alter>(
    tx: &mut Transaction<'_, S>,
    space: Space,
    table: u32,
    key: &[u8],
) -> Result<usize, Error>
    requires { HasCleanDisk (state S.Store tx.old.conn.now) → IsInside (state S.Store tx.old.conn.now) }
    ensures same_reference { tx.new.conn.ghost_name ≡ tx.old.conn.ghost_name }
    ensures ok { HasCleanDisk (state S.Store tx.new.conn.now) → OnOk result (Edits (without_at space (pos table) key.now (contents_in (state S.Store tx.old.conn.now).now.trees)) (state S.Store tx.old.conn.now) (state S.Store tx.new.conn.now)) }
    ensures err { HasCleanDisk (state S.Store tx.new.conn.now) → OnErr result (KeepsCommit (state S.Store tx.old.conn.now) (state S.Store tx.new.conn.now)) }
    ensures survives { Survives (state S.Store tx.old.conn.now) (state S.Store tx.new.conn.now) (λ _. ⊥) }
{
    tx.execute(space.texts().remove, params![table, key])
}

/// Adds a body at a place that has none.
fn insert_at<S: Alter>(
    tx: &mut Transaction<'_, S>,
    space: Space,
    table: u32,
    key: &[u8],
    body: &[u8],
) -> Result<usize, Error>
    requires inside { HasCleanDisk (state S.Store tx.old.conn.now) → IsInside (state S.Store tx.old.conn.now) }
    requires absent { HasCleanDisk (state S.Store tx.old.conn.now) → IsTrue (state S.Store tx.old.conn.now).is_open → get (placed space (contents_in (state S.Store tx.old.conn.now).now.trees)) (pos table, key.now) ≡ None }
    ensures same_reference { tx.new.conn.ghost_name ≡ tx.old.conn.ghost_name }
    ensures ok { HasCleanDisk (state S.Store tx.new.conn.now) → OnOk result (Edits (with_at space (pos table) key.now body.now (contents_in (state S.Store tx.old.conn.now).now.trees)) (state S.Store tx.old.conn.now) (state S.Store tx.new.conn.now)) }
    ensures err { HasCleanDisk (state S.Store tx.new.conn.now) → OnErr result (KeepsCommit (state S.Store tx.old.conn.now) (state S.Store tx.new.conn.now)) }
    ensures survives { Survives (state S.Store tx.old.conn.now) (state S.Store tx.new.conn.now) (λ _. ⊥) }
{
    tx.execute(space.texts().insert, params![table, key, body])
}

/// Sets the body at a place, or removes it.
fn write_at<S: Alter>(
    tx: &mut Transaction<'_, S>,
    space: Space,
    edit: &PlaceEdit<'_>,
) -> Result<(), Error>
    requires { HasCleanDisk (state S.Store tx.old.conn.now) → IsInside (state S.Store tx.old.conn.now) }
    ensures same_reference { tx.new.conn.ghost_name ≡ tx.old.conn.ghost_name }
    ensures ok { HasCleanDisk (state S.Store tx.new.conn.now) → OnOk result (Edits (with_edit space edit.now (contents_in (state S.Store tx.old.conn.now).now.trees)) (state S.Store tx.old.conn.now) (state S.Store tx.new.conn.now)) }
    ensures err { HasCleanDisk (state S.Store tx.new.conn.now) → OnErr result (KeepsCommit (state S.Store tx.old.conn.now) (state S.Store tx.new.conn.now)) }
    ensures survives { Survives (state S.Store tx.old.conn.now) (state S.Store tx.new.conn.now) (λ _. ⊥) }
{
    remove_at(tx, space, edit.table(), edit.key())?;
    if let Some(body) = edit.body() {
        insert_at(tx, space, edit.table(), edit.key(), body)?;
    }
    Ok(())
}

/// Writes the edits of one of the two tables, in order.
fn write_edits<S: Alter>(
    tx: &mut Transaction<'_, S>,
    space: Space,
    edits: &LentEdits<'_>,
) -> Result<(), Error>
    requires { HasCleanDisk (state S.Store tx.old.conn.now) → IsInside (state S.Store tx.old.conn.now) }
    ensures same_reference { tx.new.conn.ghost_name ≡ tx.old.conn.ghost_name }
    ensures ok { HasCleanDisk (state S.Store tx.new.conn.now) → OnOk result (Edits (with_edits space edits.now (contents_in (state S.Store tx.old.conn.now).now.trees)) (state S.Store tx.old.conn.now) (state S.Store tx.new.conn.now)) }
    ensures err { HasCleanDisk (state S.Store tx.new.conn.now) → OnErr result (KeepsCommit (state S.Store tx.old.conn.now) (state S.Store tx.new.conn.now)) }
    ensures survives { Survives (state S.Store tx.old.conn.now) (state S.Store tx.new.conn.now) (λ _. ⊥) }
{
    for at in 0..edits.len() {
        write_at(tx, space, &edits.get(at))?;
    }
    Ok(())
}

/// Removes a value of meta, if there is one.
fn remove_meta<S: Alter>(tx: &mut Transaction<'_, S>, name: &str) -> Result<usize, Error>
    requires { HasCleanDisk (state S.Store tx.old.conn.now) → IsInside (state S.Store tx.old.conn.now) }
    ensures same_reference { tx.new.conn.ghost_name ≡ tx.old.conn.ghost_name }
    ensures ok { HasCleanDisk (state S.Store tx.new.conn.now) → OnOk result (Edits (without_named name.now (contents_in (state S.Store tx.old.conn.now).now.trees)) (state S.Store tx.old.conn.now) (state S.Store tx.new.conn.now)) }
    ensures err { HasCleanDisk (state S.Store tx.new.conn.now) → OnErr result (KeepsCommit (state S.Store tx.old.conn.now) (state S.Store tx.new.conn.now)) }
    ensures survives { Survives (state S.Store tx.old.conn.now) (state S.Store tx.new.conn.now) (λ _. ⊥) }
{
    tx.execute("DELETE FROM meta WHERE name = ?1", params![name])
}

/// Adds a value of meta under a name that has none.
fn insert_meta<S: Alter>(
    tx: &mut Transaction<'_, S>,
    name: &str,
    value: &[u8],
) -> Result<usize, Error>
    requires inside { HasCleanDisk (state S.Store tx.old.conn.now) → IsInside (state S.Store tx.old.conn.now) }
    requires absent { HasCleanDisk (state S.Store tx.old.conn.now) → IsTrue (state S.Store tx.old.conn.now).is_open → get (contents_in (state S.Store tx.old.conn.now).now.trees).meta name.now ≡ None }
    ensures same_reference { tx.new.conn.ghost_name ≡ tx.old.conn.ghost_name }
    ensures ok { HasCleanDisk (state S.Store tx.new.conn.now) → OnOk result (Edits (with_named name.now value.now (contents_in (state S.Store tx.old.conn.now).now.trees)) (state S.Store tx.old.conn.now) (state S.Store tx.new.conn.now)) }
    ensures err { HasCleanDisk (state S.Store tx.new.conn.now) → OnErr result (KeepsCommit (state S.Store tx.old.conn.now) (state S.Store tx.new.conn.now)) }
    ensures survives { Survives (state S.Store tx.old.conn.now) (state S.Store tx.new.conn.now) (λ _. ⊥) }
{
    tx.execute("INSERT INTO meta VALUES (?1, ?2)", params![name, value])
}

/// Sets a value of meta, or removes it.
fn write_value<S: Alter>(tx: &mut Transaction<'_, S>, edit: &MetaEdit) -> Result<(), Error>
    requires { HasCleanDisk (state S.Store tx.old.conn.now) → IsInside (state S.Store tx.old.conn.now) }
    ensures same_reference { tx.new.conn.ghost_name ≡ tx.old.conn.ghost_name }
    ensures ok { HasCleanDisk (state S.Store tx.new.conn.now) → OnOk result (Edits (with_value edit.now (contents_in (state S.Store tx.old.conn.now).now.trees)) (state S.Store tx.old.conn.now) (state S.Store tx.new.conn.now)) }
    ensures err { HasCleanDisk (state S.Store tx.new.conn.now) → OnErr result (KeepsCommit (state S.Store tx.old.conn.now) (state S.Store tx.new.conn.now)) }
    ensures survives { Survives (state S.Store tx.old.conn.now) (state S.Store tx.new.conn.now) (λ _. ⊥) }
{
    remove_meta(tx, edit.name.text())?;
    if let Some(value) = &edit.value {
        insert_meta(tx, edit.name.text(), value)?;
    }
    Ok(())
}

/// Writes the values of meta of a batch, in order.
fn write_values<S: Alter>(tx: &mut Transaction<'_, S>, edits: &[MetaEdit]) -> Result<(), Error>
    requires { HasCleanDisk (state S.Store tx.old.conn.now) → IsInside (state S.Store tx.old.conn.now) }
    ensures same_reference { tx.new.conn.ghost_name ≡ tx.old.conn.ghost_name }
    ensures ok { HasCleanDisk (state S.Store tx.new.conn.now) → OnOk result (Edits (with_values edits.now (contents_in (state S.Store tx.old.conn.now).now.trees)) (state S.Store tx.old.conn.now) (state S.Store tx.new.conn.now)) }
    ensures err { HasCleanDisk (state S.Store tx.new.conn.now) → OnErr result (KeepsCommit (state S.Store tx.old.conn.now) (state S.Store tx.new.conn.now)) }
    ensures survives { Survives (state S.Store tx.old.conn.now) (state S.Store tx.new.conn.now) (λ _. ⊥) }
{
    for edit in edits {
        write_value(tx, edit)?;
    }
    Ok(())
}

/// The signed number with the same 64 bits.
fn signed(number: u64) -> i64
    ensures { number_of result ≡ number }
{
    if number <= 9_223_372_036_854_775_807 {
        number as i64
    } else {
        -1 - (18_446_744_073_709_551_615 - number) as i64
    }
}

/// Adds an entry of the log at a version that has none.
fn insert_log<S: Alter>(
    tx: &mut Transaction<'_, S>,
    version: u32,
    entry: &StoredEntry,
) -> Result<usize, Error>
    requires { HasCleanDisk (state S.Store tx.old.conn.now) → IsInside (state S.Store tx.old.conn.now) }
    ensures same_reference { tx.new.conn.ghost_name ≡ tx.old.conn.ghost_name }
    ensures ok { HasCleanDisk (state S.Store tx.new.conn.now) → OnOk result (Edits (with_log (pos version) (Some (item_of entry.now)) (contents_in (state S.Store tx.old.conn.now).now.trees)) (state S.Store tx.old.conn.now) (state S.Store tx.new.conn.now)) }
    ensures err { HasCleanDisk (state S.Store tx.new.conn.now) → OnErr result (KeepsCommit (state S.Store tx.old.conn.now) (state S.Store tx.new.conn.now)) }
    ensures survives { Survives (state S.Store tx.old.conn.now) (state S.Store tx.new.conn.now) (λ _. ⊥) }
    ensures free { HasCleanDisk (state S.Store tx.new.conn.now) → OnOk result (IsTrue (state S.Store tx.new.conn.now).is_open → get (contents_in (state S.Store tx.old.conn.now).now.trees).log (pos version) ≡ None) }
{
    let number = signed(entry.number);
    tx.execute(
        "INSERT INTO log VALUES (?1, ?2, ?3, ?4)",
        params![version, entry.origin, number, &entry.body],
    )
}

/// Adds the new entry of a batch, if it has one.
fn write_log<S: Alter>(
    tx: &mut Transaction<'_, S>,
    version: u32,
    entry: &Option<StoredEntry>,
) -> Result<(), Error>
    requires { HasCleanDisk (state S.Store tx.old.conn.now) → IsInside (state S.Store tx.old.conn.now) }
    ensures same_reference { tx.new.conn.ghost_name ≡ tx.old.conn.ghost_name }
    ensures ok { HasCleanDisk (state S.Store tx.new.conn.now) → OnOk result (Edits (with_log (pos version) (optional_entry entry.now) (contents_in (state S.Store tx.old.conn.now).now.trees)) (state S.Store tx.old.conn.now) (state S.Store tx.new.conn.now)) }
    ensures err { HasCleanDisk (state S.Store tx.new.conn.now) → OnErr result (KeepsCommit (state S.Store tx.old.conn.now) (state S.Store tx.new.conn.now)) }
    ensures survives { Survives (state S.Store tx.old.conn.now) (state S.Store tx.new.conn.now) (λ _. ⊥) }
    ensures free { HasCleanDisk (state S.Store tx.new.conn.now) → OnOk result (IsTrue (state S.Store tx.new.conn.now).is_open → IfSome entry.now (λ _. get (contents_in (state S.Store tx.old.conn.now).now.trees).log (pos version) ≡ None)) }
{
    if let Some(entry) = entry {
        insert_log(tx, version, entry)?;
    }
    Ok(())
}

/// Writes a batch.
fn write_batch<S: Alter>(
    tx: &mut Transaction<'_, S>,
    batch: &Batch,
    version: u32,
) -> Result<(), Error>
    requires { HasCleanDisk (state S.Store tx.old.conn.now) → IsInside (state S.Store tx.old.conn.now) }
    ensures same_reference { tx.new.conn.ghost_name ≡ tx.old.conn.ghost_name }
    ensures ok { HasCleanDisk (state S.Store tx.new.conn.now) → OnOk result (Edits (with_batch batch.now (pos version) (contents_in (state S.Store tx.old.conn.now).now.trees)) (state S.Store tx.old.conn.now) (state S.Store tx.new.conn.now)) }
    ensures err { HasCleanDisk (state S.Store tx.new.conn.now) → OnErr result (KeepsCommit (state S.Store tx.old.conn.now) (state S.Store tx.new.conn.now)) }
    ensures survives { Survives (state S.Store tx.old.conn.now) (state S.Store tx.new.conn.now) (λ _. ⊥) }
    ensures free { HasCleanDisk (state S.Store tx.new.conn.now) → OnOk result (IsTrue (state S.Store tx.new.conn.now).is_open → IfSome batch.now.log (λ _. get (contents_in (state S.Store tx.old.conn.now).now.trees).log (pos version) ≡ None)) }
{
    write_edits(tx, Space::Rows, &batch.rows.lend())?;
    write_edits(tx, Space::Pending, &batch.pending.lend())?;
    write_values(tx, &batch.meta)?;
    write_log(tx, version, &batch.log)
}

/// Writes a batch in one transaction.
pub fn commit_batch<S: Alter>(
    conn: &mut Connection<S>,
    batch: &Batch,
    version: u32,
) -> Result<(), Error>
    requires idle { conn.old.in_transaction ≡ false }
    requires ready { HasCleanDisk (state S.Store conn.old) → IsTrue (state S.Store conn.old).is_open → IsReady (state S.Store conn.old) }
    ensures idle { conn.new.in_transaction ≡ false }
    ensures ok { HasCleanDisk (state S.Store conn.new) → OnOk result (IsWritten (with_batch batch.now (pos version) (contents_in (state S.Store conn.old).now.trees)) (state S.Store conn.old) (state S.Store conn.new)) }
    ensures free { HasCleanDisk (state S.Store conn.new) → OnOk result (IfSome batch.now.log (λ _. get (contents_in (state S.Store conn.old).now.trees).log (pos version) ≡ None)) }
    ensures err { HasCleanDisk (state S.Store conn.new) → OnErr result (IsUndone (state S.Store conn.old) (state S.Store conn.new)) }
    ensures survives { Survives (state S.Store conn.old) (state S.Store conn.new) (HasBatch batch.now (pos version) (state S.Store conn.old)) }
{
    let _ = conn.schema();
    // The connection is tested also where no statement follows.
    probe(conn)?;
    let mut tx = conn.transaction();
    write_batch(&mut tx, batch, version)?;
    tx.commit()
}
