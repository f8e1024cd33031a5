//! What is shown of a replica.

ghost use Rattle.std.specs.Prelude.{◌≡◌, ◌⊎◌, ◌<◌, ℕ, true, HoldsAt, IfOk, MatchResult, length, string_bytes};
ghost use Rattle.std.specs.FinMap.{find};
ghost use Rattle.cs_node_lines.specs.declared.asks.look.Look.TheVariants as look;
ghost use Rattle.cs_node_lines.specs.following.FollowStep.{LookStep, TellsRows, behind_key, outgoing_text, row_told};
ghost use Rattle.cs_node_lines.specs.following.Steps.{Shows};
ghost use Rattle.cs_node_lines.specs.working.LineStep.{SaysMemory};
ghost use Rattle.cs_node_lines.specs.working.Replies.{reply_text};
ghost use Rattle.cs_node_lines.specs.working.Steps.{Stepped};
ghost use Rattle.cs_node_lines.specs.working.Texts.{refused_text, store_fault_text};
ghost use Rattle.cs_normal.specs.Normal.{groups_of};
ghost use Rattle.cs_normal.specs.keyed.Changes.{key_bytes};
ghost use Rattle.cs_order.specs.Order.{by_bytes};
ghost use Rattle.cs_replica.specs.Step.{Member};
ghost use Rattle.cs_text.specs.Text.{changeset_text, tables_text};

use crate::asks::Look;
use crate::working::{Reply, lines_of, place_of, store_fault_name};
use cs_normal::Normal;
use cs_normal::keyed::encode_key;
use cs_pending::outgoing::Outgoing;
use cs_pending::rows::RowAtKey;
use cs_replica::Replica;
use cs_store::{RowStore, StoreFault};
use cs_text::{ChangesetText, TablesText};
use cs_value::{Memory, TableDef, Text, Value};
use std::alloc::Global;

/// The row behind the bytes of a key, if it is one of the rows.
fn row_at<'r>(rows: &'r [RowAtKey], key: &[u8]) -> &'r [RowAtKey]
    ensures { result.now ≡ behind_key key.now (find by_bytes key.now rows.now) }
{
    let mut rest = rows;
    while let Some((row, more)) = rest.split_first() {
        if row.0.as_slice() == key {
            return &rest[..1];
        }
        rest = more;
    }
    &[]
}

/// The line of the row with a key, in the table with this number and name, if there is one.
fn row_line_of<S: RowStore>(
    alloc: Global,
    replica: &mut Replica<S>,
    table: usize,
    name: &Text,
    key: &[Value],
) -> Result<String, StoreFault>
    requires there { table < length replica.old.catalog }
    requires named { HoldsAt (λ def. def.name ≡ name.now) replica.old.catalog table }
    ensures { Shows S.RowStore (λ before text. string_bytes text ≡ row_told true before.view.tables name.now (key_bytes key.now)) result replica.old replica.new }
{
    let key = encode_key(alloc, key)?;
    let rows = replica.rows(alloc, table)?;
    let found = row_at(rows.as_slice(), key.as_slice());
    Ok(lines_of(alloc, name, found)?)
}

/// The lines of the rows of the table with this number and name.
fn row_lines<S: RowStore>(
    alloc: Global,
    replica: &mut Replica<S>,
    table: usize,
    name: &Text,
) -> Result<String, StoreFault>
    requires there { table < length replica.old.catalog }
    requires named { HoldsAt (λ def. def.name ≡ name.now) replica.old.catalog table }
    ensures { Shows S.RowStore (λ before text. TellsRows true before.view.tables name.now (string_bytes text)) result replica.old replica.new }
{
    let rows = replica.rows(alloc, table)?;
    Ok(lines_of(alloc, name, rows.as_slice())?)
}

/// What is printed of what was read, or why it wasn't.
fn read_reply(read: Result<String, StoreFault>) -> Reply
    ensures { MatchResult read (λ text. reply_text result ≡ string_bytes text) (λ fault. reply_text result ≡ refused_text (store_fault_text fault)) }
{
    match read {
        Ok(text) => Reply::Text(text),
        Err(fault) => Reply::Refused(store_fault_name(fault)),
    }
}

/// A line for each table.
fn tables_of(alloc: Global, tables: &[TableDef]) -> Result<String, Memory>
    ensures { IfOk result (λ text. string_bytes text ≡ tables_text tables.now) }
{
    format!(in alloc; "{}", TablesText(tables))
}

fn place_line<S: RowStore>(alloc: Global, replica: &Replica<S>) -> Reply
    ensures { (had : ℕ) → (has : ℕ) → (before : Member) → before.position ≡ replica.now.position → LookStep had has before look.Place (reply_text result) before }
{
    match place_of(alloc, replica) {
        Ok(text) => Reply::Text(text),
        Err(_) => Reply::Refused("Memory"),
    }
}

fn tables_line<S: RowStore>(alloc: Global, replica: &Replica<S>) -> Reply
    ensures { (had : ℕ) → (has : ℕ) → (before : Member) → before.tables ≡ replica.now.catalog → LookStep had has before look.Tables (reply_text result) before }
{
    match tables_of(alloc, replica.catalog().tables()) {
        Ok(text) => Reply::Text(text),
        Err(_) => Reply::Refused("Memory"),
    }
}

fn rows_line<S: RowStore>(alloc: Global, replica: &mut Replica<S>, name: &Text) -> Reply
    ensures { Stepped S.RowStore LookStep (look.Rows name.now) (reply_text result) replica.old replica.new }
{
    match replica.catalog().find(name.as_str()) {
        Some(table) => read_reply(row_lines(alloc, replica, table, name)),
        None => Reply::Refused("NoTable"),
    }
}

fn row_line<S: RowStore>(
    alloc: Global,
    replica: &mut Replica<S>,
    name: &Text,
    key: &[Value],
) -> Reply
    ensures { Stepped S.RowStore LookStep (look.Row name.now key.now) (reply_text result) replica.old replica.new }
{
    match replica.catalog().find(name.as_str()) {
        Some(table) => read_reply(row_line_of(alloc, replica, table, name, key)),
        None => Reply::Refused("NoTable"),
    }
}

/// The lines of a changeset.
fn changes_text(alloc: Global, changes: &Normal) -> Result<String, Memory>
    ensures { IfOk result (λ text. string_bytes text ≡ changeset_text (groups_of changes.now)) }
{
    let groups = changes.lend(alloc)?;
    format!(in alloc; "{}", ChangesetText(groups.as_slice()))
}

/// What is printed of what is pending, if memory isn't refused for it.
fn outgoing_reply(alloc: Global, outgoing: &Outgoing) -> Reply
    ensures { (reply_text result ≡ outgoing_text outgoing.now) ⊎ SaysMemory (reply_text result) }
{
    match outgoing {
        Outgoing::Nothing => Reply::Text(String::new(alloc)),
        Outgoing::TooLarge => Reply::Refused("TooLarge"),
        Outgoing::Changes(changes) => match changes_text(alloc, changes) {
            Ok(text) => Reply::Text(text),
            Err(_) => Reply::Refused("Memory"),
        },
    }
}

fn pending_line<S: RowStore>(alloc: Global, replica: &mut Replica<S>) -> Reply
    ensures { Stepped S.RowStore LookStep look.Pending (reply_text result) replica.old replica.new }
{
    match replica.pending(alloc) {
        Ok(outgoing) => outgoing_reply(alloc, &outgoing),
        Err(fault) => Reply::Refused(store_fault_name(fault)),
    }
}

/// Shows what a line asks to be shown.
pub(crate) fn look_line<S: RowStore>(alloc: Global, replica: &mut Replica<S>, look: &Look) -> Reply
    ensures { Stepped S.RowStore LookStep look.now (reply_text result) replica.old replica.new }
{
    match look {
        Look::Place => place_line(alloc, replica),
        Look::Tables => tables_line(alloc, replica),
        Look::Rows(name) => rows_line(alloc, replica, name),
        Look::Row { table, key } => row_line(alloc, replica, table, key.as_slice()),
        Look::Pending => pending_line(alloc, replica),
    }
}
