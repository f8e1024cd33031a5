//! Where a replica stands, and its rows.

ghost use Rattle.std.specs.Prelude.{◌≡◌, ◌<◌, Err, IfOk, OnOk, length, string_bytes};
ghost use Rattle.cs_replica.specs.Leaves.{Counts};
ghost use Rattle.cs_replica.specs.Step.{Member, Turns};
ghost use Rattle.cs_node_lines.specs.working.LineStep.{IsDumped};
ghost use Rattle.cs_node_lines.specs.working.Steps.{PutsTable};
ghost use Rattle.cs_store.specs.declared.fault.StoreFault.TheVariants as stored;
ghost use Rattle.cs_text.specs.Text.{line};
ghost use Rattle.cs_node_lines.specs.told.Dump.{PutsRows, flight_count, numbered_text, replica_text, rows_text};
ghost use Rattle.cs_node_lines.specs.told.Told.{place_text};

use crate::told::{PlaceText, ReplicaText, RowsText};
use cs_pending::rows::RowAtKey;
use cs_replica::Replica;
use cs_store::{RowStore, StoreFault};
use cs_value::{Memory, Text};
use std::alloc::Global;

/// The lines of rows of the table with this name.
pub(crate) fn lines_of(alloc: Global, table: &Text, rows: &[RowAtKey]) -> Result<String, Memory>
    ensures { IfOk result (λ text. string_bytes text ≡ rows_text table.now rows.now) }
{
    format!(in alloc; "{}", RowsText { table, rows })
}

/// How many changes are under way.
pub fn flight_len<S: RowStore>(replica: &Replica<S>) -> usize
    ensures { result ≡ flight_count replica.now.position.flight }
{
    match replica.in_flight() {
        Some(changes) => changes.len(),
        None => 0,
    }
}

/// The line of the replica with this id, which stands there.
fn line_of(alloc: Global, id: u32, place: PlaceText) -> Result<String, Memory>
    ensures { IfOk result (λ text. string_bytes text ≡ line (numbered_text id (place_text place.version place.pending place.flight))) }
{
    let id = id as u64;
    format!(in alloc; "{}\n", ReplicaText { id, place })
}

/// The line of where a replica stands.
pub fn place_of<S: RowStore>(alloc: Global, replica: &Replica<S>) -> Result<String, Memory>
    ensures { IfOk result (λ text. string_bytes text ≡ line (replica_text replica.now.position.id replica.now.position)) }
{
    let id = replica.id();
    let version = replica.version();
    let pending = replica.pending_len();
    let flight = flight_len(replica);
    line_of(
        alloc,
        id,
        PlaceText {
            version,
            pending,
            flight,
        },
    )
}

/// Puts the lines of the rows of the table with this number behind a text.
fn put_table<S: RowStore>(
    alloc: Global,
    replica: &mut Replica<S>,
    table: usize,
    text: &mut String,
) -> Result<(), StoreFault>
    requires { table < length replica.old.catalog }
    ensures turned { Turns S.RowStore (λ (before : Member) (after : Member). (after ≡ before)
        × OnOk result (PutsTable replica.old.catalog table before.view.tables (string_bytes text.old) (string_bytes text.new))) replica.old replica.new }
    ensures catalog { replica.new.catalog ≡ replica.old.catalog }
    ensures counts { Counts S.RowStore (result ≡ Err stored.Device) replica.old replica.new }
{
    let rows = replica.rows(alloc, table)?;
    let Some(def) = replica.catalog().tables().get(table) else {
        return Ok(());
    };
    let lines = lines_of(alloc, &def.name, rows.as_slice())?;
    text.push_str(lines.as_str())?;
    Ok(())
}

/// Puts the lines of the rows of all tables behind a text.
fn put_tables<S: RowStore>(
    alloc: Global,
    replica: &mut Replica<S>,
    text: &mut String,
) -> Result<(), StoreFault>
    ensures turned { Turns S.RowStore (λ (before : Member) (after : Member). (after ≡ before)
        × OnOk result (PutsRows before.tables before.view.tables (string_bytes text.old) (string_bytes text.new))) replica.old replica.new }
    ensures counts { Counts S.RowStore (result ≡ Err stored.Device) replica.old replica.new }
{
    let count = replica.catalog().tables().len();
    for table in 0..count {
        match put_table(alloc, replica, table, text) {
            Ok(()) => {}
            Err(fault) => return Err(fault),
        }
    }
    Ok(())
}

/// Where a replica stands, and its rows: its tables in their order, rows in the order of their keys' bytes.
pub(crate) fn dump_of<S: RowStore>(
    alloc: Global,
    replica: &mut Replica<S>,
) -> Result<String, StoreFault>
    ensures turned { Turns S.RowStore (λ (before : Member) (after : Member). (after ≡ before)
        × IfOk result (λ text. IsDumped before (string_bytes text))) replica.old replica.new }
    ensures counts { Counts S.RowStore (result ≡ Err stored.Device) replica.old replica.new }
{
    let mut text = place_of(alloc, replica)?;
    put_tables(alloc, replica, &mut text)?;
    Ok(text)
}
