//! A world, at its end.

ghost use Rattle.std.specs.Prelude.{◌≡◌, ◌++◌, IfOk, OnOk, Some, codes, slice_get, string_bytes};
ghost use Rattle.std.specs.Fmt.{decimal};
ghost use Rattle.cs_normal.specs.State.{State};
ghost use Rattle.cs_script.specs.Turns.{IsStateOf, PutsDump, PutsReplica, PutsReplicas, StandsAt};
ghost use Rattle.cs_text.specs.Text.{line};
ghost use Rattle.cs_node_lines.specs.told.Dump.{PutsRows, flight_count, numbered_text, rows_text};
ghost use Rattle.cs_node_lines.specs.told.Told.{place_text};
ghost use Rattle.cs_pending.specs.rows.Rows.{AreRowsOf};
ghost use Rattle.cs_value.specs.declared.catalog.TableDef.{TableDef};
ghost use Rattle.cs_world.specs.World.{IsMember, Member, World as Standing};

use cs_map_store::MapStore;
use cs_node_lines::told::{PlaceText, ReplicaText, RowsText};
use cs_pending::rows::RowAtKey;
use cs_value::{Catalog, Memory, Text};
use cs_world::World;
use std::alloc::{AllocError, Global};

/// Appends the newest version and the hub's rows, and where each replica stands and its rows.
pub(crate) fn push_dump(
    alloc: Global,
    catalog: &Catalog,
    world: &mut World<MapStore>,
    text: &mut String,
) -> Result<(), Memory>
    ensures { OnOk result ((standing : Standing) → StandsAt world.old standing → catalog.now ≡ standing.tables
        → PutsDump standing (string_bytes text.old) (string_bytes text.new)) }
{
    push_newest(alloc, world.newest(), text)?;
    push_tables(alloc, catalog, world, None, text)?;
    push_replicas(alloc, catalog, world, text)
}

fn push_replicas(
    alloc: Global,
    catalog: &Catalog,
    world: &mut World<MapStore>,
    text: &mut String,
) -> Result<(), Memory>
    ensures { OnOk result ((standing : Standing) → StandsAt world.old standing → catalog.now ≡ standing.tables
        → PutsReplicas catalog.now standing.members (string_bytes text.old) (string_bytes text.new)) }
{
    for replica in 0..world.replicas() {
        push_replica(alloc, catalog, world, replica, text)?;
    }
    Ok(())
}

fn push_replica(
    alloc: Global,
    catalog: &Catalog,
    world: &mut World<MapStore>,
    replica: usize,
    text: &mut String,
) -> Result<(), Memory>
    ensures stands { (standing : Standing) → StandsAt world.old standing → StandsAt world.new standing }
    ensures put { OnOk result ((standing : Standing) (member : Member) → StandsAt world.old standing → IsMember standing replica member
        → catalog.now ≡ standing.tables → PutsReplica catalog.now replica member (string_bytes text.old) (string_bytes text.new)) }
{
    let place = place_of(world, replica);
    push_place(alloc, replica, place, text)?;
    push_tables(alloc, catalog, world, Some(replica), text)
}

fn push_newest(alloc: Global, newest: u64, text: &mut String) -> Result<(), Memory>
    ensures { OnOk result (string_bytes text.new ≡ string_bytes text.old ++ line (codes "hub " ++ decimal newest)) }
{
    let line = format!(in alloc; "hub {newest}\n")?;
    text.push_str(line.as_str())?;
    Ok(())
}

fn push_place(
    alloc: Global,
    replica: usize,
    place: PlaceText,
    text: &mut String,
) -> Result<(), Memory>
    ensures { OnOk result (string_bytes text.new ≡ string_bytes text.old
        ++ line (numbered_text replica (place_text place.version place.pending place.flight))) }
{
    let id = replica as u64;
    let line = format!(in alloc; "{}\n", ReplicaText { id, place })?;
    text.push_str(line.as_str())?;
    Ok(())
}

// Where a replica stands.
fn place_of(world: &World<MapStore>, replica: usize) -> PlaceText
    ensures version { (standing : Standing) (member : Member) → StandsAt world.now standing → IsMember standing replica member
        → result.version ≡ member.position.version }
    ensures pending { (standing : Standing) (member : Member) → StandsAt world.now standing → IsMember standing replica member
        → result.pending ≡ member.position.pending }
    ensures flight { (standing : Standing) (member : Member) → StandsAt world.now standing → IsMember standing replica member
        → result.flight ≡ flight_count member.position.flight }
{
    PlaceText {
        version: world.version(replica).unwrap_or(0),
        pending: world.pending_len(replica).unwrap_or(0),
        flight: flight_of(world, replica),
    }
}

// How many changes its push has that is under way.
fn flight_of(world: &World<MapStore>, replica: usize) -> usize
    ensures { (standing : Standing) (member : Member) → StandsAt world.now standing → IsMember standing replica member
        → result ≡ flight_count member.position.flight }
{
    match world.in_flight(replica) {
        Some(changes) => changes.len(),
        None => 0,
    }
}

// Appends the rows of a replica, or, where none is named, of the hub, table by table.
fn push_tables(
    alloc: Global,
    catalog: &Catalog,
    world: &mut World<MapStore>,
    whose: Option<usize>,
    text: &mut String,
) -> Result<(), Memory>
    ensures stands { (standing : Standing) → StandsAt world.old standing → StandsAt world.new standing }
    ensures put { OnOk result ((standing : Standing) (state : State) → StandsAt world.old standing → IsStateOf standing whose state
        → catalog.now ≡ standing.tables → PutsRows catalog.now state (string_bytes text.old) (string_bytes text.new)) }
{
    let tables = catalog.tables();
    for (number, table) in tables.iter().enumerate() {
        let rows = rows_of(world, whose, number)?;
        push_rows(alloc, &table.name, &rows, text)?;
    }
    Ok(())
}

// The rows of a table, by its place and its name, which it keeps where it gets more columns. A store in memory fails for want of memory
// alone.
fn rows_of(
    world: &mut World<MapStore>,
    whose: Option<usize>,
    table: usize,
) -> Result<Vec<RowAtKey>, Memory>
    ensures stands { (standing : Standing) → StandsAt world.old standing → StandsAt world.new standing }
    ensures listed { IfOk result (λ rows. (standing : Standing) (state : State) → StandsAt world.old standing → IsStateOf standing whose state
        → (def : TableDef) → slice_get standing.tables table ≡ Some def → AreRowsOf (state def.name) rows.items) }
{
    match whose {
        Some(replica) => match world.rows(replica, table) {
            Ok(rows) => Ok(rows),
            Err(_) => Err(AllocError),
        },
        None => match world.hub_rows(table) {
            Ok(rows) => Ok(rows),
            Err(_) => Err(AllocError),
        },
    }
}

fn push_rows(
    alloc: Global,
    table: &Text,
    rows: &[RowAtKey],
    text: &mut String,
) -> Result<(), Memory>
    ensures { OnOk result (string_bytes text.new ≡ string_bytes text.old ++ rows_text table.now rows.now) }
{
    let lines = format!(in alloc; "{}", RowsText { table, rows })?;
    text.push_str(lines.as_str())?;
    Ok(())
}
