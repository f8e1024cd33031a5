//! Worlds over stores in SQLite, in memory. Each event of a script comes to what it comes to over any other stores, and all have the rows.

ghost use Rattle.std.specs.Prelude.{◌≡◌, ◌∷◌, [], IfOk};
ghost use Rattle.cs_store.specs.Contents.{nothing};

use cs_replica::Told;
use cs_script::read_event;
use cs_sql::SqlStore;
use cs_store::{RowStore, StoreFault};
use cs_store_cases::catalog;
use cs_value::{Catalog, Memory};
use cs_world::{Outcome, World, WorldFault};
use std::alloc::Global;

/// A line, and what it comes to.
type Line = (&'static str, Outcome);

/// An answer is lost, and an old push comes again.
const LOST: [Line; 9] = [
    ("edit 0 insert t1 1 t=a", Outcome::Done),
    ("push 0", Outcome::Sent(0)),
    ("deliver 0 -", Outcome::Sent(1)),
    ("edit 0 update t1 1 t=b", Outcome::Done),
    ("pull 0 10", Outcome::Sent(2)),
    ("deliver 2 -", Outcome::Sent(3)),
    ("deliver 3 -", Outcome::Heard(Told::Taken(1))),
    ("deliver 0 -", Outcome::Sent(4)),
    ("deliver 4 -", Outcome::Heard(Told::Ignored)),
];

/// Three rows at each of two replicas, of which one has pushed its own and the other is about to hear of them.
const CLASHING: [Line; 10] = [
    ("edit 0 insert t1 1 t=a", Outcome::Done),
    ("edit 0 insert t1 2 t=b", Outcome::Done),
    ("edit 0 insert t1 3 t=c", Outcome::Done),
    ("edit 1 insert t1 1 t=x", Outcome::Done),
    ("edit 1 insert t1 2 t=y", Outcome::Done),
    ("edit 1 insert t1 3 t=z", Outcome::Done),
    ("push 0", Outcome::Sent(0)),
    ("deliver 0 -", Outcome::Sent(1)),
    ("pull 1 10", Outcome::Sent(2)),
    ("deliver 2 -", Outcome::Sent(3)),
];

/// The third clash is stopped.
const STOPPED: [Line; 1] = [("deliver 3 kts", Outcome::Heard(Told::Stopped(0)))];

/// It isn't: the row of the first clash is kept, and the others are taken. It is pushed, the other replica hears of it and deletes a row, and
/// reads its store again; and all come to rest.
const RESTING: [Line; 17] = [
    ("deliver 3 ktt", Outcome::Heard(Told::Taken(1))),
    ("push 1", Outcome::Sent(4)),
    ("deliver 4 -", Outcome::Sent(5)),
    ("deliver 5 -", Outcome::Heard(Told::Confirmed(2))),
    ("deliver 1 -", Outcome::Heard(Told::Confirmed(1))),
    ("edit 0 delete t1 2", Outcome::Done),
    ("restart 0", Outcome::Done),
    ("pull 0 10", Outcome::Sent(6)),
    ("deliver 6 -", Outcome::Sent(7)),
    ("deliver 7 -", Outcome::Heard(Told::Taken(1))),
    ("push 0", Outcome::Sent(8)),
    ("deliver 8 -", Outcome::Sent(9)),
    ("deliver 9 -", Outcome::Heard(Told::Confirmed(3))),
    ("restart 1", Outcome::Done),
    ("pull 1 10", Outcome::Sent(10)),
    ("deliver 10 -", Outcome::Sent(11)),
    ("deliver 11 -", Outcome::Heard(Told::Taken(1))),
];

/// Whether the world makes each event, one behind another, and each comes to what stands beside it.
fn plays<S: RowStore>(
    alloc: Global,
    catalog: &Catalog,
    world: &mut World<S>,
    lines: &[Line],
) -> Option<bool> {
    for (line, outcome) in lines {
        let event = read_event(alloc, catalog, line.as_bytes()).ok()??;
        if world.step(&event) != *outcome {
            return Some(false);
        }
    }
    Some(true)
}

/// The bytes of the rows that a replica has, or, where none is named, the hub.
fn rows_in<S: RowStore>(
    alloc: Global,
    world: &mut World<S>,
    whose: Option<usize>,
) -> Result<Vec<u8>, StoreFault> {
    let rows = match whose {
        Some(replica) => world.rows(replica, 0)?,
        None => world.hub_rows(0)?,
    };
    let mut bytes = Vec::new(alloc);
    for (_, row) in &rows {
        bytes.extend_from_slice(row.as_row().bytes())?;
    }
    Ok(bytes)
}

/// Rows: (1, 'a'); (1, 'b'); the three of each replica; and those that all have at rest, (1, 'x') and (3, 'c').
const A: &[u8] = b"\x01\0\0\0\0\0\0\0\x01\x03\x01a";

const B: &[u8] = b"\x01\0\0\0\0\0\0\0\x01\x03\x01b";

const A_B_C: &[u8] =
    b"\x01\0\0\0\0\0\0\0\x01\x03\x01a\x01\0\0\0\0\0\0\0\x02\x03\x01b\x01\0\0\0\0\0\0\0\x03\x03\x01c";

const X_Y_Z: &[u8] =
    b"\x01\0\0\0\0\0\0\0\x01\x03\x01x\x01\0\0\0\0\0\0\0\x02\x03\x01y\x01\0\0\0\0\0\0\0\x03\x03\x01z";

const X_C: &[u8] = b"\x01\0\0\0\0\0\0\0\x01\x03\x01x\x01\0\0\0\0\0\0\0\x03\x03\x01c";

/// Whether a replica, or the hub, has these rows.
fn has<S: RowStore>(
    alloc: Global,
    world: &mut World<S>,
    whose: Option<usize>,
    rows: &[u8],
) -> bool {
    matches!(rows_in(alloc, world, whose), Ok(found) if found.as_slice() == rows)
}

/// Whether the hub and both replicas have these rows.
fn have<S: RowStore>(
    alloc: Global,
    world: &mut World<S>,
    hub: &[u8],
    one: &[u8],
    other: &[u8],
) -> bool {
    has(alloc, world, None, hub)
        && has(alloc, world, Some(0), one)
        && has(alloc, world, Some(1), other)
}

/// What is asked of a world.
#[derive(Clone, Copy)]
enum Asks {
    Lost,
    Stopped,
    AtRest,
}

/// Whether a world in which nothing has happened answers what is asked.
fn is_so<S: RowStore>(
    alloc: Global,
    catalog: &Catalog,
    world: &mut World<S>,
    asks: Asks,
) -> Option<bool> {
    if let Asks::Lost = asks {
        return Some(plays(alloc, catalog, world, &LOST)? && have(alloc, world, A, B, b""));
    }
    let clashes = plays(alloc, catalog, world, &CLASHING)?;
    let beside = clashes && have(alloc, world, A_B_C, A_B_C, X_Y_Z);
    if let Asks::Stopped = asks {
        let stopped = plays(alloc, catalog, world, &STOPPED)?;
        return Some(beside && stopped && have(alloc, world, A_B_C, A_B_C, X_Y_Z));
    }
    let rests = plays(alloc, catalog, world, &RESTING)?;
    Some(beside && rests && have(alloc, world, X_C, X_C, X_C))
}

fn two_of<T: Drop>(alloc: Global, one: T, other: T) -> Result<Vec<T>, Memory>
    ensures { IfOk result (λ all. all.items ≡ one ∷ other ∷ []) }
{
    let mut all = Vec::new(alloc);
    all.push(one)?;
    all.push(other)?;
    Ok(all)
}

/// A world of two replicas over these stores, each of which holds nothing.
fn opened<S: RowStore + Drop>(
    alloc: Global,
    catalog: &Catalog,
    hub: S,
    one: S,
    other: S,
) -> Result<World<S>, WorldFault>
    requires hub { S.contents hub ≡ nothing }
    requires one { S.contents one ≡ nothing }
    requires other { S.contents other ≡ nothing }
{
    let stores = two_of(alloc, one, other)?;
    World::new(alloc, catalog, hub, stores)
}

/// The same of such a world.
fn is_so_over<S: RowStore + Drop>(
    alloc: Global,
    hub: S,
    one: S,
    other: S,
    asks: Asks,
) -> Option<bool>
    requires hub { S.contents hub ≡ nothing }
    requires one { S.contents one ≡ nothing }
    requires other { S.contents other ≡ nothing }
{
    let catalog = catalog(alloc)?;
    let mut world = opened(alloc, &catalog, hub, one, other).ok()?;
    is_so(alloc, &catalog, &mut world, asks)
}

/// The same over three databases in memory. What handles one is dear to prove, so this does nothing else.
fn is_so_over_sqlite(alloc: Global, asks: Asks) -> Result<Option<bool>, StoreFault> {
    let hub = SqlStore::open_memory(alloc)?;
    let one = SqlStore::open_memory(alloc)?;
    let other = SqlStore::open_memory(alloc)?;
    Ok(is_so_over(alloc, hub, one, other, asks))
}

#[test]
fn worlds_over_sqlite(rt: HostRuntime) {
    for asks in [Asks::Lost, Asks::Stopped, Asks::AtRest] {
        assert!(rt; is_so_over_sqlite(rt.alloc(), asks) == Ok(Some(true)));
    }
}
