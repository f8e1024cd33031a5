//! Nodes of one table on one row of cells, what is asked of them, and what they show.

ghost use Rattle.std.specs.Prelude.{◌≡◌, ◌<◌, ◌-◌, ◌^◌, IfSome};

use cs_conflict::{Clash, Guard, Wish};
use cs_map_store::MapStore;
use cs_nodes::{Node, NodeFault, NodePush};
use cs_pending::EditFault;
use cs_pending::rows::RowAtKey;
use cs_spine::Spine;
use cs_store::log::{Body, LogEntry};
use cs_store::{RowStore, StoreFault, Trip};
use cs_store_cases::catalog;
use cs_value::{Edit, Items, Memory, Text, Value};
use std::alloc::Global;

/// A node over the store in memory.
pub(crate) type Here<'s> = Node<'s, MapStore>;

/// One over a store in memory that refuses one call.
pub(crate) type Refusing<'s> = Node<'s, Trip<MapStore>>;

/// A new node with this id, whose store refuses the call behind so many.
pub(crate) fn begun_refusing<'s>(
    alloc: Global,
    spine: &'s Spine,
    id: u32,
    passes: u64,
) -> Option<Refusing<'s>>
    ensures { IfSome result (λ node. node.pass.spine ≡ spine.now) }
{
    if id == u32::MAX {
        return None;
    }
    let catalog = catalog(alloc)?;
    let store = Trip::new(MapStore::new(alloc), passes);
    match Node::open(alloc, store, &catalog, id, spine) {
        Ok(node) => Some(node),
        Err(_) => None,
    }
}

/// A new node with this id.
pub(crate) fn begun<'s>(alloc: Global, spine: &'s Spine, id: u32) -> Option<Here<'s>>
    ensures { IfSome result (λ node. node.pass.spine ≡ spine.now) }
{
    if id == u32::MAX {
        return None;
    }
    let catalog = catalog(alloc)?;
    match Node::open(alloc, MapStore::new(alloc), &catalog, id, spine) {
        Ok(node) => Some(node),
        Err(_) => None,
    }
}

fn text_value(alloc: Global, text: &str) -> Result<Value, Memory> {
    Ok(Value::Text(Text::from_string(String::from_str(alloc, text)?)))
}

fn put_values(
    alloc: Global,
    number: i64,
    text: &str,
    values: &mut Vec<Value>,
) -> Result<(), Memory> {
    values.push(Value::Int(number))?;
    values.push(text_value(alloc, text)?)?;
    Ok(())
}

fn row(alloc: Global, number: i64, text: &str) -> Result<Items<Value>, Memory> {
    let mut values = Vec::new(alloc);
    put_values(alloc, number, text, &mut values)?;
    Ok(Items::from_vec(values))
}

/// The edit that inserts a row of a number and a text into t1.
pub(crate) fn inserting(alloc: Global, number: i64, text: &str) -> Result<Edit, Memory> {
    Ok(Edit::Insert {
        table: Text::from_string(String::from_str(alloc, "t1")?),
        row: row(alloc, number, text)?,
    })
}

/// Whether a row of a number and a text gets into t1.
pub(crate) fn inserts<'s, S: RowStore>(
    alloc: Global,
    node: &mut Node<'s, S>,
    number: i64,
    text: &str,
) -> bool
    ensures { node.new.pass ≡ node.old.pass }
{
    match inserting(alloc, number, text) {
        Ok(edit) => node.edit(alloc, &edit).is_ok(),
        Err(_) => false,
    }
}

/// The fault of an insert into t1, if it has one.
pub(crate) fn insert_fault<'s, S: RowStore>(
    alloc: Global,
    node: &mut Node<'s, S>,
    number: i64,
    text: &str,
) -> Option<EditFault>
    ensures { node.new.pass ≡ node.old.pass }
{
    match inserting(alloc, number, text) {
        Ok(edit) => node.edit(alloc, &edit).err(),
        Err(_) => None,
    }
}

/// A pull; each clash is answered by this wish, where it is lawful.
pub(crate) fn pulled<'s, S: RowStore>(
    alloc: Global,
    node: &mut Node<'s, S>,
    spine: &'s Spine,
    wish: Wish,
) -> Result<usize, NodeFault>
    requires { node.old.pass.spine ≡ spine.now }
    ensures { node.new.pass.spine ≡ node.old.pass.spine }
{
    let mut guard = Guard::new(move |_clash: &Clash<'_>| -> Wish { wish });
    node.pull(alloc, spine, &mut guard)
}

/// A push; each clash is answered by this wish, where it is lawful.
pub(crate) fn pushed<'s, S: RowStore>(
    alloc: Global,
    node: &mut Node<'s, S>,
    spine: &'s Spine,
    wish: Wish,
) -> Result<NodePush, NodeFault>
    requires { node.old.pass.spine ≡ spine.now }
    ensures { node.new.pass.spine ≡ node.old.pass.spine }
{
    let mut guard = Guard::new(move |_clash: &Clash<'_>| -> Wish { wish });
    node.push(alloc, spine, &mut guard)
}

/// Whether a pull takes so many entries.
pub(crate) fn pulls<'s, S: RowStore>(
    alloc: Global,
    node: &mut Node<'s, S>,
    spine: &'s Spine,
    count: usize,
) -> bool
    requires { node.old.pass.spine ≡ spine.now }
    ensures { node.new.pass.spine ≡ node.old.pass.spine }
{
    match pulled(alloc, node, spine, Wish::Take) {
        Ok(taken) => taken == count,
        Err(_) => false,
    }
}

/// Whether a push is told so.
pub(crate) fn pushes<'s, S: RowStore>(
    alloc: Global,
    node: &mut Node<'s, S>,
    spine: &'s Spine,
    told: NodePush,
) -> bool
    requires { node.old.pass.spine ≡ spine.now }
    ensures { node.new.pass.spine ≡ node.old.pass.spine }
{
    match pushed(alloc, node, spine, Wish::Take) {
        Ok(push) => push == told,
        Err(_) => false,
    }
}

/// The bytes of (1, 'v1'), of (2, 'v2') and of (3, 'v3').
pub(crate) const ROW_1: &[u8] = &[1, 0, 0, 0, 0, 0, 0, 0, 1, 3, 2, 0x76, 0x31];

pub(crate) const ROW_2: &[u8] = &[1, 0, 0, 0, 0, 0, 0, 0, 2, 3, 2, 0x76, 0x32];

pub(crate) const ROW_3: &[u8] = &[1, 0, 0, 0, 0, 0, 0, 0, 3, 3, 2, 0x76, 0x33];

/// Whether rows, one behind another, have these bytes.
fn have_bytes(rows: &[RowAtKey], wanted: &[&[u8]]) -> bool {
    if rows.len() != wanted.len() {
        return false;
    }
    rows.iter()
        .zip(wanted.iter())
        .all(|(row, bytes)| row.1.as_row().bytes() == *bytes)
}

/// Whether a node shows these rows of t1, and is at a version with so many changes pending.
pub(crate) fn shows<'s, S: RowStore>(
    alloc: Global,
    node: &mut Node<'s, S>,
    wanted: &[&[u8]],
    version: u64,
    pending: u64,
) -> Result<bool, StoreFault>
    ensures { node.new.pass ≡ node.old.pass }
{
    let rows = node.rows(alloc, 0)?;
    let same = have_bytes(rows.as_slice(), wanted);
    Ok(same && node.version() == version && node.pending_len() == pending)
}

/// Whether the first cell is set to an entry of another that does this.
pub(crate) fn sets_first(spine: &Spine, body: Body) -> Option<bool> {
    let entry = LogEntry {
        origin: 9,
        number: 1,
        body,
    };
    let mut pass = spine.pass().ok()?;
    Some(spine.offer(&mut pass, &entry).is_ok())
}

/// What gives a table so many columns.
pub(crate) fn widening(alloc: Global, table: &str, width: u32) -> Option<Body> {
    let table = Text::from_string(String::from_str(alloc, table).ok()?);
    Some(Body::Widen { table, width })
}

/// Whether a pull takes one entry, and (2, 'v2') is then shown, alone.
pub(crate) fn pulls_second<'s>(alloc: Global, spine: &'s Spine, late: &mut Here<'s>) -> bool
    requires { late.old.pass.spine ≡ spine.now }
{
    let pulled = pulls(alloc, late, spine, 1);
    pulled & (shows(alloc, late, &[ROW_2], 1, 0) == Ok(true))
}
