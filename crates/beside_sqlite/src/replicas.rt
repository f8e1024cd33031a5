//! Runs a replica over a `MapStore`, for `bench/replica.sh`.
//!
//! Standard input holds parts, each behind its length in eight bytes, six parts a case. The first two are headers of all tables, and
//! the rows of the version 1 as a changeset of INSERTs. Then come the replica's edits before a push and those behind it, as
//! changesets of one change one after another. The last two are the changeset of the log's next entry, which is another's, and the
//! wishes at its clashes in order. A wish is a digit, where `Keep` is 0 and `Take` 1. A push is made where there are edits before
//! it, and no answer comes. The lines of a case tell how many changes were under way then, each clash, and the rows behind it all.
//! The last is the changeset that is pending and then pushed.

use crate::drawn::{
    Wrong, answer_at, catalog_in, changeset_of, put_conflict, put_count, put_hex, put_number,
    put_row, take_part,
};
use cs_change::{Change, Changeset, Group};
use cs_changeset::read;
use cs_column_bytes::{Header, encode, put_headers};
use cs_conflict::{Clash, Guard, Resolution, Wish};
use cs_exchange::pushing::PushFault;
use cs_map_store::MapStore;
use cs_normal::Normal;
use cs_normalising::normalise;
use cs_pending::outgoing::Outgoing;
use cs_record::Record;
use cs_replica::Replica;
use cs_store::log::{Body, LogEntry};
use cs_value::{Catalog, Field, Items, Key, Row, TableDef, Value};
use std::alloc::{AllocError, Global};

/// The replica's id, and that of the one whose entries the log has.
const MINE: u32 = 1;

const THEIRS: u32 = 2;

/// The parts of a case, but for the headers.
#[derive(Clone, Copy)]
struct Case<'a> {
    rows: &'a [u8],
    before: &'a [u8],
    behind: &'a [u8],
    remote: &'a [u8],
    wishes: &'a [u8],
}

/// The changeset in these bytes, in normal form by the tables.
fn normal_in(alloc: Global, catalog: &Catalog, bytes: &[u8]) -> Result<Normal, Wrong> {
    let Ok(changeset) = read(alloc, bytes) else {
        return Err(Wrong::Case);
    };
    match normalise(alloc, catalog, &changeset) {
        Ok(normal) => Ok(normal),
        Err(_) => Err(Wrong::Case),
    }
}

/// A new replica.
fn open_new(alloc: Global, catalog: &Catalog) -> Result<Replica<MapStore>, Wrong> {
    match Replica::open(alloc, MapStore::new(alloc), catalog, MINE) {
        Ok(replica) => Ok(replica),
        Err(_) => Err(Wrong::Memory),
    }
}

/// The wish at the clash with this number.
fn wish_at(wishes: &[u8], number: usize) -> Wish {
    match answer_at(wishes, number) {
        Resolution::Omit => Wish::Keep,
        Resolution::Replace => Wish::Take,
        Resolution::Abort => Wish::Stop,
    }
}

/// The lines of a clash: the conflict, and then whether the own change covers the other's, and what is wished.
fn put_clash(
    alloc: Global,
    clash: &Clash<'_>,
    wish: Wish,
    out: &mut Vec<u8>,
) -> Result<(), AllocError> {
    put_conflict(alloc, &clash.conflict, out)?;
    put_count(alloc, "covers", u64::from(clash.covers), out)?;
    put_count(alloc, "wish", wish.resolution() as u64, out)
}

/// Takes the changeset of another's entry, which is the log's at this index, with these wishes made lawful.
fn take_remote(
    alloc: Global,
    replica: &mut Replica<MapStore>,
    index: u64,
    changes: Normal,
    wishes: &[u8],
    lines: &mut Vec<u8>,
) -> Result<(), Wrong> {
    let entry = LogEntry {
        origin: THEIRS,
        number: index,
        body: Body::Changes(changes),
    };
    let mut asked = 0usize;
    let mut picker = Guard::new(|clash: &Clash<'_>| {
        let wish = wish_at(wishes, asked);
        asked = asked.saturating_add(1);
        let _ = put_clash(alloc, clash, wish, lines);
        wish
    });
    match replica.take(alloc, index, &entry, &mut picker) {
        Ok(()) => Ok(()),
        Err(_) => Err(Wrong::Case),
    }
}

/// The key of a row.
fn key_in(alloc: Global, table: &TableDef, row: &Row) -> Result<Key, Wrong> {
    match table.key_of(alloc, row)? {
        Some(key) => Ok(key),
        None => Err(Wrong::Case),
    }
}

/// The key among the old fields of an UPDATE.
fn key_among(alloc: Global, table: &TableDef, fields: &Record<'_>) -> Result<Key, Wrong> {
    let fields = fields.to_fields(alloc)?;
    let mut row = Vec::new(alloc);
    for field in fields.into_vec() {
        row.push(match field {
            Field::Is(value) => value,
            Field::Undefined => Value::Null,
        })?;
    }
    key_in(alloc, table, &Items::from_vec(row))
}

/// Makes a change as an edit of the replica's.
fn edit_one(
    alloc: Global,
    replica: &mut Replica<MapStore>,
    table: &TableDef,
    change: &Change<'_>,
) -> Result<(), Wrong> {
    let name = table.name.as_str();
    let edited = match change {
        Change::Insert { new_row, .. } => replica.insert(alloc, name, &new_row.to_values(alloc)?),
        Change::Delete { old_row, .. } => {
            let key = key_in(alloc, table, &old_row.to_values(alloc)?)?;
            replica.delete(alloc, name, &key)
        }
        Change::Update {
            old_fields,
            new_fields,
            ..
        } => {
            let key = key_among(alloc, table, old_fields)?;
            let fields = new_fields.to_fields(alloc)?;
            replica.update(alloc, name, &key, fields.as_slice())
        }
    };
    match edited {
        Ok(()) => Ok(()),
        Err(_) => Err(Wrong::Case),
    }
}

/// Makes the changes of a group as edits of the replica's.
fn edit_group(
    alloc: Global,
    replica: &mut Replica<MapStore>,
    catalog: &Catalog,
    group: &Group<'_>,
) -> Result<(), Wrong> {
    let Some(at) = catalog.find(group.name.as_str()) else {
        return Err(Wrong::Case);
    };
    let Some(table) = catalog.tables().get(at) else {
        return Err(Wrong::Case);
    };
    for change in group.changes.as_slice() {
        edit_one(alloc, replica, table, change)?;
    }
    Ok(())
}

/// Makes the changes of changesets one after another as edits of the replica's.
fn edit_all(
    alloc: Global,
    replica: &mut Replica<MapStore>,
    catalog: &Catalog,
    edits: &[u8],
) -> Result<(), Wrong> {
    let edits = changeset_of(alloc, edits)?;
    for group in edits.as_slice() {
        edit_group(alloc, replica, catalog, group)?;
    }
    Ok(())
}

/// Makes a push of what is pending, if anything is.
fn push(alloc: Global, replica: &mut Replica<MapStore>) -> Result<(), Wrong> {
    match replica.make_push(alloc) {
        Ok(_) => Ok(()),
        Err(PushFault::Nothing) => Ok(()),
        Err(_) => Err(Wrong::Case),
    }
}

/// What is pending, if anything is.
fn pending(alloc: Global, replica: &mut Replica<MapStore>) -> Result<Option<Normal>, Wrong> {
    match replica.pending(alloc) {
        Ok(Outgoing::Changes(changes)) => Ok(Some(changes)),
        Ok(Outgoing::Nothing) => Ok(None),
        _ => Err(Wrong::Case),
    }
}

/// The rows of all tables, a line each.
fn put_shown(
    alloc: Global,
    replica: &mut Replica<MapStore>,
    catalog: &Catalog,
    out: &mut Vec<u8>,
) -> Result<(), Wrong> {
    for table in 0..catalog.tables().len() as u32 {
        let Ok(rows) = replica.rows(alloc, table as usize) else {
            return Err(Wrong::Memory);
        };
        for row in &rows {
            let body = row.1.as_row();
            put_row(alloc, "row", table, row.0.as_slice(), body.bytes(), out)?;
        }
    }
    Ok(())
}

/// A line of a word and the bytes of changes, if there are any, as SQLite writes them, by these headers.
fn put_changes(
    alloc: Global,
    word: &str,
    changes: Option<&Normal>,
    headers: &[Header<'_>],
    out: &mut Vec<u8>,
) -> Result<(), AllocError> {
    let mut bytes = Vec::new(alloc);
    if let Some(changes) = changes {
        encode(alloc, changes, headers, &mut bytes)?;
    }
    out.extend_from_slice(word.as_bytes())?;
    out.push(b' ')?;
    put_hex(alloc, bytes.as_slice(), out)?;
    out.push(b'\n')?;
    Ok(())
}

/// The headers of a changeset.
fn headers_of<'a>(
    alloc: Global,
    declared: &'a Changeset<'_>,
) -> Result<Vec<Header<'a>>, AllocError> {
    let mut headers = Vec::new(alloc);
    put_headers(declared.as_slice(), &mut headers)?;
    Ok(headers)
}

/// What is pending, and what is under way when it has been pushed.
fn put_pushed(
    alloc: Global,
    replica: &mut Replica<MapStore>,
    declared: &[u8],
    out: &mut Vec<u8>,
) -> Result<(), Wrong> {
    let declared = changeset_of(alloc, declared)?;
    let headers = headers_of(alloc, &declared)?;
    let pending = pending(alloc, replica)?;
    put_changes(alloc, "pending", pending.as_ref(), headers.as_slice(), out)?;
    push(alloc, replica)?;
    put_changes(
        alloc,
        "pushed",
        replica.in_flight(),
        headers.as_slice(),
        out,
    )?;
    Ok(())
}

/// How many changes are under way.
fn flown(replica: &Replica<MapStore>) -> u64 {
    match replica.in_flight() {
        Some(changes) => changes.len() as u64,
        None => 0,
    }
}

/// Makes the edits of a case, with a push between them, and tells how many changes are under way then.
fn edit(
    alloc: Global,
    replica: &mut Replica<MapStore>,
    catalog: &Catalog,
    case: &Case<'_>,
    out: &mut Vec<u8>,
) -> Result<(), Wrong> {
    edit_all(alloc, replica, catalog, case.before)?;
    push(alloc, replica)?;
    put_count(alloc, "flight", flown(replica), out)?;
    edit_all(alloc, replica, catalog, case.behind)
}

/// Puts what comes of a case there.
fn tell(alloc: Global, declared: &[u8], case: &Case<'_>, out: &mut Vec<u8>) -> Result<(), Wrong> {
    let catalog = catalog_in(alloc, declared)?;
    out.extend_from_slice(b"case\n")?;
    let mut replica = open_new(alloc, &catalog)?;
    let rows = normal_in(alloc, &catalog, case.rows)?;
    take_remote(alloc, &mut replica, 0, rows, b"", out)?;
    edit(alloc, &mut replica, &catalog, case, out)?;
    let remote = normal_in(alloc, &catalog, case.remote)?;
    take_remote(alloc, &mut replica, 1, remote, case.wishes, out)?;
    put_shown(alloc, &mut replica, &catalog, out)?;
    put_pushed(alloc, &mut replica, declared, out)
}

/// The first case in these bytes, and what stands behind it.
fn take_case(bytes: &[u8]) -> Option<(&[u8], Case<'_>, &[u8])> {
    let (declared, rest) = take_part(bytes)?;
    let (rows, rest) = take_part(rest)?;
    let (before, rest) = take_part(rest)?;
    let (behind, rest) = take_part(rest)?;
    let (remote, rest) = take_part(rest)?;
    let (wishes, rest) = take_part(rest)?;
    let case = Case {
        rows,
        before,
        behind,
        remote,
        wishes,
    };
    Some((declared, case, rest))
}

/// Runs all cases.
pub fn run_cases(alloc: Global, bytes: &[u8], out: &mut Vec<u8>) -> Result<(), Wrong> {
    let mut rest = bytes;
    for _ in 0..bytes.len() {
        let Some((declared, case, more)) = take_case(rest) else {
            break;
        };
        tell(alloc, declared, &case, out)?;
        rest = more;
    }
    if rest.is_empty() {
        Ok(())
    } else {
        Err(Wrong::Case)
    }
}
