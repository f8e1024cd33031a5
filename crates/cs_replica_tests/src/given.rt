//! Replica 7 of the table `t1(a key, b)`: how it is made, edited, pushed and told, and how it takes an entry. Besides, whether it shows
//! what was written by hand.

use cs_changeset::read;
use cs_conflict::{Clash, Guard, Wish};
use cs_exchange::pulling::{AnswerFault, PullFault};
use cs_exchange::pushing::PushFault;
use cs_map_store::MapStore;
use cs_normal::Normal;
use cs_normalising::normalise;
use cs_opening::OpenFault;
use cs_pending::EditFault;
use cs_pending::outgoing::Outgoing;
use cs_pending::rows::RowAtKey;
use cs_replica::{Replica, Told};
use cs_store::log::{Body, LogEntry};
use cs_store::{RowStore, Trip};
use cs_store_cases::catalog;
use cs_value::{Field, Items, Memory, Text, Value};
use cs_wire::{Answer, ShortAnswer};
use std::alloc::Global;

/// The header of the table.
pub(crate) const H1: [u8; 7] = [0x54, 2, 1, 0, 0x74, 0x31, 0];

/// The first bytes of changes, with the flag.
pub(crate) const INSERT: [u8; 2] = [0x12, 0];

pub(crate) const UPDATE: [u8; 2] = [0x17, 0];

pub(crate) const DELETE: [u8; 2] = [9, 0];

/// The integers 1, 2 and 3.
pub(crate) const K1: [u8; 9] = [1, 0, 0, 0, 0, 0, 0, 0, 1];

pub(crate) const K2: [u8; 9] = [1, 0, 0, 0, 0, 0, 0, 0, 2];

pub(crate) const K3: [u8; 9] = [1, 0, 0, 0, 0, 0, 0, 0, 3];

/// Texts.
pub(crate) const V1: [u8; 4] = [3, 2, 0x76, 0x31];

pub(crate) const V2: [u8; 4] = [3, 2, 0x76, 0x32];

pub(crate) const V9: [u8; 4] = [3, 2, 0x76, 0x39];

pub(crate) const X: [u8; 3] = [3, 1, 0x78];

/// A field that is undefined.
pub(crate) const NONE: [u8; 1] = [0];

/// What stands before the changeset of push 1 of replica 7 on version 0, which has 22 bytes.
pub(crate) const PUSH_1: [u8; 25] = [
    1, 0, 0, 0, 7, 0, 0, 0, 0, 0, 0, 0, 1, 0, 0, 0, 0, 0, 0, 0, 0, 0, 0, 0, 22,
];

/// Bytes in parts, one behind another.
pub(crate) type Parts = &'static [&'static [u8]];

/// An edit of the row with this number: it comes with a text, gets a text, or goes.
#[derive(Clone, Copy)]
pub(crate) enum Edit {
    Insert(i64, &'static str),
    Update(i64, &'static str),
    Delete(i64),
}

/// The store of the replica here: it refuses a call of the store in memory.
pub(crate) type Store = Trip<MapStore>;

pub(crate) type Seven = Replica<Store>;

pub(crate) fn joined(alloc: Global, parts: &[&[u8]]) -> Result<Vec<u8>, Memory> {
    let mut bytes = Vec::new(alloc);
    for part in parts {
        bytes.extend_from_slice(part)?;
    }
    Ok(bytes)
}

/// The replica over a store, if it opens.
pub(crate) fn opened<S: RowStore + Drop>(alloc: Global, store: S) -> Option<Replica<S>> {
    let catalog = catalog(alloc)?;
    match Replica::open(alloc, store, &catalog, 7) {
        Ok(replica) => Some(replica),
        Err(_) => None,
    }
}

/// The replica over a new store, which passes so many calls on and refuses the next.
pub(crate) fn passing(alloc: Global, passes: u64) -> Option<Seven> {
    opened(alloc, Trip::new(MapStore::new(alloc), passes))
}

/// A store that isn't opened as that of the replica, and why not.
pub(crate) fn unopened(alloc: Global, store: Store) -> Option<(Store, OpenFault)> {
    let catalog = catalog(alloc)?;
    match Replica::open(alloc, store, &catalog, 7) {
        Ok(_) => None,
        Err(told) => Some(told),
    }
}

/// What these bytes spell, in normal form.
pub(crate) fn normal_of(alloc: Global, bytes: &[u8]) -> Option<Normal> {
    let catalog = catalog(alloc)?;
    let changeset = read(alloc, bytes).ok()?;
    normalise(alloc, &catalog, &changeset).ok()
}

/// Push 1 of this origin, of these changes, as an entry.
pub(crate) fn entry(alloc: Global, origin: u32, parts: &[&[u8]]) -> Option<LogEntry> {
    let bytes = joined(alloc, parts).ok()?;
    let changes = normal_of(alloc, bytes.as_slice())?;
    Some(LogEntry {
        origin,
        number: 1,
        body: Body::Changes(changes),
    })
}

/// The kinds of the first six clashes.
pub(crate) type Kinds = [u8; 6];

/// Takes an entry under a guard: clashes are answered by these wishes in turn, and by `Stop` behind them; their kinds are kept.
pub(crate) fn take<S: RowStore>(
    alloc: Global,
    replica: &mut Replica<S>,
    index: u64,
    entry: &LogEntry,
    wishes: &[Wish],
    kinds: &mut Kinds,
) -> Result<(), PullFault> {
    let mut rest = wishes;
    let mut asked = 0;
    let mut guard = Guard::new(|clash: &Clash<'_>| -> Wish {
        if asked < 6 {
            kinds[asked] = clash.conflict.kind as u8;
            asked += 1;
        }
        match rest.split_first() {
            Some((wish, more)) => {
                rest = more;
                *wish
            }
            None => Wish::Stop,
        }
    });
    replica.take(alloc, index, entry, &mut guard)
}

/// Whether an entry of replica 9 is taken as the next, and clashes of these kinds come, each answered by the wish at its place.
pub(crate) fn takes<S: RowStore>(
    alloc: Global,
    replica: &mut Replica<S>,
    parts: &[&[u8]],
    wishes: &[Wish],
    wanted: &Kinds,
) -> bool {
    let Some(entry) = entry(alloc, 9, parts) else {
        return false;
    };
    let mut kinds = [0; 6];
    let index = replica.version();
    take(alloc, replica, index, &entry, wishes, &mut kinds).is_ok() && kinds == *wanted
}

/// A number, and a text if there is one.
pub(crate) fn values(
    alloc: Global,
    number: i64,
    text: Option<&str>,
) -> Result<Items<Value>, Memory> {
    let mut values = Vec::new(alloc);
    values.push(Value::Int(number))?;
    if let Some(text) = text {
        values.push(Value::Text(Text::from_string(String::from_str(alloc, text)?)))?;
    }
    Ok(Items::from_vec(values))
}

/// Updates the row with this number: this field for the key, and a text.
pub(crate) fn update<S: RowStore>(
    alloc: Global,
    replica: &mut Replica<S>,
    number: i64,
    first: Field,
    text: &str,
) -> Result<(), EditFault> {
    let key = values(alloc, number, None)?;
    let text = Text::from_string(String::from_str(alloc, text)?);
    let mut fields = Vec::new(alloc);
    fields.push(first)?;
    fields.push(Field::Is(Value::Text(text)))?;
    replica.update(alloc, "t1", &key, fields.as_slice())
}

pub(crate) fn make<S: RowStore>(
    alloc: Global,
    replica: &mut Replica<S>,
    edit: &Edit,
) -> Result<(), EditFault> {
    match edit {
        Edit::Insert(number, text) => {
            let row = values(alloc, *number, Some(text))?;
            replica.insert(alloc, "t1", &row)
        }
        Edit::Update(number, text) => update(alloc, replica, *number, Field::Undefined, text),
        Edit::Delete(number) => {
            let key = values(alloc, *number, None)?;
            replica.delete(alloc, "t1", &key)
        }
    }
}

/// Whether these edits are made, one after another.
pub(crate) fn edits<S: RowStore>(alloc: Global, replica: &mut Replica<S>, edits: &[Edit]) -> bool {
    for edit in edits {
        if make(alloc, replica, edit) != Ok(()) {
            return false;
        }
    }
    true
}

/// Whether the push that is made is asked for by these bytes.
pub(crate) fn pushes<S: RowStore>(
    alloc: Global,
    replica: &mut Replica<S>,
    wanted: &[&[u8]],
) -> Result<bool, PushFault> {
    let request = replica.make_push(alloc)?;
    let mut bytes = Vec::new(alloc);
    request.encode(&mut bytes)?;
    Ok(are(alloc, bytes.as_slice(), wanted))
}

/// Whether the push that is under way is.
pub(crate) fn resends<S: RowStore>(
    alloc: Global,
    replica: &Replica<S>,
    wanted: &[&[u8]],
) -> Result<bool, PushFault> {
    let request = replica.resend(alloc)?;
    let mut bytes = Vec::new(alloc);
    request.encode(&mut bytes)?;
    Ok(are(alloc, bytes.as_slice(), wanted))
}

/// What becomes of the hub's answer that it has taken push 1 as the first entry.
pub(crate) fn accepted<S: RowStore>(
    alloc: Global,
    replica: &mut Replica<S>,
) -> Result<Told, AnswerFault> {
    let answer = Answer::Short(ShortAnswer::Accepted {
        origin: 7,
        number: 1,
        version: 1,
    });
    let mut picker = Guard::new(|_clash: &Clash<'_>| Wish::Stop);
    replica.answer(alloc, &answer, &mut picker)
}

/// The replica over rows, if there are some. A push of the edits before it is under way, if there are some, and it has made edits then.
pub(crate) fn flying(
    alloc: Global,
    base: &[&[u8]],
    flown: &[Edit],
    later: &[Edit],
) -> Option<Seven> {
    let mut replica = passing(alloc, u64::MAX)?;
    let flies = (base.is_empty() || takes(alloc, &mut replica, base, &[], &[0; 6]))
        && edits(alloc, &mut replica, flown)
        && (flown.is_empty() || replica.make_push(alloc).is_ok())
        && edits(alloc, &mut replica, later);
    if flies { Some(replica) } else { None }
}

/// Whether a fault has this name.
pub(crate) fn names(alloc: Global, fault: &PullFault, name: &str) -> bool {
    match fault.to_string(alloc) {
        Ok(text) => text.as_str() == name,
        Err(_) => false,
    }
}

/// Whether the bytes are these parts.
pub(crate) fn are(alloc: Global, bytes: &[u8], parts: &[&[u8]]) -> bool {
    match joined(alloc, parts) {
        Ok(wanted) => bytes == wanted.as_slice(),
        Err(_) => false,
    }
}

/// Whether the changes are spelled by these parts.
pub(crate) fn spells(alloc: Global, changes: &Normal, parts: &[&[u8]]) -> bool {
    let mut bytes = Vec::new(alloc);
    changes.encode(&mut bytes).is_ok() && are(alloc, bytes.as_slice(), parts)
}

/// Whether these changes are pending; without parts, whether nothing is.
fn pends<S: RowStore>(alloc: Global, replica: &mut Replica<S>, parts: &[&[u8]]) -> bool {
    match replica.pending(alloc) {
        Ok(Outgoing::Nothing) => parts.is_empty(),
        Ok(Outgoing::Changes(changes)) => spells(alloc, &changes, parts),
        _ => false,
    }
}

/// The bytes of rows, one behind another, if each stands at its key.
fn row_bytes(alloc: Global, rows: &[RowAtKey]) -> Result<Vec<u8>, Memory> {
    let mut bytes = Vec::new(alloc);
    for (key, row) in rows {
        let row = row.as_row().bytes();
        if row.get(..9) == Some(key.as_slice()) {
            bytes.extend_from_slice(row)?;
        }
    }
    Ok(bytes)
}

/// Whether the rows are these.
fn has_rows<S: RowStore>(alloc: Global, replica: &mut Replica<S>, parts: &[&[u8]]) -> bool {
    let Ok(rows) = replica.rows(alloc, 0) else {
        return false;
    };
    match row_bytes(alloc, rows.as_slice()) {
        Ok(bytes) => are(alloc, bytes.as_slice(), parts),
        Err(_) => false,
    }
}

/// What a replica shows: its rows, what is pending and how many changes that are, and what is under way.
pub(crate) struct Shown {
    pub rows: Parts,
    pub pending: Parts,
    pub count: u64,
    pub flight: Parts,
}

fn flies<S: RowStore>(alloc: Global, replica: &Replica<S>, parts: &[&[u8]]) -> bool {
    match replica.in_flight() {
        None => parts.is_empty(),
        Some(changes) => spells(alloc, changes, parts),
    }
}

/// Where a replica stands: its version, and how many changes are pending.
pub(crate) fn is_at<S: RowStore>(replica: &Replica<S>, version: u64, pending: u64) -> bool {
    replica.version() == version && replica.pending_len() == pending
}

/// Whether this is shown at this version.
pub(crate) fn shows<S: RowStore>(
    alloc: Global,
    replica: &mut Replica<S>,
    version: u64,
    shown: &Shown,
) -> bool {
    has_rows(alloc, replica, shown.rows)
        && pends(alloc, replica, shown.pending)
        && flies(alloc, replica, shown.flight)
        && is_at(replica, version, shown.count)
}

/// Whether it is, and once more when the store is read again.
pub(crate) fn keeps<S: RowStore>(
    alloc: Global,
    replica: &mut Replica<S>,
    version: u64,
    shown: &Shown,
) -> bool {
    shows(alloc, replica, version, shown)
        && replica.reload(alloc) == Ok(())
        && shows(alloc, replica, version, shown)
}

/// The INSERT of (1, 'v1').
pub(crate) const FIRST: Parts = &[&H1, &INSERT, &K1, &V1];

/// The first push is under way, and the second row pending.
const BOTH: Shown = Shown {
    rows: &[&K1, &V1, &K2, &X],
    pending: &[&H1, &INSERT, &K2, &X],
    count: 1,
    flight: FIRST,
};

/// Whether a replica shows that.
pub(crate) fn shows_both<S: RowStore>(alloc: Global, replica: &mut Replica<S>) -> bool {
    shows(alloc, replica, 0, &BOTH)
}

/// The store of a replica that shows that.
pub(crate) fn filled(alloc: Global) -> Option<Store> {
    let replica = flying(
        alloc,
        &[],
        &[Edit::Insert(1, "v1")],
        &[Edit::Insert(2, "x")],
    )?;
    Some(replica.close())
}
