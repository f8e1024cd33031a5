//! A hub by the calls that no line makes: requests that are judged, entries that are followed, and changes that are handed over. Besides,
//! what it shows, and a store that fails. The answers were written by hand.

use crate::given::{DELETE_2, INSERT, KEY, ROW_1, Store, bare, refusing};
use cs_changeset::read;
use cs_conflict::Kind;
use cs_hub::judgement::{HubFault, Pushed};
use cs_hub::{Hub, Judged};
use cs_normalising::normalise;
use cs_pending::rows::RowAtKey;
use cs_store::RowStore;
use cs_store::log::MAX_CHANGESET;
use cs_store_cases::catalog;
use cs_value::Memory;
use cs_wire::PushHead;
use std::alloc::Global;

/// A hub over a store.
fn hub_over(alloc: Global, store: Store) -> Option<Hub<Store>> {
    Hub::open(alloc, store, &catalog(alloc)?).ok()
}

/// A hub of a store that holds nothing.
fn hub_of_t1(alloc: Global) -> Option<Hub<Store>> {
    hub_over(alloc, bare(alloc, u64::MAX))
}

/// Push 1 of replica 7, of the INSERT of (1, 'v1') onto version 0. Its push 2 is of (2, 'v1') onto version 1. Then the answers that they are
/// taken.
const FIRST: &[u8] =
    b"\x01\0\0\0\x07\0\0\0\0\0\0\0\x01\0\0\0\0\0\0\0\0\0\0\0\x16\x54\x02\x01\0\x74\x31\0\x12\0\x01\0\0\0\0\0\0\0\x01\x03\x02\x76\x31";

const ACCEPTED: &[u8] = b"\x11\0\0\0\x07\0\0\0\0\0\0\0\x01\0\0\0\0\0\0\0\x01";

const SECOND: &[u8] =
    b"\x01\0\0\0\x07\0\0\0\0\0\0\0\x02\0\0\0\0\0\0\0\x01\0\0\0\x16\x54\x02\x01\0\x74\x31\0\x12\0\x01\0\0\0\0\0\0\0\x02\x03\x02\x76\x31";

const SECOND_ACCEPTED: &[u8] = b"\x11\0\0\0\x07\0\0\0\0\0\0\0\x02\0\0\0\0\0\0\0\x02";

/// Pull: from entry 0, at most 10; and the answer where the first push was taken.
const PULL: &[u8] = b"\x02\0\0\0\0\0\0\0\0\0\0\0\x0a";

const ONE_ENTRY: &[u8] =
    b"\x14\0\0\0\0\0\0\0\0\0\0\0\x01\0\0\0\0\x07\0\0\0\0\0\0\0\x01\0\0\0\x16\x54\x02\x01\0\x74\x31\0\x12\0\x01\0\0\0\0\0\0\0\x01\x03\x02\x76\x31";

/// Refusals: the log is full, and the device failed.
const FULL: &[u8] = b"\x13\x2b";

const DEVICE: &[u8] = b"\x13\x2c";

/// Whether the hub answers a request so.
fn answers(hub: &mut Hub<Store>, request: &[u8], expected: &[u8]) -> bool {
    matches!(hub.serve(request), Ok(answer) if answer.as_slice() == expected)
}

/// Whether the first push is judged to be appended, is by what came with that, and is told so.
fn appends_judged(hub: &mut Hub<Store>) -> Result<bool, Memory> {
    match hub.judge(1, FIRST)? {
        Judged::Append {
            entry,
            batch,
            reply,
        } => match hub.append_judged(&entry, &batch) {
            Ok(()) => Ok(reply.as_slice() == ACCEPTED),
            Err(_) => Ok(false),
        },
        Judged::Reply(_) => Ok(false),
    }
}

/// Whether a request is judged by a log that may have one entry to be answered so, with nothing appended.
fn judges_as(hub: &mut Hub<Store>, request: &[u8], expected: &[u8]) -> Result<bool, Memory> {
    match hub.judge(1, request)? {
        Judged::Reply(answer) => Ok(answer.as_slice() == expected),
        Judged::Append { .. } => Ok(false),
    }
}

/// Whether a hub takes the first entry of another's log.
fn follows_first(hub: &mut Hub<Store>, other: &mut Hub<Store>) -> Result<bool, HubFault> {
    let entries = other.entries(0, 1)?;
    match entries.first() {
        Some(entry) => Ok(hub.follow(entry).is_ok()),
        None => Ok(false),
    }
}

/// Whether a log that may have one entry takes the first push, and then no other, but tells that one again.
fn is_judged(alloc: Global) -> Option<bool> {
    let mut hub = hub_of_t1(alloc)?;
    let appended = appends_judged(&mut hub) == Ok(true);
    let full = judges_as(&mut hub, SECOND, FULL) == Ok(true);
    let again = judges_as(&mut hub, FIRST, ACCEPTED) == Ok(true);
    Some(appended && full && again && hub.newest() == 1)
}

/// Whether the first push is followed by a second hub, which then tells its entry.
fn is_followed(alloc: Global) -> Option<bool> {
    let mut hub = hub_of_t1(alloc)?;
    let mut second = hub_of_t1(alloc)?;
    let taken = answers(&mut hub, FIRST, ACCEPTED);
    let followed = follows_first(&mut second, &mut hub).unwrap_or(false);
    Some(taken && followed && second.newest() == 1 && answers(&mut second, PULL, ONE_ENTRY))
}

#[test]
fn a_push_is_judged_and_followed(rt: HostRuntime) {
    assert!(rt; is_judged(rt.alloc()) == Some(true));
    assert!(rt; is_followed(rt.alloc()) == Some(true));
}

/// Whether a hub's one row is the one of the INSERT, behind its key.
fn is_the_row(rows: &[RowAtKey]) -> bool {
    match rows {
        [(key, row)] => key.as_slice() == KEY && row.as_row().bytes() == ROW_1,
        _ => false,
    }
}

/// Whether a hub has one entry, of replica 7, and the row that it makes.
fn has_the_entry(hub: &mut Hub<Store>) -> bool {
    let entries = hub.entries(0, 10);
    let one = matches!(&entries, Ok(entries) if entries.len() == 1 && entries[0].origin == 7);
    one && hub.newest() == 1 && matches!(hub.rows(0), Ok(rows) if is_the_row(&rows))
}

/// Whether a push is taken, and stands in the store when that is opened again, where the same one is answered alike.
fn is_taken(alloc: Global) -> Option<bool> {
    let mut hub = hub_of_t1(alloc)?;
    if !answers(&mut hub, FIRST, ACCEPTED) || !has_the_entry(&mut hub) {
        return Some(false);
    }
    let mut again = hub_over(alloc, hub.close())?;
    Some(has_the_entry(&mut again) && answers(&mut again, FIRST, ACCEPTED))
}

/// Whether a hub has no row in the table of this number.
fn has_no_row(hub: &mut Hub<Store>, table: usize) -> bool {
    matches!(hub.rows(table), Ok(rows) if rows.is_empty())
}

/// Whether a hub has no entry, nor one behind those that it has.
fn has_no_entry(hub: &mut Hub<Store>) -> bool {
    let entries = hub.entries(0, 10);
    let above = hub.entries(1, 10);
    matches!(&entries, Ok(entries) if entries.is_empty()) && matches!(above, Err(HubFault::Ahead))
}

/// Whether a new hub has its table, and no entry, row or second table.
fn has_nothing(alloc: Global) -> Option<bool> {
    let mut hub = hub_of_t1(alloc)?;
    Some(
        hub.newest() == 0
            && hub.tables().len() == 1
            && has_no_row(&mut hub, 0)
            && has_no_row(&mut hub, 1)
            && has_no_entry(&mut hub),
    )
}

#[test]
fn a_hub_shows_what_it_has(rt: HostRuntime) {
    assert!(rt; has_nothing(rt.alloc()) == Some(true));
    assert!(rt; is_taken(rt.alloc()) == Some(true));
}

/// A hub that has taken the INSERT. Its store refuses the call behind so many, of which twelve open the hub.
fn filled(alloc: Global, calls: u64) -> Option<Hub<Store>> {
    let mut hub = hub_of_t1(alloc)?;
    if !answers(&mut hub, FIRST, ACCEPTED) {
        return None;
    }
    hub_over(alloc, refusing(hub.close(), calls))
}

/// Whether a request is refused for the device, changes nothing, and is answered so when it comes again.
fn is_answered_again(alloc: Global, calls: u64, asked: &[u8], expected: &[u8]) -> Option<bool> {
    let mut hub = filled(alloc, calls)?;
    let refused = answers(&mut hub, asked, DEVICE);
    let kept = has_the_entry(&mut hub);
    let again = answers(&mut hub, asked, expected);
    Some(refused && kept && again && hub.close().failures() == 1)
}

/// A push asks the store twice, for the row and for the commit. One that was taken asks once, and so does a pull of one entry.
#[test]
fn what_the_device_refuses_changes_nothing(rt: HostRuntime) {
    let alloc = rt.alloc();
    let cases: [(u64, &'static [u8], &'static [u8]); 4] = [
        (12, SECOND, SECOND_ACCEPTED),
        (13, SECOND, SECOND_ACCEPTED),
        (12, FIRST, ACCEPTED),
        (12, PULL, ONE_ENTRY),
    ];
    for (calls, asked, expected) in cases {
        assert!(rt; is_answered_again(alloc, calls, asked, expected) == Some(true));
    }
}

/// What becomes of the changes of a changeset, handed over as the first push of replica 7: its version, or the kind of a conflict.
fn takes_changes(alloc: Global, hub: &mut Hub<Store>, bytes: &[u8]) -> Option<Result<u64, Kind>> {
    if bytes.len() as u64 > MAX_CHANGESET {
        return None;
    }
    let changeset = read(alloc, bytes).ok()?;
    let head = PushHead {
        origin: 7,
        number: 1,
        base: 0,
    };
    let changes = normalise(alloc, hub.judging(head.base), &changeset).ok()?;
    match hub.push(head, changes) {
        Ok(Pushed::Accepted(version)) => Some(Ok(version)),
        Err(HubFault::Conflict(conflict)) => Some(Err(conflict.as_conflict().kind)),
        _ => None,
    }
}

/// What becomes of a changeset that a new hub takes so.
fn is_handed_over(alloc: Global, bytes: &[u8]) -> Option<Result<u64, Kind>> {
    let catalog = catalog(alloc)?;
    let store = bare(alloc, u64::MAX);
    match Hub::open(alloc, store, &catalog) {
        Ok(mut hub) => takes_changes(alloc, &mut hub, bytes),
        Err(_) => None,
    }
}

/// The INSERT, and the DELETE of a row that isn't there.
#[test]
fn changes_are_handed_over(rt: HostRuntime) {
    assert!(rt; is_handed_over(rt.alloc(), &INSERT[1..]) == Some(Ok(1)));
    assert!(rt; is_handed_over(rt.alloc(), &DELETE_2[1..]) == Some(Err(Kind::NotFound)));
}
