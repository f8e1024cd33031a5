//! A replica that inserts a row, pushes to a book and pulls until the log has it, and then the next. Requests are lost on the way or come
//! twice.

ghost use Rattle.std.specs.Prelude.{◌<◌, ◌-◌, ◌^◌};
ghost use Rattle.cs_wire.specs.Requests.{HasShortBytes, asked_by_owned};

use crate::books::Here;
use cs_conflict::{Clash, Guard, Wish};
use cs_replica::Replica;
use cs_store::RowStore;
use cs_store_cases::catalog;
use cs_value::{Items, Memory, Row, Text, Value};
use cs_wire::{Answer, RequestBuf};
use std::alloc::Global;

/// How many rows each replica inserts, each in a push of its own.
const ROWS: i64 = 10;

/// How many requests it sends at most.
const REQUESTS: u64 = 1000;

/// How often a request reaches the book, by its number: never, twice, once, and so on in turn.
fn deliveries(number: u64) -> usize {
    match number % 3 {
        0 => 0,
        1 => 2,
        _ => 1,
    }
}

/// The row of a number and the text `v1`.
fn row(alloc: Global, number: i64) -> Result<Row, Memory> {
    let mut values = Vec::new(alloc);
    values.push(Value::Int(number))?;
    values.push(Value::Text(Text::from_string(String::from_str(alloc, "v1")?)))?;
    Ok(Items::from_vec(values))
}

fn inserts<S: RowStore>(alloc: Global, replica: &mut Replica<S>, number: i64) -> bool {
    match row(alloc, number) {
        Ok(row) => replica.insert(alloc, "t1", &row).is_ok(),
        Err(_) => false,
    }
}

fn answer<S: RowStore>(alloc: Global, replica: &mut Replica<S>, answer: &Answer<'_>) -> bool {
    let mut guard = Guard::new(|_clash: &Clash<'_>| -> Wish { Wish::Keep });
    replica.answer(alloc, answer, &mut guard).is_ok()
}

/// Whether the answer in these bytes is taken.
fn answers<S: RowStore>(alloc: Global, replica: &mut Replica<S>, bytes: &[u8]) -> bool {
    match Answer::decode(bytes) {
        Ok(decoded) => answer(alloc, replica, &decoded),
        Err(_) => false,
    }
}

/// The bytes of a request.
fn bytes_of(alloc: Global, request: &RequestBuf) -> Result<Vec<u8>, Memory>
    requires { HasShortBytes (asked_by_owned request.now) }
{
    let mut bytes = Vec::new(alloc);
    request.encode(&mut bytes)?;
    Ok(bytes)
}

/// The bytes of the push that is under way, or that is made now.
fn push_bytes<S: RowStore>(alloc: Global, replica: &mut Replica<S>) -> Option<Vec<u8>> {
    if replica.in_flight().is_some() {
        match replica.resend(alloc) {
            Ok(request) => bytes_of(alloc, &request).ok(),
            Err(_) => None,
        }
    } else {
        match replica.make_push(alloc) {
            Ok(request) => bytes_of(alloc, &request).ok(),
            Err(_) => None,
        }
    }
}

/// The bytes of a pull of all entries from the replica's version on.
fn pull_bytes<S: RowStore>(alloc: Global, replica: &Replica<S>) -> Option<Vec<u8>> {
    let request = RequestBuf::Pull {
        first: replica.version(),
        limit: 100,
    };
    bytes_of(alloc, &request).ok()
}

/// Whether a request is answered, and the answer taken.
fn asks<'s, S: RowStore>(
    alloc: Global,
    replica: &mut Replica<S>,
    book: &mut Here<'s>,
    request: &[u8],
) -> bool {
    match book.serve(request) {
        Ok(answer) => answers(alloc, replica, answer.as_slice()),
        Err(_) => false,
    }
}

/// The same as often as the request of this number comes.
fn sends<'s, S: RowStore>(
    alloc: Global,
    replica: &mut Replica<S>,
    book: &mut Here<'s>,
    request: &[u8],
    number: u64,
) -> bool {
    for _ in 0..deliveries(number) {
        if !asks(alloc, replica, book, request) {
            return false;
        }
    }
    true
}

/// A push and a pull, each lost, sent twice or once.
fn turns<'s, S: RowStore>(
    alloc: Global,
    replica: &mut Replica<S>,
    book: &mut Here<'s>,
    number: u64,
) -> Option<bool> {
    let push = push_bytes(alloc, replica)?;
    let pushed = sends(alloc, replica, book, push.as_slice(), number);
    let pull = pull_bytes(alloc, replica)?;
    let pulled = sends(
        alloc,
        replica,
        book,
        pull.as_slice(),
        number.saturating_add(1),
    );
    Some(pushed && pulled)
}

/// Whether nothing is pending, and nothing under way.
fn is_at_rest<S: RowStore>(replica: &Replica<S>) -> bool {
    replica.pending_len() == 0 && replica.in_flight().is_none()
}

/// Whether all its rows get into the log, each in a push of its own, within so many requests.
fn pushes_all<'s, S: RowStore>(
    alloc: Global,
    replica: &mut Replica<S>,
    book: &mut Here<'s>,
    first: i64,
) -> bool {
    let mut made = 0i64;
    let mut number = 0u64;
    for _ in 0..REQUESTS {
        if is_at_rest(replica) {
            if made == ROWS {
                return number <= REQUESTS;
            }
            if !inserts(alloc, replica, first.saturating_add(made)) {
                return false;
            }
            made = made.saturating_add(1);
        }
        if turns(alloc, replica, book, number) != Some(true) {
            return false;
        }
        number = number.saturating_add(2);
    }
    false
}

/// Whether a replica over this store does.
pub(crate) fn pushes_over<'s, S: RowStore + Drop>(
    alloc: Global,
    store: S,
    book: Here<'s>,
    id: u32,
) -> bool
    requires { id < 2 ^ 32 - 1 }
{
    let Some(catalog) = catalog(alloc) else {
        return false;
    };
    let mut book = book;
    match Replica::open(alloc, store, &catalog, id) {
        Ok(mut replica) => pushes_all(alloc, &mut replica, &mut book, (id as i64) * 100),
        Err(_) => false,
    }
}
