//! Changesets that come in pieces, beside the same bytes read at once.

use cs_changeset::{CodecFault, Fault, encode, read};
use cs_feed::{ChangesetBuf, Feed, StreamFault, read_from, read_pieces};
use std::alloc::{AllocError, Global};
use std::io;
use std::io::{BufReader, ErrorKind, Read};

/// The INSERT of (1, 'v1') into t1.
const INSERTED: &[u8] = b"\x54\x02\x01\0t1\0\x12\0\x01\0\0\0\0\0\0\0\x01\x03\x02v1";

/// What comes of bytes.
#[derive(Clone, Copy)]
enum Comes {
    /// They are a changeset.
    Whole,
    /// They end early.
    Early,
    /// The first ones, so many, have this fault, told there.
    Told(usize, Fault, usize),
}

const CASES: [(&[u8], Comes); 44] = [
    (b"", Comes::Whole),
    (b"\x54\x02\x01\0t1\0", Comes::Whole),
    (INSERTED, Comes::Whole),
    (
        b"\x54\x02\x02\0t1\0\x12\0\x01\0\0\0\0\0\0\0\x01\x03\x02v1",
        Comes::Whole,
    ),
    (
        b"\x54\x02\x01\0t1\0\x17\0\x01\0\0\0\0\0\0\0\x01\x03\x02v1\0\x03\x02v2",
        Comes::Whole,
    ),
    (
        b"\x54\x02\x01\0t1\0\x17\x01\x01\0\0\0\0\0\0\0\x01\x03\x02v1\x01\0\0\0\0\0\0\0\x01\x03\x02v2",
        Comes::Whole,
    ),
    (
        b"\x54\x02\x01\0t1\0\x09\x01\x01\0\0\0\0\0\0\0\x01\x05\x54\x04\x01\0\0\0t2\0\x54\x02\x01\0t1\0\x09\0\x01\0\0\0\0\0\0\0\x02\x04\x01\xff",
        Comes::Whole,
    ),
    (
        b"\x54\x04\x01\0\0\0t2\0\x17\0\x01\0\0\0\0\0\0\0\x01\x03\0\x05\0\0\x04\0\x03\0\0",
        Comes::Whole,
    ),
    (
        b"\x54\x04\x01\0\0\0t2\0\x17\0\x01\0\0\0\0\0\0\0\x01\x03\x02v1\x05\0\0\0\0\0",
        Comes::Whole,
    ),
    (
        b"\x54\x02\x01\0t1\0\x17\0\x01\0\0\0\0\0\0\0\x02\x03\x02v1\0\x03\x06\xe2\x82\xac\xe2\x82\xac\x09\0\x01\0\0\0\0\0\0\0\x02\x03\x02v2",
        Comes::Whole,
    ),
    (
        b"\x54\x01\x01\0\x12\0\x05\x54\x01\x09a\0\x09\x01\x05",
        Comes::Whole,
    ),
    (b"\x54\x01\x01\xc3\xa4\0\x12\0\x03\x02v1", Comes::Whole),
    (b"\x54", Comes::Early),
    (b"\x54\x8f\x50", Comes::Early),
    (b"\x54\x02\x01\0\xff", Comes::Early),
    (
        b"\x54\x02\x01\0t1\0\x12\0\x01\0\0\0\0\0\0\0\x01\x03\xff\xff\xff\xff\xff\xff\xff\xff\xff",
        Comes::Early,
    ),
    (
        b"\x54\x02\x01\0t1\0\x17\0\x01\0\0\0\0\0\0\0\x01\x03\x02v1\0\x04\x03\x01\x02",
        Comes::Early,
    ),
    (b"\x50", Comes::Told(1, Fault::Patchset, 0)),
    (b"\x55", Comes::Told(1, Fault::BadMark, 0)),
    (&[0xff; 64], Comes::Told(1, Fault::BadMark, 0)),
    (b"\x54\0", Comes::Told(2, Fault::Columns, 1)),
    (b"\x54\xff\x7f", Comes::Told(3, Fault::Columns, 1)),
    (b"\x54\x8f\x51", Comes::Told(3, Fault::Columns, 1)),
    (b"\x54\x80\x01", Comes::Told(3, Fault::NotShortest, 1)),
    (b"\x54\x02\0\0", Comes::Told(4, Fault::NoKeyColumn, 2)),
    (b"\x54\x02\x01\0\xff\0", Comes::Told(6, Fault::NotUtf8, 4)),
    (
        b"\x54\x02\x01\0t1\0\x13",
        Comes::Told(8, Fault::BadOperation, 7),
    ),
    (
        b"\x54\x02\x01\0t1\0\x50",
        Comes::Told(8, Fault::Patchset, 7),
    ),
    (
        b"\x54\x02\x01\0t1\0\x12\x02",
        Comes::Told(9, Fault::BadFlag, 8),
    ),
    (
        b"\x54\x02\x01\0t1\0\x12\0\0",
        Comes::Told(10, Fault::UndefinedHere, 9),
    ),
    (
        b"\x54\x02\x01\0t1\0\x09\0\0",
        Comes::Told(10, Fault::UndefinedHere, 9),
    ),
    (
        b"\x54\x02\x01\0t1\0\x17\0\0",
        Comes::Told(10, Fault::UndefinedHere, 9),
    ),
    (
        b"\x54\x02\x01\0t1\0\x12\0\x01\0\0\0\0\0\0\0\x01\x06",
        Comes::Told(19, Fault::BadType(6), 18),
    ),
    (
        b"\x54\x02\x01\0t1\0\x12\0\x01\0\0\0\0\0\0\0\x01\x02",
        Comes::Told(19, Fault::Real, 18),
    ),
    (
        b"\x54\x02\x01\0t1\0\x12\0\x01\0\0\0\0\0\0\0\x01\x03\x80\x02",
        Comes::Told(21, Fault::NotShortest, 19),
    ),
    (
        b"\x54\x02\x01\0t1\0\x12\0\x01\0\0\0\0\0\0\0\x01\x03\x01\xff",
        Comes::Told(21, Fault::NotUtf8, 20),
    ),
    (
        b"\x54\x02\x01\0t1\0\x17\0\x01\0\0\0\0\0\0\0\x01\0\0\x03\x02v2",
        Comes::Told(24, Fault::UndefinedHere, 20),
    ),
    (
        b"\x54\x02\x01\0t1\0\x17\0\x01\0\0\0\0\0\0\0\x01\x03\x02v1\x01\0\0\0\0\0\0\0\x02\x03\x02v2",
        Comes::Told(31, Fault::KeyChanged, 22),
    ),
    (
        b"\x54\x02\x01\0t1\0\x17\0\x01\0\0\0\0\0\0\0\x01\x03\x02v1\x05\x03\x02v2",
        Comes::Told(23, Fault::KeyChanged, 22),
    ),
    (
        b"\x54\x02\x01\0t1\0\x17\x01\x01\0\0\0\0\0\0\0\x01\x03\x02v1\x01\0\0\0\0\0\0\0\x01\x02",
        Comes::Told(32, Fault::Real, 31),
    ),
    (
        b"\x54\x02\x01\0t1\0\x12\0\x01\0\0\0\0\0\0\0\x01\x03\x02v1\x54\0",
        Comes::Told(24, Fault::Columns, 23),
    ),
    (
        b"\x54\x02\x01\0t1\0\x12\0\x01\0\0\0\0\0\0\0\x01\x03\x02v1\x01",
        Comes::Told(23, Fault::BadOperation, 22),
    ),
    (
        b"\x54\x02\x01\0t1\0\x12\0\x01\0\0\0\0\0\0\0\x01\x03\x02v1\x54\x02\x01\0t1\0\x12\0\x01\0\0\0\0\0\0\0\x01\x02",
        Comes::Told(41, Fault::Real, 40),
    ),
    (
        b"\x54\x02\x01\0t1\0\x12\0\x01\0\0\0\0\0\0\0\x01\x03\x02v1\x09\0\x01\0\0\0\0\0\0\0\x02\x07",
        Comes::Told(34, Fault::BadType(7), 33),
    ),
];

/// The piece is pushed, and where memory is wanting once more.
fn push_twice(feed: &mut Feed, piece: &[u8]) -> Result<(), CodecFault> {
    match feed.push(piece) {
        Err(CodecFault::Memory) => feed.push(piece),
        told => told,
    }
}

/// What the bytes give in pieces of so many.
fn fed(alloc: Global, bytes: &[u8], size: usize) -> Result<ChangesetBuf, CodecFault> {
    let mut feed = Feed::new(alloc);
    let mut left = bytes;
    for _ in 0..bytes.len() {
        if left.is_empty() {
            break;
        }
        let (piece, more) = left.split_at(left.len().min(size));
        push_twice(&mut feed, piece)?;
        left = more;
    }
    feed.finish()
}

/// Whether this fault is told there.
fn is_at(told: &CodecFault, fault: Fault, offset: usize) -> bool {
    match told {
        CodecFault::At {
            fault: other,
            offset: there,
        } => *other == fault && *there == offset,
        CodecFault::Memory => false,
    }
}

/// Whether the changeset in the buffer is written as these bytes.
fn is_written_as(alloc: Global, owned: &ChangesetBuf, bytes: &[u8]) -> bool {
    let Ok(changeset) = owned.lend(alloc) else {
        return false;
    };
    let mut out = Vec::new(alloc);
    match encode(&changeset, &mut out) {
        Ok(()) => owned.bytes() == bytes && out.as_slice() == bytes,
        Err(_) => false,
    }
}

/// Whether it is what the bytes give at once.
fn is_as_read(alloc: Global, bytes: &[u8], given: &Result<ChangesetBuf, CodecFault>) -> bool {
    match (given, read(alloc, bytes)) {
        (Ok(owned), Ok(_)) => is_written_as(alloc, owned, bytes),
        (Err(told), Err(CodecFault::At { fault, offset })) => is_at(told, fault, offset),
        _ => false,
    }
}

/// Whether each front of the bytes gives what it gives at once, in pieces of 1, 2, 3, 7 and 100 bytes.
fn agrees(alloc: Global, bytes: &[u8]) -> bool {
    for len in 0..bytes.len() + 1 {
        for size in [1, 2, 3, 7, 100] {
            let front = &bytes[..len];
            if !is_as_read(alloc, front, &fed(alloc, front, size)) {
                return false;
            }
        }
    }
    true
}

#[test]
fn fronts_in_pieces(rt: HostRuntime) {
    for (bytes, _) in CASES {
        assert!(rt; agrees(rt.alloc(), bytes));
    }
}

/// Whether the feed tells this fault at each call more.
fn tells_again(feed: &mut Feed, fault: Fault, offset: usize) -> bool {
    for piece in [b"\x54".as_slice(), b""] {
        match feed.push(piece) {
            Err(told) if is_at(&told, fault, offset) => {}
            _ => return false,
        }
    }
    match feed.finish() {
        Err(told) => is_at(&told, fault, offset),
        Ok(_) => false,
    }
}

/// Whether the bytes are pushed one by one, and all have come.
fn are_pushed(feed: &mut Feed, bytes: &[u8]) -> bool {
    for byte in bytes {
        if push_twice(feed, &[*byte]).is_err() {
            return false;
        }
    }
    feed.len() == bytes.len()
}

/// Whether the last byte has this fault, which is told there and at every later call.
fn tells_at_last(alloc: Global, bytes: &[u8], fault: Fault, offset: usize) -> bool {
    let Some((last, front)) = bytes.split_last() else {
        return false;
    };
    let mut feed = Feed::new(alloc);
    if !are_pushed(&mut feed, front) {
        return false;
    }
    match push_twice(&mut feed, &[*last]) {
        Err(told) => is_at(&told, fault, offset) && tells_again(&mut feed, fault, offset),
        Ok(()) => false,
    }
}

/// Whether the bytes are pushed, and end so.
fn ends(alloc: Global, bytes: &[u8], early: bool) -> bool {
    let mut feed = Feed::new(alloc);
    if !are_pushed(&mut feed, bytes) {
        return false;
    }
    match feed.finish() {
        Ok(_) => !early,
        Err(told) => early && is_at(&told, Fault::Truncated, bytes.len()),
    }
}

/// Whether it comes so, byte by byte.
fn comes_so(alloc: Global, bytes: &[u8], what: Comes) -> bool {
    match what {
        Comes::Whole => ends(alloc, bytes, false),
        Comes::Early => ends(alloc, bytes, true),
        Comes::Told(seen, fault, offset) => match bytes.get(..seen) {
            Some(front) => tells_at_last(alloc, front, fault, offset),
            None => false,
        },
    }
}

#[test]
fn faults_are_told_at_once(rt: HostRuntime) {
    for (bytes, what) in CASES {
        assert!(rt; comes_so(rt.alloc(), bytes, what));
    }
}

/// Whether the feed gives these bytes as a changeset, which is kept again.
fn gives(feed: &mut Feed, bytes: &[u8]) -> bool {
    match feed.finish() {
        Ok(owned) => ChangesetBuf::from_vec(owned.into_vec()).bytes() == bytes,
        Err(_) => false,
    }
}

/// Whether a feed that has told Truncated goes on to these bytes, and begins anew behind them.
fn goes_on(alloc: Global, bytes: &[u8], cut: usize) -> bool {
    let Some((front, rest)) = bytes.split_at_checked(cut) else {
        return false;
    };
    let mut feed = Feed::new(alloc);
    for _ in 0..2 {
        if push_twice(&mut feed, front).is_err() {
            return false;
        }
        let early = feed.finish().is_err();
        if !early || push_twice(&mut feed, rest).is_err() || !gives(&mut feed, bytes) {
            return false;
        }
    }
    true
}

#[test]
fn behind_truncated_more_may_come(rt: HostRuntime) {
    for cut in [1, 21] {
        assert!(rt; goes_on(rt.alloc(), INSERTED, cut));
    }
}

/// Gives its bytes three at a time, each time after an interrupted read, and at their end fails or ends.
#[derive(Drop)]
struct Broken<'b> {
    left: &'b [u8],
    interrupts: bool,
    fails: bool,
}

impl<'b> Read for Broken<'b> {
    fn read(&mut self, buf: &mut [u8]) -> io::Result<usize> {
        self.interrupts = !self.interrupts;
        if self.interrupts {
            return Err(io::Error::from(ErrorKind::Interrupted));
        }
        if self.left.is_empty() && self.fails {
            return Err(io::Error::from(ErrorKind::Other));
        }
        let given = self.left.len().min(buf.len()).min(3);
        let (piece, rest) = self.left.split_at(given);
        buf[..given].copy_from_slice(piece);
        self.left = rest;
        Ok(given)
    }
}

/// What such a reader of the bytes gives.
fn streamed(alloc: Global, bytes: &[u8], fails: bool) -> Result<ChangesetBuf, StreamFault> {
    let broken = Broken {
        left: bytes,
        interrupts: false,
        fails,
    };
    match BufReader::with_capacity(alloc, 16, broken) {
        Ok(mut reader) => read_from(alloc, &mut reader),
        Err(_) => Err(StreamFault::Memory),
    }
}

/// A fault of a stream as one of bytes; none where a read failed.
fn as_codec(given: Result<ChangesetBuf, StreamFault>) -> Option<Result<ChangesetBuf, CodecFault>> {
    match given {
        Ok(owned) => Some(Ok(owned)),
        Err(StreamFault::At { fault, offset }) => Some(Err(CodecFault::At { fault, offset })),
        Err(StreamFault::Memory) => Some(Err(CodecFault::Memory)),
        Err(StreamFault::Read) => None,
    }
}

/// Whether a reader of the bytes, and the bytes in two pieces, give what they give at once.
fn reads(alloc: Global, bytes: &[u8]) -> Option<bool> {
    let (front, rest) = bytes.split_at(bytes.len() / 2);
    let pieces = read_pieces(alloc, &[front, rest]);
    let held = as_codec(read_from(alloc, &mut &*bytes))?;
    let given = as_codec(streamed(alloc, bytes, false))?;
    Some(
        is_as_read(alloc, bytes, &pieces)
            && is_as_read(alloc, bytes, &held)
            && is_as_read(alloc, bytes, &given),
    )
}

#[test]
fn readers_and_pieces(rt: HostRuntime) {
    for (bytes, _) in CASES {
        assert!(rt; reads(rt.alloc(), bytes).unwrap_or(false));
    }
}

/// Whether a failed read is told behind these bytes.
fn tells_read(alloc: Global, bytes: &[u8]) -> bool {
    match streamed(alloc, bytes, true) {
        Err(StreamFault::Read) => true,
        _ => false,
    }
}

#[test]
fn a_failed_read_is_told_but_behind_a_fault(rt: HostRuntime) {
    for (bytes, what) in CASES {
        let told = match what {
            Comes::Told(_, _, _) => false,
            Comes::Whole | Comes::Early => true,
        };
        assert!(rt; tells_read(rt.alloc(), bytes) == told);
    }
}

/// So many bytes of one value, behind the others.
fn put_many(bytes: &mut Vec<u8>, count: usize, byte: u8) -> Result<(), AllocError> {
    for _ in 0..count {
        bytes.push(byte)?;
    }
    Ok(())
}

/// An INSERT and an UPDATE of a table with 2,000 columns, the last of which is the key.
fn wide(alloc: Global) -> Result<Vec<u8>, AllocError> {
    let mut bytes = Vec::new(alloc);
    bytes.extend_from_slice(b"\x54\x8f\x50")?;
    put_many(&mut bytes, 1999, 0)?;
    bytes.extend_from_slice(b"\x01w\0\x12\0")?;
    put_many(&mut bytes, 2000, 5)?;
    bytes.extend_from_slice(b"\x17\0")?;
    put_many(&mut bytes, 2000, 5)?;
    put_many(&mut bytes, 2000, 0)?;
    Ok(bytes)
}

/// An INSERT with a text of 20,000 bytes, and a group whose name has as many.
fn long(alloc: Global) -> Result<Vec<u8>, AllocError> {
    let mut bytes = Vec::new(alloc);
    bytes.extend_from_slice(b"\x54\x01\x01a\0\x12\0\x03\x81\x9c\x20")?;
    put_many(&mut bytes, 20_000, b'a')?;
    bytes.extend_from_slice(b"\x54\x01\x01")?;
    put_many(&mut bytes, 20_000, b'b')?;
    bytes.push(0)?;
    Ok(bytes)
}

/// Whether these bytes one by one give what they give at once.
fn agrees_one_by_one(alloc: Global, made: Result<Vec<u8>, AllocError>) -> bool {
    match made {
        Ok(bytes) => is_as_read(alloc, &bytes, &fed(alloc, &bytes, 1)),
        Err(_) => false,
    }
}

#[test]
fn wide_and_long_ones_byte_by_byte(rt: HostRuntime) {
    let alloc = rt.alloc();
    assert!(rt; agrees_one_by_one(alloc, wide(alloc)));
    assert!(rt; agrees_one_by_one(alloc, long(alloc)));
}
