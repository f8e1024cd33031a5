//! Lines over readers and writers, also such that fail, beside answers that were written by hand.

use cs_lines::{
    LineOutput, LineRead, Memory, Serve, Stop, read_ended_line, read_line, serve_lines,
    write_hex_line, write_whole,
};
use std::alloc::Global;
use std::io;
use std::io::{BufReader, BufWriter, Read, Write};

// A server that answers by how many requests it has served, and by the request.
#[derive(Drop)]
struct Counter {
    alloc: Global,
    served: u8,
}

impl Serve for Counter {
    ghost serves = { λ old request answer new. Unit {0} };

    ghost stays = { λ old new. Unit {0} };

    fn serve(&mut self, request: &[u8]) -> Result<Vec<u8>, Memory> {
        let mut answer = Vec::with_capacity(self.alloc, request.len())?;
        answer.push(self.served)?;
        answer.extend_from_slice(request)?;
        self.served = self.served.wrapping_add(1);
        Ok(answer)
    }
}

/// Whether a new server's answers to the lines of the input are this output.
fn serves(alloc: Global, input: &[u8], output: &[u8]) -> bool {
    let mut server = Counter { alloc, served: 0 };
    let mut reader = input;
    let mut writer = Vec::new(alloc);
    let ended = serve_lines(alloc, &mut server, &mut reader, &mut writer);
    ended == Ok(()) && writer.as_slice() == output
}

#[test]
fn serves_lines_in_order(rt: HostRuntime) {
    let input = b"\n0aFf\nzz\nABC\n07\r\n12";
    assert!(rt; serves(rt.alloc(), input, b"00\n010aff\n1316\n1316\n1316\n0212\n"));
}

/// Whether the next line is whole, and this text.
fn reads(input: &mut &[u8], line: &mut Vec<u8>, text: &str) -> bool {
    matches!(read_line(input, line), Ok(LineRead::Whole)) && line.as_slice() == text.as_bytes()
}

#[test]
fn reads_lines(rt: HostRuntime) {
    let mut input = b"one\n\ntwo".as_slice();
    let mut line = Vec::new(rt.alloc());
    for text in ["one", "", "two"] {
        assert!(rt; reads(&mut input, &mut line, text));
    }
    assert!(rt; matches!(read_line(&mut input, &mut line), Ok(LineRead::End)));
}

// A reader of two pieces, between which a read fails once as for want of memory.
#[derive(Drop)]
struct Halting<'a> {
    front: &'a [u8],
    rest: &'a [u8],
    halted: bool,
}

impl<'a> Read for Halting<'a> {
    fn read(&mut self, buf: &mut [u8]) -> io::Result<usize> {
        if !self.front.is_empty() {
            return self.front.read(buf);
        }
        if !self.halted {
            self.halted = true;
            return Err(io::Error::from(io::ErrorKind::OutOfMemory));
        }
        self.rest.read(buf)
    }
}

/// Whether the next line that a line feed ends is whole, and this text.
fn reads_ended(input: &mut &[u8], line: &mut Vec<u8>, text: &str) -> bool {
    matches!(read_ended_line(input, line), Ok(LineRead::Whole))
        && line.as_slice() == text.as_bytes()
}

/// Whether a line within which memory is refused, and which goes on so, is told as this, and none behind it.
fn tells_halted(alloc: Global, rest: &[u8], told: LineRead) -> Option<bool> {
    let halting = Halting {
        front: b"on",
        rest,
        halted: false,
    };
    let mut input = BufReader::new(alloc, halting).ok()?;
    let mut line = Vec::new(alloc);
    let first = read_ended_line(&mut input, &mut line).ok()?;
    let second = read_ended_line(&mut input, &mut line).ok()?;
    Some(first == told && second == LineRead::End)
}

#[test]
fn reads_ended_lines(rt: HostRuntime) {
    let mut input = b"one\n\ntwo".as_slice();
    let mut line = Vec::new(rt.alloc());
    for text in ["one", ""] {
        assert!(rt; reads_ended(&mut input, &mut line, text));
    }
    assert!(rt; matches!(read_ended_line(&mut input, &mut line), Ok(LineRead::End)));
    assert!(rt; tells_halted(rt.alloc(), b"e\n", LineRead::Skipped).unwrap_or(false));
    assert!(rt; tells_halted(rt.alloc(), b"e\ntwo", LineRead::Skipped).unwrap_or(false));
    assert!(rt; tells_halted(rt.alloc(), b"e", LineRead::End).unwrap_or(false));
    assert!(rt; tells_halted(rt.alloc(), b"", LineRead::End).unwrap_or(false));
}

/// Whether so long a line is written.
fn writes_line(alloc: Global, bytes: &[u8], len: usize) -> bool {
    let mut output = Vec::new(alloc);
    let is_written = write_hex_line(&mut output, bytes).is_ok();
    let is_whole = output.starts_with(b"a5a5") && output.ends_with(b"a5\n");
    is_written && is_whole && output.len() == len
}

#[test]
fn writes_long_lines(rt: HostRuntime) {
    assert!(rt; writes_line(rt.alloc(), &[0xa5u8; 130], 261));
}

// A reader of line feeds that fails after a number of them, as memory or as the device does.
#[derive(Drop)]
struct Breaking {
    left: usize,
    kind: io::ErrorKind,
}

impl Read for Breaking {
    fn read(&mut self, buf: &mut [u8]) -> io::Result<usize> {
        let given = self.left.min(buf.len());
        if given == 0 {
            return Err(io::Error::from(self.kind));
        }
        buf[..given].fill(b'\n');
        self.left -= given;
        Ok(given)
    }
}

// A writer that takes a number of bytes, and whose flushes fail when none is left.
#[derive(Drop)]
struct Narrow {
    room: usize,
}

impl Write for Narrow {
    fn write(&mut self, buf: &[u8]) -> io::Result<usize> {
        let taken = self.room.min(buf.len());
        self.room -= taken;
        Ok(taken)
    }

    fn flush(&mut self) -> io::Result<()> {
        if self.room == 0 {
            return Err(io::Error::from(io::ErrorKind::BrokenPipe));
        }
        Ok(())
    }
}

// A writer that takes a byte at a time, and is interrupted before each.
#[derive(Drop)]
struct Interrupted {
    next: bool,
    taken: Vec<u8>,
}

impl Write for Interrupted {
    fn write(&mut self, buf: &[u8]) -> io::Result<usize> {
        self.next = !self.next;
        if self.next {
            return Err(io::Error::from(io::ErrorKind::Interrupted));
        }
        let Some(byte) = buf.first() else {
            return Ok(0);
        };
        match self.taken.push(*byte) {
            Ok(()) => Ok(1),
            Err(_) => Err(io::Error::from(io::ErrorKind::OutOfMemory)),
        }
    }

    fn flush(&mut self) -> io::Result<()> {
        Ok(())
    }
}

#[test]
fn goes_on_where_interrupted(rt: HostRuntime) {
    let mut output = Interrupted {
        next: false,
        taken: Vec::new(rt.alloc()),
    };
    assert!(rt; write_whole(&mut output, b"0aff").is_ok());
    assert!(rt; output.taken.as_slice() == b"0aff".as_slice());
}

impl LineOutput for Narrow {
    ghost sent = { λ _. Unit {0} };

    ghost failed = { λ _. Unit {0} };

    fn put(&mut self, bytes: &[u8]) -> io::Result<()> {
        write_whole(self, bytes)
    }

    fn send(&mut self) -> io::Result<()> {
        self.flush()
    }
}

/// Whether nothing waits in the writer's buffer once a line is answered.
fn holds_nothing(alloc: Global) -> Option<bool> {
    let mut server = Counter { alloc, served: 0 };
    let mut input = b"\n".as_slice();
    let mut output = BufWriter::new(alloc, Vec::new(alloc)).ok()?;
    let ended = serve_lines(alloc, &mut server, &mut input, &mut output);
    let is_sent = output.buffer().is_empty() && output.get_ref().as_slice() == b"00\n".as_slice();
    Some(ended == Ok(()) && is_sent)
}

#[test]
fn holds_nothing_back(rt: HostRuntime) {
    assert!(rt; holds_nothing(rt.alloc()).unwrap_or(false));
}

/// Whether a read that fails behind two lines stops the run, and those have their answers.
fn stops_reading(alloc: Global, kind: io::ErrorKind) -> Option<bool> {
    let mut server = Counter { alloc, served: 0 };
    let mut input = BufReader::new(alloc, Breaking { left: 2, kind }).ok()?;
    let mut output = Vec::new(alloc);
    let ended = serve_lines(alloc, &mut server, &mut input, &mut output);
    Some(ended == Err(Stop::Read) && output.as_slice() == b"00\n01\n".as_slice())
}

/// Whether a writer that takes so many bytes stops the run.
fn stops_writing(alloc: Global, room: usize) -> bool {
    let mut server = Counter { alloc, served: 0 };
    let mut input = b"\n\n".as_slice();
    let mut output = Narrow { room };
    serve_lines(alloc, &mut server, &mut input, &mut output) == Err(Stop::Write)
}

#[test]
fn stops_at_failures(rt: HostRuntime) {
    for kind in [io::ErrorKind::BrokenPipe, io::ErrorKind::OutOfMemory] {
        assert!(rt; stops_reading(rt.alloc(), kind).unwrap_or(false));
    }
    for room in [0, 2, 3, 5] {
        assert!(rt; stops_writing(rt.alloc(), room));
    }
}
