//! Sources and sinks over std's readers and writers, call by call.

use console::Remembering;
use std::cell::Cell;
use std::io;
use streams::{Failed, Sink, Source, put_all};

// How many bytes each read gives, of four reads into a buffer of four bytes, and 9 where a read fails.
fn four_reads<S: Source>(source: &mut S) -> [usize; 4] {
    let mut counts = [0; 4];
    let mut into = [0; 4];
    for count in counts.iter_mut() {
        *count = source.read(&mut into).unwrap_or(9);
    }
    counts
}

#[test]
fn a_reader_of_std_is_adapted(rt: HostRuntime) {
    let mut source = Remembering::over(b"abcde".as_slice());
    assert_eq!(rt; four_reads(&mut source), [4, 1, 0, 0]);
}

// What two writes of several bytes into three answer, and the bytes.
fn two_writes_into_three() -> ([Result<(), Failed>; 2], [u8; 3]) {
    let mut space = [0; 3];
    let mut sink = Remembering::over(space.as_mut_slice());
    let answers = [put_all(&mut sink, b"ab"), put_all(&mut sink, b"cd")];
    (answers, space)
}

#[test]
fn a_writer_of_std_is_adapted(rt: HostRuntime) {
    assert_eq!(rt; two_writes_into_three(), ([Ok(()), Err(Failed)], *b"abc"));
}

// A device that counts its calls: its first call fails so, and each later one does one byte, or none where it is full.
#[derive(Drop)]
struct Device<'a> {
    first: io::ErrorKind,
    full: bool,
    calls: &'a Cell<usize>,
}

impl<'a> Device<'a> {
    fn call(&self) -> io::Result<usize> {
        self.calls.set(self.calls.get().saturating_add(1));
        if self.calls.get() == 1 {
            return Err(io::Error::from(self.first));
        }
        Ok(if self.full { 0 } else { 1 })
    }
}

impl<'a> io::Read for Device<'a> {
    fn read(&mut self, into: &mut [u8]) -> io::Result<usize> {
        let count = self.call()?;
        for byte in into.iter_mut().take(count) {
            *byte = b'x';
        }
        Ok(count.min(into.len()))
    }
}

impl<'a> io::Write for Device<'a> {
    fn write(&mut self, piece: &[u8]) -> io::Result<usize> {
        let count = self.call()?;
        Ok(count.min(piece.len()))
    }

    fn flush(&mut self) -> io::Result<()> {
        Ok(())
    }
}

// How a call of a reader or a writer may fail; an interrupted call is one that std's own loops would make again.
const FAILURES: [io::ErrorKind; 3] = [
    io::ErrorKind::Interrupted,
    io::ErrorKind::WouldBlock,
    io::ErrorKind::TimedOut,
];

// What two reads answer of a device whose first call fails so, each with the calls that were made by then; and the bytes.
fn two_reads(first: io::ErrorKind) -> ([(Result<usize, Failed>, usize); 2], [u8; 2]) {
    let calls = Cell::new(0);
    let full = false;
    let mut source = Remembering::over(Device {
        first,
        full,
        calls: &calls,
    });
    let mut into = [0; 2];
    let one = (source.read(&mut into), calls.get());
    let two = (source.read(&mut into), calls.get());
    ([one, two], into)
}

#[test]
fn a_read_that_fails_is_answered_at_once(rt: HostRuntime) {
    for first in FAILURES {
        let want = ([(Err(Failed), 1), (Ok(1), 2)], *b"x\0");
        assert_eq!(rt; two_reads(first), want);
    }
}

// What a call that writes and one that writes all answer of a device that has so many calls behind it and whose first call fails so, each with
// the calls that were made by then.
fn two_writes(first: io::ErrorKind, full: bool, before: usize) -> [(Result<(), Failed>, usize); 2] {
    let calls = Cell::new(before);
    let mut sink = Remembering::over(Device {
        first,
        full,
        calls: &calls,
    });
    let one = (sink.write(b"ab").map(|_| ()), calls.get());
    let all = (put_all(&mut sink, b"ab"), calls.get());
    [one, all]
}

#[test]
fn a_write_that_fails_is_answered_at_once(rt: HostRuntime) {
    for first in FAILURES {
        let want = [(Err(Failed), 1), (Ok(()), 3)];
        assert_eq!(rt; two_writes(first, false, 0), want);
    }
}

#[test]
fn a_writer_that_takes_no_byte_has_failed(rt: HostRuntime) {
    let want = [(Err(Failed), 2), (Err(Failed), 3)];
    assert_eq!(rt; two_writes(io::ErrorKind::Interrupted, true, 1), want);
}
