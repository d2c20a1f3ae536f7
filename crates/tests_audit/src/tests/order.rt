//! What a run asks of its source and its sink, call by call.
ghost use Rattle.std.specs.Prelude.{Some};

use audit_run::audit;
use heap_base::Status;
use std::alloc::Global;
use std::cell::Cell;
use std::process::Abort;
use std::test::Fail;
use std::thread::Threads;
use steal_pool::OpenGate;
use streams::{Failed, MemSink, MemSource, Sink, Source};

/// The calls so far: `r` for a read, `w` for a write.
#[derive(Drop)]
struct Calls {
    made: Cell<[u8; 8]>,
    count: Cell<usize>,
}

impl Calls {
    fn note(&self, call: u8) {
        let mut made = self.made.get();
        if let Some(place) = made.get_mut(self.count.get()) {
            *place = call;
        }
        self.made.set(made);
        self.count.set(self.count.get().saturating_add(1));
    }
}

/// A source or a sink whose reads or writes are noted.
#[derive(Drop)]
struct Noted<'a, S: Drop> {
    stream: S,
    calls: &'a Calls,
}

impl<'a> Source for Noted<'a, MemSource> {
    ghost left = { λ s. Some s.stream.left };

    ghost faults = { λ s. s.stream.faults };

    fn read(&mut self, into: &mut [u8]) -> Result<usize, Failed> {
        self.calls.note(b'r');
        self.stream.read(into)
    }
}

impl<'a> Sink for Noted<'a, MemSink> {
    ghost held = { λ s. Some s.stream.held };

    ghost faults = { λ s. s.stream.faults };

    fn write(&mut self, piece: &[u8]) -> Result<usize, Failed> {
        self.calls.note(b'w');
        self.stream.write(piece)
    }
}

/// Each line comes by a read of its own: the text of its collection is written, by one write, before the next read.
fn expect_order<R: Threads + Abort + Sync>(
    rt: &R,
    alloc: Global,
    words: &[&str],
) -> Result<(), Fail> {
    let trace = b"{\"op\":\"collect\"}\n{\"op\":\"collect\"}\n";
    let calls = Calls {
        made: Cell::new([b' '; 8]),
        count: Cell::new(0),
    };
    let mut source = Noted {
        stream: MemSource::make(alloc, trace, 17, &[])?,
        calls: &calls,
    };
    let mut sink = Noted {
        stream: MemSink::make(alloc, 4096, 4096, &[])?,
        calls: &calls,
    };
    let status = audit(rt, alloc, words, &mut source, &mut sink, &OpenGate);
    assert_eq!(rt; status, Status::Clean);
    assert_eq!(rt; calls.made.get(), *b"rwrwrw  ");
    assert_eq!(rt; calls.count.get(), 6);
    Ok(())
}

#[test]
fn a_collection_is_written_before_the_next_read(rt: HostRuntime) -> Result<(), Fail> {
    expect_order(&rt, rt.alloc(), &["gcaudit"])?;
    expect_order(&rt, rt.alloc(), &["gcaudit", "--workers", "4"])
}
