//! Reads and writes that fail, each in turn.

use super::day::{DAY, REPORT};
use audit_run::audit;
use heap_base::{OutOfMemory, Status};
use std::alloc::Global;
use std::process::Abort;
use std::test::Fail;
use std::thread::Threads;
use steal_pool::OpenGate;
use streams::{MemSink, MemSource};

/// How a source gives its bytes: in pieces of so many, and which reads fail.
#[derive(Clone, Copy)]
struct Reads<'a> {
    piece: u32,
    fails: &'a [u64],
}

/// How a sink takes bytes: how many it has room for, in pieces of so many, and which writes fail.
#[derive(Clone, Copy)]
struct Writes<'a> {
    room: u32,
    piece: u32,
    fails: &'a [u64],
}

const WHOLE: Reads<'static> = Reads {
    piece: 4096,
    fails: &[],
};

const ROOMY: Writes<'static> = Writes {
    room: 4096,
    piece: 4096,
    fails: &[],
};

/// A run over bytes in memory: the words of its command line, its trace, and how the source and the sink serve it.
#[derive(Clone, Copy)]
struct Run<'a> {
    words: &'a [&'a str],
    trace: &'a [u8],
    reads: Reads<'a>,
    writes: Writes<'a>,
}

const DAY_RUN: Run<'static> = Run {
    words: &["gcaudit"],
    trace: DAY,
    reads: WHOLE,
    writes: ROOMY,
};

/// The status of a run, and whether it wrote this report.
fn audited<R: Threads + Abort + Sync>(
    rt: &R,
    alloc: Global,
    run: &Run<'_>,
    report: &[u8],
) -> Result<(Status, bool), OutOfMemory> {
    let reads = run.reads;
    let writes = run.writes;
    assert!(rt; reads.piece > 0 && writes.piece > 0);
    let mut source = MemSource::make(alloc, run.trace, reads.piece, reads.fails)?;
    let mut sink = MemSink::make(alloc, writes.room, writes.piece, writes.fails)?;
    let status = audit(rt, alloc, run.words, &mut source, &mut sink, &OpenGate);
    Ok((status, sink.bytes() == report))
}

/// The trace comes in 25 pieces of 40 bytes, and the 26th read meets its end: a run makes 26 reads. The first that
/// fails ends it, with the collections of the lines before.
#[test]
fn each_read_fails_in_turn(rt: HostRuntime) -> Result<(), Fail> {
    for (first, last, due, want) in [
        (1, 20, 0, Status::ReadFault),
        (21, 23, 29, Status::ReadFault),
        (24, 25, 205, Status::ReadFault),
        (26, 26, 234, Status::ReadFault),
        (27, 28, 257, Status::Violated),
    ] {
        for read in first..=last {
            let reads = Reads {
                piece: 40,
                fails: &[read],
            };
            let run = Run { reads, ..DAY_RUN };
            let seen = audited(&rt, rt.alloc(), &run, &REPORT[..due])?;
            assert_eq!(rt; seen, (want, true), "read {read}");
        }
    }
    Ok(())
}

#[test]
fn a_source_of_single_bytes(rt: HostRuntime) -> Result<(), Fail> {
    let reads = Reads {
        piece: 1,
        fails: &[],
    };
    let run = Run { reads, ..DAY_RUN };
    let seen = audited(&rt, rt.alloc(), &run, REPORT)?;
    assert_eq!(rt; seen, (Status::Violated, true));
    Ok(())
}

/// The report goes in pieces of 7 bytes, each text by its own writes: 5, 26, 5 and 4, which are 40 in all. The first
/// that fails ends the run.
#[test]
fn each_write_fails_in_turn(rt: HostRuntime) -> Result<(), Fail> {
    for (first, last, before) in [(1, 5, 0), (6, 31, 29), (32, 36, 205), (37, 40, 234)] {
        let mut held: usize = before;
        for write in first..=last {
            let writes = Writes {
                room: 4096,
                piece: 7,
                fails: &[write],
            };
            let run = Run { writes, ..DAY_RUN };
            let seen = audited(&rt, rt.alloc(), &run, &REPORT[..held.min(257)])?;
            assert_eq!(rt; seen, (Status::WriteFault, true), "write {write}");
            held = held.saturating_add(7);
        }
    }
    let writes = Writes {
        room: 4096,
        piece: 7,
        fails: &[41],
    };
    let run = Run { writes, ..DAY_RUN };
    let seen = audited(&rt, rt.alloc(), &run, REPORT)?;
    assert_eq!(rt; seen, (Status::Violated, true));
    Ok(())
}

#[test]
fn a_sink_that_is_full_fails(rt: HostRuntime) -> Result<(), Fail> {
    for room in 0..=257u32 {
        let writes = Writes {
            room,
            piece: 4096,
            fails: &[],
        };
        let run = Run { writes, ..DAY_RUN };
        let want = if room < 257 {
            Status::WriteFault
        } else {
            Status::Violated
        };
        let seen = audited(&rt, rt.alloc(), &run, &REPORT[..room as usize])?;
        assert_eq!(rt; seen, (want, true), "room for {room} bytes");
    }
    Ok(())
}

/// An object that is asserted dead, a collection that ends at the byte 124, and three collections behind it.
const HALTS: &[u8] = b"{\"op\":\"alloc\",\"id\":7,\"type\":\"Order\",\"slots\":0}\n\
    {\"op\":\"root\",\"name\":\"a\",\"to\":7}\n\
    {\"op\":\"assert-dead\",\"id\":7}\n\
    {\"op\":\"collect\"}\n{\"op\":\"collect\"}\n{\"op\":\"collect\"}\n{\"op\":\"collect\"}\n";

/// The collection's text has 66 bytes, and the halt line has 23.
const HALTED: &[u8] = b"gc 1 live 1 traced 1 freed 0\n\
    gc 1 dead 7 Order: root a -> 7 Order\n\
    halt gc 1 violations 1\n";

/// The trace comes in pieces of 40 bytes. What stands behind the collection is not read: the fifth read would fail.
#[test]
fn a_run_halts_before_the_end(rt: HostRuntime) -> Result<(), Fail> {
    for (read, room, held, want) in [
        (4, 4096, 0, Status::ReadFault),
        (5, 4096, 89, Status::Violated),
        (5, 89, 89, Status::Violated),
        (5, 88, 88, Status::WriteFault),
        (5, 66, 66, Status::WriteFault),
        (5, 65, 65, Status::WriteFault),
    ] {
        let reads = Reads {
            piece: 40,
            fails: &[read],
        };
        let writes = Writes {
            room,
            piece: 4096,
            fails: &[],
        };
        let run = Run {
            words: &["gcaudit", "--react", "halt"],
            trace: HALTS,
            reads,
            writes,
        };
        let seen = audited(&rt, rt.alloc(), &run, &HALTED[..held])?;
        assert_eq!(rt; seen, (want, true), "read {read}, room {room}");
    }
    Ok(())
}

/// Two collections, whose lines have 17 bytes each, and the report on them.
const COLLECTS: &[u8] = b"{\"op\":\"collect\"}\n{\"op\":\"collect\"}\n";

const COLLECTED: &[u8] = b"gc 1 live 0 traced 0 freed 0\ngc 2 live 0 traced 0 freed 0\n";

/// In pieces of so many bytes, and with calls that fail.
#[test]
fn worked_faults(rt: HostRuntime) -> Result<(), Fail> {
    let none: &[u64] = &[];
    for (reads, writes, held, want) in [
        ([3].as_slice(), none, 58, Status::ReadFault),
        ([2].as_slice(), none, 29, Status::ReadFault),
        (none, [2].as_slice(), 10, Status::WriteFault),
    ] {
        let reads = Reads {
            piece: 17,
            fails: reads,
        };
        let writes = Writes {
            room: 4096,
            piece: 10,
            fails: writes,
        };
        let run = Run {
            trace: COLLECTS,
            reads,
            writes,
            ..DAY_RUN
        };
        let seen = audited(&rt, rt.alloc(), &run, &COLLECTED[..held])?;
        assert_eq!(rt; seen, (want, true));
    }
    Ok(())
}
