//! Each read of the trace, each read of the report and each write fails in turn.

use heap_base::{OutOfMemory, Status};
use report_check::check_run;
use std::alloc::Global;
use std::test::Fail;
use streams::{Failed, MemSink, MemSource, Sink, Source};

/// Two owners share an array. The 15 lines have 582 bytes; they come in 6 pieces of 97, and the seventh read meets the end.
const TRACE: &[u8] = b"\
    {\"op\":\"alloc\",\"id\":1,\"type\":\"Pool\",\"slots\":2}\n\
    {\"op\":\"alloc\",\"id\":2,\"type\":\"Pool\",\"slots\":1}\n\
    {\"op\":\"alloc\",\"id\":3,\"type\":\"Array\",\"slots\":1}\n\
    {\"op\":\"alloc\",\"id\":4,\"type\":\"Job\",\"slots\":0}\n\
    {\"op\":\"alloc\",\"id\":5,\"type\":\"Job\",\"slots\":0}\n\
    {\"op\":\"store\",\"at\":1,\"slot\":0,\"to\":3}\n\
    {\"op\":\"store\",\"at\":1,\"slot\":1,\"to\":5}\n\
    {\"op\":\"store\",\"at\":2,\"slot\":0,\"to\":3}\n\
    {\"op\":\"store\",\"at\":3,\"slot\":0,\"to\":4}\n\
    {\"op\":\"assert-ownedby\",\"owner\":1,\"ownee\":5}\n\
    {\"op\":\"assert-ownedby\",\"owner\":2,\"ownee\":4}\n\
    {\"op\":\"root\",\"name\":\"a\",\"to\":1}\n\
    {\"op\":\"root\",\"name\":\"b\",\"to\":2}\n\
    {\"op\":\"root\",\"name\":\"x\",\"to\":4}\n\
    {\"op\":\"collect\"}\n";

/// Its 52 bytes come in 4 pieces of 13, and the fifth read meets the end.
const REPORT: &[u8] = b"gc 1 live 5 traced 5 freed 0\nend gcs 1 violations 0\n";

/// The byte 28 is another; it comes with the third read.
const OTHER_REPORT: &[u8] = b"gc 1 live 5 traced 5 freed 1\nend gcs 1 violations 0\n";

const WORDS: &[&str] = &["gccheck", "trace.jsonl", "report.txt"];

/// A device that counts the calls that were made of it, and those that failed.
#[derive(Drop)]
struct Counted<D> {
    device: D,
    calls: u64,
    failed: u64,
}

impl<D> Counted<D> {
    fn over(device: D) -> Counted<D> {
        Counted {
            device,
            calls: 0,
            failed: 0,
        }
    }
}

// 1 for a call that failed.
fn one_if(has_failed: bool) -> u64 {
    if has_failed { 1 } else { 0 }
}

impl<S: Source> Source for Counted<S> {
    ghost left = { λ c. S.left c.device };

    ghost faults = { λ c. S.faults c.device };

    fn read(&mut self, into: &mut [u8]) -> Result<usize, Failed> {
        let answer = self.device.read(into);
        self.calls = self.calls.saturating_add(1);
        self.failed = self.failed.saturating_add(one_if(answer.is_err()));
        answer
    }
}

impl<K: Sink> Sink for Counted<K> {
    ghost held = { λ c. K.held c.device };

    ghost faults = { λ c. K.faults c.device };

    fn write(&mut self, piece: &[u8]) -> Result<usize, Failed> {
        let answer = self.device.write(piece);
        self.calls = self.calls.saturating_add(1);
        self.failed = self.failed.saturating_add(one_if(answer.is_err()));
        answer
    }
}

/// Which calls fail, by their numbers from 1.
#[derive(Clone, Copy)]
struct Faults<'a> {
    trace: &'a [u64],
    report: &'a [u64],
    sink: &'a [u64],
}

/// A check of a report on the trace: by these words, where these calls fail. It is to write this line, or a beginning of it.
#[derive(Clone, Copy)]
struct Check<'a> {
    words: &'a [&'a str],
    report: &'a [u8],
    faults: Faults<'a>,
    line: &'a str,
}

/// What a check answers, whether it wrote that line, and of the trace, of the report and of the sink how many calls were made and how many failed.
#[derive(Clone, Copy, Debug, PartialEq, Eq)]
struct Outcome {
    status: Status,
    is_written: bool,
    calls: [u64; 3],
    failed: [u64; 3],
}

/// Checks with reads of 97 and 13 bytes and writes of 5.
fn outcome_of(alloc: Global, check: &Check<'_>) -> Result<Outcome, OutOfMemory> {
    let faults = check.faults;
    let mut trace = Counted::over(MemSource::make(alloc, TRACE, 97, faults.trace)?);
    let mut report = Counted::over(MemSource::make(alloc, check.report, 13, faults.report)?);
    let mut sink = Counted::over(MemSink::make(alloc, 64, 5, faults.sink)?);
    let status = check_run(alloc, check.words, &mut trace, &mut report, &mut sink);
    Ok(Outcome {
        status,
        is_written: sink.device.bytes() == check.line.as_bytes(),
        calls: [trace.calls, report.calls, sink.calls],
        failed: [trace.failed, report.failed, sink.failed],
    })
}

const NO_FAULTS: Faults<'static> = Faults {
    trace: &[],
    report: &[],
    sink: &[],
};

const EQUAL: Check<'static> = Check {
    words: WORDS,
    report: REPORT,
    faults: NO_FAULTS,
    line: "report equal\n",
};

const DIFFERENT: Check<'static> = Check {
    report: OTHER_REPORT,
    line: "report differs at byte 28\n",
    ..EQUAL
};

#[test]
fn no_call_fails(rt: HostRuntime) -> Result<(), Fail> {
    for (check, status, calls) in [
        (EQUAL, Status::Clean, [7, 5, 3]),
        // neither is read on behind the collection's text
        (DIFFERENT, Status::Violated, [6, 3, 6]),
    ] {
        let want = Outcome {
            status,
            is_written: true,
            calls,
            failed: [0, 0, 0],
        };
        assert_eq!(rt; outcome_of(rt.alloc(), &check)?, want);
    }
    Ok(())
}

/// Checks the equal report, where these reads fail of the trace, and these of the report.
fn read_by<'a>(alloc: Global, trace: &'a [u64], report: &'a [u64]) -> Result<Outcome, OutOfMemory> {
    let faults = Faults {
        trace,
        report,
        ..NO_FAULTS
    };
    outcome_of(
        alloc,
        &Check {
            faults,
            line: "",
            ..EQUAL
        },
    )
}

/// Nothing is written, and what failed is read no more.
#[test]
fn each_read_fails_in_turn(rt: HostRuntime) -> Result<(), Fail> {
    for read in 1..=7 {
        let seen = read_by(rt.alloc(), &[read], &[])?;
        let of_trace = (seen.status, seen.is_written, seen.calls[0], seen.failed);
        assert_eq!(rt; of_trace, (Status::ReadFault, true, read, [1, 0, 0]));
    }
    for read in 1..=5 {
        let seen = read_by(rt.alloc(), &[], &[read])?;
        let of_report = (seen.status, seen.is_written, seen.calls[1], seen.failed);
        assert_eq!(rt; of_report, (Status::ReadFault, true, read, [0, 1, 0]));
    }
    Ok(())
}

/// Checks where this write fails, and a beginning of the line is written before.
fn written_by(alloc: Global, check: Check<'_>, write: u64) -> Result<Outcome, OutOfMemory> {
    let fails = [write];
    let faults = Faults {
        sink: &fails,
        ..check.faults
    };
    outcome_of(alloc, &Check { faults, ..check })
}

/// What the writes before it took is written: 5 bytes each.
#[test]
fn each_write_fails_in_turn(rt: HostRuntime) -> Result<(), Fail> {
    for (report, write, line) in [
        (REPORT, 1, ""),
        (REPORT, 2, "repor"),
        (REPORT, 3, "report equ"),
        (OTHER_REPORT, 1, ""),
        (OTHER_REPORT, 2, "repor"),
        (OTHER_REPORT, 3, "report dif"),
        (OTHER_REPORT, 4, "report differs "),
        (OTHER_REPORT, 5, "report differs at by"),
        (OTHER_REPORT, 6, "report differs at byte 28"),
    ] {
        let check = Check {
            report,
            line,
            ..EQUAL
        };
        let seen = written_by(rt.alloc(), check, write)?;
        let of_sink = (seen.status, seen.is_written, seen.calls[2], seen.failed);
        assert_eq!(rt; of_sink, (Status::WriteFault, true, write, [0, 0, 1]));
    }
    Ok(())
}

/// The first read of the trace comes before that of the report. A read of a report that differs before isn't made.
#[test]
fn several_calls_fail(rt: HostRuntime) -> Result<(), Fail> {
    let all = Faults {
        trace: &[1],
        report: &[1],
        sink: &[1],
    };
    let late = Faults {
        trace: &[7],
        report: &[4],
        ..NO_FAULTS
    };
    let unread = Check {
        faults: all,
        line: "",
        ..EQUAL
    };
    let different = Check {
        faults: late,
        ..DIFFERENT
    };
    for (check, status, failed) in [
        (unread, Status::ReadFault, [1, 0, 0]),
        (different, Status::Violated, [0, 0, 0]),
    ] {
        let seen = outcome_of(rt.alloc(), &check)?;
        assert_eq!(rt; (seen.status, seen.is_written), (status, true));
        assert_eq!(rt; seen.failed, failed);
    }
    Ok(())
}

/// Too few words. The first read of the trace and that of the report would fail.
const USAGE: Check<'static> = Check {
    words: &["gccheck", "trace.jsonl"],
    report: REPORT,
    faults: Faults {
        trace: &[1],
        report: &[1],
        ..NO_FAULTS
    },
    line: "usage: gccheck TRACE REPORT [P]\n",
};

/// The usage line has 32 bytes, so there are 7 writes.
#[test]
fn each_write_of_the_usage_line_fails_in_turn(rt: HostRuntime) -> Result<(), Fail> {
    for (write, line) in [
        (1, ""),
        (2, "usage"),
        (3, "usage: gcc"),
        (4, "usage: gccheck "),
        (5, "usage: gccheck TRACE"),
        (6, "usage: gccheck TRACE REPO"),
        (7, "usage: gccheck TRACE REPORT [P"),
    ] {
        let seen = written_by(rt.alloc(), Check { line, ..USAGE }, write)?;
        let want = Outcome {
            status: Status::WriteFault,
            is_written: true,
            calls: [0, 0, write],
            failed: [0, 0, 1],
        };
        assert_eq!(rt; seen, want);
    }
    Ok(())
}

#[test]
fn refused_words_leave_both_unread(rt: HostRuntime) -> Result<(), Fail> {
    let want = Outcome {
        status: Status::Usage,
        is_written: true,
        calls: [0, 0, 7],
        failed: [0, 0, 0],
    };
    assert_eq!(rt; outcome_of(rt.alloc(), &USAGE)?, want);
    Ok(())
}
