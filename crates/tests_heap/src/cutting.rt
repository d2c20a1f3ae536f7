//! The cutter: whatever pieces a trace comes in, its lines are the same, and no more is read than must be.
ghost use Rattle.std.specs.Prelude.{◌<◌, Some};

use heap_base::LONGEST_TRACE;
use std::alloc::Global;
use std::process::Abort;
use std::test::Fail;
use streams::{Failed, MemSource, Source};
use trace_reader::{CutError, LineCutter};

// A line of a trace by its number, and its bytes.
#[derive(Drop)]
struct CutLine<'a> {
    number: u64,
    bytes: &'a [u8],
}

fn line(number: u64, bytes: &[u8]) -> CutLine<'_> {
    CutLine { number, bytes }
}

// Asserts the next line.
fn gives(rt: &impl Abort, cutter: &mut LineCutter, source: &mut MemSource, want: CutLine<'_>) {
    assert_eq!(rt; cutter.next(source), Ok(Some(want.number)));
    assert_eq!(rt; cutter.line(), want.bytes);
}

#[test]
fn a_trace_may_have_as_many_bytes_as_its_limit(rt: HostRuntime) -> Result<(), Fail> {
    let mut cutter = LineCutter::make(rt.alloc(), 10)?;
    let mut source = MemSource::make(rt.alloc(), b"abc\ndefgh\n", 100, &[])?;
    gives(&rt, &mut cutter, &mut source, line(1, b"abc"));
    gives(&rt, &mut cutter, &mut source, line(2, b"defgh"));
    assert_eq!(rt; cutter.next(&mut source), Ok(None));
    assert_eq!(rt; cutter.next(&mut source), Ok(None));
    Ok(())
}

#[test]
fn a_trace_may_not_have_one_byte_more(rt: HostRuntime) -> Result<(), Fail> {
    let mut cutter = LineCutter::make(rt.alloc(), 10)?;
    let mut source = MemSource::make(rt.alloc(), b"abc\ndefghij", 100, &[])?;
    gives(&rt, &mut cutter, &mut source, line(1, b"abc"));
    assert_eq!(rt; cutter.next(&mut source), Err(CutError::TraceTooLong));
    assert_eq!(rt; cutter.next(&mut source), Err(CutError::TraceTooLong));
    Ok(())
}

#[test]
fn lines_end_at_newlines_in_whatever_pieces_they_come(rt: HostRuntime) -> Result<(), Fail> {
    let trace = b"{\"op\":\"collect\"}\r\n\n{\"op\":\"collect\"}";
    for piece in [1, 7, 100] {
        let mut cutter = LineCutter::make(rt.alloc(), LONGEST_TRACE)?;
        let mut source = MemSource::make(rt.alloc(), trace, piece, &[])?;
        gives(
            &rt,
            &mut cutter,
            &mut source,
            line(1, b"{\"op\":\"collect\"}\r"),
        );
        gives(&rt, &mut cutter, &mut source, line(2, b""));
        gives(
            &rt,
            &mut cutter,
            &mut source,
            line(3, b"{\"op\":\"collect\"}"),
        );
        assert_eq!(rt; cutter.next(&mut source), Ok(None));
    }
    Ok(())
}

#[test]
fn a_failed_read_loses_no_byte(rt: HostRuntime) -> Result<(), Fail> {
    let mut cutter = LineCutter::make(rt.alloc(), LONGEST_TRACE)?;
    let mut source = MemSource::make(rt.alloc(), b"abcdefgh\nij\n", 5, &[2, 4])?;
    assert_eq!(rt; cutter.next(&mut source), Err(CutError::ReadFault));
    gives(&rt, &mut cutter, &mut source, line(1, b"abcdefgh"));
    assert_eq!(rt; cutter.next(&mut source), Err(CutError::ReadFault));
    gives(&rt, &mut cutter, &mut source, line(2, b"ij"));
    assert_eq!(rt; cutter.next(&mut source), Ok(None));
    Ok(())
}

// What the first call of `next` answers for an operation, so many spaces behind it, and an end.
fn first_answer(
    alloc: Global,
    spaces: usize,
    end: &str,
    limit: u64,
) -> Result<Result<Option<u64>, CutError>, Fail> {
    let spaces = " ".repeat(alloc, spaces)?;
    let mut trace = String::from_str(alloc, "{\"op\":\"collect\"}")?;
    trace.push_str(spaces.as_str())?;
    trace.push_str(end)?;
    let mut cutter = LineCutter::make(alloc, limit)?;
    let mut source = MemSource::make(alloc, trace.as_bytes(), 9_999, &[])?;
    let answer = cutter.next(&mut source);
    if answer.is_err() && cutter.next(&mut source) != answer {
        return Ok(Ok(None));
    }
    Ok(answer)
}

#[test]
fn a_line_has_at_most_65536_bytes(rt: HostRuntime) -> Result<(), Fail> {
    let cases = [
        (65_520, "\n", LONGEST_TRACE, Ok(Some(1))),
        (65_520, "", LONGEST_TRACE, Ok(Some(1))),
        (65_521, "\n", LONGEST_TRACE, Err(CutError::LineTooLong)),
        (65_521, "", LONGEST_TRACE, Err(CutError::LineTooLong)),
        // The limit of the trace is met by the same byte, or by one before it.
        (65_521, "", 65_536, Err(CutError::LineTooLong)),
        (65_520, "\n", 65_536, Err(CutError::TraceTooLong)),
        (65_520, "", 65_536, Ok(Some(1))),
        (65_521, "", 65_535, Err(CutError::TraceTooLong)),
        (65_520, "\n", 65_537, Ok(Some(1))),
        (0, "", 0, Err(CutError::TraceTooLong)),
    ];
    for (spaces, end, limit, want) in cases {
        let answer = first_answer(rt.alloc(), spaces, end, limit)?;
        assert_eq!(rt; answer, want, "{spaces} spaces within {limit}");
    }
    Ok(())
}

#[test]
fn a_long_trace_is_cut_to_its_end(rt: HostRuntime) -> Result<(), Fail> {
    let trace = "0123456789\nabc\n\n".repeat(rt.alloc(), 20_000)?;
    let mut cutter = LineCutter::make(rt.alloc(), LONGEST_TRACE)?;
    let mut source = MemSource::make(rt.alloc(), trace.as_bytes(), 50_001, &[])?;
    for turn in 0..20_000u64 {
        gives(
            &rt,
            &mut cutter,
            &mut source,
            line(3 * turn + 1, b"0123456789"),
        );
        gives(&rt, &mut cutter, &mut source, line(3 * turn + 2, b"abc"));
        gives(&rt, &mut cutter, &mut source, line(3 * turn + 3, b""));
    }
    assert_eq!(rt; cutter.next(&mut source), Ok(None));
    Ok(())
}

// A source in memory that notes how many reads were made, how many bytes they took, and the least number of bytes
// that one was asked for.
#[derive(Drop)]
struct NotedSource {
    source: MemSource,
    reads: u64,
    taken: usize,
    least: usize,
}

impl NotedSource {
    fn make(alloc: Global, trace: &[u8], piece: u32) -> Result<NotedSource, Fail>
        requires { 0 < piece }
    {
        Ok(NotedSource {
            source: MemSource::make(alloc, trace, piece, &[])?,
            reads: 0,
            taken: 0,
            least: usize::MAX,
        })
    }
}

impl Source for NotedSource {
    ghost left = { λ s. Some s.source.left };

    ghost faults = { λ s. s.source.faults };

    fn read(&mut self, into: &mut [u8]) -> Result<usize, Failed> {
        self.reads = self.reads.saturating_add(1);
        self.least = self.least.min(into.len());
        let n = self.source.read(into)?;
        self.taken = self.taken.saturating_add(n);
        Ok(n)
    }
}

// How many reads were made, and how many bytes they took, after each of the first calls of `next`, over a trace of
// four lines in pieces of at most `piece` bytes.
fn reads_so_far(rt: &impl Abort, alloc: Global, piece: u32) -> Result<[(u64, usize); 5], Fail>
    requires { 0 < piece }
{
    let mut source = NotedSource::make(alloc, b"ab\n\ncdef\ng", piece)?;
    let mut cutter = LineCutter::make(alloc, LONGEST_TRACE)?;
    let mut seen = [(0, 0); 5];
    for (call, want) in [Some(1), Some(2), Some(3), Some(4), None]
        .into_iter()
        .enumerate()
    {
        assert_eq!(rt; cutter.next(&mut source), Ok(want));
        seen[call] = (source.reads, source.taken);
    }
    Ok(seen)
}

#[test]
fn a_cutter_reads_no_further_than_it_must(rt: HostRuntime) -> Result<(), Fail> {
    // Of bytes that come one at a time none is taken behind the line that is given.
    assert_eq!(rt;
        reads_so_far(&rt, rt.alloc(), 1)?,
        [(3, 3), (4, 4), (9, 9), (11, 10), (11, 10)]
    );
    // No read is made where a whole line is held.
    assert_eq!(rt;
        reads_so_far(&rt, rt.alloc(), 4)?,
        [(1, 4), (1, 4), (3, 10), (4, 10), (4, 10)]
    );
    assert_eq!(rt;
        reads_so_far(&rt, rt.alloc(), 100)?,
        [(1, 10), (1, 10), (1, 10), (2, 10), (2, 10)]
    );
    Ok(())
}

// The least number of bytes that a read was asked for, over a trace in pieces of at most `piece` bytes.
fn least_asked(rt: &impl Abort, alloc: Global, piece: u32) -> Result<usize, Fail>
    requires { 0 < piece }
{
    let trace = "0123456789\n".repeat(alloc, 40_000)?;
    let mut source = NotedSource::make(alloc, trace.as_bytes(), piece)?;
    let mut cutter = LineCutter::make(alloc, LONGEST_TRACE)?;
    for number in 1..40_001u64 {
        assert_eq!(rt; cutter.next(&mut source), Ok(Some(number)));
    }
    assert_eq!(rt; cutter.next(&mut source), Ok(None));
    Ok(source.least)
}

#[test]
fn each_read_is_asked_for_64_bytes_at_least(rt: HostRuntime) -> Result<(), Fail> {
    assert!(rt; 64 <= least_asked(&rt, rt.alloc(), 997)?);
    assert!(rt; 64 <= least_asked(&rt, rt.alloc(), 65_536)?);
    assert!(rt; 64 <= least_asked(&rt, rt.alloc(), 1_000_000)?);
    Ok(())
}
