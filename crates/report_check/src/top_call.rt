ghost use Rattle.std.specs.Prelude.{◌≡◌, ℕ, None, Some, map, IfOk};
ghost use Rattle.streams.specs.Streams.{stream_of};
ghost use Rattle.trace_run.specs.Outcome.{RefusesWords, outside_of};
ghost use Rattle.report_check.specs.Checked.{IsChecked, usage_line, world_of};
ghost use Rattle.report_check.specs.Reports.{Writes, comparison_line, comparison_status};
ghost use Rattle.report_check.specs.Words.{paths_by};

use crate::compared::Compared;
use crate::outcome::CheckError;
use crate::running::compare_reports;
use crate::words::paths_of;
use heap_base::{OutOfMemory, Status};
use itoa::Buffer;
use std::alloc::Global;
use streams::{Sink, Source};
use trace_run::{refuse_words, write_once};

const USAGE: &[u8] = b"usage: gccheck TRACE REPORT [P]\n";

/// Checks whether the report is the one that is defined for the trace, writes one line that says so, or names the first byte at which the two
/// differ, and answers the program's exit status: `Clean` where they are equal, and `Violated` where they differ.
///
/// `words` are the words of the command line, the program's name first, then the names of the trace and of the report, and then how many paths
/// of each collection are shown, where that isn't 100. Where they are refused, both sources are left unread, and the usage line is written. A
/// trace with a refused line is checked like any other. Neither the trace nor the report is held whole.
pub fn check_run<A: Source, B: Source, K: Sink>(
    alloc: Global,
    words: &[&str],
    trace: &mut A,
    report: &mut B,
    sink: &mut K,
) -> Status
    ensures taken { let old = world_of (stream_of A.left A.faults trace.old) (stream_of B.left B.faults report.old) (stream_of K.held K.faults sink.old) in
        let new = world_of (stream_of A.left A.faults trace.new) (stream_of B.left B.faults report.new) (stream_of K.held K.faults sink.new) in
        (paths : ℕ) → paths_by (map (λ w. w.now) words.now) ≡ Some paths → IsChecked paths old new result }
    ensures refused { let source = stream_of A.left A.faults trace.old in
        paths_by (map (λ w. w.now) words.now) ≡ None →
        (trace.new ≡ trace.old) × (report.new ≡ report.old) × RefusesWords usage_line (outside_of source (stream_of K.held K.faults sink.old)) (outside_of source (stream_of K.held K.faults sink.new)) result }
{
    let Some(paths) = paths_of(words) else {
        return refuse_words(USAGE, sink);
    };
    match compare_reports(alloc, paths, trace, report) {
        Ok(compared) => tell(alloc, compared, sink),
        Err(CheckError::ReadFault) => Status::ReadFault,
        Err(CheckError::OutOfMemory) => Status::NoMemory,
    }
}

// Writes how the two compare.
fn tell<K: Sink>(alloc: Global, compared: Compared, sink: &mut K) -> Status
    ensures { Writes compared (stream_of K.held K.faults sink.old) (stream_of K.held K.faults sink.new) result }
{
    let Ok(line) = comparison_line(alloc, compared) else {
        return Status::NoMemory;
    };
    write_once(&line, comparison_status(compared), sink)
}

fn comparison_status(compared: Compared) -> Status
    ensures { result ≡ comparison_status compared }
{
    match compared {
        Compared::Equal => Status::Clean,
        Compared::Differs(_) => Status::Violated,
    }
}

// The line that says how the two compare.
fn comparison_line(alloc: Global, compared: Compared) -> Result<Vec<u8>, OutOfMemory>
    ensures { IfOk result (λ line. line.items ≡ comparison_line compared) }
{
    let mut line = Vec::new(alloc);
    match compared {
        Compared::Equal => line.extend_from_slice(b"report equal\n")?,
        Compared::Differs(place) => {
            let mut buffer = Buffer::new();
            line.extend_from_slice(b"report differs at byte ")?;
            line.extend_from_slice(buffer.format(place).as_bytes())?;
            line.extend_from_slice(b"\n")?;
        }
    }
    Ok(line)
}
