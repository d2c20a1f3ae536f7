//! How a report ends.
ghost use Rattle.std.specs.Prelude.{◌≤◌, true, false};
ghost use Rattle.streams.specs.Streams.{stream_of};
ghost use Rattle.trace_run.specs.Program.{IsLast, Last, end_of_trace, ends_so, halted, refused_line, report_on};
ghost use Rattle.trace_run.specs.Outcome.{sink_change};
ghost use Rattle.trace_run.specs.Turn.{EndsRun};

use crate::once::write_once;
use crate::program::Program;
use crate::taken::LastText;
use graph_meaning::Refusal;
use heap_base::Status;
use report::fault_text;
use std::alloc::Global;
use streams::Sink;

/// Ends the report at a line that is refused.
pub fn refuse<K: Sink>(alloc: Global, line: u64, refusal: Refusal, sink: &mut K) -> Status
    ensures ends { EndsRun false (sink_change (stream_of K.held K.faults sink.old) (stream_of K.held K.faults sink.new)) (report_on (ends_so (refused_line line refusal))) result }
    ensures later { K.faults sink.old ≤ K.faults sink.new }
{
    let Ok(text) = fault_text(alloc, line, &refusal) else {
        return Status::NoMemory;
    };
    write_once(&text, Status::TraceFault, sink)
}

/// Writes the last text.
pub fn put_last<K: Sink>(last: &LastText, sink: &mut K) -> Status
    ensures at_end { (d : Last) → IsLast d last.now → EndsRun true (sink_change (stream_of K.held K.faults sink.old) (stream_of K.held K.faults sink.new)) (report_on (ends_so (end_of_trace d))) result }
    ensures halts { (d : Last) → IsLast d last.now → EndsRun false (sink_change (stream_of K.held K.faults sink.old) (stream_of K.held K.faults sink.new)) (report_on (ends_so (halted d))) result }
    ensures later { K.faults sink.old ≤ K.faults sink.new }
{
    let status = if last.violated {
        Status::Violated
    } else {
        Status::Clean
    };
    write_once(&last.text, status, sink)
}

/// Ends the report at the end of the trace.
pub fn finish<P: Program, K: Sink>(program: &P, sink: &mut K) -> Status
    ensures ends { EndsRun true (sink_change (stream_of K.held K.faults sink.old) (stream_of K.held K.faults sink.new)) (report_on (ends_so (end_of_trace (P.meaning.ends (P.state program.now))))) result }
    ensures later { K.faults sink.old ≤ K.faults sink.new }
{
    match program.last() {
        Ok(last) => put_last(&last, sink),
        Err(_) => Status::NoMemory,
    }
}
