ghost use Rattle.std.specs.Prelude.{◌≡◌, ◌≤◌};
ghost use Rattle.heap_base.specs.declared.limits.TheConstants.{LONGEST_TRACE};
ghost use Rattle.streams.specs.Streams.{stream_of};
ghost use Rattle.trace_run.specs.Program.{CountsEvents, MayTake, TakesEvents, report_by};
ghost use Rattle.trace_run.specs.Outcome.{EndsAs, outside_of, trace_report};

use crate::ending::{finish, refuse};
use crate::program::Program;
use crate::taken::Taken;
use crate::turn::Flow;
use graph_meaning::{Event, Refusal, Stop};
use heap_base::{LONGEST_TRACE, Status};
use std::alloc::Global;
use streams::{Sink, Source};
use trace_reader::{CutError, EventReader, LineCutter};

/// A run over a trace: its program, what takes the program's events, and how many bytes the trace may have at most. What takes
/// an event stands beside the program, so that it may start threads.
#[derive(Drop)]
pub struct TraceRun<P, T> {
    pub alloc: Global,
    pub limit: u64,
    pub program: P,
    pub take: T,
}

impl<P: Program + Drop, T: FnMut(&mut P, &Event) -> Result<Taken, Stop>> TraceRun<P, T> {
    /// Reads the trace line by line to its end, to the first line that is refused, or to the event at which the program
    /// halts. What a line makes due is written before the next line is cut. The reader may read lines before their turn, of
    /// bytes that the source has given.
    pub fn run<L: EventReader, S: Source, K: Sink>(
        mut self,
        reader: &mut L,
        source: &mut S,
        sink: &mut K,
    ) -> Status
        requires ready { L.ready reader.old }
        requires limit { self.limit ≤ LONGEST_TRACE }
        requires new { P.events self.program ≡ 0 }
        requires may_take { MayTake P.events T.pre }
        requires takes { TakesEvents P.meaning P.state T.step }
        requires counts { CountsEvents P.events T.step }
        ensures { let old = outside_of (stream_of S.left S.faults source.old) (stream_of K.held K.faults sink.old) in
            let new = outside_of (stream_of S.left S.faults source.new) (stream_of K.held K.faults sink.new) in
            EndsAs (trace_report self.limit (report_by P.meaning (P.state self.program))) old new result }
    {
        let (alloc, limit) = (self.alloc, self.limit);
        let Ok(mut cutter) = LineCutter::with_ahead(alloc, limit, reader.ahead()) else {
            return Status::NoMemory;
        };
        let mut lines = 0;
        'trace: loop {
            let given = cutter.given();
            match self.take_ahead(reader, &mut cutter, lines, sink) {
                Ok(number) => lines = number,
                Err(status) => return status,
            }
            if cutter.given() > given {
                continue;
            }
            match cutter.next(source) {
                Ok(Some(number)) => match self.take_line(reader, cutter.line(), lines, sink) {
                    Flow::GoesOn => lines = number,
                    Flow::Ends(status) => return status,
                },
                Ok(None) => return finish(&self.program, sink),
                Err(CutError::ReadFault) => return Status::ReadFault,
                Err(CutError::LineTooLong) => {
                    return refuse(alloc, lines + 1, Refusal::LineTooLong, sink);
                }
                Err(CutError::TraceTooLong) => {
                    return refuse(alloc, lines + 1, Refusal::TraceTooLong, sink);
                }
            }
        }
    }
}
