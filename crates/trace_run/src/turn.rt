ghost use Rattle.std.specs.Prelude.{◌<◌, ◌≤◌, ◌+◌};
ghost use Rattle.heap_base.specs.declared.limits.TheConstants.{LONGEST_TRACE};
ghost use Rattle.streams.specs.Streams.{stream_of};
ghost use Rattle.trace_reader.specs.Cutter.{TellsItem};
ghost use Rattle.trace_reader.specs.Meaning.{Item, item_of_line};
ghost use Rattle.trace_run.specs.Program.{CountsEvents, MayTake, TakesEvents, takes_item};
ghost use Rattle.trace_run.specs.Outcome.{sink_change};
ghost use Rattle.trace_run.specs.Turn.{TakesLine, line_effect};

use crate::due::{failed, write_due};
use crate::ending::{put_last, refuse};
use crate::program::Program;
use crate::running::TraceRun;
use crate::taken::Taken;
use graph_meaning::{Event, Stop};
use heap_base::{LONGEST_TRACE, Status};
use streams::Sink;
use trace_reader::EventReader;

/// Whether a run goes on after a line, or how it ends.
#[derive(Drop)]
pub enum Flow {
    GoesOn,
    Ends(Status),
}

impl<P: Program + Drop, T: FnMut(&mut P, &Event) -> Result<Taken, Stop>> TraceRun<P, T> {
    /// Takes one line of the trace, which this many lines stand before.
    #[inline(always)]
    pub(crate) fn take_line<L: EventReader, K: Sink>(
        &mut self,
        reader: &mut L,
        line: &[u8],
        lines: u64,
        sink: &mut K,
    ) -> Flow
        requires ready { L.ready reader.old }
        requires few_lines { lines < LONGEST_TRACE }
        requires few_events { P.events self.old.program ≤ lines }
        requires may_take { MayTake P.events T.pre }
        requires takes { TakesEvents P.meaning P.state T.step }
        requires counts { CountsEvents P.events T.step }
        ensures ready { L.ready reader.new }
        ensures takes { let effect = takes_item P.meaning (P.state self.old.program) (item_of_line line.now) in
            TakesLine (line_effect effect lines (P.state self.new.program)) (sink_change (stream_of K.held K.faults sink.old) (stream_of K.held K.faults sink.new)) result }
        ensures few { P.events self.new.program ≤ P.events self.old.program + 1 }
        ensures later { K.faults sink.old ≤ K.faults sink.new }
    {
        let told = reader.event_of(line);
        self.take_told(&told, lines, sink)
    }

    // Takes what a line was told to be.
    #[inline(always)]
    pub(crate) fn take_told<K: Sink>(
        &mut self,
        told: &Result<Option<Event>, Stop>,
        lines: u64,
        sink: &mut K,
    ) -> Flow
        requires few_lines { lines < LONGEST_TRACE }
        requires few_events { P.events self.old.program ≤ lines }
        requires may_take { MayTake P.events T.pre }
        requires takes { TakesEvents P.meaning P.state T.step }
        requires counts { CountsEvents P.events T.step }
        ensures takes { let change = sink_change (stream_of K.held K.faults sink.old) (stream_of K.held K.faults sink.new) in
            (item : Item) → TellsItem told.now item →
            TakesLine (line_effect (takes_item P.meaning (P.state self.old.program) item) lines (P.state self.new.program)) change result }
        ensures few { P.events self.new.program ≤ P.events self.old.program + 1 }
        ensures later { K.faults sink.old ≤ K.faults sink.new }
    {
        match told {
            Ok(operation) => match operation {
                None => Flow::GoesOn,
                Some(event) => self.take_event(event, lines, sink),
            },
            Err(Stop::Refused(refusal)) => {
                Flow::Ends(refuse(self.alloc, lines + 1, *refusal, sink))
            }
            Err(Stop::OutOfMemory) => Flow::Ends(Status::NoMemory),
        }
    }

    // Takes an event, and writes at once what it makes due.
    fn take_event<K: Sink>(&mut self, event: &Event, lines: u64, sink: &mut K) -> Flow
        requires few_lines { lines < LONGEST_TRACE }
        requires few_events { P.events self.old.program ≤ lines }
        requires may_take { MayTake P.events T.pre }
        requires takes { TakesEvents P.meaning P.state T.step }
        requires counts { CountsEvents P.events T.step }
        ensures takes { TakesLine (line_effect (P.meaning.takes (P.state self.old.program) event.now) lines (P.state self.new.program)) (sink_change (stream_of K.held K.faults sink.old) (stream_of K.held K.faults sink.new)) result }
        ensures few { P.events self.new.program ≤ P.events self.old.program + 1 }
        ensures later { K.faults sink.old ≤ K.faults sink.new }
    {
        match (self.take)(&mut self.program, event) {
            Ok(Taken::GoesOn(None)) => Flow::GoesOn,
            Ok(Taken::GoesOn(Some(due))) => match write_due(self.alloc, &due, sink) {
                Ok(()) => Flow::GoesOn,
                Err(error) => Flow::Ends(failed(error)),
            },
            Ok(Taken::Halts(due, last)) => match write_due(self.alloc, &due, sink) {
                Ok(()) => Flow::Ends(put_last(&last, sink)),
                Err(error) => Flow::Ends(failed(error)),
            },
            Err(Stop::Refused(refusal)) => {
                Flow::Ends(refuse(self.alloc, lines + 1, refusal, sink))
            }
            Err(Stop::OutOfMemory) => Flow::Ends(Status::NoMemory),
        }
    }
}
