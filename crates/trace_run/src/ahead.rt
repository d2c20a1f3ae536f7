//! Lines that were read before their turn.
ghost use Rattle.std.specs.Prelude.{◌≤◌, ℕ, IfOk};
ghost use Rattle.streams.specs.Streams.{Stream, stream_of};
ghost use Rattle.trace_run.specs.Outcome.{Outside, outside_of};
ghost use Rattle.trace_run.specs.Program.{CountsEvents, MayTake, TakesEvents};
ghost use Rattle.trace_run.specs.Progress.{HasGiven, InProgress, StandsAs};

use crate::program::Program;
use crate::running::TraceRun;
use crate::taken::Taken;
use crate::turn::Flow;
use graph_meaning::{Event, Stop};
use heap_base::Status;
use streams::Sink;
use trace_reader::{EventReader, LineCutter};

impl<P: Program + Drop, T: FnMut(&mut P, &Event) -> Result<Taken, Stop>> TraceRun<P, T> {
    /// Takes the lines that the reader has read before their turn, as far as they are the next ones of the trace, and answers how many
    /// lines stand before the next one, or how the run ends. Whatever run is under way before them is under way behind them.
    #[inline(always)]
    pub(crate) fn take_ahead<L: EventReader, K: Sink>(
        &mut self,
        reader: &mut L,
        cutter: &mut LineCutter,
        lines: u64,
        sink: &mut K,
    ) -> Result<u64, Status>
        requires ready { L.ready reader.old }
        requires given { HasGiven cutter.old lines }
        requires few_events { P.events self.old.program ≤ lines }
        requires may_take { MayTake P.events T.pre }
        requires takes { TakesEvents P.meaning P.state T.step }
        requires counts { CountsEvents P.events T.step }
        ensures ready { L.ready reader.new }
        ensures takes { let old = stream_of K.held K.faults sink.old in
            let new = stream_of K.held K.faults sink.new in
            (limit : ℕ) (first : P.State) (start : Outside) (source : Stream) →
            InProgress P.meaning limit first start (outside_of source old) cutter.old (P.state self.old.program) lines →
            StandsAs P.meaning limit first start (outside_of source new) cutter.new (P.state self.new.program) result }
        ensures few { IfOk result (λ n. P.events self.new.program ≤ n) }
        ensures given { IfOk result (λ n. cutter.old.given ≤ cutter.new.given) }
    {
        reader.look_ahead(cutter.behind());
        let Some(ahead) = reader.lines_ahead() else {
            return Ok(lines);
        };
        let first = ahead.place;
        let text = ahead.lines.text();
        if first > text.len() || !cutter.behind().starts_with(&text[first..]) {
            return Ok(lines);
        }
        let (mut place, mut number) = (first, lines);
        for line in ahead.lines.lines() {
            if line.from < place {
                continue;
            }
            if line.from > place {
                break;
            }
            let Some(next) = cutter.next_known(line.bytes) else {
                break;
            };
            match self.take_told(&line.told, number, sink) {
                Flow::GoesOn => number = next,
                Flow::Ends(status) => return Err(status),
            }
            place += line.bytes + 1;
        }
        reader.pass_ahead(place - first);
        Ok(number)
    }
}
