ghost use Rattle.std.specs.Prelude.{◌≡◌, Some, None, map};
ghost use Rattle.std.specs.Io.KnownBytes.{Keeps};
ghost use Rattle.streams.specs.Streams.{stream_of};
ghost use Rattle.heap_base.specs.Limits.{usual_limits};
ghost use Rattle.trace_run.specs.Program.{report_by};
ghost use Rattle.trace_run.specs.Outcome.{EndsAs, RefusesWords, outside_of, trace_report};
ghost use Rattle.graph_meaning.specs.Heap.{empty_heap};
ghost use Rattle.heap_snapshot.specs.Words.{command_in, command_named, usage_line};
ghost use Rattle.heap_snapshot.specs.FromTrace.{snapshot_meaning};
ghost use Rattle.heap_snapshot.specs.ToTrace.{ConversionEndsAs};

use crate::from_trace::{LONGEST_TRACE, from_trace};
use crate::to_trace::to_trace;
use heap_base::Status;
use std::alloc::Global;
use streams::{Sink, Source};
use trace_run::refuse_words;

const USAGE: &[u8] = b"usage: gcsnap from-trace|to-trace\n";

/// What a run is asked for.
#[derive(Clone, Copy, Debug, PartialEq, Eq)]
pub enum Command {
    /// A snapshot of the heap that a trace makes.
    FromTrace,
    /// A trace that makes the heap of a snapshot.
    ToTrace,
}

/// Makes a snapshot of a trace, or a trace of a snapshot, and answers the program's exit status.
///
/// `words` are the words of the command line, the program's name first: one more is taken, `from-trace` or `to-trace`. Where
/// they are refused, the source is left unread and the usage line is written.
pub fn snap_run<S: Source, K: Sink>(
    alloc: Global,
    words: &[&str],
    source: &mut S,
    sink: &mut K,
) -> Status
    ensures from_trace { let old = outside_of (stream_of S.left S.faults source.old) (stream_of K.held K.faults sink.old) in
        let new = outside_of (stream_of S.left S.faults source.new) (stream_of K.held K.faults sink.new) in
        command_in (map (λ w. w.now) words.now) ≡ Some Command.FromTrace → EndsAs (trace_report LONGEST_TRACE (report_by snapshot_meaning (empty_heap usual_limits))) old new result }
    ensures to_trace { let old = outside_of (stream_of S.left S.faults source.old) (stream_of K.held K.faults sink.old) in
        let new = outside_of (stream_of S.left S.faults source.new) (stream_of K.held K.faults sink.new) in
        command_in (map (λ w. w.now) words.now) ≡ Some Command.ToTrace → ConversionEndsAs old new result }
    ensures refused { let old = outside_of (stream_of S.left S.faults source.old) (stream_of K.held K.faults sink.old) in
        let new = outside_of (stream_of S.left S.faults source.new) (stream_of K.held K.faults sink.new) in
        command_in (map (λ w. w.now) words.now) ≡ None → RefusesWords usage_line old new result }
    ensures unwritten { let old = outside_of (stream_of S.left S.faults source.old) (stream_of K.held K.faults sink.old) in
        let new = outside_of (stream_of S.left S.faults source.new) (stream_of K.held K.faults sink.new) in
        result ≡ Status.ReadFault → Keeps old.sink.bytes new.sink.bytes }
    ensures unread { command_in (map (λ w. w.now) words.now) ≡ None → source.new ≡ source.old }
{
    match command_of(words) {
        Some(Command::FromTrace) => from_trace(alloc, source, sink),
        Some(Command::ToTrace) => to_trace(alloc, source, sink),
        None => refuse_words(USAGE, sink),
    }
}

fn command_of(words: &[&str]) -> Option<Command>
    ensures { result ≡ command_in (map (λ w. w.now) words.now) }
{
    match words {
        [_, word] => command_named(word),
        _ => None,
    }
}

fn command_named(word: &str) -> Option<Command>
    ensures { result ≡ command_named word.now }
{
    match word {
        "from-trace" => Some(Command::FromTrace),
        "to-trace" => Some(Command::ToTrace),
        _ => None,
    }
}
