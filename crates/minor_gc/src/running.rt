//! The run over a trace.
ghost use Rattle.std.specs.Prelude.{◌≡◌, ◌≢◌, ◌+◌, ◌<◌, ◌≤◌, length, IfOk};
ghost use Rattle.streams.specs.Streams.{stream_of};
ghost use Rattle.heap_base.specs.declared.limits.TheConstants.{LONGEST_TRACE};
ghost use Rattle.trace_run.specs.Outcome.{EndsAs, RefusesWords, outside_of, trace_report};
ghost use Rattle.trace_run.specs.Program.{TakesEvent, goes_on, report_by};
ghost use Rattle.minor_gc.specs.MinorPrograms.{minor_state};
ghost use Rattle.minor_gc.specs.MinorRuns.{collects, first_minor_state, minor_meaning, minor_usage};

use crate::nursery::Nursery;
use crate::program::MinorProgram;
use crate::texts::{full_text, minor_text};
use graph_meaning::{Event, Refusal, Stop};
use heap_base::{LONGEST_TRACE, OutOfMemory, Status};
use std::alloc::Global;
use streams::{Sink, Source};
use trace_reader::LineReader;
use trace_run::{Due, Taken, TraceRun, refuse_words};

const USAGE: &[u8] = b"usage: gcminor\n";

// Every so many collections one is full.
const FULL_EVERY: u64 = 4;

/// Reads a trace of allocations, stores, roots and collections, makes a full collection at every fourth `collect` and a
/// minor one at each other, and writes a line for each. The words are taken where there is one, the program's name.
pub fn minor_run<S: Source, K: Sink>(
    alloc: Global,
    words: &[&str],
    source: &mut S,
    sink: &mut K,
) -> Status
    ensures unread { length words.now ≢ 1 → source.new ≡ source.old }
    ensures taken { let old = outside_of (stream_of S.left S.faults source.old) (stream_of K.held K.faults sink.old) in
        let new = outside_of (stream_of S.left S.faults source.new) (stream_of K.held K.faults sink.new) in
        length words.now ≡ 1 → EndsAs (trace_report LONGEST_TRACE (report_by minor_meaning first_minor_state)) old new result }
    ensures refused { let old = outside_of (stream_of S.left S.faults source.old) (stream_of K.held K.faults sink.old) in
        let new = outside_of (stream_of S.left S.faults source.new) (stream_of K.held K.faults sink.new) in
        length words.now ≢ 1 → RefusesWords minor_usage old new result }
{
    if words.len() != 1 {
        return refuse_words(USAGE, sink);
    }
    let Ok(nursery) = Nursery::make(alloc) else {
        return Status::NoMemory;
    };
    let program = MinorProgram {
        alloc,
        nursery,
        collections: 0,
    };
    let mut reader = LineReader::make(alloc);
    let run = TraceRun {
        alloc,
        limit: LONGEST_TRACE,
        program,
        take: take_event,
    };
    run.run(&mut reader, source, sink)
}

// Takes an event of a trace.
fn take_event(program: &mut MinorProgram, event: &Event) -> Result<Taken, Stop>
    requires few { program.old.collections < LONGEST_TRACE }
    ensures takes { TakesEvent (minor_meaning.takes (minor_state program.old) event.now) result (minor_state program.new) }
    ensures few { program.new.collections ≤ program.old.collections + 1 }
{
    match event {
        Event::Alloc {
            id,
            kind,
            slots,
            ..
        } => program.nursery.alloc_object(*id, kind, *slots)?,
        Event::Store { at, slot, to } => program.nursery.store(*at, *slot, *to)?,
        Event::Root { name, to } => program.nursery.set_root(name, *to)?,
        Event::Collect => return Ok(Taken::GoesOn(Some(Due::Text(collect(program)?)))),
        _ => return Err(Stop::Refused(Refusal::UnknownOp)),
    }
    Ok(Taken::GoesOn(None))
}

// Makes the next collection, and gives its line.
#[tactic(auto, unfolding(crate::specs::MinorRuns::collects))]
fn collect(program: &mut MinorProgram) -> Result<Vec<u8>, OutOfMemory>
    requires few { program.old.collections < LONGEST_TRACE }
    ensures collects { IfOk result (λ text. collects (program.old.collections + 1) program.old.nursery.heap ≡ goes_on text.items (minor_state program.new)) }
    ensures few { program.new.collections ≤ program.old.collections + 1 }
{
    let number = program.collections + 1;
    let text = if number % FULL_EVERY == 0 {
        let full = program.nursery.full()?;
        full_text(program.alloc, number, full)?
    } else {
        let minor = program.nursery.minor()?;
        minor_text(program.alloc, number, minor)?
    };
    program.collections = number;
    Ok(text)
}
