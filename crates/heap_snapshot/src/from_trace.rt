//! A snapshot of the heap that a trace makes.
ghost use Rattle.std.specs.Prelude.{ℕ, Result};
ghost use Rattle.streams.specs.Streams.{stream_of};
ghost use Rattle.heap_base.specs.Limits.{usual_limits};
ghost use Rattle.trace_run.specs.Program.{TakesEvent, report_by};
ghost use Rattle.trace_run.specs.Outcome.{EndsAs, outside_of, trace_report};
ghost use Rattle.graph_meaning.specs.Heap.{Heap, empty_heap};
ghost use Rattle.graph_meaning.specs.Step.{step};
ghost use Rattle.graph_meaning.specs.declared.event.Event.TheVariants.{Alloc, Root, Store};
ghost use Rattle.graph_meaning.specs.declared.refusal.Refusal.{Refusal};
ghost use Rattle.heap_snapshot.specs.FromTrace.{Answers, effect_of_step, bare_heap, snapshot_meaning};
ghost use Rattle.heap_snapshot.specs.Made.{IsMade};
ghost use Rattle.heap_snapshot.specs.declared.from_trace.TheConstants.{LONGEST_TRACE};

use crate::write::write_snapshot;
use graph_meaning::{Event, Refusal, Stop};
use heap_base::{Limits, MOST_OBJECTS, Name, ObjId, OutOfMemory, Status};
use object_table::ObjectTable;
use std::alloc::Global;
use std::marker::Model;
use streams::{Sink, Source};
use trace_reader::LineReader;
use trace_run::{LastText, Program, Taken, TraceRun};

/// A trace that a snapshot is made of has at most so many bytes: 2^28.
pub const LONGEST_TRACE: u64 = 268_435_456;

/// The heap that the operations so far made. Contracts see its table.
#[derive(Drop)]
struct Making {
    alloc: Global,
    table: ObjectTable,
}

impl Model for Making {
    ghost use Rattle.graph_meaning.specs.Heap.{Table};
    ghost use Rattle.heap_snapshot.specs.Made.{IsMade};

    ghost Value = { Table };

    ghost view = { λ m. m.table.table };

    ghost invariant = { λ m. IsMade m.table.table };
}

impl Program for Making {
    ghost State = { Heap };

    ghost meaning = { snapshot_meaning };

    ghost state = { bare_heap };

    ghost events = { λ m. 0 };

    fn last(&self) -> Result<LastText, OutOfMemory> {
        // The call tells what is true of each table.
        prove!(self.table.cells() <= MOST_OBJECTS);
        let view = self.table.view()?;
        Ok(LastText {
            text: write_snapshot(self.alloc, &view)?,
            violated: false,
        })
    }
}

/// Writes the snapshot of the heap that a trace makes, at its end.
pub(crate) fn from_trace<S: Source, K: Sink>(alloc: Global, source: &mut S, sink: &mut K) -> Status
    ensures { let old = outside_of (stream_of S.left S.faults source.old) (stream_of K.held K.faults sink.old) in
        let new = outside_of (stream_of S.left S.faults source.new) (stream_of K.held K.faults sink.new) in
        EndsAs (trace_report LONGEST_TRACE (report_by snapshot_meaning (empty_heap usual_limits))) old new result }
{
    let Ok(table) = ObjectTable::make(alloc, Limits::usual()) else {
        return Status::NoMemory;
    };
    let mut reader = LineReader::make(alloc);
    let run = TraceRun {
        alloc,
        limit: LONGEST_TRACE,
        program: Making { alloc, table },
        take: take_event,
    };
    run.run(&mut reader, source, sink)
}

fn take_event(making: &mut Making, event: &Event) -> Result<Taken, Stop>
    ensures { TakesEvent (snapshot_meaning.takes (bare_heap making.old) event.now) result (bare_heap making.new) }
{
    match event {
        Event::Alloc {
            id,
            kind,
            slots,
            ..
        } => nothing_due(alloc_object(&mut making.table, *id, kind, *slots)),
        Event::Store { at, slot, to } => nothing_due(store(&mut making.table, *at, *slot, *to)),
        Event::Root { name, to } => nothing_due(set_root(&mut making.table, name, *to)),
        Event::SetWeak { .. }
        | Event::AssertDead { .. }
        | Event::StartRegion { .. }
        | Event::AssertAllDead { .. }
        | Event::AssertInstances { .. }
        | Event::AssertUnshared { .. }
        | Event::AssertOwnedBy { .. }
        | Event::Collect => Err(Stop::Refused(Refusal::UnknownOp)),
    }
}

// An operation makes no text due.
fn nothing_due(done: Result<(), Stop>) -> Result<Taken, Stop>
    ensures { (found : Result Heap Refusal) → (after : Heap) → Answers found done after → TakesEvent (effect_of_step found) result after }
{
    match done {
        Ok(()) => Ok(Taken::GoesOn(None)),
        Err(stop) => Err(stop),
    }
}

fn store(table: &mut ObjectTable, at: ObjId, slot: u32, to: Option<ObjId>) -> Result<(), Stop>
    ensures step { Answers (step (bare_heap table.old.table) (Store at slot to)) result (bare_heap table.new.table) }
    ensures made { IsMade table.old.table → IsMade table.new.table }
{
    match table.store(at, slot, to) {
        Ok(()) => Ok(()),
        Err(refusal) => Err(Stop::Refused(refusal)),
    }
}

fn alloc_object(table: &mut ObjectTable, id: ObjId, kind: &Name, slots: u32) -> Result<(), Stop>
    ensures step { (thread : ℕ) → Answers (step (bare_heap table.old.table) (Alloc id kind.now slots thread)) result (bare_heap table.new.table) }
    ensures made { IsMade table.old.table → IsMade table.new.table }
{
    // The calls tell what an id and a name are.
    prove!(0 < id.number());
    prove!(!kind.as_str().is_empty());
    table.alloc_object(id, kind, slots)
}

fn set_root(table: &mut ObjectTable, name: &Name, to: Option<ObjId>) -> Result<(), Stop>
    ensures step { Answers (step (bare_heap table.old.table) (Root name.now to)) result (bare_heap table.new.table) }
    ensures made { IsMade table.old.table → IsMade table.new.table }
{
    // The call tells what a name is.
    prove!(!name.as_str().is_empty());
    table.set_root(name, to)
}
