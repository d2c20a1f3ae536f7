//! The audit of a whole trace.
ghost use Rattle.std.specs.Prelude.{◌≡◌, ◌+◌, ◌<◌, ◌≤◌};
ghost use Rattle.streams.specs.Streams.{stream_of};
ghost use Rattle.heap_base.specs.declared.limits.TheConstants.{LONGEST_TRACE, MOST_WORKERS};
ghost use Rattle.heap_base.specs.Limits.{ArePossible};
ghost use Rattle.report.specs.Run.{is_force};
ghost use Rattle.trace_run.specs.Outcome.{EndsAs, outside_of, trace_report};
ghost use Rattle.trace_run.specs.Program.{TakesEvent};
ghost use Rattle.trace_run.specs.Audits.{audit_meaning, audit_report, rules_within};
ghost use Rattle.audit_run.specs.Auditors.{MakesCollections, MayCollect};
ghost use Rattle.audit_run.specs.State.{state_in};

use crate::program::TraceAudit;
use crate::taking::take_event;
use audit_core::{Auditor, AuditorRules};
use graph_meaning::{Collection, Event, React, Stop};
use heap_base::{LONGEST_TRACE, Limits, OutOfMemory, Status};
use std::alloc::Global;
use streams::{Sink, Source};
use trace_reader::EventReader;
use trace_run::{Taken, TraceRun};

/// What an audit goes by: its allocator, how many workers trace a heap, how many paths of each collection are shown,
/// what is done about violations, and the limits of the heap.
#[derive(Clone, Copy)]
pub struct Plan {
    pub alloc: Global,
    pub workers: u32,
    pub paths: u32,
    pub react: React,
    pub limits: Limits,
}

/// An audit of a trace: what it goes by, and what makes its auditor's collections.
#[derive(Drop)]
pub struct Audit<C> {
    pub plan: Plan,
    pub collect: C,
}

/// Audits the trace that the source has left, and writes its report. The text of each collection is written before the next
/// line is cut.
pub fn audit_trace<
    C: FnMut(&mut Auditor) -> Result<Collection, OutOfMemory> + Drop,
    L: EventReader,
    S: Source,
    K: Sink,
>(audit: Audit<C>, reader: &mut L, source: &mut S, sink: &mut K) -> Status
    requires workers { (0 < audit.plan.workers) × (audit.plan.workers ≤ MOST_WORKERS) }
    requires limits { ArePossible audit.plan.limits }
    requires may_collect { MayCollect C.pre }
    requires collects { MakesCollections C.step }
    requires ready { L.ready reader.old }
    ensures { let old = outside_of (stream_of S.left S.faults source.old) (stream_of K.held K.faults sink.old) in
        let new = outside_of (stream_of S.left S.faults source.new) (stream_of K.held K.faults sink.new) in
        EndsAs (trace_report LONGEST_TRACE (audit_report (rules_within audit.plan.limits audit.plan.paths audit.plan.react))) old new result }
{
    let Audit { plan, mut collect } = audit;
    let alloc = plan.alloc;
    let rules = AuditorRules {
        paths: plan.paths,
        force: is_force(plan.react),
        most: plan.limits,
    };
    let Ok(auditor) = Auditor::by_rules(alloc, plan.workers, rules) else {
        return Status::NoMemory;
    };
    let program = TraceAudit {
        alloc,
        paths: plan.paths,
        react: plan.react,
        most: plan.limits,
        auditor,
    };
    let take = |program: &mut TraceAudit, event: &Event| -> Result<Taken, Stop>
        requires few { program.now.auditor.collections < LONGEST_TRACE }
        requires may_collect { MayCollect C.pre }
        requires collects { MakesCollections C.step }
        ensures takes { TakesEvent (audit_meaning.takes (state_in program.entry.now) event.now) result (state_in program.exit.now) }
        ensures few { program.exit.now.auditor.collections ≤ program.entry.now.auditor.collections + 1 }
    { take_event(program, event, &mut collect) };
    let run = TraceRun {
        alloc,
        limit: LONGEST_TRACE,
        program,
        take,
    };
    run.run(reader, source, sink)
}

fn is_force(react: React) -> bool
    ensures { result ≡ is_force react }
{
    matches!(react, React::Force)
}
