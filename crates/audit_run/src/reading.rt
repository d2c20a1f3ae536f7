//! The audit of a trace whose lines are read by all workers.
ghost use Rattle.std.specs.Prelude.{◌<◌, ◌≤◌};
ghost use Rattle.streams.specs.Streams.{stream_of};
ghost use Rattle.heap_base.specs.declared.limits.TheConstants.{LONGEST_TRACE, MOST_WORKERS};
ghost use Rattle.heap_base.specs.Limits.{ArePossible};
ghost use Rattle.trace_run.specs.Outcome.{outside_of};
ghost use Rattle.audit_run.specs.Auditors.{MakesCollections, MayCollect};
ghost use Rattle.audit_run.specs.Outcome.{EndsAs, rules_in};

use crate::auditing::{Audit, audit_trace};
use audit_core::Auditor;
use graph_meaning::Collection;
use heap_base::{OutOfMemory, Status};
use std::thread::Threads;
use streams::{Sink, Source};
use trace_reader::{AheadCost, LineReader, ParallelReader};

/// Where threads that read lines are started, and what it costs to read them before their turn.
#[derive(Clone, Copy)]
pub struct Reading<'a, R> {
    pub rt: &'a R,
    pub cost: AheadCost,
}

/// Audits the trace that the source has left, as `audit_trace` does. One worker reads it line by line, and starts no thread; where there
/// are more, they read many lines side by side, in threads that end before it returns.
pub fn audit_lines<
    'a,
    C: FnMut(&mut Auditor) -> Result<Collection, OutOfMemory> + Drop,
    S: Source,
    K: Sink,
    R: Threads + Sync,
>(lines: Reading<'a, R>, audit: Audit<C>, source: &mut S, sink: &mut K) -> Status
    requires workers { (0 < audit.plan.workers) × (audit.plan.workers ≤ MOST_WORKERS) }
    requires limits { ArePossible audit.plan.limits }
    requires may_collect { MayCollect C.pre }
    requires collects { MakesCollections C.step }
    ensures { let old = outside_of (stream_of S.left S.faults source.old) (stream_of K.held K.faults sink.old) in
        let new = outside_of (stream_of S.left S.faults source.new) (stream_of K.held K.faults sink.new) in
        EndsAs (rules_in audit.plan) old new result }
{
    let plan = audit.plan;
    if plan.workers == 1 {
        let mut reader = LineReader::make(plan.alloc);
        return audit_trace(audit, &mut reader, source, sink);
    }
    let Ok(mut reader) = ParallelReader::with_cost(lines.rt, plan.alloc, plan.workers, lines.cost)
    else {
        return Status::NoMemory;
    };
    let status = audit_trace(audit, &mut reader, source, sink);
    reader.end();
    status
}
