//! The comparison of two reports: the one on a trace, as it is made, and the one that is to be checked.
ghost use Rattle.std.specs.Prelude.{◌≡◌, ◌⊎◌, ◌<◌, ◌≤◌, ◌+◌, Err, IfOk};
ghost use Rattle.graph_meaning.specs.declared.reaction.React.TheVariants.{Report};
ghost use Rattle.heap_base.specs.declared.limits.TheConstants.{LONGEST_TRACE};
ghost use Rattle.streams.specs.Causes.{Rose};
ghost use Rattle.streams.specs.Streams.{stream_of};
ghost use Rattle.trace_run.specs.Audits.{audit_meaning, audit_report, rules_by};
ghost use Rattle.trace_run.specs.Outcome.{EndsAs, outside_of, trace_report};
ghost use Rattle.trace_run.specs.Program.{TakesEvent};
ghost use Rattle.report_check.specs.Reports.{TellsOfReports};
ghost use Rattle.report_check.specs.States.{checked_state};
ghost use Rattle.report_check.specs.declared.outcome.CheckError.TheVariants.{ReadFault};

use crate::checking::Checking;
use crate::compared::Compared;
use crate::comparing::Comparing;
use crate::lent::{Chosen, Lent};
use crate::outcome::CheckError;
use crate::pending::Pending;
use graph_meaning::{Event, Stop};
use heap_base::{LONGEST_TRACE, Status};
use std::alloc::Global;
use std::marker::{Brand, PhantomData};
use streams::{Sink, Source};
use trace_reader::LineReader;
use trace_run::{Taken, TraceRun};

/// Runs the trace, and compares what the report on it is with the bytes of `report`. The run ends at the first text after the two differ.
pub(crate) fn compare_reports<A: Source, B: Source>(
    alloc: Global,
    paths: u32,
    trace: &mut A,
    report: &mut B,
) -> Result<Compared, CheckError>
    ensures tells { IfOk result (TellsOfReports paths (A.left trace.old) (B.left report.old)) }
    ensures cause { result ≡ Err ReadFault → Rose (A.faults trace.old) (A.faults trace.new) ⊎ Rose (B.faults report.old) (B.faults report.new) }
{
    let (found, _report) = compare_chosen::<Brand, A, B>(alloc, paths, trace, report);
    found
}

// Compares with the report that was chosen, and gives it back.
fn compare_chosen<'r, J: Chosen, A: Source, B: Source>(
    alloc: Global,
    paths: u32,
    trace: &mut A,
    report: &'r mut B,
) -> (Result<Compared, CheckError>, &'r mut B)
    requires whole { J.whole ≡ B.left report.old }
    requires faults { J.faults ≡ B.faults report.old }
    requires reference { J.reference ≡ report.ghost_name }
    ensures same_reference { result.1.ghost_name ≡ report.entry.ghost_name }
    ensures tells { IfOk result.0 (TellsOfReports paths (A.left trace.old) (B.left report.old)) }
    ensures cause { result.0 ≡ Err ReadFault → Rose (A.faults trace.old) (A.faults trace.new) ⊎ Rose (B.faults report.old) (B.faults result.1.now) }
{
    let Ok(pending) = Pending::make(alloc) else {
        return (Err(CheckError::OutOfMemory), report);
    };
    let lent: Lent<'r, B, J> = Lent {
        source: report,
        of: PhantomData,
    };
    let mut comparing: Comparing<Lent<'r, B, J>, J> = Comparing::over(lent, pending);
    let status = run_trace(alloc, paths, trace, &mut comparing);
    let found = comparing.found(status);
    let Lent { source, of: _ } = comparing.into_report();
    (found, source)
}

// Runs the trace into a sink.
fn run_trace<A: Source, K: Sink>(alloc: Global, paths: u32, trace: &mut A, sink: &mut K) -> Status
    ensures { let old = outside_of (stream_of A.left A.faults trace.old) (stream_of K.held K.faults sink.old) in
        let new = outside_of (stream_of A.left A.faults trace.new) (stream_of K.held K.faults sink.new) in
        EndsAs (trace_report LONGEST_TRACE (audit_report (rules_by paths Report))) old new result }
{
    let Ok(program) = Checking::make(alloc, paths) else {
        return Status::NoMemory;
    };
    let take = |program: &mut Checking, event: &Event| -> Result<Taken, Stop>
        requires few { program.now.collections < LONGEST_TRACE }
        ensures takes { TakesEvent (audit_meaning.takes (checked_state program.entry.now) event.now) result (checked_state program.exit.now) }
        ensures few { program.exit.now.collections ≤ program.entry.now.collections + 1 }
    { program.take(event) };
    let mut reader = LineReader::make(alloc);
    let run = TraceRun {
        alloc,
        limit: LONGEST_TRACE,
        program,
        take,
    };
    run.run(&mut reader, trace, sink)
}
