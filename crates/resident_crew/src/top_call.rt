ghost use Rattle.std.specs.Prelude.{◌≡◌, ◌<◌, ℕ, None, Some, map};
ghost use Rattle.heap_base.specs.declared.limits.TheConstants.{LONGEST_TRACE};
ghost use Rattle.streams.specs.Streams.{stream_of};
ghost use Rattle.trace_run.specs.Outcome.{outside_of};
ghost use Rattle.audit_run.specs.Auditors.{IsCollected};
ghost use Rattle.resident_crew.specs.Outcome.{EndsAs, RefusesWords};
ghost use Rattle.resident_crew.specs.Words.{workers_by};

use crate::collecting::collect_resident;
use crate::words::workers_by;
use audit_core::Auditor;
use audit_run::{Audit, Plan, audit_trace};
use graph_meaning::{Collection, React};
use heap_base::{Limits, OutOfMemory, Status, USUAL_PATHS};
use parked_crew::Residents;
use std::alloc::Global;
use std::sync::{Arc, Wait};
use std::thread::Threads;
use steal_pool::{Gate, ThreadCost};
use streams::{Sink, Source};
use trace_reader::LineReader;
use trace_run::refuse_words;

const USAGE: &[u8] = b"usage: gcresident [--workers N]\n";

/// Audits the trace that the source has left, writes the report to the sink, and answers the program's exit status, as `audit_run::audit`
/// does without an option beside `--workers`; but one crew traces the heap at all collections. Its workers are parked between two of
/// them, and their threads end before the call returns.
///
/// `words` are the words of the command line, the program's name first. They are taken where nothing stands behind the name, or `--workers`
/// and a number from 1 to 16 in at most 10 digits. Where they are refused the source is left unread, and the usage line is written. What
/// this ensures it ensures if it returns.
pub fn audit_resident<
    R: Threads + Wait + Clone + Drop + Send + Sync + 'static,
    S: Source,
    K: Sink,
    G: Gate + Send + Drop + 'static,
>(rt: &R, alloc: Global, words: &[&str], source: &mut S, sink: &mut K, gate: Arc<G>) -> Status
    ensures taken { let old = outside_of (stream_of S.left S.faults source.old) (stream_of K.held K.faults sink.old) in
        let new = outside_of (stream_of S.left S.faults source.new) (stream_of K.held K.faults sink.new) in
        (workers : ℕ) → workers_by (map (λ w. w.now) words.now) ≡ Some workers → EndsAs old new result }
    ensures refused { let old = outside_of (stream_of S.left S.faults source.old) (stream_of K.held K.faults sink.old) in
        let new = outside_of (stream_of S.left S.faults source.new) (stream_of K.held K.faults sink.new) in
        workers_by (map (λ w. w.now) words.now) ≡ None → (source.new ≡ source.old) × RefusesWords old new result }
{
    let setup = ResidentSetup {
        rt,
        alloc,
        gate,
        cost: ThreadCost::usual(),
    };
    audit_resident_with(setup, words, source, sink)
}

/// What an audit by workers that stay parked is made with, beside its command line and its streams.
#[derive(Drop)]
pub struct ResidentSetup<'a, R, G> {
    pub rt: &'a R,
    pub alloc: Global,
    pub gate: Arc<G>,
    pub cost: ThreadCost,
}

/// The same audit by workers whose threads cost so much.
pub fn audit_resident_with<
    'a,
    R: Threads + Wait + Clone + Drop + Send + Sync + 'static,
    S: Source,
    K: Sink,
    G: Gate + Send + Drop + 'static,
>(setup: ResidentSetup<'a, R, G>, words: &[&str], source: &mut S, sink: &mut K) -> Status
    ensures taken { let old = outside_of (stream_of S.left S.faults source.old) (stream_of K.held K.faults sink.old) in
        let new = outside_of (stream_of S.left S.faults source.new) (stream_of K.held K.faults sink.new) in
        (workers : ℕ) → workers_by (map (λ w. w.now) words.now) ≡ Some workers → EndsAs old new result }
    ensures refused { let old = outside_of (stream_of S.left S.faults source.old) (stream_of K.held K.faults sink.old) in
        let new = outside_of (stream_of S.left S.faults source.new) (stream_of K.held K.faults sink.new) in
        workers_by (map (λ w. w.now) words.now) ≡ None → (source.new ≡ source.old) × RefusesWords old new result }
{
    let ResidentSetup {
        rt,
        alloc,
        gate,
        cost,
    } = setup;
    let Some(workers) = workers_by(words) else {
        return refuse_words(USAGE, sink);
    };
    let Ok(crew) = Residents::start(rt, alloc, workers, gate) else {
        return Status::NoMemory;
    };
    let mut crew = crew.with_cost(cost);
    let plan = Plan {
        alloc,
        workers,
        paths: USUAL_PATHS,
        react: React::Report,
        limits: Limits::usual(),
    };
    let collect = |auditor: &mut Auditor| -> Result<Collection, OutOfMemory>
        requires { auditor.now.collections < LONGEST_TRACE }
        ensures { IsCollected auditor.entry.now result auditor.exit.now }
    { collect_resident(rt, alloc, &mut crew, auditor) };
    let mut reader = LineReader::make(alloc);
    let audit = Audit { plan, collect };
    let status = audit_trace(audit, &mut reader, source, sink);
    crew.end(rt);
    status
}
