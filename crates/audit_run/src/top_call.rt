ghost use Rattle.std.specs.Prelude.{◌≡◌, ◌<◌, ◌≤◌, ℕ, List, None, Some, map};
ghost use Rattle.heap_base.specs.declared.limits.TheConstants.{LONGEST_TRACE};
ghost use Rattle.streams.specs.Streams.{Stream, stream_of};
ghost use Rattle.generator.specs.declared.plan.GenPlan.{GenPlan};
ghost use Rattle.generator.specs.Plans.{IsPlan};
ghost use Rattle.generator.specs.Text.{gen_text};
ghost use Rattle.settings.specs.declared.settings.Settings.{Settings};
ghost use Rattle.settings.specs.Settings.{IsInRange, settings_by};
ghost use Rattle.trace_run.specs.Outcome.{reading, outside_of};
ghost use Rattle.audit_run.specs.Auditors.{IsCollected};
ghost use Rattle.heap_base.specs.Limits.{ArePossible};
ghost use Rattle.audit_run.specs.Outcome.{EndsAs, RefusesWords, rules_of, rules_under};

use crate::auditing::{Audit, Plan};
use crate::costs::Costs;
use crate::reading::{Reading, audit_lines};
use audit_core::Auditor;
use generator::{GenPlan, GenSource};
use graph_meaning::Collection;
use heap_base::{Limits, OutOfMemory, Status};
use settings::{Settings, SettingsError, settings_of};
use std::alloc::Global;
use std::thread::Threads;
use steal_pool::Gate;
use streams::{Sink, Source};
use trace_run::refuse_words;

const USAGE: &[u8] = b"usage: gcaudit [--workers N] [--paths P] [--react R] [--gen K --size N]\n";

/// Audits a trace, writes the report to the sink, and answers the program's exit status.
///
/// `words` are the words of the command line, the program's name first; `settings_of` says which are taken, and what they
/// ask for. Where they are taken, what was written and the status are those of the trace: the one that the source has
/// left, where it tells its bytes, or the generated one where the words ask for that. In the second case, and where the
/// words are refused, the source is left unread; where they are refused, the usage line is written.
pub fn audit<S: Source, K: Sink, G: Gate, R: Threads + Sync>(
    rt: &R,
    alloc: Global,
    words: &[&str],
    source: &mut S,
    sink: &mut K,
    gate: &G,
) -> Status
    ensures taken { let old = outside_of (stream_of S.left S.faults source.old) (stream_of K.held K.faults sink.old) in
        let new = outside_of (stream_of S.left S.faults source.new) (stream_of K.held K.faults sink.new) in
        (s : Settings) → settings_by (map (λ w. w.now) words.now) ≡ Some s → s.plan ≡ None → EndsAs (rules_of s) old new result }
    ensures generated { let old = outside_of (stream_of S.left S.faults source.old) (stream_of K.held K.faults sink.old) in
        let new = outside_of (stream_of S.left S.faults source.new) (stream_of K.held K.faults sink.new) in
        (s : Settings) (plan : GenPlan) → settings_by (map (λ w. w.now) words.now) ≡ Some s → s.plan ≡ Some plan →
        (source.new ≡ source.old) × ((left : List ℕ) × EndsAs (rules_of s) (reading (gen_text plan.number plan.size) old) (reading left new) result) }
    ensures refused { let old = outside_of (stream_of S.left S.faults source.old) (stream_of K.held K.faults sink.old) in
        let new = outside_of (stream_of S.left S.faults source.new) (stream_of K.held K.faults sink.new) in
        settings_by (map (λ w. w.now) words.now) ≡ None → (source.new ≡ source.old) × RefusesWords old new result }
{
    let setup = Setup {
        rt,
        alloc,
        gate,
        costs: Costs::usual(),
        limits: Limits::usual(),
    };
    audit_with(setup, words, source, sink)
}

/// What an audit is made with, beside its command line and its streams.
#[derive(Clone, Copy)]
pub struct Setup<'a, R, G> {
    pub rt: &'a R,
    pub alloc: Global,
    pub gate: &'a G,
    pub costs: Costs,
    pub limits: Limits,
}

/// The same audit with workers and threads of these costs, and with a heap under these limits.
pub fn audit_with<'a, S: Source, K: Sink, G: Gate, R: Threads + Sync>(
    setup: Setup<'a, R, G>,
    words: &[&str],
    source: &mut S,
    sink: &mut K,
) -> Status
    requires possible { ArePossible setup.limits }
    ensures taken { let old = outside_of (stream_of S.left S.faults source.old) (stream_of K.held K.faults sink.old) in
        let new = outside_of (stream_of S.left S.faults source.new) (stream_of K.held K.faults sink.new) in
        (s : Settings) → settings_by (map (λ w. w.now) words.now) ≡ Some s → s.plan ≡ None → EndsAs (rules_under setup.entry.limits s) old new result }
    ensures generated { let old = outside_of (stream_of S.left S.faults source.old) (stream_of K.held K.faults sink.old) in
        let new = outside_of (stream_of S.left S.faults source.new) (stream_of K.held K.faults sink.new) in
        (s : Settings) (plan : GenPlan) → settings_by (map (λ w. w.now) words.now) ≡ Some s → s.plan ≡ Some plan →
        (source.new ≡ source.old) × ((left : List ℕ) × EndsAs (rules_under setup.entry.limits s) (reading (gen_text plan.number plan.size) old) (reading left new) result) }
    ensures refused { let old = outside_of (stream_of S.left S.faults source.old) (stream_of K.held K.faults sink.old) in
        let new = outside_of (stream_of S.left S.faults source.new) (stream_of K.held K.faults sink.new) in
        settings_by (map (λ w. w.now) words.now) ≡ None → (source.new ≡ source.old) × RefusesWords old new result }
{
    let settings = match settings_of(setup.alloc, words) {
        Ok(settings) => settings,
        Err(SettingsError::Usage) => return refuse_words(USAGE, sink),
        Err(SettingsError::OutOfMemory) => return Status::NoMemory,
    };
    match settings.plan {
        None => audit_by(setup, settings, source, sink),
        Some(trace) => audit_generated(setup, settings, trace, sink),
    }
}

/// Audits the trace that the source has left, by these settings.
pub(crate) fn audit_by<'a, S: Source, K: Sink, G: Gate, R: Threads + Sync>(
    setup: Setup<'a, R, G>,
    settings: Settings,
    source: &mut S,
    sink: &mut K,
) -> Status
    requires possible { ArePossible setup.limits }
    requires settings { IsInRange settings }
    ensures { let old = outside_of (stream_of S.left S.faults source.old) (stream_of K.held K.faults sink.old) in
        let new = outside_of (stream_of S.left S.faults source.new) (stream_of K.held K.faults sink.new) in
        EndsAs (rules_under setup.entry.limits settings) old new result }
{
    let Setup {
        rt,
        alloc,
        gate,
        costs,
        limits,
    } = setup;
    let plan = Plan {
        alloc,
        workers: settings.workers,
        paths: settings.paths,
        react: settings.react,
        limits,
    };
    let collect = |auditor: &mut Auditor| -> Result<Collection, OutOfMemory>
        requires { auditor.now.collections < LONGEST_TRACE }
        ensures { IsCollected auditor.entry.now result auditor.exit.now }
    { auditor.collect_at(rt, gate, costs.workers) };
    let audit = Audit { plan, collect };
    let lines = Reading {
        rt,
        cost: costs.ahead,
    };
    audit_lines(lines, audit, source, sink)
}

/// Audits the trace that is generated from these numbers, by these settings.
fn audit_generated<'a, K: Sink, G: Gate, R: Threads + Sync>(
    setup: Setup<'a, R, G>,
    settings: Settings,
    trace: GenPlan,
    sink: &mut K,
) -> Status
    requires possible { ArePossible setup.limits }
    requires settings { IsInRange settings }
    requires trace { IsPlan trace }
    ensures { (stream : Stream) →
        let old = outside_of stream (stream_of K.held K.faults sink.old) in
        let new = outside_of stream (stream_of K.held K.faults sink.new) in
        (left : List ℕ) × EndsAs (rules_under setup.entry.limits settings) (reading (gen_text trace.number trace.size) old) (reading left new) result }
{
    let Ok(mut source) = GenSource::make(setup.alloc, trace) else {
        return Status::NoMemory;
    };
    audit_by(setup, settings, &mut source, sink)
}
