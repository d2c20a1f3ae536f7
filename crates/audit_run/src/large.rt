//! The audit of a heap under the largest limits.
ghost use Rattle.std.specs.Prelude.{◌≡◌, None, Some, map};
ghost use Rattle.heap_base.specs.Limits.{ArePossible, large_limits};
ghost use Rattle.streams.specs.Streams.{stream_of};
ghost use Rattle.settings.specs.declared.settings.Settings.{Settings};
ghost use Rattle.settings.specs.Settings.{large_settings_by};
ghost use Rattle.trace_run.specs.Outcome.{outside_of};
ghost use Rattle.audit_run.specs.Outcome.{EndsAs, RefusesLargeWords, rules_under};

use crate::costs::Costs;
use crate::top_call::{Setup, audit_by};
use heap_base::{Limits, Status};
use settings::{SettingsError, large_settings_of};
use std::alloc::Global;
use std::thread::Threads;
use steal_pool::Gate;
use streams::{Sink, Source};
use trace_run::refuse_words;

const USAGE: &[u8] = b"usage: gcheap [--workers N] [--paths P] [--react R]\n";

/// Audits a trace as `audit` does, with a heap under the largest limits. `large_settings_of` says which words are taken: those of `audit`
/// that ask for no generated trace. Where they are refused, the source is left unread, and the usage line of gcheap is written.
pub fn audit_large<S: Source, K: Sink, G: Gate, R: Threads + Sync>(
    rt: &R,
    alloc: Global,
    words: &[&str],
    source: &mut S,
    sink: &mut K,
    gate: &G,
) -> Status
    ensures taken { let old = outside_of (stream_of S.left S.faults source.old) (stream_of K.held K.faults sink.old) in
        let new = outside_of (stream_of S.left S.faults source.new) (stream_of K.held K.faults sink.new) in
        (s : Settings) → large_settings_by (map (λ w. w.now) words.now) ≡ Some s → EndsAs (rules_under large_limits s) old new result }
    ensures refused { let old = outside_of (stream_of S.left S.faults source.old) (stream_of K.held K.faults sink.old) in
        let new = outside_of (stream_of S.left S.faults source.new) (stream_of K.held K.faults sink.new) in
        large_settings_by (map (λ w. w.now) words.now) ≡ None → (source.new ≡ source.old) × RefusesLargeWords old new result }
{
    let setup = Setup {
        rt,
        alloc,
        gate,
        costs: Costs::usual(),
        limits: Limits::large(),
    };
    audit_large_with(setup, words, source, sink)
}

/// The same audit with workers and threads of these costs, and with a heap under these limits.
pub fn audit_large_with<'a, S: Source, K: Sink, G: Gate, R: Threads + Sync>(
    setup: Setup<'a, R, G>,
    words: &[&str],
    source: &mut S,
    sink: &mut K,
) -> Status
    requires possible { ArePossible setup.limits }
    ensures taken { let old = outside_of (stream_of S.left S.faults source.old) (stream_of K.held K.faults sink.old) in
        let new = outside_of (stream_of S.left S.faults source.new) (stream_of K.held K.faults sink.new) in
        (s : Settings) → large_settings_by (map (λ w. w.now) words.now) ≡ Some s → EndsAs (rules_under setup.entry.limits s) old new result }
    ensures refused { let old = outside_of (stream_of S.left S.faults source.old) (stream_of K.held K.faults sink.old) in
        let new = outside_of (stream_of S.left S.faults source.new) (stream_of K.held K.faults sink.new) in
        large_settings_by (map (λ w. w.now) words.now) ≡ None → (source.new ≡ source.old) × RefusesLargeWords old new result }
{
    match large_settings_of(setup.alloc, words) {
        Ok(settings) => audit_by(setup, settings, source, sink),
        Err(SettingsError::Usage) => refuse_words(USAGE, sink),
        Err(SettingsError::OutOfMemory) => Status::NoMemory,
    }
}
