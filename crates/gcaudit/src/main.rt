//! Audits a trace on standard input, or one that is generated, and writes the report to standard output.
#![tactic(auto)]

ghost use Rattle.std.specs.Prelude.{◌≡◌, None, Some, map};
ghost use Rattle.std.specs.Process.{exit_status};
ghost use Rattle.settings.specs.declared.settings.Settings.{Settings};
ghost use Rattle.settings.specs.Settings.{settings_by};
ghost use Rattle.trace_run.specs.Outcome.{Outside, outside_of};
ghost use Rattle.audit_run.specs.Asked.{AuditsAsAsked};
ghost use Rattle.audit_run.specs.InMemory.{WritesReport, defined_report, holding};
ghost use Rattle.audit_run.specs.Outcome.{rules_of};
ghost use Rattle.console.specs.Numbers.{HasStatus};
ghost use Rattle.console.specs.Seen.{seen_of};

use audit_run::{audit, the_facts_of_a_run_follow};
use console::{Arguments, Program, Streams, run_program};
use settings::{AUDIT_OPTIONS, LARGER_HEAPS};
use std::alloc::Global;
use std::io::{Read, Write};
use std::process::ExitCode;
use std::thread::Threads;
use steal_pool::OpenGate;

const NAME: &str = "gcaudit";

fn main(rt: HostRuntime) -> ExitCode {
    run_program(
        &rt,
        NAME,
        |words, streams| audit_streams(&rt, rt.alloc(), words, streams),
    )
}

/// The program on these words and streams.
pub fn audit_streams<R: Threads + Sync, I: Read, O: Write, E: Eprint>(
    rt: &R,
    alloc: Global,
    words: &[&str],
    streams: &mut Streams<I, O, E>,
) -> ExitCode
    ensures { let old = outside_of (seen_of I.remaining streams.old.input) (seen_of O.contents streams.old.output) in
        let new = outside_of (seen_of I.remaining streams.new.input) (seen_of O.contents streams.new.output) in
        HasStatus (exit_status result) (AuditsAsAsked (settings_by (map (λ w. w.now) words.now)) old new) }
{
    let status = audit(
        rt,
        alloc,
        words,
        &mut streams.input,
        &mut streams.output,
        &OpenGate,
    );
    let program = Program {
        larger: Some(LARGER_HEAPS),
        ..Program::of_report(NAME, Arguments::Options(AUDIT_OPTIONS))
    };
    program.end(alloc, words, streams, status)
}

/// The program on these words and on a trace in memory: what it writes, and what the process ends with.
pub fn audit_bytes<R: Threads + Sync, E: Eprint + Drop>(
    rt: &R,
    alloc: Global,
    words: &[&str],
    trace: &[u8],
    errors: E,
) -> (Vec<u8>, ExitCode)
    ensures asked { (after : Outside) × (after.sink.bytes ≡ Some result.0.items) × HasStatus (exit_status result.1) (AuditsAsAsked (settings_by (map (λ w. w.now) words.now)) (holding trace.now) after) }
    ensures reports { (s : Settings) → settings_by (map (λ w. w.now) words.now) ≡ Some s → s.plan ≡ None → WritesReport (defined_report (rules_of s) trace.now) result.0.items (exit_status result.1) }
{
    the_facts_of_a_run_follow();
    let mut streams = Streams::over(trace, Vec::new(alloc), errors);
    let code = audit_streams(rt, alloc, words, &mut streams);
    (streams.output.stream, code)
}
