//! Audits a trace on standard input by workers that stay parked between collections, and writes the report to standard output.
#![tactic(auto)]

ghost use Rattle.std.specs.Prelude.{map};
ghost use Rattle.std.specs.Process.{exit_status};
ghost use Rattle.streams.specs.Streams.{stream_of};
ghost use Rattle.trace_run.specs.Outcome.{outside_of};
ghost use Rattle.resident_crew.specs.Words.{workers_by};
ghost use Rattle.gcresident.specs.Asked.{AuditsAsAsked};
ghost use Rattle.console.specs.Numbers.{HasStatus};
ghost use Rattle.console.specs.Seen.{seen_of};

use console::{Arguments, OptionRule, Options, Program, Streams, Takes, run_program};
use heap_base::{MOST_WORKERS, Status};
use resident_crew::audit_resident;
use settings::{LARGER_HEAPS, LEAST_WORKERS};
use std::alloc::Global;
use std::io::{Read, Write};
use std::process::ExitCode;
use std::sync::{Arc, Wait};
use std::thread::Threads;
use steal_pool::OpenGate;
use streams::{Sink, Source};

const NAME: &str = "gcresident";

/// The options, for whoever wrote a word that is refused. Which words are taken is for `audit_resident` to say.
const OPTIONS: Options = Options {
    rules: &RULES,
    together: "--workers and its number are two words",
};

const RULES: [OptionRule; 1] = [OptionRule {
    name: "workers",
    takes: Takes::Number(LEAST_WORKERS, MOST_WORKERS),
}];

fn main(rt: HostRuntime) -> ExitCode {
    run_program(
        &rt,
        NAME,
        |words, streams| audit_streams(&rt, rt.alloc(), words, streams),
    )
}

/// The program on these words and streams.
pub fn audit_streams<
    R: Threads + Wait + Clone + Drop + Send + Sync + 'static,
    I: Read,
    O: Write,
    E: Eprint,
>(rt: &R, alloc: Global, words: &[&str], streams: &mut Streams<I, O, E>) -> ExitCode
    ensures { let old = outside_of (seen_of I.remaining streams.old.input) (seen_of O.contents streams.old.output) in
        let new = outside_of (seen_of I.remaining streams.new.input) (seen_of O.contents streams.new.output) in
        HasStatus (exit_status result) (AuditsAsAsked (workers_by (map (λ w. w.now) words.now)) old new) }
{
    let status = audit(rt, alloc, words, &mut streams.input, &mut streams.output);
    let program = Program {
        larger: Some(LARGER_HEAPS),
        ..Program::of_report(NAME, Arguments::Options(OPTIONS))
    };
    program.end(alloc, words, streams, status)
}

fn audit<R: Threads + Wait + Clone + Drop + Send + Sync + 'static, S: Source, K: Sink>(
    rt: &R,
    alloc: Global,
    words: &[&str],
    source: &mut S,
    sink: &mut K,
) -> Status
    ensures { let old = outside_of (stream_of S.left S.faults source.old) (stream_of K.held K.faults sink.old) in
        let new = outside_of (stream_of S.left S.faults source.new) (stream_of K.held K.faults sink.new) in
        AuditsAsAsked (workers_by (map (λ w. w.now) words.now)) old new result }
{
    match Arc::new(alloc, OpenGate) {
        Ok(gate) => audit_resident(rt, alloc, words, source, sink, gate),
        Err(_) => Status::NoMemory,
    }
}
