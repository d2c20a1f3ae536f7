//! Makes minor and full collections over a trace on standard input, and writes a line for each to standard output.
#![tactic(auto)]

ghost use Rattle.std.specs.Prelude.{length};
ghost use Rattle.std.specs.Process.{exit_status};
ghost use Rattle.trace_run.specs.Outcome.{outside_of};
ghost use Rattle.gcminor.specs.Asked.{CollectsAsAsked};
ghost use Rattle.console.specs.Numbers.{HasStatus};
ghost use Rattle.console.specs.Seen.{seen_of};

use console::{Arguments, Program, Streams, run_program};
use minor_gc::minor_run;
use std::alloc::Global;
use std::io::{Read, Write};
use std::process::ExitCode;

const NAME: &str = "gcminor";

fn main(rt: HostRuntime) -> ExitCode {
    run_program(
        &rt,
        NAME,
        |words, streams| collect_streams(rt.alloc(), words, streams),
    )
}

/// The program on these words and streams.
pub fn collect_streams<I: Read, O: Write, E: Eprint>(
    alloc: Global,
    words: &[&str],
    streams: &mut Streams<I, O, E>,
) -> ExitCode
    ensures { let old = outside_of (seen_of I.remaining streams.old.input) (seen_of O.contents streams.old.output) in
        let new = outside_of (seen_of I.remaining streams.new.input) (seen_of O.contents streams.new.output) in
        HasStatus (exit_status result) (CollectsAsAsked (length words.now) old new) }
{
    let status = minor_run(alloc, words, &mut streams.input, &mut streams.output);
    let program = Program::of_report(NAME, Arguments::Nothing);
    program.end(alloc, words, streams, status)
}
