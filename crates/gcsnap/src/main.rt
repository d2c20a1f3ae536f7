//! Makes a snapshot of the heap of a trace on standard input, or a trace of a snapshot, and writes it to standard output.
#![tactic(auto)]

ghost use Rattle.std.specs.Prelude.{map};
ghost use Rattle.std.specs.Process.{exit_status};
ghost use Rattle.trace_run.specs.Outcome.{outside_of};
ghost use Rattle.heap_snapshot.specs.Words.{command_in};
ghost use Rattle.gcsnap.specs.Asked.{ConvertsAsAsked};
ghost use Rattle.console.specs.Numbers.{HasStatus};
ghost use Rattle.console.specs.Seen.{seen_of};

use console::{Arguments, Program, Streams, run_program};
use heap_snapshot::snap_run;
use std::alloc::Global;
use std::io::{Read, Write};
use std::process::ExitCode;

// A snapshot and the trace of one are written at the end alone, so a failed read leaves nothing behind.
const GCSNAP: Program = Program {
    name: "gcsnap",
    takes: Arguments::One("from-trace or to-trace"),
    unread: "nothing is written",
    larger: None,
    cut_short: "what is written is cut short",
};

fn main(rt: HostRuntime) -> ExitCode {
    run_program(
        &rt,
        GCSNAP.name,
        |words, streams| convert_streams(rt.alloc(), words, streams),
    )
}

/// The program on these words and streams.
pub fn convert_streams<I: Read, O: Write, E: Eprint>(
    alloc: Global,
    words: &[&str],
    streams: &mut Streams<I, O, E>,
) -> ExitCode
    ensures { let old = outside_of (seen_of I.remaining streams.old.input) (seen_of O.contents streams.old.output) in
        let new = outside_of (seen_of I.remaining streams.new.input) (seen_of O.contents streams.new.output) in
        HasStatus (exit_status result) (ConvertsAsAsked (command_in (map (λ w. w.now) words.now)) old new) }
{
    let status = snap_run(alloc, words, &mut streams.input, &mut streams.output);
    GCSNAP.end(alloc, words, streams, status)
}
