//! Checks a report against the trace that it is of, and writes to standard output whether it is equal to the defined one.
#![tactic(auto)]

ghost use Rattle.std.specs.Prelude.{map};
ghost use Rattle.std.specs.Process.{exit_status};
ghost use Rattle.report_check.specs.Checked.{world_of};
ghost use Rattle.report_check.specs.Words.{paths_by};
ghost use Rattle.gccheck.specs.Asked.{ChecksAsAsked};
ghost use Rattle.console.specs.Numbers.{HasStatus};
ghost use Rattle.console.specs.Seen.{seen_of};

mod file;
mod telling;

use crate::file::NamedFile;
use crate::telling::{NAME, tell_memory, tell_read, tell_words, tell_write};
use console::{Remembering, exit_code, run_program};
use heap_base::Status;
use report_check::check_run;
use std::alloc::Global;
use std::io::{Read, Write};
use std::process::ExitCode;

fn main(rt: HostRuntime) -> ExitCode {
    run_program(&rt, NAME, |words, streams| {
        let mut files = Files {
            trace: Remembering::over(NamedFile::named(&rt, word(words, 1))),
            report: Remembering::over(NamedFile::named(&rt, word(words, 2))),
        };
        check_files(
            rt.alloc(),
            words,
            &mut files,
            &mut streams.output,
            &streams.errors,
        )
    })
}

/// What the program reads.
#[derive(Drop)]
pub struct Files<A, B> {
    pub trace: Remembering<A>,
    pub report: Remembering<B>,
}

/// The program on these words, over what it reads and where it writes.
pub fn check_files<A: Read, B: Read, O: Write, E: Eprint>(
    alloc: Global,
    words: &[&str],
    files: &mut Files<A, B>,
    output: &mut Remembering<O>,
    errors: &E,
) -> ExitCode
    ensures { let old = world_of (seen_of A.remaining files.old.trace) (seen_of B.remaining files.old.report) (seen_of O.contents output.old) in
        let new = world_of (seen_of A.remaining files.new.trace) (seen_of B.remaining files.new.report) (seen_of O.contents output.new) in
        HasStatus (exit_status result) (ChecksAsAsked (paths_by (map (λ w. w.now) words.now)) old new) }
{
    let status = check_run(alloc, words, &mut files.trace, &mut files.report, output);
    match status {
        Status::Clean | Status::Violated | Status::TraceFault => (),
        Status::ReadFault => {
            tell_read(errors, word(words, 1), files.trace.why);
            tell_read(errors, word(words, 2), files.report.why);
        }
        Status::WriteFault => tell_write(errors, output.why),
        Status::NoMemory => tell_memory(errors),
        Status::Usage => tell_words(errors, words.len()),
    }
    exit_code(status)
}

// A word of the command line, and an empty one where there is none.
fn word<'a>(words: &[&'a str], place: usize) -> &'a str {
    match words.get(place) {
        Some(word) => word,
        None => "",
    }
}
