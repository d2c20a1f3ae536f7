//! The auditors as tests run them: further workers cost nothing, so each worker that is asked for has a thread, and each line that can be is
//! read before its turn, however small a trace is. The first argument says what runs, and takes the place of the program's name: `gcaudit`,
//! `gcheap`, `gcresident`, or `orders`, which audits traces that are drawn from numbers, in orders of the workers' steps that are drawn too. Nobody
//! installs it.
#![tactic(auto)]

mod audited;
mod draws;
mod host;
mod orders;
mod schedule;
mod summary;
mod traces;

use audit_run::{Costs, Setup, audit_large_with, audit_with};
use console::{Arguments, Program, run_program};
use heap_base::{Limits, Status};
use host::Host;
use orders::run_orders;
use resident_crew::{ResidentSetup, audit_resident_with};
use settings::AUDIT_OPTIONS;
use std::process::ExitCode;
use std::sync::{Arc, Wait};
use std::thread::Threads;
use steal_pool::{OpenGate, ThreadCost};
use streams::{Sink, Source, put_all};

const NAME: &str = "tests_programs";

const USAGE: &[u8] = b"usage: tests_programs gcaudit|gcheap|gcresident .. | orders FIRST COUNT\n";

fn main(rt: HostRuntime) -> ExitCode {
    run_program(&rt, NAME, |words, streams| {
        let alloc = rt.alloc();
        let host = Host { rt: &rt, alloc };
        let named = words.get(1..).unwrap_or(&[]);
        let status = run_named(&host, named, &mut streams.input, &mut streams.output);
        let program = Program::of_report(NAME, Arguments::Options(AUDIT_OPTIONS));
        program.end(alloc, named, streams, status)
    })
}

// Runs what the first argument names on the arguments from there on.
fn run_named<'a, R: Threads + Wait + Clone + Drop + Send + Sync + 'static, S: Source, K: Sink>(
    host: &Host<'a, R>,
    named: &[&str],
    source: &mut S,
    sink: &mut K,
) -> Status {
    match named {
        [name, ..] if *name == "gcaudit" => audit(host, named, source, sink),
        [name, ..] if *name == "gcheap" => audit_large(host, named, source, sink),
        [name, ..] if *name == "gcresident" => audit_resident(host, named, source, sink),
        [name, first, count] if *name == "orders" => run_orders(host, first, count, sink),
        _ => refuse(sink),
    }
}

fn audit<'a, R: Threads + Sync, S: Source, K: Sink>(
    host: &Host<'a, R>,
    words: &[&str],
    source: &mut S,
    sink: &mut K,
) -> Status {
    let Host { rt, alloc } = *host;
    let setup = Setup {
        rt,
        alloc,
        gate: &OpenGate,
        costs: Costs::none(),
        limits: Limits::usual(),
    };
    audit_with(setup, words, source, sink)
}

fn audit_large<'a, R: Threads + Sync, S: Source, K: Sink>(
    host: &Host<'a, R>,
    words: &[&str],
    source: &mut S,
    sink: &mut K,
) -> Status {
    let Host { rt, alloc } = *host;
    let setup = Setup {
        rt,
        alloc,
        gate: &OpenGate,
        costs: Costs::none(),
        limits: Limits::large(),
    };
    audit_large_with(setup, words, source, sink)
}

fn audit_resident<'a, R: Threads + Wait + Clone + Drop + Send + Sync + 'static, S: Source, K: Sink>(
    host: &Host<'a, R>,
    words: &[&str],
    source: &mut S,
    sink: &mut K,
) -> Status {
    let Host { rt, alloc } = *host;
    let Ok(gate) = Arc::new(alloc, OpenGate) else {
        return Status::NoMemory;
    };
    let setup = ResidentSetup {
        rt,
        alloc,
        gate,
        cost: ThreadCost::none(),
    };
    audit_resident_with(setup, words, source, sink)
}

fn refuse<K: Sink>(sink: &mut K) -> Status {
    match put_all(sink, USAGE) {
        Ok(()) => Status::Usage,
        Err(_) => Status::WriteFault,
    }
}
