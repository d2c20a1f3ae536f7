use crate::draws::Draws;
use crate::host::Host;
use crate::schedule::Schedule;
use crate::traces::trace_of;
use audit_core::WorkerCost;
use audit_run::{Costs, Setup, audit_with};
use heap_base::{Limits, OutOfMemory, Status};
use report_check::check_run;
use resident_crew::{ResidentSetup, audit_resident_with};
use std::alloc::Global;
use std::sync::{Arc, Wait};
use std::thread::Threads;
use steal_pool::ThreadCost;
use streams::{MemSink, MemSource};

/// How many workers an audit has: with as many as the machine has processors two steps fall together most often.
const WORKERS: [&str; 8] = ["2", "2", "3", "3", "4", "4", "4", "16"];
/// A worker offers the others as many of its tasks as it may, or one in so many of those that it has room for. Where it has room for few, an
/// offer is refused.
const OFFERS: [u64; 4] = [0, 0, 8, 1_000_000];
/// More bytes than a report has.
const ROOM: u32 = 1_048_576;

const LONGEST_READ: u32 = 4_096;

/// What is seen of an audit.
#[derive(Clone, Copy)]
pub struct Audited {
    /// A number for the order in which workers began tasks.
    pub order: u64,
    /// How many workers began a task.
    pub workers: u32,
    /// Whether its report is the one that is defined.
    pub is_right: bool,
}

/// Audits the trace with this number, in the order with this number.
pub fn audit_in_order<'a, R: Threads + Wait + Clone + Drop + Send + Sync + 'static>(
    host: &Host<'a, R>,
    number: u64,
) -> Result<Audited, OutOfMemory> {
    let alloc = host.alloc;
    let mut draws = Draws::from(number);
    let trace = trace_of(alloc, draws.number())?;
    let schedule = Arc::new(alloc, Schedule::of(draws.number()))?;
    let report = report_of(host, &trace, &schedule, &mut draws)?;
    Ok(Audited {
        order: schedule.order(),
        workers: schedule.workers(),
        is_right: is_report_of(alloc, &report, &trace)?,
    })
}

// The report that one of the auditors writes on the trace.
fn report_of<'a, R: Threads + Wait + Clone + Drop + Send + Sync + 'static>(
    host: &Host<'a, R>,
    trace: &[u8],
    schedule: &Arc<Schedule>,
    draws: &mut Draws,
) -> Result<Vec<u8>, OutOfMemory> {
    let Host { rt, alloc } = *host;
    let words = ["gcaudit", "--workers", WORKERS[draws.below(8) as usize]];
    let mut source = MemSource::make(alloc, trace, 1 + draws.below(LONGEST_READ), &[])?;
    let mut sink = MemSink::make(alloc, ROOM, ROOM, &[])?;
    let threads = ThreadCost {
        offer: OFFERS[draws.below(4) as usize],
        ..ThreadCost::none()
    };
    let status = if draws.below(4) == 0 {
        let setup = ResidentSetup {
            rt,
            alloc,
            gate: Arc::try_clone(schedule)?,
            cost: threads,
        };
        audit_resident_with(setup, &words, &mut source, &mut sink)
    } else {
        let setup = Setup {
            rt,
            alloc,
            gate: &**schedule,
            costs: Costs {
                workers: WorkerCost {
                    threads,
                    ..WorkerCost::none()
                },
                ..Costs::none()
            },
            limits: Limits::usual(),
        };
        audit_with(setup, &words, &mut source, &mut sink)
    };
    match status {
        Status::NoMemory => Err(OutOfMemory),
        _ => Ok(sink.bytes().to_vec(alloc)?),
    }
}

// Whether the checker, which has no workers, finds that this is the report on the trace.
fn is_report_of(alloc: Global, report: &[u8], trace: &[u8]) -> Result<bool, OutOfMemory> {
    let words = ["gccheck", "trace", "report"];
    let mut trace = MemSource::make(alloc, trace, ROOM, &[])?;
    let mut report = MemSource::make(alloc, report, ROOM, &[])?;
    let mut sink = MemSink::make(alloc, ROOM, ROOM, &[])?;
    match check_run(alloc, &words, &mut trace, &mut report, &mut sink) {
        Status::NoMemory => Err(OutOfMemory),
        status => Ok(status == Status::Clean),
    }
}
