//! The phases of a trace, each by itself: what it leaves of a heap.
ghost use Rattle.std.specs.Prelude.{◌≡◌, ◌<◌, ◌≤◌, length, IfOk, OnOk};
ghost use Rattle.heap_base.specs.declared.limits.TheConstants.{MOST_WORKERS};
ghost use Rattle.graph_meaning.specs.Roles.{AreRolesOf};
ghost use Rattle.header_rule.specs.Passes.{ArePassesOf};
ghost use Rattle.tests_marking.specs.NewJobs.{AreAllJobs, CountKinds};
ghost use Rattle.scan_job.specs.States.{passes_of};

use graph_meaning::Roles;
use header_rule::{Headers, Words};
use heap_base::OutOfMemory;
use object_table::ObjectTable;
use owner_phase::{owner_phase, take_up};
use root_phase::root_phase;
use scan_job::{ScanJob, ScanShared};
use std::alloc::Global;
use std::test::Fail;
use std::thread::Threads;
use steal_pool::{Crew, FirstTasks, OpenGate};
use tests_support::{Host, SampleHeap, cell, roles_in, table_of};

// ---- a run

// Headers of the table's cells, and a job for each worker.
fn start(
    alloc: Global,
    table: &ObjectTable,
    workers: u32,
) -> Result<(Headers, Vec<ScanJob>), OutOfMemory>
    requires { (0 < workers) × (workers ≤ MOST_WORKERS) }
    ensures { IfOk result (λ r. AreAllJobs workers table.now r.0 r.1.items) }
{
    let (headers, mut passes) = Headers::make(alloc, table.cells(), workers)?;
    let mut jobs = Vec::new(alloc);
    while let Some(pass) = passes.pop() {
        jobs.insert(0, ScanJob::make(alloc, pass, table.cells(), table.kinds())?)?;
    }
    Ok((headers, jobs))
}

// What runs: the owner phase alone, take-up behind it, or the root phase alone.
#[derive(Clone, Copy, Debug)]
enum Phases {
    Owners,
    OwnersAndTakeUp,
    Roots,
}

// Which phases run, and by how many workers.
#[derive(Clone, Copy)]
struct Plan {
    workers: u32,
    phases: Phases,
}

fn run<R: Threads + Sync>(
    host: &Host<'_, R>,
    shared: &ScanShared<'_>,
    jobs: &mut Vec<ScanJob>,
    plan: Plan,
) -> Result<(), OutOfMemory>
    requires workers { (0 < plan.workers) × (plan.workers ≤ MOST_WORKERS) }
    requires roles { AreRolesOf shared.now.table.now.cells (length shared.now.table.now.table.kinds) shared.now.roles.now }
    requires jobs { AreAllJobs plan.workers shared.now.table.now shared.now.headers.now jobs.old.items }
    ensures passes { OnOk result (ArePassesOf shared.now.headers.now (passes_of jobs.new.items)) }
    ensures kinds { OnOk result (CountKinds shared.now.table.now jobs.new.items) }
{
    let alloc = host.alloc;
    let cells = shared.table.cells();
    let mut crew: Crew<ScanJob> = Crew::make(alloc, plan.workers, 2 * cells as u64 + 1)?;
    let mut first = FirstTasks::make(alloc, plan.workers, cells)?;
    if let Phases::Roots = plan.phases {
        root_phase(host.rt, &mut crew, shared, jobs, &mut first, &OpenGate)?;
        return Ok(());
    }
    owner_phase(host.rt, &mut crew, shared, jobs, &mut first, &OpenGate)?;
    if let Phases::Owners = plan.phases {
        return Ok(());
    }
    take_up(host.rt, &mut crew, shared, jobs, &mut first, &OpenGate)?;
    Ok(())
}

// The words that the jobs' passes leave.
fn close(alloc: Global, headers: Headers, mut jobs: Vec<ScanJob>) -> Result<Words, OutOfMemory>
    requires { ArePassesOf headers (passes_of jobs.items) }
    ensures { IfOk result (λ w. w.cells ≡ headers.cells) }
{
    let mut passes = Vec::new(alloc);
    while let Some(job) = jobs.pop() {
        passes.insert(0, job.into_pass())?;
    }
    Ok(headers.close(passes))
}

// ---- what a run leaves

// How many cells all jobs hold.
fn all_held(jobs: &[ScanJob]) -> usize {
    let mut sum = 0usize;
    for job in jobs {
        sum = sum.saturating_add(job.held().len());
    }
    sum
}

// How many objects the jobs won together.
fn all_won(table: &ObjectTable, jobs: &[ScanJob]) -> u64
    requires { CountKinds table.now jobs.now }
{
    if table.kinds() == 0 {
        return 0;
    }
    let mut sum = 0u64;
    for job in jobs {
        sum = sum.saturating_add(job.tally().of(0));
    }
    sum
}

// The header of an object: how often it was met, and whether it is marked found, disputed and met by roots.
type Header = (u64, bool, bool, bool);

fn header(table: &ObjectTable, words: &Words, object: u32) -> Header
    requires { words.now.cells ≡ length table.now.cells }
{
    match cell(table, object) {
        Some(cell) => (
            words.count(cell),
            words.found(cell),
            words.disputed(cell),
            words.met_by_roots(cell),
        ),
        None => (0, false, false, false),
    }
}

// The headers of the objects 1 to 5.
fn first_headers(table: &ObjectTable, words: &Words) -> [Header; 5]
    requires { words.now.cells ≡ length table.now.cells }
{
    [
        header(table, words, 1),
        header(table, words, 2),
        header(table, words, 3),
        header(table, words, 4),
        header(table, words, 5),
    ]
}

// What phases leave: how many cells the jobs hold, how many objects they won, and the headers of the objects 1 to 5.
#[derive(Clone, Copy, Debug, PartialEq, Eq)]
struct Outcome {
    held: usize,
    won: u64,
    headers: [Header; 5],
}

fn outcome_of_table<R: Threads + Sync>(
    host: &Host<'_, R>,
    table: &ObjectTable,
    roles: &Roles,
    plan: Plan,
) -> Result<Outcome, OutOfMemory>
    requires workers { (0 < plan.workers) × (plan.workers ≤ MOST_WORKERS) }
    requires roles { AreRolesOf table.now.cells (length table.now.table.kinds) roles.now }
{
    let (headers, mut jobs) = start(host.alloc, table, plan.workers)?;
    let shared = ScanShared {
        headers: &headers,
        table,
        roles,
    };
    run(host, &shared, &mut jobs, plan)?;
    let held = all_held(jobs.as_slice());
    let won = all_won(table, jobs.as_slice());
    let words = close(host.alloc, headers, jobs)?;
    Ok(Outcome {
        held,
        won,
        headers: first_headers(table, &words),
    })
}

// The Node 1 owns 2; the owner 9 of 4 is gone. Two roots name 5, whose slots hold 1 and 2.
const HEAP: SampleHeap<'static> = SampleHeap {
    objects: &[
        (1, "Node", 3),
        (2, "Node", 1),
        (3, "Node", 0),
        (4, "Node", 0),
        (5, "Node", 2),
    ],
    stores: &[
        (1, 0, 2),
        (1, 1, 4),
        (1, 2, 5),
        (2, 0, 3),
        (5, 0, 1),
        (5, 1, 2),
    ],
    roots: &[("a", 5), ("b", 5)],
    owned: &[(1, 2), (9, 4)],
    ..SampleHeap::EMPTY
};

fn outcome_in<R: Threads + Sync>(
    host: &Host<'_, R>,
    table: &ObjectTable,
    heap: SampleHeap<'_>,
    plan: Plan,
) -> Result<Outcome, Fail>
    requires { (0 < plan.workers) × (plan.workers ≤ MOST_WORKERS) }
{
    let roles = roles_in(host.alloc, table, heap)?;
    Ok(outcome_of_table(host, table, &roles, plan)?)
}

fn outcome_in_heap<R: Threads + Sync>(
    host: &Host<'_, R>,
    heap: SampleHeap<'_>,
    plan: Plan,
) -> Result<Outcome, Fail>
    requires { (0 < plan.workers) × (plan.workers ≤ MOST_WORKERS) }
{
    let table = table_of(host.alloc, heap)?;
    outcome_in(host, &table, heap, plan)
}

// An object that was not met, and one that was met once or twice and has no mark.
const UNMET: Header = (0, false, false, false);

const ONCE: Header = (1, false, false, false);

const TWICE: Header = (2, false, false, false);

// An ownee that its owner met twice, one whose owner is gone, and one that roots lead to.
const FOUND: Header = (2, true, false, false);

const DISPUTED: Header = (1, false, true, false);

const MET_BY_ROOTS: Header = (1, false, false, true);

const CASES: [(Phases, Outcome); 3] = [
    // the scans stop at the ownees, which are held
    (
        Phases::Owners,
        Outcome {
            held: 2,
            won: 4,
            headers: [ONCE, FOUND, UNMET, DISPUTED, ONCE],
        },
    ),
    // and go on from what is held
    (
        Phases::OwnersAndTakeUp,
        Outcome {
            held: 0,
            won: 5,
            headers: [ONCE, FOUND, ONCE, DISPUTED, ONCE],
        },
    ),
    // the owner is met, and not scanned
    (
        Phases::Roots,
        Outcome {
            held: 0,
            won: 4,
            headers: [ONCE, MET_BY_ROOTS, ONCE, UNMET, TWICE],
        },
    ),
];

#[test]
fn each_phase_leaves_the_same_by_each_number_of_workers(rt: HostRuntime) -> Result<(), Fail> {
    let host = Host::of(&rt, rt.alloc());
    for (phases, outcome) in CASES {
        for workers in 1..4 {
            let found = outcome_in_heap(&host, HEAP, Plan { workers, phases })?;
            assert_eq!(rt; found, outcome, "{phases:?} by {workers} workers");
        }
    }
    Ok(())
}
