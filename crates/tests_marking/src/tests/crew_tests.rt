//! Runs of a crew: that each task is done once, by few and many workers, and how long those without a task wait.

ghost use Rattle.std.specs.Prelude.{◌≡◌, ◌<◌, ◌≤◌};
ghost use Rattle.steal_pool.specs.Runs.{room_of};

use super::counters::{Work, is_done_once, run_cells};
use heap_base::OutOfMemory;
use std::process::Abort;
use std::sync::atomic::{AtomicU64, Ordering};
use std::test::Fail;
use std::thread::Threads;
use steal_pool::{Crew, FirstTasks, Gate, OpenGate, Outbox, Task};
use tests_support::{Cells, Counter, Host, Shape, are_seen, times_seen};

/// Few cells, and so many that each worker has a thread of its own or some share one.
#[test]
fn each_cell_is_done_once(rt: HostRuntime) -> Result<(), Fail> {
    let host = Host::of(&rt, rt.alloc());
    for (shape, count) in [
        (Shape::Chain, 4),
        (Shape::Tree, 4),
        (Shape::Fan, 4),
        (Shape::Chain, 20_000),
        (Shape::Tree, 300_000),
        (Shape::Fan, 100_000),
        (Shape::Opening(10_000), 300_000),
    ] {
        for workers in [1, 2, 16] {
            let once = is_done_once(&host, shape, count, workers)?;
            assert!(rt; once, "{count} cells by {workers} workers");
        }
    }
    Ok(())
}

const TREE: Cells = Cells {
    count: 100,
    shape: Shape::Tree,
};

// How often one more run of the crew does the first cell.
fn times_done<R: Threads + Sync>(
    host: &Host<'_, R>,
    crew: &mut Crew<Counter>,
    firsts: &[(u32, u32)],
) -> Result<u64, OutOfMemory>
    requires { 105 ≤ room_of crew.old }
    ensures { room_of crew.new ≡ room_of crew.old }
{
    let work = Work {
        cells: &TREE,
        firsts,
    };
    let jobs = run_cells(host, crew, work, &OpenGate)?;
    Ok(times_seen(jobs.as_slice(), 0))
}

fn check_runs<R: Threads + Sync + Abort>(
    host: &Host<'_, R>,
    crew: &mut Crew<Counter>,
) -> Result<(), Fail>
    requires { 105 ≤ room_of crew.old }
{
    let rt = host.rt;
    assert_eq!(rt; times_done(host, crew, &[(1, 0)])?, 1);
    assert_eq!(rt; times_done(host, crew, &[])?, 0);
    assert_eq!(rt; times_done(host, crew, &[(0, 0), (1, 0)])?, 2);
    Ok(())
}

#[test]
fn a_crew_runs_again(rt: HostRuntime) -> Result<(), Fail> {
    let host = Host::of(&rt, rt.alloc());
    let mut crew = Crew::make(rt.alloc(), 3, 105)?;
    check_runs(&host, &mut crew)
}

#[test]
fn first_tasks_are_those_that_were_added(rt: HostRuntime) -> Result<(), Fail> {
    let task = Task { cell: 7, tag: 1 };
    let mut first = FirstTasks::make(rt.alloc(), 2, 4)?;
    first.add(1, task);
    let added = (first.of(0).first().copied(), first.of(1).first().copied());
    first.clear();
    let cleared = first.of(1).is_empty();
    assert_eq!(rt; (added, cleared), ((None, Some(task)), true));
    Ok(())
}

#[test]
fn an_outbox_has_what_was_put(rt: HostRuntime) -> Result<(), Fail> {
    let task = Task { cell: 7, tag: 1 };
    let mut out = Outbox::make(rt.alloc(), 2)?;
    out.put(task);
    let put = (out.tasks().first().copied(), out.spare());
    out.clear();
    let cleared = (out.tasks().first().copied(), out.spare());
    assert_eq!(rt; [put, cleared], [(Some(task), 1), (None, 2)]);
    Ok(())
}

/// Counts the tasks and the idle turns of all workers.
#[derive(Drop)]
struct Counting {
    tasks: AtomicU64,
    idle: AtomicU64,
}

impl Gate for Counting {
    fn task(&self, _worker: u32, _nth: u64) {
        self.tasks.fetch_add(1, Ordering::SeqCst);
    }

    fn idle(&self, _worker: u32, _turn: u32) {
        self.idle.fetch_add(1, Ordering::SeqCst);
    }
}

impl Counting {
    fn make() -> Counting {
        Counting {
            tasks: AtomicU64::new(0),
            idle: AtomicU64::new(0),
        }
    }

    // The numbers of tasks and of idle turns.
    fn seen(&self) -> (u64, u64) {
        let tasks = self.tasks.load(Ordering::SeqCst);
        (tasks, self.idle.load(Ordering::SeqCst))
    }
}

// How many tasks and idle turns a run has that does each of the cells so often, from the task of the first cell for one worker on,
// or from no task.
fn turns_of_run<R: Threads + Sync>(
    host: &Host<'_, R>,
    workers: u32,
    work: Work<'_>,
    times: u64,
) -> Result<Option<(u64, u64)>, OutOfMemory>
    requires some { 0 < workers }
    requires few { workers ≤ 16 }
    requires cells { work.cells.now.count ≤ 1_000 }
{
    let gate = Counting::make();
    let mut crew = Crew::make(host.alloc, workers, work.cells.count as u64 + 5)?;
    let jobs = run_cells(host, &mut crew, work, &gate)?;
    Ok(are_seen(jobs.as_slice(), work.cells.count, times).then_some(gate.seen()))
}

/// Nobody else is waited for: each worker stops at its first turn without a task.
#[test]
fn a_short_run_has_one_thread(rt: HostRuntime) -> Result<(), Fail> {
    let host = Host::of(&rt, rt.alloc());
    for first in [3, 0, 15] {
        let work = Work {
            cells: &TREE,
            firsts: &[(first, 0)],
        };
        let turns = turns_of_run(&host, 16, work, 1)?;
        assert_eq!(rt; turns, Some((100, 16)));
    }
    Ok(())
}

/// Each of two workers, on two threads, stops at its eighth turn.
#[test]
fn nobody_waits_where_nobody_has_a_task(rt: HostRuntime) -> Result<(), Fail> {
    let host = Host::of(&rt, rt.alloc());
    let cells = Cells {
        count: 1_000,
        shape: Shape::Tree,
    };
    let work = Work {
        cells: &cells,
        firsts: &[],
    };
    let turns = turns_of_run(&host, 2, work, 0)?;
    assert_eq!(rt; turns, Some((0, 16)));
    Ok(())
}
