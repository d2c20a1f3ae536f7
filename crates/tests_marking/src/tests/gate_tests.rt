//! Two workers of a crew on two threads: that both begin, that one goes on while the other is held, and that one steals from the
//! other. And two workers of a trace, that both begin.
//!
//! Each crew has room for 1,000 tasks or more at a worker, since a smaller one runs on one thread.

ghost use Rattle.std.specs.Prelude.{◌≤◌};

use super::counters::{Work, run_cells};
use super::traces::{OwnedHeap, trace_table};
use heap_base::OutOfMemory;
use object_table::ObjectTable;
use std::alloc::Global;
use std::test::Fail;
use std::thread::Threads;
use steal_pool::{Crew, Gate};
use tests_support::{
    Cells, Counter, Holding, Host, SampleHeap, Shape, UNTIL_BOTH_BEGIN, UntilOneIsStolen, Watch,
    are_seen, id, name, table_of, until_many_are_begun,
};

/// The first cell, and 1,000 others that it leads to. These lead nowhere.
const FAN: Cells = Cells {
    count: 1_001,
    shape: Shape::Fan,
};

/// Each of two workers has a first task.
const FROM_BOTH: Work<'static> = Work {
    cells: &FAN,
    firsts: &[(0, 0), (1, 1)],
};

/// Worker 0 alone has one.
const FROM_ONE: Work<'static> = Work {
    cells: &FAN,
    firsts: &[(0, 0)],
};

// A run of two workers.
fn run_two<R: Threads + Sync, G: Gate>(
    host: &Host<'_, R>,
    work: Work<'_>,
    gate: &G,
) -> Result<Vec<Counter>, OutOfMemory>
    requires { work.cells.now.count ≤ 1_001 }
{
    let mut crew = Crew::make(host.alloc, 2, 1_006)?;
    run_cells(host, &mut crew, work, gate)
}

// How many tasks each of two workers began, where nobody gave up waiting.
fn begun(watch: &Watch) -> Option<(u64, u64)> {
    if watch.gave_up() {
        None
    } else {
        Some((watch.begun(0), watch.begun(1)))
    }
}

fn have_both_begun(watch: &Watch) -> bool {
    begun(watch).is_some_and(|begun| begun.0 > 0 && begun.1 > 0)
}

#[test]
fn both_workers_begin(rt: HostRuntime) -> Result<(), Fail> {
    let host = Host::of(&rt, rt.alloc());
    let gate = Holding {
        holds: &UNTIL_BOTH_BEGIN,
        watch: Watch::new(),
    };
    run_two(&host, FROM_BOTH, &gate)?;
    assert!(rt; have_both_begun(&gate.watch));
    Ok(())
}

// How many cells the second of two workers did, where it didn't do the first cell, and each cell was done once.
fn stolen(jobs: &[Counter]) -> Option<u64> {
    let thief = jobs.get(1)?;
    if thief.seen.get(0).copied() == Some(0) && are_seen(jobs, 1_001, 1) {
        Some(thief.seen.iter().filter(|times| **times > 0).count() as u64)
    } else {
        None
    }
}

/// Worker 1 has no first task, and what it does puts none. So it has each of its tasks from worker 0, who was in the middle of a
/// task when worker 1 got the first of them.
#[test]
fn a_worker_without_a_task_steals(rt: HostRuntime) -> Result<(), Fail> {
    let host = Host::of(&rt, rt.alloc());
    let gate = UntilOneIsStolen {
        watch: Watch::new(),
    };
    let jobs = run_two(&host, FROM_ONE, &gate)?;
    assert!(rt; have_both_begun(&gate.watch));
    assert_eq!(rt; stolen(jobs.as_slice()), Some(gate.watch.begun(1)));
    Ok(())
}

/// The last cell of the chain leads nowhere. So worker 0 has three tasks, and worker 1 has one.
#[test]
fn a_worker_goes_on_while_another_is_held(rt: HostRuntime) -> Result<(), Fail> {
    let host = Host::of(&rt, rt.alloc());
    let cells = Cells {
        count: 3,
        shape: Shape::Chain,
    };
    let holds = until_many_are_begun(3);
    let gate = Holding {
        holds: &holds,
        watch: Watch::new(),
    };
    let work = Work {
        cells: &cells,
        firsts: &[(0, 0), (1, 2)],
    };
    run_two(&host, work, &gate)?;
    assert_eq!(rt; begun(&gate.watch), Some((3, 1)));
    Ok(())
}

fn did_all(job: Option<&Counter>) -> bool {
    job.is_some_and(|job| job.seen.iter().all(|times| *times == 1))
}

/// While worker 1 is held, worker 0 does all that it put: none of it was dealt to worker 1.
#[test]
fn a_worker_that_asks_for_nothing_gets_nothing(rt: HostRuntime) -> Result<(), Fail> {
    let host = Host::of(&rt, rt.alloc());
    let holds = until_many_are_begun(1_001);
    let gate = Holding {
        holds: &holds,
        watch: Watch::new(),
    };
    let jobs = run_two(&host, FROM_BOTH, &gate)?;
    assert!(rt; did_all(jobs.first()));
    assert_eq!(rt; begun(&gate.watch), Some((1_001, 1)));
    Ok(())
}

// Fills the 1,000 slots of the object 1 with new objects.
fn add_children(alloc: Global, table: &mut ObjectTable) -> Result<(), Fail> {
    let kind = name(alloc, "Node")?;
    for child in 0..1_000 {
        table.alloc_object(id(child + 3)?, &kind, 0)?;
        table.store(id(1)?, child, Some(id(child + 3)?))?;
    }
    Ok(())
}

// Two objects that roots name, the first of which leads to 1,000 others.
fn wide_table(alloc: Global) -> Result<ObjectTable, Fail> {
    let heap = SampleHeap {
        objects: &[(1, "Node", 1_000), (2, "Node", 0)],
        roots: &[("a", 1), ("b", 2)],
        ..SampleHeap::EMPTY
    };
    let mut table = table_of(alloc, heap)?;
    add_children(alloc, &mut table)?;
    Ok(table)
}

// How many objects a trace by two workers has traced.
fn count_traced<R: Threads + Sync, G: Gate>(
    host: &Host<'_, R>,
    table: &ObjectTable,
    gate: &G,
) -> Result<u32, Fail> {
    let heap = OwnedHeap { table, owned: &[] };
    let traced = trace_table(host, heap, 2, gate)?;
    Ok(traced.traced())
}

fn count_traced_in_wide<R: Threads + Sync, G: Gate>(
    host: &Host<'_, R>,
    gate: &G,
) -> Result<u32, Fail> {
    let table = wide_table(host.alloc)?;
    count_traced(host, &table, gate)
}

#[test]
fn both_workers_of_a_trace_begin(rt: HostRuntime) -> Result<(), Fail> {
    let host = Host::of(&rt, rt.alloc());
    let gate = Holding {
        holds: &UNTIL_BOTH_BEGIN,
        watch: Watch::new(),
    };
    let traced = count_traced_in_wide(&host, &gate)?;
    assert_eq!(rt; (traced, have_both_begun(&gate.watch)), (1_002, true));
    Ok(())
}
