//! Runs of a crew of jobs that count how often they did each cell.
ghost use Rattle.std.specs.Prelude.{◌≡◌, ◌+◌, ◌<◌, ◌≤◌};
ghost use Rattle.steal_pool.specs.Runs.{workers_of, room_of};

use heap_base::OutOfMemory;
use std::thread::Threads;
use steal_pool::{Crew, Gate, OpenGate};
use tests_support::{Cells, Counter, Host, Shape, are_seen, first_tasks, new_counters};

/// What a crew does in a run: cells, and of its first tasks the worker and the cell.
#[derive(Clone, Copy)]
pub struct Work<'a> {
    pub cells: &'a Cells,
    pub firsts: &'a [(u32, u32)],
}

/// Whether each of so many cells is done once, from the first cell on, by so many workers.
pub fn is_done_once<R: Threads + Sync>(
    host: &Host<'_, R>,
    shape: Shape,
    count: u32,
    workers: u32,
) -> Result<bool, OutOfMemory>
    requires some { 0 < workers }
    requires few { workers ≤ 16 }
    requires cells { count ≤ 1_000_000 }
{
    let cells = Cells { count, shape };
    let work = Work {
        cells: &cells,
        firsts: &[(0, 0)],
    };
    let mut crew = Crew::make(host.alloc, workers, count as u64 + 5)?;
    let jobs = run_cells(host, &mut crew, work, &OpenGate)?;
    Ok(are_seen(jobs.as_slice(), count, 1))
}

/// A run of new jobs. It answers the jobs after it.
pub fn run_cells<R: Threads + Sync, G: Gate>(
    host: &Host<'_, R>,
    crew: &mut Crew<Counter>,
    work: Work<'_>,
    gate: &G,
) -> Result<Vec<Counter>, OutOfMemory>
    requires { work.cells.now.count + 5 ≤ room_of crew.old }
    ensures workers { workers_of crew.new ≡ workers_of crew.old }
    ensures room { room_of crew.new ≡ room_of crew.old }
{
    let alloc = host.alloc;
    let count = work.cells.count;
    let mut jobs = new_counters(alloc, crew.workers(), count)?;
    let first = first_tasks(alloc, crew.workers(), count, work.firsts)?;
    crew.run(host.rt, work.cells, &mut jobs, &first, gate);
    Ok(jobs)
}
