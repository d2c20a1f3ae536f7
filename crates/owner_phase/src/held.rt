//! Take-up: the scans from the ownees at which the scans from the owners stopped.
ghost use Rattle.std.specs.List.{All};
ghost use Rattle.std.specs.Prelude.{◌≡◌, ℕ, ◌*◌, ◌<◌, ◌≤◌, [], length, replicate, IfOk};
ghost use Rattle.heap_base.specs.declared.limits.TheConstants.{MOST_OBJECTS, MOST_WORKERS};
ghost use Rattle.scan_job.specs.Jobs.{shared_graph};
ghost use Rattle.scan_job.specs.Phases.{CanBeginPhase, CanScan, HasBegun, IsDone, from_held, all_held, AreUnderOwners, task_lists, held_firsts};
ghost use Rattle.scan_job.specs.Shared.{shared_behind};
ghost use Rattle.steal_pool.specs.Runs.{workers_of, room_of};

use heap_base::OutOfMemory;
use scan_job::{Mode, ScanContext, ScanJob, ScanShared, begin_phase, run_scans};
use std::thread::Threads;
use steal_pool::{Crew, FirstTasks, Gate, Task};

// Deals a task of each held cell to the workers in turn.
fn add_held(jobs: &[ScanJob], first: &mut FirstTasks, workers: u32)
    requires some { 0 < workers }
    requires few { workers ≤ MOST_WORKERS }
    requires jobs { length jobs.now ≡ workers }
    requires lists { first.old.lists ≡ replicate workers [] }
    requires room { All (λ j. j.cells ≤ first.old.room) jobs.now }
    requires cells { All (λ j. j.cells ≤ MOST_OBJECTS) jobs.now }
    ensures lists { first.new.lists ≡ task_lists workers (held_firsts jobs.now) }
    ensures room { first.new.room ≡ first.old.room }
    ensures few { (cells : ℕ) → All (λ j. j.cells ≤ cells) jobs.now → length (all_held jobs.now) ≤ length jobs.now * cells }
{
    let mut number = 0;
    for job in jobs {
        for cell in job.held() {
            first.add(
                number % workers,
                Task {
                    cell: *cell,
                    tag: 0,
                },
            );
            number += 1;
        }
    }
}

/// Begins take-up, whoever runs the jobs: held cell number k, from 0, by job and then in the order of `held()`, goes
/// first to worker k modulo the number of workers. It takes no memory.
pub fn begin_take_up(shared: &ScanShared<'_>, jobs: &mut Vec<ScanJob>, first: &mut FirstTasks)
    requires begin { CanBeginPhase (shared_behind shared.now) jobs.old.items first.old }
    requires held { AreUnderOwners (shared_graph shared.now) (all_held jobs.old.items) }
    ensures begun { HasBegun (shared_behind shared.now) (from_held (all_held jobs.old.items)) jobs.old.items (record { jobs = jobs.new.items; first = first.new.lists }) }
    ensures first { first.new.lists ≡ task_lists (length jobs.old.items) (held_firsts jobs.old.items) }
    ensures first_room { first.new.room ≡ first.old.room }
{
    first.clear();
    add_held(jobs.as_slice(), first, jobs.len() as u32);
    begin_phase(jobs, Mode::TakeUp);
}

/// Scans from every cell that the jobs hold, which holds an object that is under owners and no owner. Held cell
/// number k, from 0, by job and then in the order of `held()`, goes first to worker k modulo the number of workers;
/// the lists stay in `first`. Afterwards nothing is held, and no mark was set. It takes no memory; where nothing is
/// held no thread is started. It is out of memory where a job is spent afterwards.
pub fn take_up<R: Threads + Sync, G: Gate>(
    rt: &R,
    crew: &mut Crew<ScanJob>,
    shared: &ScanShared<'_>,
    jobs: &mut Vec<ScanJob>,
    first: &mut FirstTasks,
    gate: &G,
) -> Result<(), OutOfMemory>
    requires scan { CanScan shared.now jobs.old.items crew.old first.old }
    requires held { AreUnderOwners (shared_graph shared.now) (all_held jobs.old.items) }
    ensures done { IfOk result (λ _. IsDone (shared_behind shared.now) (from_held (all_held jobs.old.items)) jobs.old.items jobs.new.items) }
    ensures none_held { IfOk result (λ _. all_held jobs.new.items ≡ []) }
    ensures first { first.new.lists ≡ task_lists (workers_of crew.old) (held_firsts jobs.old.items) }
    ensures first_room { first.new.room ≡ first.old.room }
    ensures room { room_of crew.new ≡ room_of crew.old }
    ensures workers { workers_of crew.new ≡ workers_of crew.old }
{
    begin_take_up(shared, jobs, first);
    let context = ScanContext { rt, shared, gate };
    run_scans(context, crew, jobs, first)
}
