//! How each phase of a trace begins, and its run by a crew.
ghost use Rattle.std.specs.Bool.{OnTrue};
ghost use Rattle.std.specs.List.{All};
ghost use Rattle.std.specs.Prelude.{◌≡◌, [], length, map, IfOk};
ghost use Rattle.scan_job.specs.Phases.{CanRunJobs, HasRunJobs, starting_in};
ghost use Rattle.scan_job.specs.Shared.{shared_behind};
ghost use Rattle.scan_job.specs.States.{NoneSpent};
ghost use Rattle.steal_pool.specs.Runs.{workers_of, room_of};

use crate::job::ScanJob;
use crate::mode::Mode;
use crate::shared::ScanShared;
use heap_base::OutOfMemory;
use std::thread::Threads;
use steal_pool::{Crew, FirstTasks, Gate};

/// What all workers of a phase see.
#[derive(Clone, Copy)]
pub struct ScanContext<'a, R, G> {
    pub rt: &'a R,
    pub shared: &'a ScanShared<'a>,
    pub gate: &'a G,
}

/// Sets the mode of each job, and takes the held cells away.
pub fn begin_phase(jobs: &mut Vec<ScanJob>, mode: Mode)
    ensures { jobs.new.items ≡ map (starting_in mode) jobs.old.items }
{
    for job in jobs.iter_mut() {
        job.set_mode(mode);
        job.clear_held();
    }
}

// Whether no list has a task.
fn are_empty(first: &FirstTasks, workers: u32) -> bool
    requires { workers ≡ length first.now.lists }
    ensures { OnTrue result (All (λ f. f ≡ []) first.now.lists) }
{
    for worker in 0..workers {
        if !first.of(worker).is_empty() {
            return false;
        }
    }
    true
}

/// Whether no job is spent.
pub fn none_is_spent(jobs: &[ScanJob]) -> bool
    ensures { OnTrue result (NoneSpent jobs.now) }
{
    for job in jobs {
        if job.is_spent() {
            return false;
        }
    }
    true
}

// The crew's run from the first tasks, if there is one.
fn run_tasks<R: Threads + Sync, G: Gate>(
    context: ScanContext<'_, R, G>,
    crew: &mut Crew<ScanJob>,
    jobs: &mut Vec<ScanJob>,
    first: &FirstTasks,
)
    requires can { CanRunJobs (shared_behind context.shared.now) (record { jobs = jobs.old.items; first = first.now.lists }) (room_of crew.old) }
    requires jobs { length jobs.old.items ≡ workers_of crew.old }
    ensures ran { HasRunJobs (shared_behind context.entry.shared.now) (record { jobs = jobs.old.items; first = first.now.lists }) jobs.new.items }
    ensures room { room_of crew.new ≡ room_of crew.old }
    ensures workers { workers_of crew.new ≡ workers_of crew.old }
{
    if !are_empty(first, crew.workers()) {
        let ScanContext { rt, shared, gate } = context;
        crew.run(rt, shared, jobs, first, gate);
    }
}

/// The crew's run from the first tasks. Where there is none, nothing is to be done, and no thread is started. It is
/// out of memory where a job is spent afterwards: one worker has met more than 2^51 - `MOST_SLOTS` cells.
pub fn run_scans<R: Threads + Sync, G: Gate>(
    context: ScanContext<'_, R, G>,
    crew: &mut Crew<ScanJob>,
    jobs: &mut Vec<ScanJob>,
    first: &FirstTasks,
) -> Result<(), OutOfMemory>
    requires can { CanRunJobs (shared_behind context.shared.now) (record { jobs = jobs.old.items; first = first.now.lists }) (room_of crew.old) }
    requires jobs { length jobs.old.items ≡ workers_of crew.old }
    ensures ran { HasRunJobs (shared_behind context.entry.shared.now) (record { jobs = jobs.old.items; first = first.now.lists }) jobs.new.items }
    ensures left { IfOk result (λ _. NoneSpent jobs.new.items) }
    ensures room { room_of crew.new ≡ room_of crew.old }
    ensures workers { workers_of crew.new ≡ workers_of crew.old }
{
    run_tasks(context, crew, jobs, first);
    if none_is_spent(jobs.as_slice()) {
        Ok(())
    } else {
        Err(OutOfMemory)
    }
}
