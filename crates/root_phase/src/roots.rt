//! The scans from the roots.
ghost use Rattle.std.specs.Prelude.{◌≡◌, [], length, IfOk};
ghost use Rattle.scan_job.specs.Jobs.{shared_graph};
ghost use Rattle.scan_job.specs.Phases.{CanBeginPhase, CanScan, HasBegun, IsDone, from_roots, all_held, BeginsAtRoots};
ghost use Rattle.scan_job.specs.Shared.{shared_behind};
ghost use Rattle.steal_pool.specs.Runs.{workers_of, room_of};

use crate::meeting::meet_roots;
use heap_base::OutOfMemory;
use scan_job::{Mode, ScanContext, ScanJob, ScanShared, begin_phase, run_scans};
use std::thread::Threads;
use steal_pool::{Crew, FirstTasks, Gate};

/// Begins the root phase, whoever runs the jobs: the first job meets every root once, in order, and each of its wins that
/// is no owner is a first task. Such a win number k, from 0, goes first to worker k modulo the number of workers. What the
/// jobs held before is taken away. It takes no memory.
pub fn begin_root_phase(shared: &ScanShared<'_>, jobs: &mut Vec<ScanJob>, first: &mut FirstTasks)
    requires { CanBeginPhase (shared_behind shared.now) jobs.old.items first.old }
    ensures begun { HasBegun (shared_behind shared.now) from_roots jobs.old.items (record { jobs = jobs.new.items; first = first.new.lists }) }
    ensures first { BeginsAtRoots (shared_graph shared.now) (length jobs.old.items) first.new.lists }
    ensures first_room { first.new.room ≡ first.old.room }
{
    first.clear();
    begin_phase(jobs, Mode::Root);
    let workers = jobs.len() as u32;
    meet_roots(shared, &mut jobs[0], first, workers);
}

/// Meets every root once, in order, by the first job, and scans from those of its wins that are no owners. Such a win
/// number k, from 0, goes first to worker k modulo the number of workers; the lists stay in `first`. What the jobs
/// held before is taken away, and nothing is held afterwards. It takes no memory; where no win is to be scanned no
/// thread is started. It is out of memory where a job is spent afterwards.
pub fn root_phase<R: Threads + Sync, G: Gate>(
    rt: &R,
    crew: &mut Crew<ScanJob>,
    shared: &ScanShared<'_>,
    jobs: &mut Vec<ScanJob>,
    first: &mut FirstTasks,
    gate: &G,
) -> Result<(), OutOfMemory>
    requires { CanScan shared.now jobs.old.items crew.old first.old }
    ensures done { IfOk result (λ _. IsDone (shared_behind shared.now) from_roots jobs.old.items jobs.new.items) }
    ensures none_held { IfOk result (λ _. all_held jobs.new.items ≡ []) }
    ensures first { BeginsAtRoots (shared_graph shared.now) (workers_of crew.old) first.new.lists }
    ensures first_room { first.new.room ≡ first.old.room }
    ensures room { room_of crew.new ≡ room_of crew.old }
    ensures workers { workers_of crew.new ≡ workers_of crew.old }
{
    begin_root_phase(shared, jobs, first);
    let context = ScanContext { rt, shared, gate };
    run_scans(context, crew, jobs, first)
}
