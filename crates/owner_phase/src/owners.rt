//! The scans from the owners.
ghost use Rattle.std.specs.Prelude.{◌≡◌, ◌<◌, ◌≤◌, [], length, map, replicate, IfOk};
ghost use Rattle.heap_base.specs.declared.limits.TheConstants.{MOST_OBJECTS};
ghost use Rattle.scan_job.specs.Phases.{CanBeginPhase, CanScan, HasBegun, IsDone, from_owners, task_lists, owner_firsts};
ghost use Rattle.scan_job.specs.Scans.{task_at};
ghost use Rattle.scan_job.specs.Shared.{shared_behind};
ghost use Rattle.steal_pool.specs.Runs.{workers_of, room_of};

use heap_base::OutOfMemory;
use scan_job::{Mode, ScanContext, ScanJob, ScanShared, begin_phase, run_scans};
use std::thread::Threads;
use steal_pool::{Crew, FirstTasks, Gate, Task};

// Deals a task of each owner to the workers in turn.
fn add_owners(owners: &[u32], first: &mut FirstTasks, workers: u32)
    requires some { 0 < workers }
    requires lists { first.old.lists ≡ replicate workers [] }
    requires room { length owners.now ≤ first.old.room }
    requires few { length owners.now ≤ MOST_OBJECTS }
    ensures lists { first.new.lists ≡ task_lists workers (map (λ o. task_at o o) owners.now) }
    ensures room { first.new.room ≡ first.old.room }
{
    for (number, owner) in owners.iter().enumerate() {
        first.add(
            number as u32 % workers,
            Task {
                cell: *owner,
                tag: *owner,
            },
        );
    }
}

/// Begins the owner phase, whoever runs the jobs: owner number k, from 0, goes first to worker k modulo the number of
/// workers, in the order of the roles. What the jobs held before is taken away. It takes no memory.
pub fn begin_owner_phase(shared: &ScanShared<'_>, jobs: &mut Vec<ScanJob>, first: &mut FirstTasks)
    requires { CanBeginPhase (shared_behind shared.now) jobs.old.items first.old }
    ensures begun { HasBegun (shared_behind shared.now) from_owners jobs.old.items (record { jobs = jobs.new.items; first = first.new.lists }) }
    ensures first { first.new.lists ≡ task_lists (length jobs.old.items) (owner_firsts shared.now.roles.now) }
    ensures first_room { first.new.room ≡ first.old.room }
{
    first.clear();
    add_owners(shared.roles.owners(), first, jobs.len() as u32);
    begin_phase(jobs, Mode::Owner);
}

/// Scans from every owner. Owner number k, from 0, goes first to worker k modulo the number of workers, in the order
/// of the roles; the lists stay in `first`. What the jobs held before is taken away. Afterwards they hold the ownees
/// at which the scans stopped, and all is as `take_up` asks. It takes no memory; where there is no owner no thread is
/// started. It is out of memory where a job is spent afterwards.
pub fn owner_phase<R: Threads + Sync, G: Gate>(
    rt: &R,
    crew: &mut Crew<ScanJob>,
    shared: &ScanShared<'_>,
    jobs: &mut Vec<ScanJob>,
    first: &mut FirstTasks,
    gate: &G,
) -> Result<(), OutOfMemory>
    requires { CanScan shared.now jobs.old.items crew.old first.old }
    ensures done { IfOk result (λ _. IsDone (shared_behind shared.now) from_owners jobs.old.items jobs.new.items) }
    ensures first { first.new.lists ≡ task_lists (workers_of crew.old) (owner_firsts shared.now.roles.now) }
    ensures first_room { first.new.room ≡ first.old.room }
    ensures room { room_of crew.new ≡ room_of crew.old }
    ensures workers { workers_of crew.new ≡ workers_of crew.old }
{
    begin_owner_phase(shared, jobs, first);
    let context = ScanContext { rt, shared, gate };
    run_scans(context, crew, jobs, first)
}
