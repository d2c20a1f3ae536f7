//! How the first job meets what the roots name.
ghost use Rattle.std.specs.Prelude.{◌≡◌, ◌+◌, ◌<◌, ◌≤◌, [], length, replicate, IsSome};
ghost use Rattle.object_table.specs.Placed.{id_in};
ghost use Rattle.scan_job.specs.declared.mode.Mode.TheVariants.{Root};
ghost use Rattle.scan_job.specs.Jobs.{IsReady};
ghost use Rattle.scan_job.specs.Phases.{cells_in};
ghost use Rattle.scan_job.specs.Shared.{shared_behind};
ghost use Rattle.scan_job.specs.States.{IsWithinWins, IsUnspent};
ghost use Rattle.root_phase.specs.Roots.{MeetsRoot, MeetsRoots};

use scan_job::{ScanJob, ScanShared};
use steal_pool::{FirstTasks, Task};

// Meets a cell that a root names, and says whether the scan goes on from it.
fn meet_one(shared: &ScanShared<'_>, job: &mut ScanJob, cell: u32) -> bool
    requires ready { IsReady job.old shared.now }
    requires mode { job.old.mode ≡ Root }
    requires left { 0 < job.old.pass.left }
    requires cell { IsSome (id_in shared.now.table.now cell) }
    ensures meets { MeetsRoot (shared_behind shared.now) (record { cell = cell; goes_on = result }) job.old job.new }
    ensures ready { IsReady job.new shared.now }
    ensures within_wins { IsWithinWins job.new }
{
    let owner = shared.roles.is_owner(cell);
    let won = job.meet_root(shared, cell);
    won && !owner
}

/// Meets each root once, in order, and deals a task of each win that is no owner to the workers in turn.
pub fn meet_roots(shared: &ScanShared<'_>, job: &mut ScanJob, first: &mut FirstTasks, workers: u32)
    requires some { 0 < workers }
    requires ready { IsReady job.old shared.now }
    requires mode { job.old.mode ≡ Root }
    requires left { IsUnspent job.old }
    requires lists { first.old.lists ≡ replicate workers [] }
    requires room { cells_in (shared_behind shared.now) ≤ first.old.room }
    ensures met { MeetsRoots (shared_behind shared.now) (length shared.now.table.now.table.roots) (record { job = job.old; lists = first.old.lists }) (record { job = job.new; lists = first.new.lists }) }
    ensures ready { IsReady job.new shared.now }
    ensures room { first.new.room ≡ first.old.room }
{
    let mut number = 0;
    for root in 0..shared.table.roots() {
        let cell = shared.table.root_cell(root);
        if meet_one(shared, job, cell) {
            first.add(number % workers, Task { cell, tag: 0 });
            number += 1;
        }
    }
}
