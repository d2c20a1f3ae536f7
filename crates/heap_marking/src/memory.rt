//! The memory of a trace, whoever runs its jobs.
ghost use Rattle.std.specs.Prelude.{◌≡◌, ℕ, ◌<◌, ◌≤◌, [], length, vec_capacity, slice_index};
ghost use Rattle.std.specs.List.{All};
ghost use Rattle.heap_base.specs.declared.limits.TheConstants.{MOST_OBJECTS, MOST_WORKERS};
ghost use Rattle.header_rule.specs.Passes.{ArePassesOf};
ghost use Rattle.heap_marking.specs.PassProps.{pass_props};
ghost use Rattle.heap_marking.specs.TracedCells.{IsNewFor};
ghost use Rattle.scan_job.specs.States.{passes_of};

use header_rule::{Headers, Pass};
use instance_ledger::Tally;
use scan_job::ScanJob;
use steal_pool::FirstTasks;

/// A header word for each cell, a job and a list of first tasks for each of 1 to 16 workers, and where what the jobs
/// found comes together.
#[derive(Drop)]
pub struct TraceMemory {
    pub headers: Headers,
    pub jobs: Vec<ScanJob>,
    pub first: FirstTasks,
    /// Empty, with room for the passes of all jobs.
    pub passes: Vec<Pass>,
    /// 0 of each type.
    pub tally: Tally,
    ghost pass_each: { ArePassesOf headers (passes_of jobs.items) } by { Prim.hlevel pass_props },
    ghost new_jobs: { All (IsNewFor headers.cells (length tally)) jobs.items },
    ghost some_jobs: { 0 < length jobs.items },
    ghost few_jobs: { length jobs.items ≤ MOST_WORKERS },
    ghost few_cells: { headers.cells ≤ MOST_OBJECTS },
    ghost list_each: { length first.lists ≡ length jobs.items },
    ghost list_room: { headers.cells ≤ first.room },
    ghost no_passes: { passes.items ≡ [] },
    ghost pass_room: { length jobs.items ≤ vec_capacity passes },
    ghost zero: { (kind : ℕ) → slice_index tally kind ≡ 0 },
}
