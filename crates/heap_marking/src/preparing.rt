//! How the memory of a trace is taken.
ghost use Rattle.std.specs.Prelude.{◌≡◌, ◌<◌, ◌≤◌, length, IfOk};
ghost use Rattle.std.specs.List.{All};
ghost use Rattle.heap_base.specs.declared.limits.TheConstants.{MOST_OBJECTS, MOST_WORKERS};
ghost use Rattle.header_rule.specs.Passes.{IsFresh};
ghost use Rattle.heap_marking.specs.Kits.{kit_cells, kit_kinds};
ghost use Rattle.heap_marking.specs.TracedCells.{IsNewFor};
ghost use Rattle.scan_job.specs.States.{passes_of};

use crate::kit::{Kit, Workers};
use crate::memory::TraceMemory;
use header_rule::{Headers, Pass};
use heap_base::OutOfMemory;
use instance_ledger::Tally;
use scan_job::ScanJob;
use std::alloc::Global;
use steal_pool::{Crew, FirstTasks, ThreadCost};

// A job for each pass, in order.
fn make_jobs(
    alloc: Global,
    passes: Vec<Pass>,
    cells: u32,
    kinds: u32,
) -> Result<Vec<ScanJob>, OutOfMemory>
    requires fresh { All IsFresh passes.items }
    ensures passes { IfOk result (λ js. passes_of js.items ≡ passes.items) }
    ensures new { IfOk result (λ js. All (IsNewFor cells kinds) js.items) }
{
    let mut jobs = Vec::new(alloc);
    for pass in passes {
        jobs.push(ScanJob::make(alloc, pass, cells, kinds)?)?;
    }
    Ok(jobs)
}

impl TraceMemory {
    /// The memory of a trace of so many cells and types by 1 to 16 workers, whoever runs its jobs. Answers `OutOfMemory`
    /// when memory runs out.
    pub fn take(
        alloc: Global,
        cells: u32,
        kinds: u32,
        workers: u32,
    ) -> Result<TraceMemory, OutOfMemory>
        requires cells { cells ≤ MOST_OBJECTS }
        requires workers { (0 < workers) × (workers ≤ MOST_WORKERS) }
        ensures cells { IfOk result (λ m. m.headers.cells ≡ cells) }
        ensures kinds { IfOk result (λ m. length m.tally ≡ kinds) }
        ensures workers { IfOk result (λ m. length m.jobs.items ≡ workers) }
    {
        let tally = Tally::make(alloc, kinds)?;
        let first = FirstTasks::make(alloc, workers, cells)?;
        let (headers, passes) = Headers::make(alloc, cells, workers)?;
        let jobs = make_jobs(alloc, passes, cells, kinds)?;
        let passes = Vec::with_capacity(alloc, workers as usize)?;
        Ok(TraceMemory {
            headers,
            jobs,
            first,
            passes,
            tally,
        })
    }
}

impl Kit {
    /// The memory of a trace of so many cells and types by 1 to 16 workers. A cell costs at most 64 bytes with one
    /// worker. Answers `OutOfMemory` when memory runs out.
    pub fn prepare(alloc: Global, cells: u32, kinds: u32, workers: u32) -> Result<Kit, OutOfMemory>
        requires cells { cells ≤ MOST_OBJECTS }
        requires workers { (0 < workers) × (workers ≤ MOST_WORKERS) }
        ensures cells { IfOk result (λ k. kit_cells k ≡ cells) }
        ensures kinds { IfOk result (λ k. kit_kinds k ≡ kinds) }
    {
        let workers = Workers {
            number: workers,
            cost: ThreadCost::usual(),
        };
        Kit::prepare_for(alloc, cells, kinds, workers)
    }

    /// The same by these workers, whose threads have this cost.
    pub fn prepare_for(
        alloc: Global,
        cells: u32,
        kinds: u32,
        workers: Workers,
    ) -> Result<Kit, OutOfMemory>
        requires cells { cells ≤ MOST_OBJECTS }
        requires workers { (0 < workers.number) × (workers.number ≤ MOST_WORKERS) }
        ensures cells { IfOk result (λ k. kit_cells k ≡ cells) }
        ensures kinds { IfOk result (λ k. kit_kinds k ≡ kinds) }
    {
        let memory = TraceMemory::take(alloc, cells, kinds, workers.number)?;
        // A worker has at most as many first tasks as there are cells, and puts each cell that it wins once.
        let crew = Crew::with_cost(alloc, workers.number, 2 * cells as u64 + 1, workers.cost)?;
        let kept = Vec::with_capacity(alloc, cells as usize)?;
        Ok(Kit { memory, crew, kept })
    }
}
