//! The three phases of a trace, one after another.
ghost use Rattle.std.specs.Prelude.{IfOk};
ghost use Rattle.heap_marking.specs.TracedCells.{ThreePhases};
ghost use Rattle.scan_job.specs.Jobs.{shared_graph, scan_meaning};
ghost use Rattle.scan_job.specs.Phases.{CanScan};
ghost use Rattle.steal_pool.specs.Runs.{AreReady};

use heap_base::OutOfMemory;
use scan_job::{ScanContext, ScanJob};
use std::thread::Threads;
use steal_pool::{Crew, FirstTasks, Gate};

/// Scans from the owners, then from what that left held, and then from the roots. It takes no memory: it is
/// out of memory where a job is spent after a phase.
pub(crate) fn run_phases<R: Threads + Sync, G: Gate>(
    context: ScanContext<'_, R, G>,
    crew: &mut Crew<ScanJob>,
    jobs: &mut Vec<ScanJob>,
    first: &mut FirstTasks,
) -> Result<(), OutOfMemory>
    requires { CanScan context.shared.now jobs.old.items crew.old first.old }
    ensures phases { IfOk result (λ _. ThreePhases (shared_graph context.entry.shared.now) jobs.old.items jobs.new.items) }
    ensures ready { IfOk result (λ _. AreReady scan_meaning context.entry.shared.now jobs.new.items) }
{
    let ScanContext { rt, shared, gate } = context;
    owner_phase::owner_phase(rt, crew, shared, jobs, first, gate)?;
    owner_phase::take_up(rt, crew, shared, jobs, first, gate)?;
    root_phase::root_phase(rt, crew, shared, jobs, first, gate)?;
    Ok(())
}
