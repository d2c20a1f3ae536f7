//! The three phases of a trace, one after another, by workers that stay.
ghost use Rattle.std.specs.Arc.{arc_value};
ghost use Rattle.std.specs.Prelude.{◌≡◌, ◌+◌, ◌*◌, length, IfOk};
ghost use Rattle.steal_pool.specs.Runs.{AreReady};
ghost use Rattle.scan_job.specs.Jobs.{graph_in, shared_meaning};
ghost use Rattle.scan_job.specs.Phases.{CanBeginPhase, CanRunJobs, HasRunJobs, cells_in};
ghost use Rattle.scan_job.specs.Shared.{shared_behind};
ghost use Rattle.scan_job.specs.States.{NoneSpent};
ghost use Rattle.heap_marking.specs.TracedCells.{ThreePhases};
ghost use Rattle.parked_crew.specs.TaskCrews.{workers_of};
ghost use Rattle.resident_crew.specs.Scans.{shared_by_scan};

use crate::job::ResidentJob;
use crate::scan::ResidentScan;
use heap_base::OutOfMemory;
use owner_phase::{begin_owner_phase, begin_take_up};
use parked_crew::Residents;
use root_phase::begin_root_phase;
use scan_job::{ScanJob, ScanShared, none_is_spent};
use std::alloc::Global;
use std::sync::{Arc, Wait};
use steal_pool::{FirstTasks, Gate};

/// Workers that stay and trace heaps.
pub type TraceCrew<G> = Residents<ResidentScan, ResidentJob, G>;

/// What all runs of a trace have.
#[derive(Clone, Copy)]
pub struct TraceContext<'a, R> {
    pub rt: &'a R,
    pub alloc: Global,
    pub shared: &'a Arc<ResidentScan>,
}

/// Scans from the owners, then from what that left held, and then from the roots. When out of memory the crew can run again. It is
/// out of memory too where a job is spent after a phase.
pub fn run_phases<R: Wait, G: Gate + Send + Drop + 'static>(
    context: &TraceContext<'_, R>,
    crew: &mut TraceCrew<G>,
    mut jobs: Vec<ScanJob>,
    mut first: FirstTasks,
) -> Result<Vec<ScanJob>, OutOfMemory>
    requires begin { CanBeginPhase (shared_by_scan (arc_value context.now.shared.now)) jobs.items first }
    requires jobs { length jobs.items ≡ workers_of crew.old }
    ensures phases { IfOk result (λ ms. ThreePhases (graph_in (shared_by_scan (arc_value context.now.shared.now))) jobs.items ms.items) }
    ensures ready { IfOk result (λ ms. AreReady shared_meaning (shared_by_scan (arc_value context.now.shared.now)) ms.items) }
    ensures workers { workers_of crew.new ≡ workers_of crew.old }
{
    let shared = context.shared;
    begin_owner_phase(&lend(shared), &mut jobs, &mut first);
    let mut after_owners = run_jobs(context, crew, jobs, &first)?;
    begin_take_up(&lend(shared), &mut after_owners, &mut first);
    let mut after_take_up = run_jobs(context, crew, after_owners, &first)?;
    begin_root_phase(&lend(shared), &mut after_take_up, &mut first);
    let after_roots = run_jobs(context, crew, after_take_up, &first)?;
    Ok(after_roots)
}

fn lend(shared: &Arc<ResidentScan>) -> ScanShared<'_>
    ensures { shared_behind result ≡ shared_by_scan (arc_value shared.now) }
{
    shared.lend()
}

// The crew's run from the first tasks. It is out of memory too where a job is spent afterwards.
fn run_jobs<R: Wait, G: Gate + Send + Drop + 'static>(
    context: &TraceContext<'_, R>,
    crew: &mut TraceCrew<G>,
    jobs: Vec<ScanJob>,
    first: &FirstTasks,
) -> Result<Vec<ScanJob>, OutOfMemory>
    requires can { CanRunJobs (shared_by_scan (arc_value context.now.shared.now)) (record { jobs = jobs.items; first = first.now.lists }) (2 * cells_in (shared_by_scan (arc_value context.now.shared.now)) + 1) }
    requires jobs { length jobs.items ≡ workers_of crew.old }
    ensures ran { IfOk result (λ ks. HasRunJobs (shared_by_scan (arc_value context.now.shared.now)) (record { jobs = jobs.items; first = first.now.lists }) ks.items) }
    ensures left { IfOk result (λ ks. NoneSpent ks.items) }
    ensures workers { workers_of crew.new ≡ workers_of crew.old }
{
    let jobs = run_crew(context, crew, jobs, first)?;
    if none_is_spent(jobs.as_slice()) {
        Ok(jobs)
    } else {
        Err(OutOfMemory)
    }
}

// The crew's run from the first tasks, whether or not a job is spent afterwards.
fn run_crew<R: Wait, G: Gate + Send + Drop + 'static>(
    context: &TraceContext<'_, R>,
    crew: &mut TraceCrew<G>,
    jobs: Vec<ScanJob>,
    first: &FirstTasks,
) -> Result<Vec<ScanJob>, OutOfMemory>
    requires can { CanRunJobs (shared_by_scan (arc_value context.now.shared.now)) (record { jobs = jobs.items; first = first.now.lists }) (2 * cells_in (shared_by_scan (arc_value context.now.shared.now)) + 1) }
    requires jobs { length jobs.items ≡ workers_of crew.old }
    ensures ran { IfOk result (λ ks. HasRunJobs (shared_by_scan (arc_value context.now.shared.now)) (record { jobs = jobs.items; first = first.now.lists }) ks.items) }
    ensures workers { workers_of crew.new ≡ workers_of crew.old }
{
    let jobs = wrap(context.alloc, jobs)?;
    let jobs = crew.run(context.rt, context.shared, jobs, first)?;
    unwrap(context.alloc, jobs)
}

// The same jobs, as those of workers that stay.
fn wrap(alloc: Global, jobs: Vec<ScanJob>) -> Result<Vec<ResidentJob>, OutOfMemory>
    ensures { IfOk result (λ js. js.items ≡ jobs.items) }
{
    let mut wrapped = Vec::with_capacity(alloc, jobs.len())?;
    for scan in jobs {
        wrapped.push(ResidentJob { scan })?;
    }
    Ok(wrapped)
}

// The scan jobs in these.
fn unwrap(alloc: Global, jobs: Vec<ResidentJob>) -> Result<Vec<ScanJob>, OutOfMemory>
    ensures { IfOk result (λ js. js.items ≡ jobs.items) }
{
    let mut unwrapped = Vec::with_capacity(alloc, jobs.len())?;
    for job in jobs {
        let ResidentJob { scan } = job;
        unwrapped.push(scan)?;
    }
    Ok(unwrapped)
}
