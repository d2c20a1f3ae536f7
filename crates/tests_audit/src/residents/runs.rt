//! Runs of a resident crew over cells.
ghost use Rattle.std.specs.Prelude.{◌≡◌};
ghost use Rattle.parked_crew.specs.TaskCrews.{workers_of};

use heap_base::OutOfMemory;
use parked_crew::Residents;
use std::sync::{Arc, Wait};
use steal_pool::Gate;
use tests_support::{Cells, Counter, Host, first_tasks, new_counters};

/// A run of new jobs. It answers the jobs after it.
pub fn run_cells<R: Wait, G: Gate + Send + Drop + 'static>(
    host: &Host<'_, R>,
    crew: &mut Residents<Cells, Counter, G>,
    cells: &Arc<Cells>,
    firsts: &[(u32, u32)],
) -> Result<Vec<Counter>, OutOfMemory>
    ensures { workers_of crew.new ≡ workers_of crew.old }
{
    let alloc = host.alloc;
    let workers = crew.workers();
    let jobs = new_counters(alloc, workers, cells.count)?;
    let first = first_tasks(alloc, workers, cells.count, firsts)?;
    crew.run(host.rt, cells, jobs, &first)
}
