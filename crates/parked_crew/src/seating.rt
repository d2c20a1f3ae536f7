//! Jobs and first tasks become shares, and shares become jobs again.
ghost use Rattle.std.specs.Prelude.{◌≡◌, ◌≤◌, length, IfOk, vec_len};
ghost use Rattle.std.specs.Arc.{arc_value};
ghost use Rattle.heap_base.specs.declared.limits.TheConstants.{MOST_WORKERS};
ghost use Rattle.steal_pool.specs.Lists.{Each};
ghost use Rattle.parked_crew.specs.Progress.{IsSeatOf, jobs_in};

use crate::task_share::JobShare;
use heap_base::OutOfMemory;
use std::alloc::Global;
use std::sync::Arc;
use steal_pool::{FirstTasks, Job, Outbox, Task, ThreadCost};

/// Where the shares of a run are made, and what all of them have.
#[derive(Clone, Copy)]
pub struct Seating<'a, S, G> {
    pub alloc: Global,
    pub shared: &'a Arc<S>,
    pub gate: &'a Arc<G>,
    pub cost: ThreadCost,
}

// The share of the worker with this number at the beginning of a run.
fn seat<S: Sync + Drop, J: Job<S> + Drop, G: Drop>(
    seating: &Seating<'_, S, G>,
    job: J,
    list: &[Task],
    number: u32,
) -> Result<JobShare<S, J, G>, OutOfMemory>
    ensures { IfOk result (IsSeatOf J.meaning (arc_value seating.now.shared.now) job list.now) }
{
    let alloc = seating.alloc;
    let room = job.room();
    Ok(JobShare {
        job,
        list: list.to_vec(alloc)?,
        out: Outbox::make(alloc, room)?,
        done: 0,
        shared: Arc::try_clone(seating.shared)?,
        gate: Arc::try_clone(seating.gate)?,
        number,
        begun: 0,
        is_large: room >= seating.cost.second,
    })
}

/// The jobs at the beginning of a run, each with the list of its number.
pub fn seat_all<S: Sync + Drop, J: Job<S> + Drop, G: Drop>(
    seating: &Seating<'_, S, G>,
    jobs: Vec<J>,
    first: &FirstTasks,
) -> Result<Vec<JobShare<S, J, G>>, OutOfMemory>
    requires lists { length first.now.lists ≡ vec_len jobs }
    requires few { vec_len jobs ≤ MOST_WORKERS }
    ensures { IfOk result (λ ps. Each (IsSeatOf J.meaning (arc_value seating.now.shared.now)) jobs.items first.now.lists ps.items) }
{
    let mut shares = Vec::with_capacity(seating.alloc, jobs.len())?;
    for job in jobs {
        let number = shares.len() as u32;
        shares.push(seat(seating, job, first.of(number), number)?)?;
    }
    Ok(shares)
}

/// The jobs of these shares, in order.
pub fn unseat_all<S: Drop, J: Drop, G: Drop>(
    alloc: Global,
    shares: Vec<JobShare<S, J, G>>,
) -> Result<Vec<J>, OutOfMemory>
    ensures { IfOk result (λ js. js.items ≡ jobs_in shares.items) }
{
    let mut jobs = Vec::with_capacity(alloc, shares.len())?;
    for share in shares {
        let JobShare {
            job,
            list: _,
            out: _,
            done: _,
            shared: _,
            gate: _,
            number: _,
            begun: _,
            is_large: _,
        } = share;
        jobs.push(job)?;
    }
    Ok(jobs)
}
