//! The crew and its run.
ghost use Rattle.std.specs.Prelude.{◌≡◌, ◌<◌, ◌≤◌, [], length, IfOk, MatchBool, vec_len};
ghost use Rattle.std.specs.Arc.{arc_value};
ghost use Rattle.std.specs.List.{All};
ghost use Rattle.heap_base.specs.declared.limits.TheConstants.{MOST_WORKERS};
ghost use Rattle.steal_pool.specs.Jobs.{AllFit};
ghost use Rattle.steal_pool.specs.Runs.{fit_tasks, most_tasks, AreReady, ShareFit, HaveTurns, TurnsLast, Run};
ghost use Rattle.parked_crew.specs.TaskCrews.{workers_of};
ghost use Rattle.parked_crew.specs.Progress.{to_do, Progress};

use crate::crew::ParkedCrew;
use crate::residents::Residents;
use crate::seating::{Seating, seat_all, unseat_all};
use crate::task_dealing::{deal, gather};
use crate::task_share::JobShare;
use heap_base::OutOfMemory;
use std::alloc::Global;
use std::sync::{Arc, Wait};
use std::thread::Threads;
use steal_pool::{FirstTasks, Gate, Job, Task, ThreadCost};

// Whether a worker has a task.
fn has_tasks<S, J, G>(shares: &[JobShare<S, J, G>]) -> bool
    ensures { MatchBool result (0 < length (to_do shares.now)) (to_do shares.now ≡ []) }
{
    for share in shares {
        if !share.list.is_empty() {
            return true;
        }
    }
    false
}

impl<
    S: Send + Sync + Drop + 'static,
    J: Job<S> + Send + Drop + 'static,
    G: Gate + Send + Drop + 'static,
> Residents<S, J, G> {
    /// A crew of 1 to 16 workers, all parked. A thread that can't be started is no error: the caller does what its worker is to do.
    /// When out of memory, the threads that were started are ended first.
    pub fn start<R: Threads + Wait + Clone + Drop + Send + Sync + 'static>(
        rt: &R,
        alloc: Global,
        workers: u32,
        gate: Arc<G>,
    ) -> Result<Residents<S, J, G>, OutOfMemory>
        requires some { 0 < workers }
        requires few { workers ≤ MOST_WORKERS }
        ensures { IfOk result (λ r. workers_of r ≡ workers) }
    {
        Ok(Residents {
            crew: ParkedCrew::start(rt, alloc, workers)?,
            gate,
            alloc,
            cost: ThreadCost::usual(),
        })
    }

    /// The same crew, whose threads cost so much: those of a run that has fewer tasks than pay for a second thread stay parked.
    pub fn with_cost(self, cost: ThreadCost) -> Residents<S, J, G>
        ensures { workers_of result ≡ workers_of self }
    {
        let Residents {
            crew,
            gate,
            alloc,
            cost: _,
        } = self;
        Residents {
            crew,
            gate,
            alloc,
            cost,
        }
    }

    /// How many workers it has.
    pub fn workers(&self) -> u32
        ensures count { result ≡ workers_of self.now }
        ensures some { 0 < result }
        ensures few { result ≤ MOST_WORKERS }
    {
        self.crew.workers()
    }

    /// Does the first tasks and all that the jobs put meanwhile: each worker with the job of its number, begun with the list of its
    /// number. As many jobs come back as were handed in, in their order. When out of memory the jobs are dropped, and the crew
    /// can run again. What it ensures it ensures if it returns.
    pub fn run<R: Wait>(
        &mut self,
        rt: &R,
        shared: &Arc<S>,
        jobs: Vec<J>,
        first: &FirstTasks,
    ) -> Result<Vec<J>, OutOfMemory>
        requires jobs { vec_len jobs ≡ workers_of self.old }
        requires lists { length first.now.lists ≡ workers_of self.old }
        requires ready { AreReady J.meaning (arc_value shared.now) jobs.items }
        requires same_fit { ShareFit J.meaning (arc_value shared.now) (fit_tasks J.meaning (arc_value shared.now) jobs.items) jobs.items }
        requires fit { All (AllFit (fit_tasks J.meaning (arc_value shared.now) jobs.items)) first.now.lists }
        requires turns { HaveTurns J.meaning (most_tasks J.meaning jobs.items first.now.lists) jobs.items }
        ensures ran { IfOk result (λ ks. Run J.meaning (arc_value shared.now) (record { jobs = jobs.items; first = first.now.lists }) ks.items) }
        ensures ready { IfOk result (λ ks. AreReady J.meaning (arc_value shared.now) ks.items) }
        ensures same_fit { IfOk result (λ ks. ShareFit J.meaning (arc_value shared.now) (fit_tasks J.meaning (arc_value shared.now) jobs.items) ks.items) }
        ensures turns { IfOk result (λ ks. TurnsLast J.meaning (most_tasks J.meaning jobs.items first.now.lists) jobs.items ks.items) }
        ensures workers { workers_of self.new ≡ workers_of self.old }
    {
        let alloc = self.alloc;
        let seating = Seating {
            alloc,
            shared,
            gate: &self.gate,
            cost: self.cost,
        };
        let mut shares = seat_all(&seating, jobs, first)?;
        let mut tasks = Vec::new(alloc);
        while has_tasks(&shares) {
            shares = self.crew.round(rt, alloc, shares)?;
            tasks.clear();
            gather(&shares, &mut tasks)?;
            deal(&mut shares, &tasks)?;
        }
        let jobs = unseat_all(alloc, shares)?;
        Ok(jobs)
    }

    /// Ends all threads.
    pub fn end<R: Threads>(self, rt: &R) {
        let Residents {
            crew,
            gate: _,
            alloc: _,
            cost: _,
        } = self;
        crew.end(rt);
    }
}
