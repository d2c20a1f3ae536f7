//! How a crew starts, works and ends.
ghost use Rattle.std.specs.Prelude.{◌≡◌, ◌<◌, ◌≤◌, IfOk, vec_len};
ghost use Rattle.std.specs.List.{All, AllZip};
ghost use Rattle.heap_base.specs.declared.limits.TheConstants.{MOST_WORKERS};
ghost use Rattle.parked_crew.specs.Crews.{workers_of};

use crate::crew::ParkedCrew;
use crate::rounds::{Sent, fetch_all, make_all, work_all};
use crate::share::Share;
use crate::worker::Worker;
use heap_base::OutOfMemory;
use std::alloc::Global;
use std::sync::Wait;
use std::thread::Threads;

fn end_all<R: Threads, C: Share + Drop>(rt: &R, workers: Vec<Worker<C>>) {
    for worker in workers {
        worker.end(rt);
    }
}

// A worker for the caller, and others with threads.
fn start_all<
    R: Threads + Wait + Clone + Drop + Send + Sync + 'static,
    C: Share + Send + Drop + 'static,
>(rt: &R, alloc: Global, count: u32, workers: &mut Vec<Worker<C>>) -> Result<(), OutOfMemory>
    requires some { 0 < count }
    requires none { vec_len workers.old ≡ 0 }
    ensures { IfOk result (λ _. vec_len workers.new ≡ count) }
{
    workers.push(Worker::without_thread(alloc)?)?;
    for _ in 1..count {
        workers.push(Worker::start(rt, alloc)?)?;
    }
    Ok(())
}

impl<C: Share + Drop> ParkedCrew<C> {
    /// How many workers it has.
    pub fn workers(&self) -> u32
        ensures count { result ≡ workers_of self.now }
        ensures some { 0 < result }
        ensures few { result ≤ MOST_WORKERS }
    {
        self.workers.len() as u32
    }

    /// Each share is worked off by its worker, at the same time where there are threads. All memory is taken before the first share
    /// is sent: when out of memory the shares are dropped, no worker is at work, and the crew is as it was. What it ensures it
    /// ensures if it returns.
    pub fn round<R: Wait>(
        &mut self,
        rt: &R,
        alloc: Global,
        shares: Vec<C>,
    ) -> Result<Vec<C>, OutOfMemory>
        requires workers { vec_len shares ≡ workers_of self.old }
        requires can_work { All C.can_work shares.items }
        ensures worked { IfOk result (λ qs. AllZip C.worked shares.items qs.items) }
        ensures workers { workers_of self.new ≡ workers_of self.old }
    {
        let workers = self.workers.as_slice();
        let count = shares.len();
        let rounds = make_all(alloc, shares)?;
        let mut sent = Sent::none(alloc, count)?;
        let shares = Vec::with_capacity(alloc, count)?;
        sent.send_all(rt, workers, rounds);
        let Sent { rounds, left } = sent;
        work_all(left);
        Ok(fetch_all(rt, workers, rounds, shares))
    }

    /// Ends all threads.
    pub fn end<R: Threads>(self, rt: &R) {
        let ParkedCrew { workers } = self;
        end_all(rt, workers);
    }
}

impl<C: Share + Send + Drop + 'static> ParkedCrew<C> {
    /// A crew of 1 to 16 workers. A thread that can't be started is no error: the caller works off the shares of its worker. Where
    /// memory runs out the threads that were started are ended first.
    pub fn start<R: Threads + Wait + Clone + Drop + Send + Sync + 'static>(
        rt: &R,
        alloc: Global,
        workers: u32,
    ) -> Result<ParkedCrew<C>, OutOfMemory>
        requires some { 0 < workers }
        requires few { workers ≤ MOST_WORKERS }
        ensures { IfOk result (λ c. workers_of c ≡ workers) }
    {
        let mut crew = Vec::new(alloc);
        match start_all(rt, alloc, workers, &mut crew) {
            Ok(()) => Ok(ParkedCrew { workers: crew }),
            Err(error) => {
                end_all(rt, crew);
                Err(error)
            }
        }
    }
}
