//! The crew and its run.
ghost use Rattle.std.specs.List.{All};
ghost use Rattle.std.specs.Prelude.{◌≡◌, ℕ, ◌^◌, ◌+◌, ◌<◌, ◌≤◌, List, length, vec_len, vec_capacity, IfOk};
ghost use Rattle.crossbeam_utils.specs.Padded.{padded_value};
ghost use Rattle.heap_base.specs.declared.limits.TheConstants.{MOST_WORKERS};
ghost use Rattle.steal_pool.specs.Jobs.{AllFit};
ghost use Rattle.steal_pool.specs.Needs.{CanRun, HasRun};
ghost use Rattle.steal_pool.specs.Rests.{IsAtRest};
ghost use Rattle.steal_pool.specs.Runs.{workers_of, room_of, fit_tasks, most_tasks, AreReady, ShareFit, HaveRoom, HaveTurns, TurnsLast, Run, HasNoTasks};

use crate::context::Context;
use crate::cost::ThreadCost;
use crate::crew::Crew;
use crate::deque;
use crate::first_tasks::FirstTasks;
use crate::gate::Gate;
use crate::job::Job;
use crate::lane::Lane;
use crate::lending::lend_all;
use crate::place::{Count, Place};
use crate::queue::Queue;
use crate::returning::take_back_all;
use crate::running::{finish_all, run_all, threads_for};
use crate::seating::{begin_all, seat_jobs, unseat_jobs};
use crossbeam_utils::CachePadded;
use heap_base::OutOfMemory;
use std::alloc::Global;
use std::thread::Threads;

/// How many tasks a worker offers the others in one run, at most.
const MOST_OFFERS: u64 = 65_536;

// How many tasks a worker with room for so many offers in one run: none where one thread does the whole run.
fn offers_for(workers: u32, room: u64, cost: ThreadCost) -> u64
    requires { 0 < workers }
{
    if threads_for(workers as usize, room, cost) == 1 {
        0
    } else {
        (room / cost.offer.max(1)).min(MOST_OFFERS)
    }
}

// A place with room for so many tasks, and a thief's end of its deque for each of the other workers.
fn make_place<J: Drop>(
    alloc: Global,
    workers: u32,
    room: u64,
    cost: ThreadCost,
) -> Result<Place<J>, OutOfMemory>
    requires some { 0 < workers }
    requires few { workers ≤ MOST_WORKERS }
    ensures { IfOk result (λ p. IsAtRest workers room p) }
{
    let slots = offers_for(workers, room, cost);
    let owner = deque::make(alloc, slots as usize)?;
    let mut spare = Vec::with_capacity(alloc, workers as usize)?;
    for _ in 1..workers {
        spare.push_reserved(owner.stealer()?);
    }
    Ok(Place {
        job: None,
        queue: Queue::make(alloc, room)?,
        lane: Lane {
            owner,
            slots,
            pushes: slots,
        },
        others: Vec::with_capacity(alloc, workers as usize)?,
        spare,
        count: Count {
            number: 0,
            begun: 0,
        },
    })
}

impl<J: Send + Drop> Crew<J> {
    /// A crew of `workers` workers, each with room for `room` tasks in a run, whose threads cost what they usually do.
    pub fn make(alloc: Global, workers: u32, room: u64) -> Result<Crew<J>, OutOfMemory>
        requires some { 0 < workers }
        requires few { workers ≤ MOST_WORKERS }
        requires room { room ≤ 2 ^ 36 }
        ensures workers { IfOk result (λ c. workers_of c ≡ workers) }
        ensures room { IfOk result (λ c. room_of c ≡ room) }
    {
        Crew::with_cost(alloc, workers, room, ThreadCost::usual())
    }

    /// The same with threads of this cost.
    pub fn with_cost(
        alloc: Global,
        workers: u32,
        room: u64,
        cost: ThreadCost,
    ) -> Result<Crew<J>, OutOfMemory>
        requires some { 0 < workers }
        requires few { workers ≤ MOST_WORKERS }
        requires room { room ≤ 2 ^ 36 }
        ensures workers { IfOk result (λ c. workers_of c ≡ workers) }
        ensures room { IfOk result (λ c. room_of c ≡ room) }
    {
        let mut places = Vec::with_capacity(alloc, workers as usize)?;
        for _ in 0..workers {
            places.push_reserved(CachePadded::new(make_place(alloc, workers, room, cost)?));
        }
        Ok(Crew { places, room, cost })
    }

    /// How many workers it has.
    pub fn workers(&self) -> u32
        ensures { result ≡ workers_of self.now }
    {
        self.places.len() as u32
    }

    /// How many tasks each worker has room for in a run.
    pub fn room(&self) -> u64
        ensures { result ≡ room_of self.now }
    {
        self.room
    }

    /// Does the first tasks and all that the jobs put meanwhile: each worker with the job of its number, begun with
    /// the list of its number. It always returns, takes no memory, and leaves each job at its place in the vector.
    pub fn run<R: Threads + Sync, S: Sync, G: Gate>(
        &mut self,
        rt: &R,
        shared: &S,
        jobs: &mut Vec<J>,
        first: &FirstTasks,
        gate: &G,
    )
    where
        J: Job<S>,
        requires jobs { vec_len jobs.old ≡ workers_of self.old }
        requires lists { length first.now.lists ≡ workers_of self.old }
        requires ready { AreReady J.meaning shared.now jobs.old.items }
        requires same_fit { ShareFit J.meaning shared.now (fit_tasks J.meaning shared.now jobs.old.items) jobs.old.items }
        requires fit { All (AllFit (fit_tasks J.meaning shared.now jobs.old.items)) first.now.lists }
        requires room { HaveRoom J.meaning (room_of self.old) jobs.old.items first.now.lists }
        requires turns { HaveTurns J.meaning (most_tasks J.meaning jobs.old.items first.now.lists) jobs.old.items }
        ensures ran { Run J.meaning shared.now (record { jobs = jobs.old.items; first = first.now.lists }) jobs.new.items }
        ensures ready { AreReady J.meaning shared.now jobs.new.items }
        ensures same_fit { ShareFit J.meaning shared.now (fit_tasks J.meaning shared.now jobs.old.items) jobs.new.items }
        ensures turns { TurnsLast J.meaning (most_tasks J.meaning jobs.old.items first.now.lists) jobs.old.items jobs.new.items }
        ensures room { room_of self.new ≡ room_of self.old }
        ensures workers { workers_of self.new ≡ workers_of self.old }
        ensures empty { HasNoTasks self.new }
    {
        let context = Context {
            rt,
            shared,
            gate,
            room: self.room,
            cost: self.cost,
        };
        run_on(&context, self.places.as_mut_slice(), jobs, first);
    }
}

// The run over the places.
fn run_on<R: Threads + Sync, S: Sync, J: Job<S> + Send + Drop, G: Gate>(
    context: &Context<'_, R, S, G>,
    places: &mut [CachePadded<Place<J>>],
    jobs: &mut Vec<J>,
    first: &FirstTasks,
)
    requires { CanRun J.meaning context.now.shared.now (record { places = places.old; room = context.now.room; load = record { jobs = jobs.old.items; first = first.now.lists } }) }
    ensures { HasRun J.meaning context.now.shared.now (record { places = places.old; room = context.now.room; load = record { jobs = jobs.old.items; first = first.now.lists } }) (jobs.new.items, places.new) }
{
    let threads = threads_for(places.len(), context.room, context.cost);
    seat_jobs(jobs, places);
    begin_all(places, context.shared, first, 0);
    lend_all(places);
    run_all(context, places, threads, first.busy());
    take_back_all(places);
    finish_all(places, context.shared, context.gate);
    unseat_jobs(jobs, places);
}
