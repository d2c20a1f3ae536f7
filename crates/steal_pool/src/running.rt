//! All workers at the same time, and then the caller.
ghost use Rattle.std.specs.List.{All, AllByRecursion};
ghost use Rattle.std.specs.Prelude.{◌≡◌, ℕ, ◌<◌, ◌≤◌, length, slice_index_or};
ghost use Rattle.crossbeam_utils.specs.Padded.{padded_value};
ghost use Rattle.steal_pool.specs.Lanes.{own_hand, HasTakenFew};
ghost use Rattle.steal_pool.specs.Lists.{Each};
ghost use Rattle.steal_pool.specs.Places.{MayStart, MayFinish, FinishesWork};
ghost use Rattle.steal_pool.specs.Workers.{EndsWork};
ghost use Rattle.steal_pool.specs.declared.working.TheConstants.{PATIENCE};

use crate::context::Context;
use crate::cost::ThreadCost;
use crate::gate::Gate;
use crate::job::Job;
use crate::place::Place;
use crate::working::{IdleLimit, PATIENCE};
use crossbeam_utils::CachePadded;
use std::sync::atomic::AtomicUsize;
use std::thread;
use std::thread::Threads;

/// How many threads pay for a run that has at most `room` tasks at a worker, at most one for each worker. Workers that share a thread take
/// their turns one after another.
pub fn threads_for(workers: usize, room: u64, cost: ThreadCost) -> usize
    requires { 0 < workers }
    ensures { 0 < result }
{
    if room < cost.second {
        1
    } else if cost.further == 0 {
        workers
    } else {
        let further = (room / cost.further).min(workers as u64) as usize;
        further.saturating_add(2).clamp(1, workers)
    }
}

fn run_place<S: Sync, J: Job<S>, G: Gate>(
    place: &mut CachePadded<Place<J>>,
    shared: &S,
    limit: IdleLimit<'_>,
    gate: &G,
)
    requires may { MayStart J.meaning shared.now (padded_value place.old) }
    requires patience { limit.patience ≤ PATIENCE }
    ensures { EndsWork J.meaning shared.now (padded_value place.old) (padded_value place.new) }
{
    let place: &mut Place<J> = place;
    place.work_until_idle(shared, limit, gate);
}

// How many idle turns in a row the worker with this number makes at most, where so many workers share so many threads, as many on each and
// one after another. A worker waits only where no other follows it on its thread; and on one thread nobody offers a task while another
// waits for it.
fn patience_of(worker: usize, workers: usize, threads: usize) -> u32
    requires { 0 < threads }
    ensures { result ≤ PATIENCE }
{
    let on_a_thread = workers.div_ceil(threads).max(1);
    let next = worker.saturating_add(1);
    if threads > 1 && (next % on_a_thread == 0 || next == workers) {
        PATIENCE
    } else {
        1
    }
}

/// Each worker does tasks until it was idle long enough, in so many threads. So many workers have a task at first.
pub fn run_all<R: Threads + Sync, S: Sync, J: Job<S> + Send, G: Gate>(
    context: &Context<'_, R, S, G>,
    places: &mut [CachePadded<Place<J>>],
    threads: usize,
    busy: usize,
)
    requires threads { 0 < threads }
    requires able { All (λ p. MayStart J.meaning context.now.shared.now (padded_value p)) places.old }
    ensures { (i : ℕ) (d : _) → i < length places.old → EndsWork J.meaning context.now.shared.now (padded_value (slice_index_or places.old i d)) (padded_value (slice_index_or places.new i d)) }
{
    let workers = places.len();
    let busy = AtomicUsize::new(busy);
    thread::for_each_mut(
        context.rt,
        places,
        threads,
        &|worker, place: &mut CachePadded<Place<J>>|
            requires { MayStart J.meaning context.now.shared.now (padded_value place.old) × (0 < threads) }
            ensures { EndsWork J.meaning context.entry.now.shared.now (padded_value place.old) (padded_value place.new) }
        {
            let limit = IdleLimit {
                patience: patience_of(worker, workers, threads),
                busy: &busy,
            };
            run_place(place, context.shared, limit, context.gate)
        },
    );
}

/// What is left at each place is done by the caller.
pub fn finish_all<S: Sync, J: Job<S>, G: Gate>(
    places: &mut [CachePadded<Place<J>>],
    shared: &S,
    gate: &G,
)
    requires { AllByRecursion (λ p. MayFinish J.meaning shared.now (padded_value p)) places.old }
    ensures { Each (λ p _ q. FinishesWork J.meaning shared.now (padded_value p) (padded_value q)) places.old places.old places.new }
{
    if !places.is_empty() {
        let (head, rest) = places.split_at_mut(1);
        let first: &mut Place<J> = &mut head[0];
        finish_place(first, shared, gate);
        finish_all(rest, shared, gate);
    }
}

fn finish_place<S: Sync, J: Job<S>, G: Gate>(place: &mut Place<J>, shared: &S, gate: &G)
    requires { MayFinish J.meaning shared.now place.old }
    ensures { FinishesWork J.meaning shared.now place.old place.new }
{
    place.work_until_empty(shared, gate);
}
