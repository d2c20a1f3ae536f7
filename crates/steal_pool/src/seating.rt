//! Jobs and first tasks go to the places of their workers, and the jobs come back.
ghost use Rattle.std.specs.Prelude.{◌≡◌, ℕ, ◌+◌, ◌<◌, ◌≤◌, List, [], ◌∷◌, ◌++◌, length, drop, vec_len, vec_capacity};
ghost use Rattle.std.specs.List.{AllByRecursion};
ghost use Rattle.heap_base.specs.declared.limits.TheConstants.{MOST_WORKERS};
ghost use Rattle.steal_pool.specs.declared.task.Task.{Task};
ghost use Rattle.crossbeam_utils.specs.Padded.{padded_value};
ghost use Rattle.steal_pool.specs.Lists.{Each};
ghost use Rattle.steal_pool.specs.Seats.{TakesJob, GivesJob, HasSomeJob, opening, CanBegin, Begins};

use crate::first_tasks::FirstTasks;
use crate::job::Job;
use crate::place::Place;
use crate::task::Task;
use crossbeam_utils::CachePadded;

/// The last jobs go to these places, in order.
pub fn seat_jobs<J: Drop>(jobs: &mut Vec<J>, places: &mut [CachePadded<Place<J>>])
    requires { length places.old ≤ vec_len jobs.old }
    ensures moved { (last : List J) × (jobs.old.items ≡ jobs.new.items ++ last) × Each (λ p j q. TakesJob (padded_value p) j (padded_value q)) places.old last places.new }
    ensures space { vec_capacity jobs.new ≡ vec_capacity jobs.old }
    ensures count { vec_len jobs.new + length places.old ≡ vec_len jobs.old }
{
    if !places.is_empty() {
        let (head, rest) = places.split_at_mut(1);
        let first: &mut Place<J> = &mut head[0];
        seat_jobs(jobs, rest);
        let Some(job) = jobs.pop() else {
            unreachable!()
        };
        first.job = Some(job);
    }
}

/// The jobs of these places go back, in order.
pub fn unseat_jobs<J: Drop>(jobs: &mut Vec<J>, places: &mut [CachePadded<Place<J>>])
    requires jobs { AllByRecursion HasSomeJob places.old }
    requires space { vec_len jobs.old + length places.old ≤ vec_capacity jobs.old }
    ensures { (last : List J) × (jobs.new.items ≡ jobs.old.items ++ last) × Each (λ p j q. GivesJob (padded_value p) j (padded_value q)) places.old last places.new }
{
    if !places.is_empty() {
        let (head, rest) = places.split_at_mut(1);
        let first: &mut Place<J> = &mut head[0];
        let Some(job) = first.job.take() else {
            unreachable!()
        };
        jobs.push_reserved(job);
        unseat_jobs(jobs, rest);
    }
}

// The job's fit tasks are the terms of the deque, and the first tasks wait.
fn begin_place<S: Sync, J: Job<S>>(place: &mut Place<J>, shared: &S, first: &[Task], number: u32)
    requires { CanBegin J.meaning shared.now (opening place.old first.now) }
    ensures { Begins J.meaning shared.now (opening place.old first.now) place.new }
{
    let Some(job) = &place.job else {
        unreachable!()
    };
    place.lane.begin(job, shared, first);
    place.queue.clear();
    place.queue.add_all(first);
    place.count.number = number;
    place.count.begun = 0;
}

/// The run begins at each of these places, at the first of them with the list of this number.
pub fn begin_all<S: Sync, J: Job<S>>(
    places: &mut [CachePadded<Place<J>>],
    shared: &S,
    first: &FirstTasks,
    number: u32,
)
    requires lists { number + length places.old ≡ length first.now.lists }
    requires few { length first.now.lists ≤ MOST_WORKERS }
    requires can { Each (λ p f _. CanBegin J.meaning shared.now (opening (padded_value p) f)) places.old (drop number first.now.lists) places.old }
    ensures { Each (λ p f q. Begins J.meaning shared.now (opening (padded_value p) f) (padded_value q)) places.old (drop number first.now.lists) places.new }
{
    if !places.is_empty() {
        let (head, rest) = places.split_at_mut(1);
        let place: &mut Place<J> = &mut head[0];
        begin_place(place, shared, first.of(number), number);
        begin_all(rest, shared, first, number + 1);
    }
}
