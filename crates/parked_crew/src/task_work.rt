//! How a worker does its share of a round.
ghost use Rattle.std.specs.Prelude.{◌≡◌, ◌+◌, ◌<◌, ◌≤◌, Some, MatchOption, IfSome, length, slice_get};
ghost use Rattle.parked_crew.specs.declared.task_work.TheConstants.{MOST_OWN};
ghost use Rattle.parked_crew.specs.Shares.{queue, IsNext};

use crate::share::Share;
use crate::task_share::JobShare;
use steal_pool::{Gate, Job, Task};

/// How many tasks that it put a worker does itself in one round. The rest is dealt.
const MOST_OWN: usize = 512;

impl<S, J, G> JobShare<S, J, G> {
    // The next task of the round: one of the list, or else one of those that were put, while these are not too many.
    fn next(&mut self) -> Option<Task>
        ensures next { MatchOption result ((self.new ≡ self.old) × (length self.old.list.items ≤ self.old.done)) (IsNext self.old self.new) }
        ensures few { IfSome result (λ _. self.old.done < length self.old.list.items + MOST_OWN) }
    {
        let task = self.at(self.done)?;
        self.done += 1;
        Some(task)
    }

    // The task at a place of the list with what was put behind it, where the worker does it itself.
    fn at(&self, place: usize) -> Option<Task>
        ensures task { MatchOption result (length self.now.list.items ≤ place) (λ t. slice_get (queue self.now) place ≡ Some t) }
        ensures few { IfSome result (λ _. place < length self.now.list.items + MOST_OWN) }
    {
        let listed = self.list.len();
        if place < listed {
            return Some(self.list[place]);
        }
        let own = place - listed;
        if own < MOST_OWN {
            self.out.tasks().get(own).copied()
        } else {
            None
        }
    }
}

impl<S: Sync, J: Job<S>, G: Gate> Share for JobShare<S, J, G> {
    ghost use Rattle.parked_crew.specs.Shares.{CanWork, Worked};

    ghost can_work = { CanWork J.meaning };

    ghost worked = { Worked J.meaning };

    fn work(&mut self) {
        while let Some(task) = self.next() {
            self.begun = self.begun.saturating_add(1);
            self.gate.task(self.number, self.begun);
            let shared: &S = &*self.shared;
            self.job.work(shared, task, &mut self.out);
        }
    }

    fn is_for_a_thread(&self) -> bool {
        self.is_large && !self.list.is_empty()
    }
}
