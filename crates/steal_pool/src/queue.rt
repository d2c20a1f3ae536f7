ghost use Rattle.std.specs.List.{Contains};
ghost use Rattle.std.specs.Prelude.{◌≡◌, ◌+◌, ◌<◌, ◌≤◌, [], ◌∷◌, ◌++◌, List, length, IfOk, MatchOption};
ghost use Rattle.steal_pool.specs.declared.task.Task.{Task};
ghost use Rattle.steal_pool.specs.Jobs.{Puts};
ghost use Rattle.steal_pool.specs.Queues.{empty_queue};

use crate::job::Job;
use crate::outbox::Outbox;
use crate::task::Task;
use heap_base::OutOfMemory;
use std::alloc::Global;
use std::marker::Model;

/// The tasks that wait at one worker, first in, first out. Contracts see them, how many more may come, and how many
/// may come in all between two times that it is cleared.
#[derive(Drop)]
pub struct Queue {
    // All that came since the queue was cleared.
    came: Outbox,
    // The place of the first that waits.
    next: usize,
}

impl Model for Queue {
    ghost use Rattle.std.specs.Prelude.{◌-◌, ◌≤◌, drop, length};
    ghost use Rattle.steal_pool.specs.Queues.{Waiting};

    ghost Value = { Waiting };

    ghost view = { λ q. record { tasks = drop q.next q.came.tasks; spare = q.came.room - length q.came.tasks; room = q.came.room } };

    ghost invariant = { λ q. (q.next ≤ length q.came.tasks) × (length q.came.tasks ≤ q.came.room) };
}

impl Queue {
    /// An empty queue for `room` tasks.
    pub fn make(alloc: Global, room: u64) -> Result<Queue, OutOfMemory>
        ensures { IfOk result (λ q. q ≡ empty_queue room) }
    {
        Ok(Queue {
            came: Outbox::make(alloc, room)?,
            next: 0,
        })
    }

    /// Takes all tasks away.
    pub fn clear(&mut self)
        ensures { self.new ≡ empty_queue self.old.room }
    {
        self.came.clear();
        self.next = 0;
    }

    /// How many tasks wait.
    pub fn len(&self) -> usize
        ensures { result ≡ length self.now.tasks }
    {
        self.came.tasks().len() - self.next
    }

    /// Puts the task last.
    pub fn add(&mut self, task: Task)
        requires { 0 < self.old.spare }
        ensures tasks { self.new.tasks ≡ self.old.tasks ++ task ∷ [] }
        ensures spare { self.new.spare + 1 ≡ self.old.spare }
        ensures room { self.new.room ≡ self.old.room }
    {
        self.came.put(task);
    }

    /// Puts the tasks last, in order.
    pub fn add_all(&mut self, tasks: &[Task])
        requires { length tasks.now ≤ self.old.spare }
        ensures tasks { self.new.tasks ≡ self.old.tasks ++ tasks.now }
        ensures spare { self.new.spare + length tasks.now ≡ self.old.spare }
        ensures room { self.new.room ≡ self.old.room }
    {
        for task in tasks {
            self.add(*task);
        }
    }

    /// The first task, which stays.
    pub fn first(&self) -> Option<Task>
        ensures { MatchOption result (self.now.tasks ≡ []) (λ t. (rest : List Task) × (self.now.tasks ≡ t ∷ rest)) }
    {
        self.came.tasks().get(self.next).copied()
    }

    /// Takes the first task.
    pub fn take(&mut self) -> Option<Task>
        ensures tasks { MatchOption result ((self.old.tasks ≡ []) × (self.new.tasks ≡ [])) (λ t. self.old.tasks ≡ t ∷ self.new.tasks) }
        ensures spare { self.new.spare ≡ self.old.spare }
        ensures room { self.new.room ≡ self.old.room }
    {
        let came = self.came.tasks();
        if self.next == came.len() {
            return None;
        }
        let task = came[self.next];
        self.next += 1;
        Some(task)
    }

    /// Lets the job do the task. What it puts waits last.
    pub fn work<S: Sync, J: Job<S>>(&mut self, job: &mut J, shared: &S, task: Task)
        requires turns { 0 < J.meaning.turns job.old }
        requires ready { J.meaning.ready job.old shared.now }
        requires fit { Contains (J.meaning.fit job.old shared.now) task }
        requires spare { J.meaning.room job.old ≤ self.old.spare }
        ensures puts { Puts J.meaning shared.now (record { job = job.old; task = task; outbox = self.old.tasks }) (job.new, self.new.tasks) }
        ensures spare { length self.new.tasks + self.new.spare ≡ length self.old.tasks + self.old.spare }
        ensures room { self.new.room ≡ self.old.room }
        ensures ready { J.meaning.ready job.new shared.now }
        ensures fit { J.meaning.fit job.new shared.now ≡ J.meaning.fit job.old shared.now }
        ensures turns { J.meaning.turns job.old ≤ J.meaning.turns job.new + 1 }
    {
        job.work(shared, task, &mut self.came);
    }
}
