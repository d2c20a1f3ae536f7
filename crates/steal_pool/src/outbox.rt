ghost use Rattle.std.specs.Prelude.{◌≡◌, ◌+◌, ◌<◌, [], ◌∷◌, ◌++◌, length, IfOk};
ghost use Rattle.steal_pool.specs.Outboxes.{HeldTasks, empty_outbox};

use crate::task::Task;
use heap_base::OutOfMemory;
use std::alloc::Global;
use std::marker::Model;

/// The tasks that a job puts, in order, up to a number that is fixed when the outbox is made. Contracts see
/// the list and that number.
#[derive(Drop)]
pub struct Outbox {
    items: Vec<Task>,
    room: u64,
}

impl Model for Outbox {
    ghost use Rattle.std.specs.Prelude.{◌≤◌, vec_capacity, length};
    ghost use Rattle.steal_pool.specs.Outboxes.{HeldTasks};

    ghost Value = { HeldTasks };

    ghost view = { λ o. record { tasks = o.items.items; room = o.room } };

    ghost invariant = { λ o. (length o.items.items ≤ o.room) × (o.room ≤ vec_capacity o.items) };
}

impl Outbox {
    /// An outbox without a task, with room for `room` tasks.
    pub fn make(alloc: Global, room: u64) -> Result<Outbox, OutOfMemory>
        ensures { IfOk result (λ o. o ≡ empty_outbox room) }
    {
        Ok(Outbox {
            items: Vec::with_capacity(alloc, room as usize)?,
            room,
        })
    }

    /// Puts the task last.
    pub fn put(&mut self, task: Task)
        requires { length self.old.tasks < self.old.room }
        ensures tasks { self.new.tasks ≡ self.old.tasks ++ task ∷ [] }
        ensures room { self.new.room ≡ self.old.room }
    {
        self.items.push_reserved(task);
    }

    /// How many more tasks there is room for.
    pub fn spare(&self) -> u64
        ensures { length self.now.tasks + result ≡ self.now.room }
    {
        self.room - self.items.len() as u64
    }

    /// The tasks that were put since `make` or the last `clear`, in order.
    pub fn tasks(&self) -> &[Task]
        ensures { result.now ≡ self.now.tasks }
    {
        self.items.as_slice()
    }

    /// Takes all tasks away.
    pub fn clear(&mut self)
        ensures { self.new ≡ empty_outbox self.old.room }
    {
        self.items.clear();
    }
}
