ghost use Rattle.std.specs.Prelude.{◌≡◌, ◌<◌, [], ◌∷◌, ◌++◌, length, replicate, slice_index_or, slice_set, IfOk};

use crate::task::Task;
use heap_base::OutOfMemory;
use std::alloc::Global;
use std::marker::Model;

/// The tasks that a run begins with: a list for each worker, each of at most a number that is fixed when
/// they are made. Contracts see the lists and that number.
#[derive(Drop)]
pub struct FirstTasks {
    lists: Vec<Vec<Task>>,
    room: u32,
}

impl Model for FirstTasks {
    ghost use Rattle.std.specs.Prelude.{◌≤◌, map, vec_capacity};
    ghost use Rattle.std.specs.List.{All};
    ghost use Rattle.steal_pool.specs.FirstLists.{FirstLists};

    ghost Value = { FirstLists };

    ghost view = { λ f. record { lists = map (λ v. v.items) f.lists.items; room = f.room } };

    ghost invariant = { λ f. All (λ v. f.room ≤ vec_capacity v) f.lists.items };
}

impl FirstTasks {
    /// An empty list for each worker, each with room for `room` tasks.
    pub fn make(alloc: Global, workers: u32, room: u32) -> Result<FirstTasks, OutOfMemory>
        ensures lists { IfOk result (λ f. f.lists ≡ replicate workers []) }
        ensures room { IfOk result (λ f. f.room ≡ room) }
    {
        let mut lists = Vec::with_capacity(alloc, workers as usize)?;
        for _ in 0..workers {
            lists.push_reserved(Vec::with_capacity(alloc, room as usize)?);
        }
        Ok(FirstTasks { lists, room })
    }

    /// Takes all tasks away.
    pub fn clear(&mut self)
        ensures lists { self.new.lists ≡ replicate (length self.old.lists) [] }
        ensures room { self.new.room ≡ self.old.room }
    {
        for list in self.lists.iter_mut() {
            list.clear();
        }
    }

    /// Puts the task last in the worker's list.
    pub fn add(&mut self, worker: u32, task: Task)
        requires worker { worker < length self.old.lists }
        requires room { length (slice_index_or self.old.lists worker []) < self.old.room }
        ensures lists { self.new.lists ≡ slice_set self.old.lists worker (slice_index_or self.old.lists worker [] ++ task ∷ []) }
        ensures room { self.new.room ≡ self.old.room }
    {
        self.lists[worker as usize].push_reserved(task);
    }

    /// The worker's list.
    pub fn of(&self, worker: u32) -> &[Task]
        requires { worker < length self.now.lists }
        ensures { result.now ≡ slice_index_or self.now.lists worker [] }
    {
        self.lists[worker as usize].as_slice()
    }

    /// How many workers have a task.
    pub(crate) fn busy(&self) -> usize {
        self.lists.iter().filter(|list| !list.is_empty()).count()
    }
}
