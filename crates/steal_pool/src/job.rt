ghost use Rattle.std.specs.Prelude.{◌≡◌, ◌+◌, ◌<◌, ◌≤◌, length};
ghost use Rattle.std.specs.List.{Contains};
ghost use Rattle.steal_pool.specs.declared.task.Task.{Task};
ghost use Rattle.steal_pool.specs.Jobs.{Meaning, Puts};

use crate::outbox::Outbox;
use crate::task::Task;

/// What one worker does with its tasks. All jobs of a run see one shared value.
pub trait Job<S: Sync> {
    /// When the job is ready, which tasks are fit for it, how many tasks it may still put and still do, and
    /// what `work` does.
    ghost meaning: { Meaning Self S };

    /// How many tasks it may still put, at most.
    fn room(&self) -> u64
        ensures { result ≡ meaning.room self.now };

    /// How many tasks it may still be asked to do, at least.
    fn turns(&self) -> u64
        ensures { result ≡ meaning.turns self.now };

    /// Does the task, and puts into the outbox the tasks that come of it.
    fn work(&mut self, shared: &S, task: Task, out: &mut Outbox)
        requires turns { 0 < meaning.turns self.old }
        requires ready { meaning.ready self.old shared.now }
        requires fit { Contains (meaning.fit self.old shared.now) task }
        requires spare { length out.old.tasks + meaning.room self.old ≤ out.old.room }
        ensures puts { Puts meaning shared.now (record { job = self.old; task = task; outbox = out.old.tasks }) (self.new, out.new.tasks) }
        ensures outbox { out.new.room ≡ out.old.room }
        ensures ready { meaning.ready self.new shared.now }
        ensures fit { meaning.fit self.new shared.now ≡ meaning.fit self.old shared.now }
        ensures turns { meaning.turns self.old ≤ meaning.turns self.new + 1 };
}
