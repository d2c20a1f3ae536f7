//! The beginning of a run, on the terms of a job.
ghost use Rattle.std.specs.Prelude.{◌≡◌, ℕ, ◌+◌, true, length};
ghost use Rattle.crossbeam_deque.specs.Handles.{worker_view, worker_deque};
ghost use Rattle.heap_base.specs.Counting.{total};
ghost use Rattle.steal_pool.specs.declared.task.Task.{Task};
ghost use Rattle.steal_pool.specs.Deques.{IsSameDeque};
ghost use Rattle.steal_pool.specs.Lanes.{own_hand};
ghost use Rattle.steal_pool.specs.Steps.{renewed_hand};

use crate::deque::Owner;
use crate::job::Job;
use crate::lane::Lane;
use crate::outcomes::{Renew, Terms};
use crate::task::Task;
use std::marker::Brand;

// The arguments but the owner are there for the terms alone, which no code computes.
fn renew<B: Terms, S: Sync, J: Job<S>>(owner: &mut Owner, _job: &J, _shared: &S, _first: &[Task])
    requires fit { B.fit ≡ J.meaning.fit _job.now _shared.now }
    requires bound { B.bound ≡ length _first.now + J.meaning.room _job.now }
    requires hand { ((worker_view owner.old).rights ≡ 16) × ((worker_view owner.old).owner ≡ true) }
    requires emptied { (h : Task → ℕ) → total h (worker_view owner.old).put ≡ total h (worker_view owner.old).took }
    ensures view { worker_view owner.new ≡ renewed_hand (J.meaning.fit _job.now _shared.now) (length _first.now + J.meaning.room _job.now) }
    ensures same { IsSameDeque owner.old owner.new }
{
    let _ = owner.another::<Renew<B>>();
}

impl Lane {
    /// Begins a run. Its terms are the job's fit tasks, and as many tasks as are first and as the job may put.
    pub fn begin<S: Sync, J: Job<S>>(&mut self, job: &J, shared: &S, first: &[Task])
        requires whole { (own_hand self.old).rights ≡ 16 }
        requires emptied { (h : Task → ℕ) → total h (own_hand self.old).put ≡ total h (own_hand self.old).took }
        ensures hand { own_hand self.new ≡ renewed_hand (J.meaning.fit job.now shared.now) (length first.now + J.meaning.room job.now) }
        ensures deque { worker_deque self.new.owner ≡ worker_deque self.old.owner }
    {
        renew::<Brand, S, J>(&mut self.owner, job, shared, first);
        self.pushes = self.slots;
    }
}
