//! A worker's steps on its own deque.
ghost use Rattle.std.specs.Prelude.{◌≡◌, ◌<◌, ◌≤◌, [], ◌∷◌, MatchBool, MatchOption};
ghost use Rattle.std.specs.List.{Contains};
ghost use Rattle.crossbeam_deque.specs.Handles.{view, IsPassOf, worker_deque};
ghost use Rattle.heap_base.specs.Counting.{total};
ghost use Rattle.steal_pool.specs.Hands.{one};
ghost use Rattle.steal_pool.specs.Steps.{Takes, IsEmptied, with_put, one_less, lent_hand, joined_hand};
ghost use Rattle.steal_pool.specs.Lanes.{own_hand, HasTakenFew};

use crate::deque::{HandPass, join, len, push, split, take};
use crate::lane::Lane;
use crate::task::Task;

impl Lane {
    /// Puts the task last. It answers whether it did.
    pub fn push(&mut self, task: Task) -> bool
        requires fit { Contains (own_hand self.old).fit task }
        requires bound { total one (own_hand self.old).put < (own_hand self.old).bound }
        ensures hand { MatchBool result (own_hand self.new ≡ with_put (own_hand self.old) (task ∷ [])) (own_hand self.new ≡ own_hand self.old) }
        ensures deque { worker_deque self.new.owner ≡ worker_deque self.old.owner }
    {
        if self.pushes == 0 {
            return false;
        }
        self.pushes -= 1;
        push(&mut self.owner, task)
    }

    /// Takes the first task.
    pub fn take(&mut self) -> Option<Task>
        ensures hand { MatchOption result ((own_hand self.new ≡ own_hand self.old) × IsEmptied (own_hand self.old)) (λ t. Takes (own_hand self.old) (t ∷ []) (own_hand self.new)) }
        ensures deque { worker_deque self.new.owner ≡ worker_deque self.old.owner }
    {
        take(&mut self.owner)
    }

    /// How many tasks the deque holds at one moment.
    pub fn len(&mut self) -> usize
        ensures few { (own_hand self.old).rights ≡ 16 → HasTakenFew self.new }
        ensures hand { own_hand self.new ≡ own_hand self.old }
        ensures deque { worker_deque self.new.owner ≡ worker_deque self.old.owner }
    {
        len(&mut self.owner)
    }

    /// A hand with one right for another worker.
    pub fn split(&mut self) -> HandPass
        requires { 1 < (own_hand self.old).rights }
        ensures hands { (own_hand self.new ≡ one_less (own_hand self.old)) × (view result ≡ lent_hand (own_hand self.old)) }
        ensures table { IsPassOf (worker_deque self.old.owner) result }
        ensures deque { worker_deque self.new.owner ≡ worker_deque self.old.owner }
    {
        split(&mut self.owner)
    }

    /// Takes another worker's hand back.
    pub fn join(&mut self, hand: HandPass)
        requires table { IsPassOf (worker_deque self.old.owner) hand }
        requires rights { 0 < (view hand).rights }
        ensures hand { own_hand self.new ≡ joined_hand (own_hand self.old) (view hand) }
        ensures deque { worker_deque self.new.owner ≡ worker_deque self.old.owner }
    {
        join(&mut self.owner, hand);
    }
}
