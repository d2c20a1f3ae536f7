//! The steps on one deque.
ghost use Rattle.std.specs.Prelude.{◌≡◌, ◌<◌, ◌≤◌, true, [], ◌∷◌, IfOk, MatchBool, MatchOption};
ghost use Rattle.std.specs.List.{Contains};
ghost use Rattle.crossbeam_deque.specs.Handles.{view, IsPassOf, worker_deque, worker_view, worker_flavor, stealer_deque, stealer_flavor};
ghost use Rattle.heap_base.specs.Counting.{total};
ghost use Rattle.steal_pool.specs.Hands.{first_hand, one};
ghost use Rattle.steal_pool.specs.Steps.{Takes, IsEmptied, one_less, lent_hand, joined_hand, with_put};
ghost use Rattle.steal_pool.specs.Deques.{IsSameDeque};

use crate::hand::{DequeRule, Hand};
use crate::outcomes::{LendOne, Put, Settle, Take, Together};
use crate::task::Task;
use crossbeam_deque::{Pass, Steal, Stealer, Worker};
use heap_base::OutOfMemory;
use std::alloc::Global;

/// The worker's end of its own deque.
pub type Owner = Worker<Task, Global, Hand, DequeRule>;

/// The end at which others steal.
pub type Thief = Stealer<Task, Global, Hand, DequeRule>;

/// A hand that another worker has.
pub type HandPass = Pass<Task, Hand>;

/// An empty deque with at least `slots` slots, first in, first out.
pub fn make(alloc: Global, slots: usize) -> Result<Owner, OutOfMemory>
    ensures fifo { IfOk result (λ o. worker_flavor o ≡ 0) }
    ensures view { IfOk result (λ o. worker_view o ≡ first_hand) }
{
    Ok(Owner::fifo_as(alloc, slots)?)
}

/// Puts the task last. It answers whether there was a slot for it.
pub fn push(owner: &mut Owner, task: Task) -> bool
    requires fit { Contains (worker_view owner.old).fit task }
    requires bound { total one (worker_view owner.old).put < (worker_view owner.old).bound }
    requires hand { (0 < (worker_view owner.old).rights) × ((worker_view owner.old).owner ≡ true) }
    ensures view { MatchBool result (worker_view owner.new ≡ with_put (worker_view owner.old) (task ∷ [])) (worker_view owner.new ≡ worker_view owner.old) }
    ensures same { IsSameDeque owner.old owner.new }
{
    match owner.push_as::<Put>(task) {
        Ok(()) => true,
        Err(_) => false,
    }
}

/// Takes the first task.
pub fn take(owner: &mut Owner) -> Option<Task>
    requires hand { 0 < (worker_view owner.old).rights }
    requires fifo { worker_flavor owner.old ≡ 0 }
    ensures view { MatchOption result ((worker_view owner.new ≡ worker_view owner.old) × IsEmptied (worker_view owner.old)) (λ t. Takes (worker_view owner.old) (t ∷ []) (worker_view owner.new)) }
    ensures same { IsSameDeque owner.old owner.new }
{
    owner.pop_as::<Take>()
}

/// How many tasks the deque holds at one moment. With all the rights, the hand took no more than it put.
pub fn len(owner: &mut Owner) -> usize
    ensures settled { (worker_view owner.old).rights ≡ 16 → total one (worker_view owner.old).took ≤ total one (worker_view owner.old).put }
    ensures view { worker_view owner.new ≡ worker_view owner.old }
    ensures same { IsSameDeque owner.old owner.new }
{
    owner.len_as::<Settle>()
}

/// Takes the first task of another's deque.
pub fn steal(thief: &Thief, hand: &mut HandPass) -> Option<Task>
    requires table { IsPassOf (stealer_deque thief.now) hand.old × (stealer_flavor thief.now ≡ 0) }
    requires hand { 0 < (view hand.old).rights }
    ensures view { MatchOption result (view hand.new ≡ view hand.old) (λ t. Takes (view hand.old) (t ∷ []) (view hand.new)) }
    ensures table { IsPassOf (stealer_deque thief.now) hand.new }
{
    match thief.steal_as::<Take>(hand) {
        Steal::Success(task) => Some(task),
        Steal::Empty | Steal::Retry => None,
    }
}

/// A hand with one right for another worker.
pub fn split(owner: &mut Owner) -> HandPass
    requires { 1 < (worker_view owner.old).rights }
    ensures views { (worker_view owner.new ≡ one_less (worker_view owner.old)) × (view result ≡ lent_hand (worker_view owner.old)) }
    ensures table { IsPassOf (worker_deque owner.old) result }
    ensures same { IsSameDeque owner.old owner.new }
{
    owner.another::<LendOne>()
}

/// Takes another worker's hand back.
pub fn join(owner: &mut Owner, hand: HandPass)
    requires table { IsPassOf (worker_deque owner.old) hand }
    requires rights { (0 < (worker_view owner.old).rights) × (0 < (view hand).rights) }
    ensures view { worker_view owner.new ≡ joined_hand (worker_view owner.old) (view hand) }
    ensures same { IsSameDeque owner.old owner.new }
{
    owner.absorb::<Together>(hand)
}
