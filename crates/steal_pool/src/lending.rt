//! Each worker gets a hand on each other deque.
ghost use Rattle.std.specs.Prelude.{◌≡◌, ℕ, ◌+◌, ◌-◌, ◌≤◌, List, [], ◌∷◌, ◌++◌, length, map};
ghost use Rattle.std.specs.List.{AllByRecursion};
ghost use Rattle.steal_pool.specs.declared.task.Task.{Task};
ghost use Rattle.crossbeam_utils.specs.Padded.{padded_value};
ghost use Rattle.heap_base.specs.Counting.{total};
ghost use Rattle.steal_pool.specs.Victims.{total_took};
ghost use Rattle.steal_pool.specs.Lanes.{own_hand};
ghost use Rattle.steal_pool.specs.Lists.{Each};
ghost use Rattle.steal_pool.specs.Loans.{HandKey, hand_key, keys_of, keys_in, key_in, keys_of_others, CanLend, CanReceive, OnlyLends, ReceivesHands, ExchangesHands};

use crate::place::Place;
use crate::victim::Victim;
use crossbeam_utils::CachePadded;

// A hand on the giver's deque for the taker.
fn lend<J>(giver: &mut Place<J>, taker: &mut Place<J>)
    requires give { CanLend 1 giver.old }
    requires get { CanReceive 1 taker.old }
    ensures given { OnlyLends 1 giver.old giver.new }
    ensures got { ReceivesHands (hand_key giver.old.lane ∷ []) taker.old taker.new }
{
    let Some(thief) = giver.spare.pop() else {
        unreachable!()
    };
    let pass = giver.lane.split();
    taker.others.push_reserved(Victim { thief, pass });
}

fn lend_to_each<J>(giver: &mut Place<J>, takers: &mut [CachePadded<Place<J>>])
    requires give { CanLend (length takers.old) giver.old }
    requires get { AllByRecursion (λ p. CanReceive 1 (padded_value p)) takers.old }
    ensures given { OnlyLends (length takers.old) giver.old giver.new }
    ensures got { Each (λ p m q. ReceivesHands (m ∷ []) (padded_value p) (padded_value q)) takers.old (map (λ _. hand_key giver.old.lane) takers.old) takers.new }
{
    if !takers.is_empty() {
        let (head, rest) = takers.split_at_mut(1);
        let first: &mut Place<J> = &mut head[0];
        lend(giver, first);
        lend_to_each(giver, rest);
    }
}

fn lend_from_each<J>(taker: &mut Place<J>, givers: &mut [CachePadded<Place<J>>])
    requires get { CanReceive (length givers.old) taker.old }
    requires give { AllByRecursion (λ p. CanLend 1 (padded_value p)) givers.old }
    ensures got { ReceivesHands (map key_in givers.old) taker.old taker.new }
    ensures given { Each (λ p _ q. OnlyLends 1 (padded_value p) (padded_value q)) givers.old givers.old givers.new }
{
    if !givers.is_empty() {
        let (head, rest) = givers.split_at_mut(1);
        let first: &mut Place<J> = &mut head[0];
        lend(first, taker);
        lend_from_each(taker, rest);
    }
}

/// Each worker gets a hand on each other deque, in the order of the workers.
pub fn lend_all<J>(places: &mut [CachePadded<Place<J>>])
    requires give { AllByRecursion (λ p. CanLend (length places.old - 1) (padded_value p)) places.old }
    requires get { AllByRecursion (λ p. CanReceive (length places.old - 1) (padded_value p)) places.old }
    ensures each { Each (λ p _ q. ExchangesHands (length places.old - 1) (padded_value p) (padded_value q)) places.old places.old places.new }
    ensures rows { (before : List HandKey) → AllByRecursion (λ p. keys_in p ≡ before) places.old → map keys_in places.new ≡ keys_of_others before (map key_in places.new) }
{
    if !places.is_empty() {
        let (head, rest) = places.split_at_mut(1);
        let first: &mut Place<J> = &mut head[0];
        lend_to_each(first, rest);
        lend_from_each(first, rest);
        lend_all(rest);
    }
}
