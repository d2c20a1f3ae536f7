//! Each worker's hands on the other deques go back.
ghost use Rattle.std.specs.Prelude.{◌≡◌, ℕ, ◌+◌, ◌-◌, ◌≤◌, List, [], ◌∷◌, ◌++◌, length, map};
ghost use Rattle.std.specs.List.{AllByRecursion};
ghost use Rattle.steal_pool.specs.declared.task.Task.{Task};
ghost use Rattle.crossbeam_utils.specs.Padded.{padded_value};
ghost use Rattle.heap_base.specs.Counting.{total};
ghost use Rattle.steal_pool.specs.Victims.{total_took};
ghost use Rattle.steal_pool.specs.Lanes.{own_hand};
ghost use Rattle.steal_pool.specs.Lists.{Each};
ghost use Rattle.steal_pool.specs.Loans.{HandKey, hand_key, keys_of, keys_in, key_in, keys_of_others, CanTakeBack, OnlyTakesBack, ReturnsHands, RestoresHands, others_took, own_took, all_took};

use crate::place::Place;
use crate::victim::Victim;
use crossbeam_utils::CachePadded;

// The giver's last hand goes back to the owner of its deque.
fn take_back<J>(owner: &mut Place<J>, giver: &mut Place<J>)
    requires join { CanTakeBack 1 owner.old }
    requires last { (front : List HandKey) × (keys_of giver.old ≡ front ++ hand_key owner.old.lane ∷ []) }
    ensures joined { OnlyTakesBack 1 owner.old owner.new }
    ensures returned { ReturnsHands (hand_key owner.old.lane ∷ []) giver.old giver.new }
    ensures sum { (h : Task → ℕ) → total h (own_hand owner.new.lane).took + total_took h giver.new.others.items ≡ total h (own_hand owner.old.lane).took + total_took h giver.old.others.items }
{
    let Some(victim) = giver.others.pop() else {
        unreachable!()
    };
    let Victim { thief, pass } = victim;
    owner.lane.join(pass);
    owner.spare.push_reserved(thief);
}

fn take_back_from_each<J>(owner: &mut Place<J>, givers: &mut [CachePadded<Place<J>>])
    requires join { CanTakeBack (length givers.old) owner.old }
    requires last { AllByRecursion (λ p. (front : List HandKey) × (keys_in p ≡ front ++ hand_key owner.old.lane ∷ [])) givers.old }
    ensures joined { OnlyTakesBack (length givers.old) owner.old owner.new }
    ensures returned { Each (λ p m q. ReturnsHands (m ∷ []) (padded_value p) (padded_value q)) givers.old (map (λ _. hand_key owner.old.lane) givers.old) givers.new }
    ensures sum { (h : Task → ℕ) → total h (own_hand owner.new.lane).took + total (others_took h) givers.new ≡ total h (own_hand owner.old.lane).took + total (others_took h) givers.old }
{
    if !givers.is_empty() {
        let (head, rest) = givers.split_at_mut(1);
        let first: &mut Place<J> = &mut head[0];
        take_back(owner, first);
        take_back_from_each(owner, rest);
    }
}

fn give_back_to_each<J>(giver: &mut Place<J>, owners: &mut [CachePadded<Place<J>>])
    requires join { AllByRecursion (λ p. CanTakeBack 1 (padded_value p)) owners.old }
    requires last { (front : List HandKey) × (keys_of giver.old ≡ front ++ map key_in owners.old) }
    ensures joined { Each (λ p _ q. OnlyTakesBack 1 (padded_value p) (padded_value q)) owners.old owners.old owners.new }
    ensures returned { ReturnsHands (map key_in owners.old) giver.old giver.new }
    ensures sum { (h : Task → ℕ) → total (own_took h) owners.new + total_took h giver.new.others.items ≡ total (own_took h) owners.old + total_took h giver.old.others.items }
{
    if !owners.is_empty() {
        let (head, rest) = owners.split_at_mut(1);
        let first: &mut Place<J> = &mut head[0];
        give_back_to_each(giver, rest);
        take_back(first, giver);
    }
}

/// Every hand goes back to the owner of its deque.
pub fn take_back_all<J>(places: &mut [CachePadded<Place<J>>])
    requires join { AllByRecursion (λ p. CanTakeBack (length places.old - 1) (padded_value p)) places.old }
    requires rows { (before : List HandKey) × (map keys_in places.old ≡ keys_of_others before (map key_in places.old)) }
    ensures each { Each (λ p _ q. RestoresHands (length places.old - 1) (padded_value p) (padded_value q)) places.old places.old places.new }
    ensures rows { (before : List HandKey) → map keys_in places.old ≡ keys_of_others before (map key_in places.old) → AllByRecursion (λ q. keys_in q ≡ before) places.new }
    ensures sum { (h : Task → ℕ) → total (all_took h) places.new ≡ total (all_took h) places.old }
{
    if !places.is_empty() {
        let (head, rest) = places.split_at_mut(1);
        let first: &mut Place<J> = &mut head[0];
        take_back_all(rest);
        take_back_from_each(first, rest);
        give_back_to_each(first, rest);
    }
}
