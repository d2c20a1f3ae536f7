//! Steals from the others' deques.
ghost use Rattle.std.specs.Prelude.{◌≡◌, ℕ, ◌+◌, ◌<◌, [], ◌∷◌, List, length, slice_index_or, MatchOption, IfSome};
ghost use Rattle.steal_pool.specs.declared.task.Task.{Task};
ghost use Rattle.crossbeam_deque.specs.Handles.{view};
ghost use Rattle.steal_pool.specs.Victims.{StealsFrom, IsUntouched, AreUntouched, total_took, StealsFromOne};

use crate::deque::steal;
use crate::hand::Hand;
use crate::task::Task;
use crate::victim::Victim;

impl Victim {
    /// Takes the first task of the deque, where one is there.
    pub fn steal(&mut self) -> Option<Task>
        ensures { MatchOption result (IsUntouched self.old self.new) (λ t. StealsFrom self.old t self.new) }
    {
        steal(&self.thief, &mut self.pass)
    }
}

// Tries each of them once, in order.
fn try_each(others: &mut [Victim]) -> Option<Task>
    ensures { MatchOption result (AreUntouched others.old others.new) (λ t. StealsFromOne others.old t others.new) }
{
    for other in others.iter_mut() {
        if let Some(task) = other.steal() {
            return Some(task);
        }
    }
    None
}

/// Tries each of the others once, beginning with the one at `from`.
pub fn try_others(others: &mut [Victim], from: usize) -> Option<Task>
    ensures { MatchOption result (AreUntouched others.old others.new) (λ t. StealsFromOne others.old t others.new) }
{
    let from = from.min(others.len());
    let (before, after) = others.split_at_mut(from);
    match try_each(after) {
        Some(task) => Some(task),
        None => try_each(before),
    }
}
