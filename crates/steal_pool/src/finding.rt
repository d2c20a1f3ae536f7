//! Where a worker looks for a task.
ghost use Rattle.std.specs.Prelude.{◌≡◌, MatchOption};
ghost use Rattle.steal_pool.specs.Searches.{sources, FindsTask, FindsNone};

use crate::lane::Lane;
use crate::queue::Queue;
use crate::stealing::try_others;
use crate::task::Task;
use crate::victim::Victim;

/// A task that waits, or else one of the own deque, or else of another, beginning with the one at `from`.
#[inline(always)]
pub fn find_task(
    queue: &mut Queue,
    lane: &mut Lane,
    others: &mut [Victim],
    from: usize,
) -> Option<Task>
    ensures { let old = sources queue.old lane.old others.old in
        let new = sources queue.new lane.new others.new in
        MatchOption result (FindsNone old new) (λ t. FindsTask old t new) }
{
    if let Some(task) = queue.take() {
        return Some(task);
    }
    match lane.take() {
        Some(task) => Some(task),
        None => try_others(others, from),
    }
}
