//! Tasks that a worker offers to the others.
ghost use Rattle.std.specs.Prelude.{◌≡◌, ◌+◌, ◌<◌, ◌≤◌, [], MatchBool};
ghost use Rattle.heap_base.specs.Counting.{total};
ghost use Rattle.steal_pool.specs.Hands.{one};
ghost use Rattle.steal_pool.specs.Jobs.{AllFit};
ghost use Rattle.steal_pool.specs.Lanes.{own_hand};
ghost use Rattle.steal_pool.specs.Searches.{sources, Offers};

use crate::lane::Lane;
use crate::queue::Queue;

/// How many tasks a worker offers at a time.
const OFFERED: u32 = 8;

// Moves the first task of the queue to the deque. It answers whether it did.
fn offer_one(queue: &mut Queue, lane: &mut Lane) -> bool
    requires fit { AllFit (own_hand lane.old).fit queue.old.tasks }
    requires bound { total one (own_hand lane.old).put + total one queue.old.tasks ≤ (own_hand lane.old).bound }
    ensures { Offers (sources queue.old lane.old []) (sources queue.new lane.new []) }
{
    let Some(task) = queue.first() else {
        return false;
    };
    if !lane.push(task) {
        return false;
    }
    queue.take();
    true
}

/// Where the deque is empty, it gets tasks of the queue, as long as one stays.
pub fn offer(queue: &mut Queue, lane: &mut Lane)
    requires fit { AllFit (own_hand lane.old).fit queue.old.tasks }
    requires bound { total one (own_hand lane.old).put + total one queue.old.tasks ≤ (own_hand lane.old).bound }
    ensures { Offers (sources queue.old lane.old []) (sources queue.new lane.new []) }
{
    if queue.len() < 2 || lane.len() > 0 {
        return;
    }
    for _ in 0..OFFERED {
        if queue.len() < 2 || !offer_one(queue, lane) {
            return;
        }
    }
}
