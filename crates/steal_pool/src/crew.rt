//! The crew between two runs.
ghost use Rattle.std.specs.Prelude.{◌≡◌, ◌<◌, ◌≤◌, vec_len};
ghost use Rattle.std.specs.List.{All};
ghost use Rattle.heap_base.specs.declared.limits.TheConstants.{MOST_WORKERS};
ghost use Rattle.crossbeam_utils.specs.Padded.{padded_value};
ghost use Rattle.steal_pool.specs.Rests.{IsAtRest};

use crate::cost::ThreadCost;
use crate::place::Place;
use crossbeam_utils::CachePadded;

/// Workers that do tasks at the same time, each with a queue and a deque of its own. It can run again and again.
#[derive(Drop)]
pub struct Crew<J> {
    pub(crate) places: Vec<CachePadded<Place<J>>>,
    /// How many tasks each worker has room for in a run.
    pub(crate) room: u64,
    pub(crate) cost: ThreadCost,
    ghost some: { 0 < vec_len places },
    ghost few: { vec_len places ≤ MOST_WORKERS },
    ghost rest: { All (λ p. IsAtRest (vec_len places) room (padded_value p)) places.items },
}
