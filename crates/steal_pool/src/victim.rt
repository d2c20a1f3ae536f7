//! Another worker's deque, with a hand on it.
ghost use Rattle.std.specs.Prelude.{◌≡◌, ◌<◌, ◌≤◌};
ghost use Rattle.heap_base.specs.Counting.{total};
ghost use Rattle.crossbeam_deque.specs.Handles.{view, IsPassOf, stealer_deque, stealer_flavor};
ghost use Rattle.steal_pool.specs.Hands.{one};

use crate::deque::{HandPass, Thief};

/// From whom a worker may steal.
#[derive(Drop)]
pub struct Victim {
    pub thief: Thief,
    pub pass: HandPass,
    ghost of: { IsPassOf (stealer_deque thief) pass },
    ghost fifo: { stealer_flavor thief ≡ 0 },
    ghost held: { 0 < (view pass).rights },
    ghost few: { total one (view pass).took ≤ (view pass).bound },
}
