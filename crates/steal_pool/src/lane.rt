//! A worker's own deque, with its hand on it.
ghost use Rattle.std.specs.Prelude.{◌≡◌, ◌<◌, true};
ghost use Rattle.crossbeam_deque.specs.Handles.{worker_view, worker_flavor};

use crate::deque::Owner;

#[derive(Drop)]
pub struct Lane {
    pub owner: Owner,
    /// How many pushes a run may make. Between two runs every slot is free, so that many find a free one. A later
    /// push could come round to a slot that a thief has not left yet, and would ask for memory.
    pub slots: u64,
    /// How many of them are left in this run.
    pub pushes: u64,
    ghost fifo: { worker_flavor owner ≡ 0 },
    ghost held: { 0 < (worker_view owner).rights },
    ghost owns: { (worker_view owner).owner ≡ true },
}
