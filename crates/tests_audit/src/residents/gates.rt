//! A gate for runs of two workers.

use std::sync::atomic::{AtomicBool, AtomicU64, Ordering};
use steal_pool::Gate;

/// How many turns a worker is held at most.
const PATIENCE: u64 = 100_000_000;

/// Holds each of two workers in the first task of a run until the other has begun one.
#[derive(Drop)]
pub struct Meeting {
    // How often a worker began the first task of a run.
    begun: AtomicU64,
    gave_up: AtomicBool,
}

impl Meeting {
    /// No worker has begun a task yet.
    pub fn new() -> Meeting {
        Meeting {
            begun: AtomicU64::new(0),
            gave_up: AtomicBool::new(false),
        }
    }

    /// Whether both workers met in each of so many runs, and none was held in vain.
    pub fn met_in(&self, runs: u64) -> bool {
        !self.gave_up.load(Ordering::SeqCst)
            && self.begun.load(Ordering::SeqCst) == runs.saturating_mul(2)
    }

    fn wait(&self, least: u64) {
        for _ in 0..PATIENCE {
            if self.begun.load(Ordering::SeqCst) >= least {
                return;
            }
            std::hint::spin_loop();
        }
        self.gave_up.store(true, Ordering::SeqCst);
    }
}

impl Gate for Meeting {
    fn task(&self, _worker: u32, nth: u64) {
        if nth == 1 {
            let before = self.begun.fetch_add(1, Ordering::SeqCst);
            self.wait(if before % 2 == 0 {
                before.saturating_add(2)
            } else {
                before
            });
        }
    }

    fn idle(&self, _worker: u32, _turn: u32) {}
}
