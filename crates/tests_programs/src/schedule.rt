//! An order of the workers' steps that is drawn from a number.

use crate::draws::mix;
use std::sync::atomic::{AtomicU64, Ordering};
use std::thread;
use steal_pool::Gate;

/// How often a worker that waits looks whether it may go on. Then it goes on, since the others may have ended.
const LOOKS: u32 = 2_000;

/// A worker that waits lets others have its processor at each of so many looks.
const LOOKS_A_YIELD: u32 = 50;

/// Watches a run, and holds its workers before tasks and at idle turns as its number says: one goes on at once, one waits until others have
/// begun tasks, and two wait for each other, so that their steps fall together.
#[derive(Drop)]
pub struct Schedule {
    seed: u64,
    // How many tasks were begun.
    begun: AtomicU64,
    // How many workers have come to a place at which two wait for each other.
    arrivals: AtomicU64,
    // A sum over the tasks that were begun, of a number for each place in their order and each worker.
    order: AtomicU64,
    // A bit for each worker that began a task.
    workers: AtomicU64,
}

impl Schedule {
    /// The order with this number, of which nothing has happened.
    pub fn of(seed: u64) -> Schedule {
        Schedule {
            seed,
            begun: AtomicU64::new(0),
            arrivals: AtomicU64::new(0),
            order: AtomicU64::new(0),
            workers: AtomicU64::new(0),
        }
    }

    /// A number for the order in which workers began tasks. Orders that differ have the same one hardly ever.
    pub fn order(&self) -> u64 {
        self.order.load(Ordering::SeqCst)
    }

    /// How many workers began a task.
    pub fn workers(&self) -> u32 {
        self.workers.load(Ordering::SeqCst).count_ones()
    }

    fn hold(&self, choice: u64) {
        match choice % 8 {
            0 | 1 => (),
            2 => thread::yield_now(),
            3 | 4 => wait(
                &self.begun,
                self.begun
                    .load(Ordering::SeqCst)
                    .saturating_add(choice / 8 % 4),
            ),
            _ => self.meet(),
        }
    }

    // Waits until another worker waits here too.
    fn meet(&self) {
        let before = self.arrivals.fetch_add(1, Ordering::SeqCst);
        if before % 2 == 0 {
            wait(&self.arrivals, before.saturating_add(2));
        }
    }
}

// Waits until the count is so high, or for LOOKS looks.
fn wait(count: &AtomicU64, least: u64) {
    for look in 0..LOOKS {
        if count.load(Ordering::SeqCst) >= least {
            return;
        }
        if look % LOOKS_A_YIELD == 0 {
            thread::yield_now();
        } else {
            std::hint::spin_loop();
        }
    }
}

// A number for this step of this worker.
fn step_number(worker: u32, nth: u64) -> u64 {
    mix(
        (worker as u64)
            .wrapping_mul(0x1_0000_0001)
            .wrapping_add(nth.wrapping_mul(64)),
    )
}

impl Gate for Schedule {
    fn task(&self, worker: u32, nth: u64) {
        self.hold(mix(self.seed ^ step_number(worker, nth)));
        let place = self.begun.fetch_add(1, Ordering::SeqCst);
        self.order
            .fetch_add(step_number(worker, place), Ordering::SeqCst);
        self.workers.fetch_or(1 << (worker % 64), Ordering::SeqCst);
    }

    fn idle(&self, worker: u32, turn: u32) {
        let choice = mix(self.seed ^ mix(step_number(worker, turn as u64)));
        if turn <= 4 && choice % 4 == 0 {
            self.meet();
        }
    }
}
