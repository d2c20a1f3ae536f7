//! Gates that hold each of two workers until the other has come to a certain point, and say whether it came.

use std::sync::atomic::{AtomicBool, AtomicU64, Ordering};
use steal_pool::Gate;

/// How many turns a worker is held at most.
const PATIENCE: u64 = 100_000_000;

/// What two workers have done in a run, and whether one that was held had to go on.
#[derive(Drop)]
pub struct Watch {
    tasks: [AtomicU64; 2],
    idle_turns: [AtomicU64; 2],
    gave_up: AtomicBool,
}

impl Watch {
    /// Nothing was seen yet.
    pub fn new() -> Watch {
        Watch {
            tasks: [AtomicU64::new(0), AtomicU64::new(0)],
            idle_turns: [AtomicU64::new(0), AtomicU64::new(0)],
            gave_up: AtomicBool::new(false),
        }
    }

    // Notes that the worker begins its `nth` task.
    fn begin(&self, worker: u32, nth: u64) {
        self.tasks[worker as usize & 1].store(nth, Ordering::SeqCst);
    }

    // Notes an idle turn of the worker.
    fn rest(&self, worker: u32) {
        self.idle_turns[worker as usize & 1].fetch_add(1, Ordering::SeqCst);
    }

    /// How many tasks the worker has begun.
    pub fn begun(&self, worker: u32) -> u64 {
        self.tasks[worker as usize & 1].load(Ordering::SeqCst)
    }

    // Waits until the worker has begun so many tasks.
    fn hold(&self, worker: u32, tasks: u64) {
        self.wait(&self.tasks[worker as usize & 1], tasks);
    }

    // Waits until the worker has had an idle turn.
    fn hold_until_idle(&self, worker: u32) {
        self.wait(&self.idle_turns[worker as usize & 1], 1);
    }

    // Waits until the count is so high. Once a worker was held in vain, none is held any longer.
    fn wait(&self, count: &AtomicU64, least: u64) {
        if self.gave_up() {
            return;
        }
        for _ in 0..PATIENCE {
            if count.load(Ordering::SeqCst) >= least {
                return;
            }
            std::hint::spin_loop();
        }
        self.gave_up.store(true, Ordering::SeqCst);
    }

    /// Whether a worker was held in vain.
    pub fn gave_up(&self) -> bool {
        self.gave_up.load(Ordering::SeqCst)
    }
}

/// What a worker waits for when it begins its `nth` task: that the other has begun `until` tasks.
#[derive(Clone, Copy)]
pub struct Hold {
    pub worker: u32,
    pub nth: u64,
    pub until: u64,
}

/// Each of two workers is held in its first task until the other has begun one.
pub const UNTIL_BOTH_BEGIN: [Hold; 2] = [
    Hold {
        worker: 0,
        nth: 1,
        until: 1,
    },
    Hold {
        worker: 1,
        nth: 1,
        until: 1,
    },
];

/// Worker 0 is held in its first task until worker 1 has begun one, and worker 1 there until worker 0 has begun so many.
pub const fn until_many_are_begun(tasks: u64) -> [Hold; 2] {
    let worker_1 = Hold {
        until: tasks,
        ..UNTIL_BOTH_BEGIN[1]
    };
    [UNTIL_BOTH_BEGIN[0], worker_1]
}

/// Holds workers as it is told.
#[derive(Drop)]
pub struct Holding<'a> {
    pub holds: &'a [Hold],
    pub watch: Watch,
}

impl<'a> Gate for Holding<'a> {
    fn task(&self, worker: u32, nth: u64) {
        self.watch.begin(worker, nth);
        for hold in self.holds {
            if hold.worker == worker && hold.nth == nth {
                self.watch.hold(if worker == 0 { 1 } else { 0 }, hold.until);
            }
        }
    }

    fn idle(&self, _worker: u32, _turn: u32) {}
}

/// Holds worker 0 in its first task until worker 1 has an idle turn, worker 1 there until worker 0 begins its second task, and
/// worker 0 there until worker 1 has begun a task.
///
/// So at each moment from worker 0's first task to worker 1's first, one of the two is held: there is none at which both wait for
/// tasks to be dealt.
#[derive(Drop)]
pub struct UntilOneIsStolen {
    pub watch: Watch,
}

impl Gate for UntilOneIsStolen {
    fn task(&self, worker: u32, nth: u64) {
        self.watch.begin(worker, nth);
        match (worker, nth) {
            (0, 1) => self.watch.hold_until_idle(1),
            (0, 2) => self.watch.hold(1, 1),
            _ => {}
        }
    }

    fn idle(&self, worker: u32, _turn: u32) {
        self.watch.rest(worker);
        if worker == 1 && self.watch.begun(1) == 0 {
            self.watch.hold(0, 2);
        }
    }
}
