//! One worker's turns.
ghost use Rattle.std.specs.Prelude.{◌≡◌, ◌+◌, ◌≤◌, cond, false};
ghost use Rattle.steal_pool.specs.Lanes.{own_hand, HasTakenFew};
ghost use Rattle.steal_pool.specs.declared.working.TheConstants.{PATIENCE};
ghost use Rattle.steal_pool.specs.Workers.{CanStart, EndsWork, HasNone, tasks_left};

use crate::finding::find_task;
use crate::gate::Gate;
use crate::job::Job;
use crate::offering::offer;
use crate::place::Place;
use std::sync::atomic::{AtomicBool, AtomicUsize, Ordering};
use std::thread;

/// How many idle turns in a row a worker makes at most before it stops.
pub const PATIENCE: u32 = 4096;

/// After so many idle turns in a row a worker stops where nobody has a task. It is more than one, since a worker that has just stolen a
/// task isn't counted yet.
const QUIET_TURNS: u32 = 8;

/// When a worker without a task stops.
#[derive(Clone, Copy)]
pub struct IdleLimit<'a> {
    /// How many idle turns in a row it makes, at most.
    pub patience: u32,
    /// How many workers have tasks: where none has, it makes only a few.
    pub busy: &'a AtomicUsize,
}

// Tells a gate what one worker does, and counts the worker among the busy ones while it has tasks. A worker that sees that nobody is busy
// need not wait. Nothing else rests on the count: the caller does what a worker leaves.
#[derive(Drop)]
struct Busy<'a, G> {
    count: &'a AtomicUsize,
    is_counted: AtomicBool,
    gate: &'a G,
}

impl<G> Busy<'_, G> {
    fn is_nobody(&self) -> bool {
        self.count.load(Ordering::Relaxed) == 0
    }
}

impl<G: Gate> Gate for Busy<'_, G> {
    fn task(&self, worker: u32, nth: u64) {
        if !self.is_counted.load(Ordering::Relaxed) {
            self.is_counted.store(true, Ordering::Relaxed);
            self.count.fetch_add(1, Ordering::Relaxed);
        }
        self.gate.task(worker, nth);
    }

    fn idle(&self, worker: u32, turn: u32) {
        if self.is_counted.load(Ordering::Relaxed) {
            self.is_counted.store(false, Ordering::Relaxed);
            self.count.fetch_sub(1, Ordering::Relaxed);
        }
        self.gate.idle(worker, turn);
    }
}

impl<J> Place<J> {
    /// One turn: a task is found and done, and some of those that wait are offered to the others. It answers whether
    /// there was a task.
    fn turn<S: Sync, G: Gate>(&mut self, shared: &S, gate: &G) -> bool
    where
        J: Job<S>,
        requires can { CanStart J.meaning shared.now self.old }
        requires few { HasTakenFew self.old.lane }
        ensures went { EndsWork J.meaning shared.now self.old self.new }
        ensures few { HasTakenFew self.new.lane }
        ensures fewer { tasks_left J.meaning self.new + cond result 1 0 ≤ tasks_left J.meaning self.old }
        ensures none { result ≡ false → HasNone self.new }
    {
        let Some(job) = &mut self.job else {
            unreachable!()
        };
        let from = self.count.number as usize;
        let others = self.others.as_mut_slice();
        let Some(task) = find_task(&mut self.queue, &mut self.lane, others, from) else {
            return false;
        };
        self.count.begin(gate);
        self.queue.work(job, shared, task);
        if !self.others.is_empty() {
            offer(&mut self.queue, &mut self.lane);
        }
        true
    }

    /// Does tasks until it was idle for so long. The count of busy workers has this one where tasks wait for it.
    pub fn work_until_idle<S: Sync, G: Gate>(&mut self, shared: &S, limit: IdleLimit<'_>, gate: &G)
    where
        J: Job<S>,
        requires can { CanStart J.meaning shared.now self.old }
        requires few { HasTakenFew self.old.lane }
        requires patience { limit.patience ≤ PATIENCE }
        ensures { EndsWork J.meaning shared.now self.old self.new }
    {
        let busy = Busy {
            count: limit.busy,
            is_counted: AtomicBool::new(self.queue.len() > 0),
            gate,
        };
        let mut idle = 0;
        while idle < limit.patience {
            if self.turn(shared, &busy) {
                idle = 0;
            } else {
                idle += 1;
                busy.idle(self.count.number, idle);
                if idle >= QUIET_TURNS && busy.is_nobody() {
                    return;
                }
                thread::yield_now();
            }
        }
    }

    /// Does tasks until a turn finds none.
    pub fn work_until_empty<S: Sync, G: Gate>(&mut self, shared: &S, gate: &G)
    where
        J: Job<S>,
        requires can { CanStart J.meaning shared.now self.old }
        requires whole { (own_hand self.old.lane).rights ≡ 16 }
        ensures went { EndsWork J.meaning shared.now self.old self.new }
        ensures none { HasNone self.new }
    {
        self.lane.len();
        while self.turn(shared, gate) {}
    }
}
