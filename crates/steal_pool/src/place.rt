//! A worker's place in the crew.
use crate::deque::Thief;
use crate::gate::Gate;
use crate::lane::Lane;
use crate::queue::Queue;
use crate::victim::Victim;

/// Who works, and how many tasks it began in this run.
#[derive(Drop)]
pub struct Count {
    pub number: u32,
    pub begun: u64,
}

impl Count {
    /// Tells the gate that a task begins.
    pub fn begin<G: Gate>(&mut self, gate: &G) {
        self.begun = self.begun.saturating_add(1);
        gate.task(self.number, self.begun);
    }
}

/// What one worker has.
#[derive(Drop)]
pub struct Place<J> {
    /// There in a run alone.
    pub job: Option<J>,
    pub queue: Queue,
    pub lane: Lane,
    /// The hands on the other deques, by the numbers of their workers. There in a run alone.
    pub others: Vec<Victim>,
    /// The thieves' ends of the own deque that no other worker has.
    pub spare: Vec<Thief>,
    pub count: Count,
}
