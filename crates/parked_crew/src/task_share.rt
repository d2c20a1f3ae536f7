use std::sync::Arc;
use steal_pool::{Outbox, Task};

/// What one worker has in a run.
#[derive(Drop)]
pub struct JobShare<S, J, G> {
    pub job: J,
    /// What it is to do in the round.
    pub list: Vec<Task>,
    /// What it put in the round.
    pub out: Outbox,
    /// How many tasks of the list, and behind it of those that it put, it did.
    pub done: usize,
    pub shared: Arc<S>,
    pub gate: Arc<G>,
    /// The worker's number.
    pub number: u32,
    /// How many tasks it began in the run.
    pub begun: u64,
    /// Whether the run may have so many tasks that threads pay.
    pub is_large: bool,
}
