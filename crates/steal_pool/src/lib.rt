//! A crew of workers that do tasks at the same time, and who watches them. Each worker has a queue of its own and offers
//! some of its tasks in a deque, from which a worker without a task steals.
#![tactic(auto)]

mod context;
mod cost;
mod crew;
mod deque;
mod finding;
mod first_tasks;
mod gate;
mod hand;
mod job;
mod lane;
mod lane_calls;
mod lending;
mod offering;
mod outbox;
mod outcomes;
mod place;
mod pool;
mod queue;
mod renewing;
mod returning;
mod running;
mod seating;
mod stealing;
mod task;
mod victim;
mod working;

pub use cost::ThreadCost;
pub use crew::Crew;
pub use first_tasks::FirstTasks;
pub use gate::{Gate, OpenGate};
pub use job::Job;
pub use outbox::Outbox;
pub use task::Task;
