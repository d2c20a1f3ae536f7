//! A crew whose workers stay parked between runs, in place of threads that are started for each: it runs jobs as the crew of
//! `steal_pool` does. A run goes by rounds. In each round every worker does a list of tasks, and what was put meanwhile is dealt
//! out for the next; no task is stolen. Each worker's share of a round passes through a table of atomic words of its own, so that
//! what came back is known to be what was sent, done. No contract says that a worker wakes.
#![tactic(auto)]

mod calling;
mod crew;
mod errand;
mod plays;
mod residents;
mod round;
mod rounds;
mod rule;
mod running;
mod seating;
mod share;
mod taking;
mod task_dealing;
mod task_rounds;
mod task_share;
mod task_work;
mod worker;
mod working;

pub use crew::ParkedCrew;
pub use residents::Residents;
pub use share::Share;
