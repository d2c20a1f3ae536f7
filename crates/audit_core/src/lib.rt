//! The auditor: a heap with its assertions, and the collections that check them. A crew of workers marks the heap, and what it
//! marked decides the verdicts. How an operation changes the heap is in `heap_parts`.
#![tactic(auto)]

mod auditor;
mod collecting;
mod counted;
mod doubts;
mod ownership;
mod verdict_lists;

pub use auditor::{Auditor, AuditorRules};
pub use collecting::WorkerCost;
pub use heap_marking::{Kit, Traced, trace};
pub use verdict_list::OwnershipCheck;
