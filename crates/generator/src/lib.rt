//! Traces made from two numbers: the same trace for the same numbers, everywhere. So a large input need not be
//! kept, and two runs can be compared on it.
#![tactic(auto)]

mod draws;
mod lines;
mod piece;
mod pieces;
mod plan;
mod source;

pub use plan::{GenPlan, LEAST_SIZE, MOST_NUMBER, MOST_SIZE};
pub use source::GenSource;
