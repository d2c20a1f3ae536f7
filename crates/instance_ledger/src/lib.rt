//! How many instances of each type were counted: a tally for each worker, and tallies merged.
#![tactic(auto)]

mod tally;

pub use tally::Tally;
