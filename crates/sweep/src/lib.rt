//! The sweep that ends a collection: what was not reached is freed, and forgotten by all that speaks of it.
#![tactic(auto)]

mod sweeping;

pub use sweeping::sweep;
