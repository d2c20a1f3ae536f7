//! The regions that the threads of a trace have open, and the objects in them, which are asserted dead at a region's end.
#![tactic(auto)]

mod log;
mod stack;

pub use log::RegionLog;
