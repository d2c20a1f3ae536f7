//! Marks the heap with many workers, and says what was reached: counts, marks and instances, by cell.
#![tactic(auto)]

mod gathering;
mod kit;
mod laws;
mod marking;
mod memory;
mod phases;
mod preparing;
mod traced;

pub use gathering::{merge_tallies, take_passes};
pub use kit::{Kit, Workers};
pub use laws::{what_is_traced_by_cells_is_traced_by_ids, what_the_phases_gain_traces_the_graph};
pub use marking::trace;
pub use memory::TraceMemory;
pub use traced::Traced;
