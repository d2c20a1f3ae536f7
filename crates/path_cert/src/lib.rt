//! Levels and canonical paths through the heap of a table, and what an owner finds.
#![tactic(auto)]

mod ancestors;
mod arrival;
mod finding;
mod frontier;
mod level_table;
mod objects;
mod references;
mod searching;
mod start;
mod trail;

pub use finding::{OwnerSearch, finds};
pub use level_table::Levels;
pub use objects::{object_id, object_kind};
pub use references::{owner_step, root_path};
pub use searching::levels;
pub use start::Start;
