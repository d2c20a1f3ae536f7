//! What every crate stands on: the limits (how many objects, slots, roots and types, and how long names are), ids and names,
//! the statuses of the programs, the error of memory that was refused, and sums over lists.
#![tactic(auto)]

mod errors;
mod ids;
mod limits;
mod names;
mod status;

pub use errors::OutOfMemory;
pub use ids::{ObjId, ThreadNo};
pub use limits::{
    END_STEPS, LONGEST_LINE, LONGEST_NAME, LONGEST_TRACE, Limits, MOST_KINDS, MOST_OBJECTS,
    MOST_REGIONS, MOST_ROOTS, MOST_SLOTS, MOST_THREADS, MOST_WORKERS, USUAL_OBJECTS, USUAL_PATHS,
    USUAL_ROOTS, USUAL_SLOTS,
};
pub use names::Name;
pub use status::Status;
