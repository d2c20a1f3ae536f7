//! The verdicts of a collection, by what was counted in the heap, whoever counted it: dead, instances, unshared and
//! ownedby, with their paths; and which ownees violate, by a table and its roles alone.
#![tactic(auto)]

mod counts;
mod dead;
mod instances;
mod listing;
mod over_limit;
mod ownedby;
mod ownees;
mod owner;
mod ownership;
mod past_limit;
mod settling;
mod shown_paths;
mod totals;
mod unowned;
mod unshared;
mod violating;

pub use counts::{CountedHeap, HeapCounts};
pub use listing::all_verdicts;
pub use ownees::ownees_of;
pub use ownership::{OwnershipCheck, check_ownees};
pub use totals::total_with;
