//! Minor collections: a heap in two generations, which remembers exactly the old objects that hold young ones.
#![tactic(auto)]

mod following;
mod laws;
mod minor;
mod nursery;
mod program;
mod room;
mod running;
mod search;
mod tally;
mod texts;

pub use laws::{
    a_minor_collection_frees_no_old_object, a_minor_collection_keeps_what_a_full_one_keeps,
    no_object_is_young_after_a_collection, survivors_keep_their_slots,
};
pub use minor::Minor;
pub use nursery::Nursery;
pub use running::minor_run;
