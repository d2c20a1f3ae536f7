//! What a trace asserts, kept until a collection checks it: which objects are to be dead, unshared or owned, and how many
//! objects of a type there may be. What is asserted of a region is in `region_log`.
#![tactic(auto)]

mod id_set;
mod ids;
mod laws;
mod registry;
mod roles;

pub use laws::{
    a_limit_by_number_is_a_limit_by_name, a_new_type_has_no_limit, more_room_changes_no_limit,
    roles_say_what_a_heap_says, roles_stand_for_a_heap,
};
pub use registry::AssertRegistry;
