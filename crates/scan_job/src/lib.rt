//! A scan: a job for a crew that follows the slots of an object (weak ones are passed over), and counts, holds or puts what it
//! wins. It has a mode for each phase of marking: from roots, from owners, and from what owners hold.
#![tactic(auto)]

mod job;
mod laws;
mod meeting;
mod mode;
mod phase;
mod scanning;
mod shared;

pub use job::ScanJob;
pub use laws::{
    a_table_with_roles_is_a_whole_graph, an_owner_finds_by_a_path, the_list_holds_the_fit_tasks,
    under_owners_is_by_a_path,
};
pub use mode::Mode;
pub use phase::{ScanContext, begin_phase, none_is_spent, run_scans};
pub use shared::ScanShared;
