//! The phase of marking that finds what owners hold: scans from the owners, and from the ownees that these hold.
#![tactic(auto)]

mod held;
mod laws;
mod owners;

pub use held::{begin_take_up, take_up};
pub use laws::what_the_owner_phase_holds_can_be_taken_up;
pub use owners::{begin_owner_phase, owner_phase};
