//! The root phase: the scans from what the roots name.
#![tactic(auto)]

mod meeting;
mod roots;

pub use roots::{begin_root_phase, root_phase};
