//! The paths to objects and by references, as verdicts show them, and the first two references to an object.
#![tactic(auto)]

mod cell_reference;
mod first;
mod plain_levels;
mod search;
mod traced;

pub use cell_reference::{CellReference, FirstReferences};
pub use first::first_references;
pub use plain_levels::PlainLevels;
pub use traced::{TracedTable, is_scanned};
