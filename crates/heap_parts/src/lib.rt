//! A heap while a trace builds it: applies each operation of a trace to the table of objects, the assertions and the regions,
//! as its definition says, and frees what a collection didn't reach.
#![tactic(auto)]

mod assertions;
mod clearing;
mod objects;
mod parts;
mod regions;
mod sweeping;

pub use parts::HeapParts;
pub use sweeping::Swept;
