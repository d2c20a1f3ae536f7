//! The table of objects, their slots (weak ones too), the roots and the types, and how memory for them is asked for.
#![tactic(auto)]

mod block;
mod blocks;
mod cell;
mod cells;
mod directory;
mod edges;
mod entry;
mod guesses;
mod ids;
mod kinds;
mod object;
mod page;
mod pages;
mod roots;
mod slot;
mod table;
mod views;

pub use edges::Edges;
pub use table::ObjectTable;
