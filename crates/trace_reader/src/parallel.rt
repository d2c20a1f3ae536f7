//! Reads the lines of a trace before their turn, by several workers side by side.
mod crew;
mod helper;
mod piece;
mod pieces;
mod reader;
mod seat;

pub use reader::{AheadCost, ParallelReader};
