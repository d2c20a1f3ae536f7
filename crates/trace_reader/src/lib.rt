//! Reads a trace: cuts its bytes into lines, and reads the JSON of each line as an operation, in its turn or before it by
//! several workers. What an operation is stands in `graph_meaning`.
#![tactic(auto)]

mod cut;
mod cutter;
mod error;
mod field;
mod fields;
mod held;
mod key;
mod line;
mod line_ahead;
mod lines_ahead;
mod names;
mod object;
mod operation;
mod parallel;
mod plain;
mod reader;
mod skip;
mod usual;
mod utf8;
mod window;

pub use cutter::LineCutter;
pub use error::CutError;
pub use field::spelling_of;
pub use line::{LineReader, event_of};
pub use line_ahead::LineAhead;
pub use lines_ahead::LinesAhead;
pub use parallel::{AheadCost, ParallelReader};
pub use reader::{Ahead, EventReader, MOST_AHEAD};
