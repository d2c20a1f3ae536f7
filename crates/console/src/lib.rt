//! Runs a program on its command line and its streams, and tells a person what the output doesn't say: which argument is refused, why a
//! stream failed, and which program takes larger heaps.
#![tactic(auto)]

mod ending;
mod last;
mod memory;
mod options;
mod program;
mod stream;
mod telling;
mod words;

pub use ending::exit_code;
pub use last::LastBytes;
pub use options::{OptionRule, Options, Takes};
pub use program::{Streams, run_program};
pub use stream::Remembering;
pub use telling::{Arguments, LargerHeaps, Program};
