//! The run of a program over a trace, whatever the program makes of it: lines are read one after another, texts that are due
//! are written, a refused line ends the report, and the status says how the run ended. An audit is such a program, whoever keeps
//! the heap and marks it.
#![tactic(auto)]

mod ahead;
mod audit_texts;
mod due;
mod ending;
mod laws;
mod once;
mod program;
mod running;
mod taken;
mod turn;

pub use audit_texts::{due_behind, end_text_of};
pub use laws::{
    equal_reports_have_equal_runs, no_read_without_faults_fails, the_facts_of_a_run_follow,
};
pub use once::{refuse_words, write_once};
pub use program::Program;
pub use running::TraceRun;
pub use taken::{Due, LastText, Taken};
