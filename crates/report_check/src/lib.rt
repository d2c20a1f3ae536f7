//! The checker of reports: whether a report is the one that is defined for a trace. It runs the trace on one thread, by
//! collections that know no crew, into a sink that compares, so that neither is held whole.
#![tactic(auto)]

mod checking;
mod compared;
mod comparing;
mod laws;
mod lent;
mod outcome;
mod pending;
mod running;
mod top_call;
mod words;

pub use laws::{
    a_check_without_faults_ends, what_a_check_calls_equal_is_appended,
    what_an_audit_appended_is_not_called_different,
};
pub use settings::MOST_PATHS;
pub use top_call::check_run;
pub use words::MOST_DIGITS;
