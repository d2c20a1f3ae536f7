//! The audit of a trace by an auditor: from the bytes of a trace to the bytes of its report. `audit` marks the heap by a crew
//! at each collection; another program may give its own way of marking. `audit_large` is the same under larger limits of the heap.
#![tactic(auto)]

mod auditing;
mod collecting;
mod costs;
mod large;
mod laws;
mod program;
mod reading;
mod taking;
mod top_call;

pub use auditing::{Audit, Plan, audit_trace};
pub use costs::Costs;
pub use generator::{GenPlan, GenSource};
pub use large::{audit_large, audit_large_with};
pub use laws::{
    no_read_of_a_generated_trace_fails, the_facts_of_a_run_follow,
    the_usual_limits_give_the_same_report,
};
pub use settings::{Settings, SettingsError, large_settings_of, settings_of};
pub use top_call::{Setup, audit, audit_with};
