//! The audit of a trace by workers that stay parked between collections: from the bytes of a trace to the bytes of its
//! report. The workers outlive the table whose objects they mark, so they share a copy.
#![tactic(auto)]

mod collecting;
mod job;
mod laws;
mod marking;
mod phases;
mod scan;
mod top_call;
mod words;

pub use job::ResidentJob;
pub use laws::{
    an_audit_and_a_resident_audit_agree, audits_with_any_workers_agree,
    resident_audits_with_any_workers_agree,
};
pub use marking::trace_resident;
pub use parked_crew::Residents;
pub use phases::TraceCrew;
pub use scan::ResidentScan;
pub use top_call::{ResidentSetup, audit_resident, audit_resident_with};
