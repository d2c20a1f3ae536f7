//! The options of an audit and of its checker: what a command line asks for, and what a person is told of an option that is
//! refused.
#![tactic(auto)]

mod command;
mod numbers;
mod options;
mod settings;
mod values;

pub use numbers::{LEAST_WORKERS, MOST_DIGITS, MOST_PATHS, USUAL_WORKERS, number_by};
pub use options::{AUDIT_OPTIONS, LARGE_AUDIT_OPTIONS, LARGER_HEAPS};
pub use settings::{Settings, SettingsError, large_settings_of, settings_of};
