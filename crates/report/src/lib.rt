//! The report of a run over a trace: what a run is, how it ends and what is reported of it (defined in `specs/` of this crate),
//! and the texts of a collection, of a refused line, of a run that an assertion halts, and of the end.
#![tactic(auto)]

mod examples;
mod parts;
mod paths;
mod refusals;
mod texts;
mod verdicts;
mod writing;

pub use examples::{
    a_collection_of_nothing_has_one_line, a_cycle_that_is_freed_has_no_line,
    a_later_collection_may_halt_the_run, a_path_may_begin_at_an_owner,
    a_path_names_each_slot_and_object, a_refused_line_ends_the_report,
    a_run_without_violations_does_not_halt, a_trace_of_nothing_has_the_end_line,
    a_violation_halts_the_run, an_object_asserted_dead_has_a_line,
    an_ownee_of_an_array_that_was_let_go_has_a_line, an_ownee_that_another_object_holds_has_a_line,
    each_collection_has_its_lines, paths_past_the_number_shown_are_left_out,
    what_force_cleared_has_a_line,
};
pub use texts::{collection_text, end_text, fault_text, halt_text};
pub use writing::{WriteError, write_collection};
