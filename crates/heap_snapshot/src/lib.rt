//! Snapshots of a heap: their text, written and read; the snapshot of the heap that a trace makes, and a trace that makes
//! the heap of a snapshot.
#![tactic(auto)]

mod assembly;
mod dangling;
mod fault;
mod from_trace;
mod laws;
mod line;
mod read;
mod refusal;
mod run;
mod stage;
mod text_laws;
mod to_trace;
mod trace_lines;
mod trace_of_heap;
mod types;
mod whole;
mod write;

pub use from_trace::LONGEST_TRACE;
pub use laws::{
    a_snapshot_comes_back_from_its_trace, a_snapshot_is_written_at_the_end,
    a_trace_of_a_snapshot_has_its_operations, a_trace_of_a_snapshot_is_short,
    a_trace_of_a_snapshot_makes_its_heap, the_view_of_a_made_heap_is_lawful,
};
pub use read::{LONGEST_SNAPSHOT, read_snapshot};
pub use refusal::{SnapError, SnapWhy};
pub use run::{Command, snap_run};
pub use text_laws::{
    a_dangling_id_stands_in_its_line, a_lawful_view_is_read_back, a_lawful_view_is_well_formed,
    a_text_stands_for_one_view, a_well_formed_view_is_lawful,
    bytes_that_stand_for_a_view_are_its_text,
};
pub use trace_of_heap::trace_text;
pub use write::write_snapshot;
