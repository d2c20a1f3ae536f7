//! The memory of a trace by a crew.
ghost use Rattle.std.specs.Prelude.{◌≡◌, ◌*◌, ◌<◌, ◌≤◌, [], length, vec_capacity};
ghost use Rattle.steal_pool.specs.Runs.{workers_of, room_of};

use crate::memory::TraceMemory;
use scan_job::ScanJob;
use steal_pool::{Crew, ThreadCost};

/// How many workers mark a heap, and what their threads cost.
#[derive(Clone, Copy, Debug)]
pub struct Workers {
    pub number: u32,
    pub cost: ThreadCost,
}

/// All the memory of one trace: a header word for each cell, a job for each worker, the crew and its first tasks.
/// Contracts see for how many cells and types it was made.
#[derive(Drop)]
pub struct Kit {
    pub(crate) memory: TraceMemory,
    pub(crate) crew: Crew<ScanJob>,
    // empty, with room for every cell
    pub(crate) kept: Vec<bool>,
    ghost job_each: { length memory.jobs.items ≡ workers_of crew },
    ghost crew_room: { 2 * memory.headers.cells < room_of crew },
    ghost none_kept: { kept.items ≡ [] },
    ghost kept_room: { memory.headers.cells ≤ vec_capacity kept },
}
