use crate::crew::ParkedCrew;
use crate::task_share::JobShare;
use std::alloc::Global;
use std::sync::Arc;
use steal_pool::{Gate, Job, ThreadCost};

/// Workers that do tasks at the same time, and stay parked between two runs. Their threads end when this is dropped.
#[derive(Drop)]
pub struct Residents<S: Sync + Drop, J: Job<S> + Drop, G: Gate + Drop> {
    pub(crate) crew: ParkedCrew<JobShare<S, J, G>>,
    pub(crate) gate: Arc<G>,
    /// Where a run allocates.
    pub(crate) alloc: Global,
    pub(crate) cost: ThreadCost,
}
