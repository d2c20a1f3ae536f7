use audit_core::WorkerCost;
use trace_reader::AheadCost;

/// What further workers cost, in work that pays for them: for those that mark the heap, and for reading lines before their turn. No report
/// and no status depends on it.
#[derive(Clone, Copy, Debug)]
pub struct Costs {
    pub workers: WorkerCost,
    pub ahead: AheadCost,
}

impl Costs {
    /// What they cost on a machine of today.
    pub fn usual() -> Costs {
        Costs {
            workers: WorkerCost::usual(),
            ahead: AheadCost::usual(),
        }
    }

    /// Each worker that is asked for has a thread and takes its part, however small the trace and its heap are. It is for tests: a small
    /// audit is slower so.
    pub fn none() -> Costs {
        Costs {
            workers: WorkerCost::none(),
            ahead: AheadCost::none(),
        }
    }
}
