use crate::cost::ThreadCost;

/// What all workers of a run see.
#[derive(Clone, Copy)]
pub struct Context<'a, R, S, G> {
    pub rt: &'a R,
    pub shared: &'a S,
    pub gate: &'a G,
    /// How many tasks each worker has room for.
    pub room: u64,
    pub cost: ThreadCost,
}
