use std::alloc::Global;

/// Where threads are started and memory is taken.
#[derive(Clone, Copy)]
pub struct Host<'a, R> {
    pub rt: &'a R,
    pub alloc: Global,
}
