use std::alloc::Global;

/// What a test has of its machine: the handle of its runtime, and its memory.
#[derive(Drop)]
pub struct Host<'a, R> {
    pub rt: &'a R,
    pub alloc: Global,
}

impl<'a, R> Host<'a, R> {
    pub fn of(rt: &'a R, alloc: Global) -> Host<'a, R> {
        Host { rt, alloc }
    }
}
