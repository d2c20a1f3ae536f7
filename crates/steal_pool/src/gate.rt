/// Watches the workers of a run, and changes nothing.
pub trait Gate: Sync {
    /// Called before a worker begins its `nth` task of a run, counted from 1.
    fn task(&self, worker: u32, nth: u64);

    /// Called at each idle turn of a worker, counted from 1 and again from 1 after each task.
    fn idle(&self, worker: u32, turn: u32);
}

/// The gate that does nothing.
#[derive(Clone, Copy, Debug)]
pub struct OpenGate;

impl Gate for OpenGate {
    fn task(&self, _worker: u32, _nth: u64) {}

    fn idle(&self, _worker: u32, _turn: u32) {}
}
