ghost use Rattle.std.specs.Prelude.{◌<◌, ◌≤◌, vec_len};
ghost use Rattle.heap_base.specs.declared.limits.TheConstants.{MOST_WORKERS};

use crate::share::Share;
use crate::worker::Worker;

/// Workers that stay parked between rounds. The first is the caller, and each other has a thread where one could be started. The
/// threads end when the crew is dropped.
#[derive(Drop)]
pub struct ParkedCrew<C: Share + Drop> {
    pub(crate) workers: Vec<Worker<C>>,
    ghost some: { 0 < vec_len workers },
    ghost few: { vec_len workers ≤ MOST_WORKERS },
}
