//! The job of a worker that stays: what it does over what it owns is what a scan job does over what is lent.
ghost use Rattle.std.specs.Prelude.{◌≡◌};
ghost use Rattle.scan_job.specs.States.{wins_left, turns_of};

use crate::scan::ResidentScan;
use scan_job::{ScanJob, ScanShared};
use std::marker::Model;
use steal_pool::{Job, Outbox, Task};

/// A worker's job over a `ResidentScan`. Contracts see the state of the scan job.
#[derive(Drop)]
pub struct ResidentJob {
    pub scan: ScanJob,
}

impl Model for ResidentJob {
    ghost use Rattle.scan_job.specs.States.{ScanState};

    ghost Value = { ScanState };

    ghost view = { λ j. j.scan };
}

impl Job<ResidentScan> for ResidentJob {
    ghost use Rattle.scan_job.specs.Jobs.{meaning_over};
    ghost use Rattle.resident_crew.specs.Scans.{shared_by_scan};

    ghost meaning = { meaning_over shared_by_scan };

    /// How many cells it may still win.
    fn room(&self) -> u64
        ensures { result ≡ wins_left self.now }
    {
        <ScanJob as Job<ScanShared<'static>>>::room(&self.scan)
    }

    /// It may be asked to do any number of tasks: where it is spent, it does nothing.
    fn turns(&self) -> u64
        ensures { result ≡ turns_of self.now }
    {
        <ScanJob as Job<ScanShared<'static>>>::turns(&self.scan)
    }

    /// Reads each slot of the task's cell once, in order, and meets what it leads to. A spent job does nothing.
    fn work(&mut self, shared: &ResidentScan, task: Task, out: &mut Outbox) {
        self.scan.work(&shared.lend(), task, out);
    }
}
