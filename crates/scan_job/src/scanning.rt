//! The scan of a task's cell.
ghost use Rattle.std.specs.Prelude.{◌≡◌, ℕ, IsSome};
ghost use Rattle.object_table.specs.Edges.{AreEdgesAt};
ghost use Rattle.object_table.specs.Placed.{id_in};
ghost use Rattle.scan_job.specs.Jobs.{IsReady};
ghost use Rattle.scan_job.specs.States.{IsSameJob, wins_left, turns_of};

use crate::job::ScanJob;
use crate::shared::ScanShared;
use object_table::Edges;
use steal_pool::{Job, Outbox, Task};

/// The words of so many cells are near at hand in any case: 64 KiB, which a processor's cache holds.
const NEAR_CELLS: u32 = 8_192;

/// More tasks than any run has: 2^63.
const MOST_TURNS: u64 = 9_223_372_036_854_775_808;

impl<'a> Job<ScanShared<'a>> for ScanJob {
    ghost use Rattle.scan_job.specs.Jobs.{scan_meaning};

    ghost meaning = { scan_meaning };

    /// How many cells it may still win.
    fn room(&self) -> u64
        ensures { result ≡ wins_left self.now }
    {
        (self.cells - self.won) as u64
    }

    /// It may be asked to do any number of tasks: where it is spent, it does nothing.
    fn turns(&self) -> u64
        ensures { result ≡ turns_of self.now }
    {
        MOST_TURNS
    }

    /// Meets what each slot of the task's cell leads to, once and in order. Their words are looked at before the first is met,
    /// so that it waits for all of them at once. A spent job does nothing.
    fn work(&mut self, shared: &ScanShared<'a>, task: Task, out: &mut Outbox) {
        if self.is_spent() {
            return;
        }
        let edges = shared.table.edges_at(task.cell);
        self.prefetch_targets(shared, &edges);
        for slot in 0..edges.len() {
            if let Some(cell) = edges.at(slot) {
                self.meet_and_put(shared, task.tag, cell, out);
            }
        }
    }
}

impl ScanJob {
    // Looks at the words of what the edges of an object lead to, where there are so many that most lie far away and a meet waits for its word.
    fn prefetch_targets(&mut self, shared: &ScanShared<'_>, edges: &Edges<'_>)
        requires ready { IsReady self.old shared.now }
        requires edges { (cell : ℕ) × AreEdgesAt shared.now.table.now cell edges.now }
        ensures ready { IsReady self.new shared.now }
        ensures same { IsSameJob self.old self.new }
    {
        if self.cells <= NEAR_CELLS || !shared.headers.are_shared() {
            return;
        }
        for slot in 0..edges.len() {
            if let Some(target) = edges.at(slot) {
                self.prefetch(shared, target);
            }
        }
    }

    // Looks at the word of a cell.
    fn prefetch(&mut self, shared: &ScanShared<'_>, cell: u32)
        requires ready { IsReady self.old shared.now }
        requires cell { IsSome (id_in shared.now.table.now cell) }
        ensures ready { IsReady self.new shared.now }
        ensures same { IsSameJob self.old self.new }
    {
        shared.headers.prefetch(&mut self.pass, cell);
    }
}
