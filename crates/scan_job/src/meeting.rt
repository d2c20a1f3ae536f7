//! How a job meets one cell.
ghost use Rattle.std.specs.Prelude.{◌≡◌, ◌+◌, ◌<◌, ◌≤◌, ◌++◌, length, IsSome};
ghost use Rattle.graph_meaning.specs.Roles.{cells_of};
ghost use Rattle.header_rule.specs.Passes.{marks_at};
ghost use Rattle.object_table.specs.Placed.{id_in};
ghost use Rattle.scan_job.specs.declared.mode.Mode.TheVariants.{Root};
ghost use Rattle.scan_job.specs.Cells.{is_owned_by};
ghost use Rattle.scan_job.specs.Jobs.{IsReady, shared_graph};
ghost use Rattle.scan_job.specs.Scans.{Meets, one_meeting, is_held, is_put, marks_on, put_tasks};
ghost use Rattle.scan_job.specs.States.{IsWithinWins, wins_left};

use crate::job::ScanJob;
use crate::mode::Mode;
use crate::shared::ScanShared;
use graph_meaning::OwnerRole;
use header_rule::Marks;
use steal_pool::{Outbox, Task};

// Whether the role is that of an ownee whose owner is in this cell.
fn is_owned_by(cell: u32, role: OwnerRole) -> bool
    ensures { result ≡ is_owned_by cell role }
{
    match role {
        OwnerRole::NotOwned => false,
        OwnerRole::OwnerCell(owner) => owner == cell,
        OwnerRole::OwnerGone(_) => false,
    }
}

impl ScanShared<'_> {
    // The marks that a meeting with the cell sets.
    fn marks(&self, mode: Mode, tag: u32, cell: u32) -> Marks
        requires { cell < cells_of self.now.roles.now }
        ensures { marks_at cell result ≡ marks_on (shared_graph self.now) mode tag cell }
    {
        let owned = self.roles.border(cell).ownee;
        match mode {
            Mode::Owner if owned => {
                let own = is_owned_by(tag, self.roles.owner(cell));
                Marks {
                    found: own,
                    disputed: !own,
                    met_by_roots: false,
                }
            }
            Mode::Owner | Mode::TakeUp => Marks {
                found: false,
                disputed: false,
                met_by_roots: false,
            },
            Mode::Root => Marks {
                found: false,
                disputed: false,
                met_by_roots: owned,
            },
        }
    }

    // Whether the cell is put where it is won.
    fn is_put(&self, mode: Mode, cell: u32) -> bool
        requires { cell < cells_of self.now.roles.now }
        ensures { result ≡ is_put (shared_graph self.now) mode cell }
    {
        let border = self.roles.border(cell);
        match mode {
            Mode::Owner => !(border.owner || border.ownee),
            Mode::TakeUp | Mode::Root => !border.owner,
        }
    }

    // Whether the cell is held where it is won.
    fn is_held(&self, mode: Mode, cell: u32) -> bool
        requires { cell < cells_of self.now.roles.now }
        ensures { result ≡ is_held (shared_graph self.now) mode cell }
    {
        let border = self.roles.border(cell);
        match mode {
            Mode::Owner => border.ownee && !border.owner,
            Mode::TakeUp | Mode::Root => false,
        }
    }
}

impl ScanJob {
    // Meets a cell under a tag, and says whether it was won.
    fn meet(&mut self, shared: &ScanShared<'_>, tag: u32, cell: u32) -> bool
        requires ready { IsReady self.old shared.now }
        requires cell { IsSome (id_in shared.now.table.now cell) }
        requires left { 0 < self.old.pass.left }
        ensures meets { Meets (shared_graph shared.now) (one_meeting tag cell result) self.old self.new }
        ensures ready { IsReady self.new shared.now }
        ensures within_wins { IsWithinWins self.new }
    {
        let marks = shared.marks(self.mode, tag, cell);
        let won = shared.headers.meet(&mut self.pass, cell, marks);
        if won {
            self.won += 1;
            self.tally.add(shared.table.kind_at(cell));
            if shared.is_held(self.mode, cell) {
                self.held.push_reserved(cell);
            }
        }
        won
    }

    // Meets a cell under a tag, and puts it where it was won and the scan goes on from it.
    pub(crate) fn meet_and_put(
        &mut self,
        shared: &ScanShared<'_>,
        tag: u32,
        cell: u32,
        out: &mut Outbox,
    ) -> bool
        requires ready { IsReady self.old shared.now }
        requires cell { IsSome (id_in shared.now.table.now cell) }
        requires left { 0 < self.old.pass.left }
        requires spare { length out.old.tasks + wins_left self.old ≤ out.old.room }
        ensures meets { Meets (shared_graph shared.now) (one_meeting tag cell result) self.old self.new }
        ensures ready { IsReady self.new shared.now }
        ensures within_wins { IsWithinWins self.new }
        ensures puts { out.new.tasks ≡ out.old.tasks ++ put_tasks (shared_graph shared.now) self.old.mode (one_meeting tag cell result) }
        ensures outbox { out.new.room ≡ out.old.room }
    {
        let won = self.meet(shared, tag, cell);
        if won && shared.is_put(self.mode, cell) {
            out.put(Task { cell, tag });
        }
        won
    }

    /// Meets what a root names, in mode Root, and says whether the meet was a win. Nothing is put or held: the caller
    /// puts the cell where it was won and is no owner's.
    pub fn meet_root(&mut self, shared: &ScanShared<'_>, cell: u32) -> bool
        requires ready { IsReady self.old shared.now }
        requires mode { self.old.mode ≡ Root }
        requires left { 0 < self.old.pass.left }
        requires cell { IsSome (id_in shared.now.table.now cell) }
        ensures meets { Meets (shared_graph shared.now) (one_meeting 0 cell result) self.old self.new }
        ensures held { self.new.held ≡ self.old.held }
        ensures ready { IsReady self.new shared.now }
        ensures within_wins { IsWithinWins self.new }
    {
        self.meet(shared, 0, cell)
    }
}
