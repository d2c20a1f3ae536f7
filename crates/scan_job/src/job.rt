ghost use Rattle.std.specs.Bool.{OnTrue, OnFalse};
ghost use Rattle.std.specs.Prelude.{◌≡◌, [], IfOk};
ghost use Rattle.header_rule.specs.Passes.{IsFresh};
ghost use Rattle.scan_job.specs.States.{IsWithinWins, IsSpent, IsUnspent, new_state};

use crate::mode::Mode;
use header_rule::Pass;
use heap_base::{MOST_SLOTS, OutOfMemory};
use instance_ledger::Tally;
use std::alloc::Global;
use std::marker::Model;

/// A worker's job: it meets cells by a pass of its own. Contracts see its mode, its pass, for how many cells it was
/// made, the cells that it holds, and its tally.
#[derive(Drop)]
pub struct ScanJob {
    pub(crate) mode: Mode,
    pub(crate) pass: Pass,
    pub(crate) cells: u32,
    // how many cells its pass won
    pub(crate) won: u32,
    pub(crate) held: Vec<u32>,
    pub(crate) tally: Tally,
}

impl Model for ScanJob {
    ghost use Rattle.std.specs.Prelude.{◌≡◌, ◌≤◌, length, vec_capacity};
    ghost use Rattle.header_rule.specs.Passes.{wins};
    ghost use Rattle.scan_job.specs.States.{ScanState, IsWithinWins};

    ghost Value = { ScanState };

    ghost view = { λ j. record { mode = j.mode; pass = j.pass; cells = j.cells; held = j.held.items; tally = j.tally } };

    ghost invariant = { λ j. (j.won ≡ length (wins j.pass)) × (j.cells ≤ vec_capacity j.held) × IsWithinWins (record { mode = j.mode; pass = j.pass; cells = j.cells; held = j.held.items; tally = j.tally }) };
}

impl ScanJob {
    /// A job in mode Owner for the cells and kinds below these numbers, which holds no cell and counts 0 of each kind.
    /// It takes the memory of all later calls. When out of memory the pass is let go.
    pub fn make(alloc: Global, pass: Pass, cells: u32, kinds: u32) -> Result<ScanJob, OutOfMemory>
        requires fresh { IsFresh pass }
        ensures made { IfOk result (λ j. j ≡ new_state pass cells kinds) }
    {
        let held = Vec::with_capacity(alloc, cells as usize)?;
        let tally = Tally::make(alloc, kinds)?;
        Ok(ScanJob {
            mode: Mode::Owner,
            pass,
            cells,
            won: 0,
            held,
            tally,
        })
    }

    /// Sets the mode.
    pub fn set_mode(&mut self, mode: Mode)
        ensures mode { self.new ≡ record self.old { mode = mode } }
    {
        self.mode = mode;
    }

    /// The cells that it holds, in the order in which they were held.
    pub fn held(&self) -> &[u32]
        ensures held { result.now ≡ self.now.held }
        ensures within_wins { IsWithinWins self.now }
    {
        self.held.as_slice()
    }

    /// Takes the held cells away.
    pub fn clear_held(&mut self)
        ensures held { self.new ≡ record self.old { held = [] } }
    {
        self.held.clear();
    }

    /// How many objects of each type it won.
    pub fn tally(&self) -> &Tally
        ensures tally { result.now ≡ self.now.tally }
        ensures within_wins { IsWithinWins self.now }
    {
        &self.tally
    }

    /// Whether it is spent: its pass has fewer meets left than a task may have slots. Then it does nothing more.
    pub fn is_spent(&self) -> bool
        ensures spent { OnTrue result (IsSpent self.now) }
        ensures unspent { OnFalse result (IsUnspent self.now) }
    {
        self.pass.left() < MOST_SLOTS as u64
    }

    /// Its pass.
    pub fn into_pass(self) -> Pass
        ensures pass { result ≡ self.pass }
    {
        let ScanJob { pass, .. } = self;
        pass
    }
}
