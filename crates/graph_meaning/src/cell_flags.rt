ghost use Rattle.std.specs.Prelude.{◌≡◌, ◌<◌, IfOk, length, replicate, slice_index_or, slice_set, true, false};
ghost use Rattle.graph_meaning.specs.Owners.{is_any_set};

use crate::by_cell::ByCell;
use heap_base::OutOfMemory;
use std::alloc::Global;
use std::marker::Model;

/// A flag for each of so many cells. Contracts see the list of the flags.
#[derive(Drop)]
pub struct CellFlags {
    by_cell: ByCell<bool>,
    // so that nobody goes over the cells where no flag is set
    any: bool,
}

impl Model for CellFlags {
    ghost use Rattle.std.specs.Prelude.{◌≡◌, List, Bool};
    ghost use Rattle.graph_meaning.specs.Owners.{is_any_set};

    ghost Value = { List Bool };

    ghost view = { λ f. f.by_cell };

    ghost invariant = { λ f. f.any ≡ is_any_set f.by_cell };
}

impl CellFlags {
    /// No flag set. It takes the memory of all later calls.
    #[tactic(auto, using(crate::proofs::Flags::none_set))]
    pub fn make(alloc: Global, cells: u32) -> Result<CellFlags, OutOfMemory>
        ensures { IfOk result (λ f. f ≡ replicate cells false) }
    {
        Ok(CellFlags {
            by_cell: ByCell::make(alloc, cells, false)?,
            any: false,
        })
    }

    /// The same flags.
    pub fn copy(&self) -> Result<CellFlags, OutOfMemory>
        ensures { IfOk result (λ f. f ≡ self.now) }
    {
        Ok(CellFlags {
            by_cell: self.by_cell.copy()?,
            any: self.any,
        })
    }

    /// Whether the flag of a cell is set.
    pub fn get(&self, cell: u32) -> bool
        requires { cell < length self.now }
        ensures { result ≡ slice_index_or self.now cell false }
    {
        self.by_cell.get(cell)
    }

    /// Whether any flag is set.
    pub fn any(&self) -> bool
        ensures { result ≡ is_any_set self.now }
    {
        self.any
    }

    /// Sets the flag of a cell.
    #[tactic(auto, using(crate::proofs::Flags::one_set))]
    pub fn set(&mut self, cell: u32)
        requires { cell < length self.old }
        ensures { self.new ≡ slice_set self.old cell true }
    {
        self.by_cell.set(cell, true);
        self.any = true;
    }
}
