ghost use Rattle.std.specs.Prelude.{◌≡◌, IfOk};
ghost use Rattle.object_table.specs.Chains.{next_in};

use crate::object::Object;
use heap_base::OutOfMemory;
use std::mem::size_of;

/// A cell of a table: it holds an object, or it is empty and leads to the next empty cell, if there is one.
#[derive(Drop)]
pub enum Cell {
    Taken(Object),
    Empty(Option<u32>),
}

// A table has as many cells as it ever had objects at once, so they are kept small.
const _: () = prove!(size_of::<Cell>() <= 40);

impl Cell {
    /// An equal cell.
    pub fn copy(&self) -> Result<Cell, OutOfMemory>
        ensures { IfOk result (λ c. c ≡ self.now) }
    {
        match self {
            Cell::Taken(object) => Ok(Cell::Taken(object.copy()?)),
            Cell::Empty(next) => Ok(Cell::Empty(*next)),
        }
    }

    /// The empty cell that it leads to.
    pub fn next(&self) -> Option<u32>
        ensures { result ≡ next_in self.now }
    {
        match self {
            Cell::Taken(_) => None,
            Cell::Empty(next) => *next,
        }
    }
}
