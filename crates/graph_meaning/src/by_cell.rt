ghost use Rattle.std.specs.Prelude.{◌≡◌, ◌<◌, ◌≤◌, IfOk, length, replicate, slice_index_or, slice_set, vec_capacity};
ghost use Rattle.graph_meaning.specs.Owners.{with_padding};

use heap_base::OutOfMemory;
use std::alloc::Global;
use std::marker::Model;

/// A value for each of so many cells: the same one for all that were not set. What stands behind the last cell that was set is
/// written nowhere, so cells of which none is set cost no time. Contracts see the list of the values.
#[derive(Drop)]
pub struct ByCell<T> {
    // has room for all cells
    front: Vec<T>,
    rest: T,
    cells: u32,
}

impl<T> Model for ByCell<T> {
    ghost use Rattle.std.specs.Prelude.{List, length, ◌≤◌, vec_capacity};
    ghost use Rattle.graph_meaning.specs.Owners.{with_padding};

    ghost Value = { List T };

    ghost view = { λ b. with_padding b.front.items b.cells b.rest };

    ghost invariant = { λ b. (length b.front.items ≤ b.cells) × (b.cells ≤ vec_capacity b.front) };
}

impl<T: Copy> ByCell<T> {
    /// The same value for each cell. It takes the memory of all later calls.
    pub fn make(alloc: Global, cells: u32, value: T) -> Result<ByCell<T>, OutOfMemory>
        ensures { IfOk result (λ b. b ≡ replicate cells value) }
    {
        Ok(ByCell {
            front: Vec::with_capacity(alloc, cells as usize)?,
            rest: value,
            cells,
        })
    }

    /// The same values.
    pub fn copy(&self) -> Result<ByCell<T>, OutOfMemory>
        ensures { IfOk result (λ b. b ≡ self.now) }
    {
        Ok(ByCell {
            front: copy_with_room(&self.front)?,
            rest: self.rest,
            cells: self.cells,
        })
    }

    /// How many cells there are.
    pub fn cells(&self) -> u32
        ensures { result ≡ length self.now }
    {
        self.cells
    }

    /// The value of a cell.
    pub fn get(&self, cell: u32) -> T
        requires { cell < length self.now }
        ensures { (other : T) → result ≡ slice_index_or self.now cell other }
    {
        match self.front.get(cell as usize) {
            Some(value) => *value,
            None => self.rest,
        }
    }

    /// Sets the value of a cell.
    pub fn set(&mut self, cell: u32, value: T)
        requires { cell < length self.old }
        ensures { self.new ≡ slice_set self.old cell value }
    {
        let cell = cell as usize;
        pad(&mut self.front, cell + 1, self.rest);
        self.front[cell] = value;
    }
}

/// An equal list, with as much room.
pub(crate) fn copy_with_room<T: Copy>(list: &Vec<T>) -> Result<Vec<T>, OutOfMemory>
    ensures items { IfOk result (λ copied. copied.items ≡ list.now.items) }
    ensures room { IfOk result (λ copied. vec_capacity list.now ≤ vec_capacity copied) }
{
    let mut copied = Vec::with_capacity(*list.allocator(), list.capacity())?;
    for value in list {
        copied.push_reserved(*value);
    }
    Ok(copied)
}

// Puts the value last until there are so many.
fn pad<T: Copy>(front: &mut Vec<T>, many: usize, value: T)
    requires room { many ≤ vec_capacity front.old }
    ensures items { front.new.items ≡ with_padding front.old.items many value }
    ensures room { vec_capacity front.new ≡ vec_capacity front.old }
{
    for _ in front.len()..many {
        front.push_reserved(value);
    }
}
