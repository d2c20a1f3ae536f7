//! The cells that a search marks, and those from which it has still to go on.
ghost use Rattle.std.specs.Prelude.{◌≡◌, ◌+◌, ◌<◌, ◌≤◌, ◌++◌, ◌∷◌, [], length, take, replicate, true, false, not, if◌then◌else◌, OnOk, count_by, slice_set, slice_index_or, vec_len, vec_capacity};

use heap_base::OutOfMemory;
use std::alloc::Global;

/// Which cells hold an object that stays, and those of them from which the search has still to go on. There is memory
/// for each cell once.
#[derive(Drop)]
pub struct Search {
    pub marks: Vec<bool>,
    pub work: Vec<u32>,
    ghost once: { count_by not marks.items + vec_len work ≤ length marks.items },
    ghost room: { length marks.items ≤ vec_capacity work },
}

impl Search {
    /// No cell.
    pub fn make(alloc: Global) -> Search
        ensures marks { result.marks.items ≡ [] }
        ensures work { result.work.items ≡ [] }
    {
        Search {
            marks: Vec::new(alloc),
            work: Vec::new(alloc),
        }
    }

    /// Takes memory for one cell more.
    pub fn reserve(&mut self) -> Result<(), OutOfMemory>
        ensures marks { self.new.marks.items ≡ self.old.marks.items }
        ensures work { self.new.work.items ≡ self.old.work.items }
        ensures room { OnOk result ((vec_len self.new.marks < vec_capacity self.new.marks) × (length self.new.marks.items < vec_capacity self.new.work)) }
    {
        self.marks.reserve(1)?;
        self.work.reserve(self.marks.len() + 1)?;
        Ok(())
    }

    /// Adds a cell, which is not marked.
    pub fn add_cell(&mut self)
        requires room { (vec_len self.old.marks < vec_capacity self.old.marks) × (length self.old.marks.items < vec_capacity self.old.work) }
        ensures marks { self.new.marks.items ≡ self.old.marks.items ++ false ∷ [] }
        ensures work { self.new.work.items ≡ self.old.work.items }
    {
        self.marks.push_reserved(false);
    }

    /// Takes the cells behind the first so many away.
    pub fn drop_cells(&mut self, cells: u32)
        requires { self.old.work.items ≡ [] }
        ensures marks { self.new.marks.items ≡ take cells self.old.marks.items }
        ensures work { self.new.work.items ≡ [] }
    {
        self.marks.truncate(cells as usize);
    }

    /// Lets no cell be marked.
    pub fn clear(&mut self)
        requires { self.old.work.items ≡ [] }
        ensures marks { self.new.marks.items ≡ replicate (length self.old.marks.items) false }
        ensures work { self.new.work.items ≡ [] }
    {
        self.marks.fill(false);
    }

    /// Marks a cell, and goes on from it where it wasn't marked.
    pub fn meet(&mut self, cell: u32)
        requires { cell < length self.old.marks.items }
        ensures marks { self.new.marks.items ≡ slice_set self.old.marks.items cell true }
        ensures work { self.new.work.items ≡ (if slice_index_or self.old.marks.items cell false then self.old.work.items else self.old.work.items ++ cell ∷ []) }
        ensures left { count_by not self.new.marks.items + vec_len self.new.work ≡ count_by not self.old.marks.items + vec_len self.old.work }
    {
        if !self.marks[cell as usize] {
            self.work.push_reserved(cell);
            self.marks[cell as usize] = true;
        }
    }
}
