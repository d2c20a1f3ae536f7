ghost use Rattle.std.specs.Prelude.{◌≡◌, ◌<◌, length, slice_get, slice_set, Some, IfSome, IfOk};
ghost use Rattle.object_table.specs.Packing.{CanBePacked};
ghost use Rattle.object_table.specs.Residents.{StrongHoldKept};
ghost use Rattle.object_table.specs.Chains.{resident_in, HasSlot, with_slot_put, with_slots_after, with_slots_cleared, holders_at};

use crate::cell::Cell;
use crate::slot::Slot;
use heap_base::OutOfMemory;
use std::alloc::Global;
use std::marker::Model;

/// How many cells a page has.
pub const PAGE: usize = 1_024;

/// A page of cells. Contracts see their list.
#[derive(Drop)]
pub struct Page {
    cells: Vec<Cell>,
}

impl Model for Page {
    ghost use Rattle.std.specs.Prelude.{List};
    ghost use Rattle.object_table.specs.declared.cell.Cell.{Cell};

    ghost Value = { List Cell };

    ghost view = { λ p. p.cells.items };
}

impl Page {
    /// A page of empty cells.
    pub fn make(alloc: Global) -> Result<Page, OutOfMemory>
        ensures { IfOk result (λ p. length p ≡ PAGE) }
    {
        let mut cells = Vec::with_capacity(alloc, PAGE)?;
        for _place in 0..PAGE {
            cells.push(Cell::Empty(None))?;
        }
        Ok(Page { cells })
    }

    /// An equal page.
    pub fn copy(&self) -> Result<Page, OutOfMemory>
        ensures { IfOk result (λ p. p ≡ self.now) }
    {
        let mut cells = Vec::with_capacity(*self.cells.allocator(), self.cells.len())?;
        for cell in &self.cells {
            cells.push(cell.copy()?)?;
        }
        Ok(Page { cells })
    }

    /// The cell at a place of the page.
    pub fn at(&self, place: usize) -> &Cell
        requires { place < length self.now }
        ensures { slice_get self.now place ≡ Some result.now }
    {
        &self.cells[place]
    }

    /// Puts the cell at a place of the page.
    pub fn put(&mut self, place: usize, cell: Cell)
        requires { place < length self.old }
        ensures { self.new ≡ slice_set self.old place cell }
    {
        self.cells[place] = cell;
    }

    /// Puts a slot of the object in the cell at a place of the page.
    pub fn set_slot(&mut self, place: usize, slot: u32, value: Slot)
        requires in_range { place < length self.old }
        requires a_slot { IfSome (slice_get self.old place) (HasSlot slot) }
        requires packed { CanBePacked value }
        ensures { IfSome (slice_get self.old place) (λ c. self.new ≡ slice_set self.old place (with_slot_put slot value c)) }
    {
        if let Cell::Taken(object) = &mut self.cells[place] {
            object.set_slot(slot, value);
        }
    }

    /// Empties the slots of the object in the cell at a place of the page that hold what stood in a cell that is
    /// not kept, as weak ones alone do.
    pub fn keep(&mut self, place: usize, kept: &[bool])
        requires in_range { place < length self.old }
        requires strong { IfSome (slice_get self.old place) (λ c. IfSome (resident_in c) (StrongHoldKept kept.now)) }
        ensures { IfSome (slice_get self.old place) (λ c. self.new ≡ slice_set self.old place (with_slots_after kept.now c)) }
    {
        if let Cell::Taken(object) = &mut self.cells[place] {
            object.keep(kept);
        }
    }

    /// Empties the slots of the object in the cell at a place of the page, weak or not, that hold the object of a
    /// marked cell. Answers how many these were.
    pub fn clear_to(&mut self, place: usize, marked: &[bool]) -> u32
        requires { place < length self.old }
        ensures cleared { IfSome (slice_get self.old place) (λ c. self.new ≡ slice_set self.old place (with_slots_cleared marked.now c)) }
        ensures count { IfSome (slice_get self.old place) (λ c. result ≡ holders_at marked.now c) }
    {
        match &mut self.cells[place] {
            Cell::Taken(object) => object.clear_to(marked),
            Cell::Empty(_) => 0,
        }
    }
}
