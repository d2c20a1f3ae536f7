ghost use Rattle.std.specs.Prelude.{◌≡◌, ◌-◌, ◌<◌, ◌≤◌, ◌++◌, ◌∷◌, [], length, take, slice_get, slice_set, Some, IfSome, OnOk, IfOk};
ghost use Rattle.heap_base.specs.declared.limits.TheConstants.{MOST_OBJECTS};
ghost use Rattle.object_table.specs.Packing.{CanBePacked};
ghost use Rattle.object_table.specs.Residents.{StrongHoldKept};
ghost use Rattle.object_table.specs.Chains.{resident_in, HasSlot, with_slot_put, with_slots_after, with_slots_cleared, holders_at};

use crate::cell::Cell;
use crate::page::{PAGE, Page};
use crate::slot::Slot;
use heap_base::OutOfMemory;
use std::alloc::Global;
use std::marker::Model;

/// Cells in pages, so that one more cell moves none of the others. Contracts see their list, and for how many
/// more there is memory.
#[derive(Drop)]
pub struct Pages {
    pages: Vec<Page>,
    // how many cells there are; those of the last pages that come after them are not used yet
    count: u32,
}

impl Model for Pages {
    ghost use Rattle.object_table.specs.declared.cell.Cell.{Cell};
    ghost use Rattle.object_table.specs.Paged.{Roomy, in_pages, IsPaged};

    ghost Value = { Roomy Cell };

    ghost view = { λ p. in_pages p.pages.items p.count };

    ghost invariant = { λ p. IsPaged p.pages.items p.count };
}

impl Pages {
    /// No cell.
    pub fn make(alloc: Global) -> Pages
        ensures { result ≡ record { cells = []; room = 0 } }
    {
        Pages {
            pages: Vec::new(alloc),
            count: 0,
        }
    }

    /// Equal cells, with memory for as many more.
    pub fn copy(&self) -> Result<Pages, OutOfMemory>
        ensures { IfOk result (λ p. p ≡ self.now) }
    {
        let mut pages = Vec::with_capacity(*self.pages.allocator(), self.pages.len())?;
        for page in &self.pages {
            pages.push(page.copy()?)?;
        }
        Ok(Pages {
            pages,
            count: self.count,
        })
    }

    /// How many cells there are.
    pub fn len(&self) -> u32
        ensures { result ≡ length self.now.cells }
    {
        self.count
    }

    /// The cell with this number.
    pub fn at(&self, cell: u32) -> &Cell
        requires { cell < length self.now.cells }
        ensures { slice_get self.now.cells cell ≡ Some result.now }
    {
        let cell = cell as usize;
        self.pages[cell / PAGE].at(cell % PAGE)
    }

    /// Puts the cell with this number.
    pub fn put(&mut self, cell: u32, value: Cell)
        requires { cell < length self.old.cells }
        ensures { self.new ≡ record self.old { cells = slice_set self.old.cells cell value } }
    {
        let cell = cell as usize;
        let page = &mut self.pages[cell / PAGE];
        page.put(cell % PAGE, value);
    }

    /// Puts a slot of the object in the cell with this number.
    pub fn set_slot(&mut self, cell: u32, slot: u32, value: Slot)
        requires in_range { cell < length self.old.cells }
        requires a_slot { IfSome (slice_get self.old.cells cell) (HasSlot slot) }
        requires packed { CanBePacked value }
        ensures { IfSome (slice_get self.old.cells cell) (λ c. self.new ≡ record self.old { cells = slice_set self.old.cells cell (with_slot_put slot value c) }) }
    {
        let cell = cell as usize;
        let page = &mut self.pages[cell / PAGE];
        page.set_slot(cell % PAGE, slot, value);
    }

    /// Empties the slots of the object in the cell with this number that hold what stood in a cell that is not
    /// kept, as weak ones alone do.
    pub fn keep(&mut self, cell: u32, kept: &[bool])
        requires in_range { cell < length self.old.cells }
        requires strong { IfSome (slice_get self.old.cells cell) (λ c. IfSome (resident_in c) (StrongHoldKept kept.now)) }
        ensures { IfSome (slice_get self.old.cells cell) (λ c. self.new ≡ record self.old { cells = slice_set self.old.cells cell (with_slots_after kept.now c) }) }
    {
        let cell = cell as usize;
        let page = &mut self.pages[cell / PAGE];
        page.keep(cell % PAGE, kept);
    }

    /// Empties the slots of the object in the cell with this number, weak or not, that hold the object of a marked
    /// cell. Answers how many these were.
    pub fn clear_to(&mut self, cell: u32, marked: &[bool]) -> u32
        requires { cell < length self.old.cells }
        ensures cleared { IfSome (slice_get self.old.cells cell) (λ c. self.new ≡ record self.old { cells = slice_set self.old.cells cell (with_slots_cleared marked.now c) }) }
        ensures count { IfSome (slice_get self.old.cells cell) (λ c. result ≡ holders_at marked.now c) }
    {
        let cell = cell as usize;
        let page = &mut self.pages[cell / PAGE];
        page.clear_to(cell % PAGE, marked)
    }

    /// Takes memory for one more cell where there is none.
    pub fn reserve(&mut self) -> Result<(), OutOfMemory>
        ensures cells { self.new.cells ≡ self.old.cells }
        ensures room { OnOk result (0 < self.new.room) }
    {
        if self.count as usize / PAGE < self.pages.len() {
            return Ok(());
        }
        let page = Page::make(*self.pages.allocator())?;
        Ok(self.pages.push(page)?)
    }

    /// Puts one more cell last.
    pub fn push(&mut self, value: Cell)
        requires few { length self.old.cells < MOST_OBJECTS }
        requires room { 0 < self.old.room }
        ensures { self.new ≡ record { cells = self.old.cells ++ value ∷ []; room = self.old.room - 1 } }
    {
        let cell = self.count as usize;
        self.count += 1;
        let page = &mut self.pages[cell / PAGE];
        page.put(cell % PAGE, value);
    }

    /// Takes the last cell away, and what stood in it. Its memory stays for another one.
    pub fn pop(&mut self)
        requires { 0 < length self.old.cells }
        ensures { self.new.cells ≡ take (length self.old.cells - 1) self.old.cells }
    {
        self.count -= 1;
        let cell = self.count as usize;
        let page = &mut self.pages[cell / PAGE];
        page.put(cell % PAGE, Cell::Empty(None));
    }
}
