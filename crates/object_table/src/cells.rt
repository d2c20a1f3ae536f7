ghost use Rattle.std.specs.Prelude.{◌≡◌, ℕ, ◌-◌, ◌<◌, ◌≤◌, [], length, map, sum_by, IsTrue, None, Some, is_some, IsSome, IfSome, OnOk, slice_get, slice_set, IfOk};
ghost use Rattle.std.specs.Option.{option_map};
ghost use Rattle.heap_base.specs.declared.limits.TheConstants.{MOST_OBJECTS, MOST_SLOTS};
ghost use Rattle.object_table.specs.Packing.{CanBePacked};
ghost use Rattle.object_table.specs.Residents.{held_at, held_after, id_held, is_flagged, is_taken, next_cell, with_resident, resident_cleared, holders_held};
ghost use Rattle.object_table.specs.Residents.{StrongHoldKept, StrongLeadToKept};
ghost use Rattle.object_table.specs.Chains.{resident_in, first_empty, IsLinked, IsFrontOf, cells_after, cell_after, empty_from, with_slots_cleared, holders_at};

use crate::cell::Cell;
use crate::object::Object;
use crate::pages::Pages;
use crate::slot::{Slot, is_flagged};
use heap_base::{ObjId, OutOfMemory};
use std::alloc::Global;
use std::marker::Model;

/// The cells of a table, of which the empty ones form a list through themselves. Contracts see what each cell
/// holds, and for how many more cells there is memory.
#[derive(Drop)]
pub struct Cells {
    pages: Pages,
    first_empty: Option<u32>,
}

impl Model for Cells {
    ghost use Rattle.std.specs.Prelude.{Option, map};
    ghost use Rattle.object_table.specs.Residents.{Resident};
    ghost use Rattle.object_table.specs.Paged.{Roomy};

    ghost Value = { Roomy (Option Resident) };

    ghost use Rattle.object_table.specs.Chains.{resident_in, IsHoused};

    ghost view = { λ c. record { cells = map resident_in c.pages.cells; room = c.pages.room } };

    ghost invariant = { λ c. IsHoused c.pages.cells c.first_empty };
}

impl Cells {
    /// No cell.
    pub fn make(alloc: Global) -> Cells
        ensures { result ≡ record { cells = []; room = 0 } }
    {
        Cells {
            pages: Pages::make(alloc),
            first_empty: None,
        }
    }

    /// Equal cells, with memory for as many more.
    pub fn copy(&self) -> Result<Cells, OutOfMemory>
        ensures { IfOk result (λ c. c ≡ self.now) }
    {
        Ok(Cells {
            pages: self.pages.copy()?,
            first_empty: self.first_empty,
        })
    }

    /// How many cells there are.
    pub fn len(&self) -> u32
        ensures count { result ≡ length self.now.cells }
        ensures few { length self.now.cells ≤ MOST_OBJECTS }
    {
        self.pages.len()
    }

    /// The cell that the next object takes.
    pub fn next(&self) -> u32
        ensures { result ≡ next_cell self.now.cells }
    {
        match self.first_empty {
            Some(cell) => cell,
            None => self.pages.len(),
        }
    }

    /// The object in a cell.
    pub fn at(&self, cell: u32) -> &Object
        requires { IsSome (held_at self.now.cells cell) }
        ensures { held_at self.now.cells cell ≡ Some result.now }
    {
        match self.pages.at(cell) {
            Cell::Taken(object) => object,
            Cell::Empty(_) => unreachable!(),
        }
    }

    /// The id of the object in a cell, and `None` where the cell is empty.
    pub fn id_at(&self, cell: u32) -> Option<ObjId>
        requires { cell < length self.now.cells }
        ensures { result ≡ id_held self.now.cells cell }
    {
        match self.pages.at(cell) {
            Cell::Taken(object) => Some(object.id()),
            Cell::Empty(_) => None,
        }
    }

    /// Whether the last cell holds an object. Where there is no cell, none does.
    pub fn is_last_taken(&self) -> bool
        ensures { result ≡ is_taken self.now.cells (length self.now.cells - 1) }
    {
        match self.pages.len().checked_sub(1) {
            Some(last) => matches!(self.pages.at(last), Cell::Taken(_)),
            None => false,
        }
    }

    /// Takes memory for one more object.
    pub fn reserve(&mut self) -> Result<(), OutOfMemory>
        ensures cells { self.new.cells ≡ self.old.cells }
        ensures room { OnOk result (0 < self.new.room) }
    {
        self.pages.reserve()
    }

    /// Puts an object into the cell that comes next.
    pub fn put(&mut self, object: Object)
        requires few { next_cell self.old.cells < MOST_OBJECTS }
        requires room { 0 < self.old.room }
        ensures { self.new.cells ≡ with_resident self.old.cells object }
    {
        match self.first_empty {
            Some(cell) => {
                self.first_empty = self.pages.at(cell).next();
                self.pages.put(cell, Cell::Taken(object));
            }
            None => self.pages.push(Cell::Taken(object)),
        }
    }

    /// Puts a slot of the object in a cell.
    pub fn set_slot(&mut self, cell: u32, slot: u32, value: Slot)
        requires taken { IsSome (held_at self.old.cells cell) }
        requires a_slot { IfSome (held_at self.old.cells cell) (λ o. slot < length o.slots) }
        requires packed { CanBePacked value }
        ensures { IfSome (held_at self.old.cells cell) (λ o. self.new.cells ≡ slice_set self.old.cells cell (Some (record o { slots = slice_set o.slots slot value }))) }
    {
        self.pages.set_slot(cell, slot, value);
    }

    /// Empties the cells that are not kept, and each slot that holds what stood in one, as weak ones alone do. Cells behind the
    /// last that is kept are taken away.
    pub fn keep(&mut self, kept: &[bool])
        requires { StrongLeadToKept kept.now self.old.cells }
        ensures count { length self.new.cells ≤ length self.old.cells }
        ensures after { (cell : ℕ) → held_at self.new.cells cell ≡ held_after kept.now self.old.cells cell }
    {
        drop_last(&mut self.pages, kept);
        self.first_empty = sweep(&mut self.pages, kept);
    }

    /// Empties one cell, below which no cell is empty. No slot is changed.
    pub fn free(&mut self, cell: u32)
        requires { (lower : ℕ) → lower ≤ cell → IsSome (held_at self.old.cells lower) }
        ensures { self.new.cells ≡ slice_set self.old.cells cell None }
    {
        self.pages.put(cell, Cell::Empty(self.first_empty));
        self.first_empty = Some(cell);
    }

    /// Empties the slots, weak or not, that hold the object of a marked cell. Answers how many these were.
    pub fn clear_to(&mut self, marked: &[bool]) -> u32
        requires few { sum_by (holders_held marked.now) self.old.cells ≤ MOST_SLOTS }
        ensures cleared { self.new.cells ≡ map (option_map (resident_cleared marked.now)) self.old.cells }
        ensures count { result ≡ sum_by (holders_held marked.now) self.old.cells }
    {
        clear_slots(&mut self.pages, marked)
    }
}

// Takes the cells behind the last that is kept away.
fn drop_last(pages: &mut Pages, kept: &[bool])
    ensures { IsFrontOf kept.now pages.old.cells pages.new.cells }
{
    for cell in (0..pages.len()).rev() {
        if stays(pages, cell, kept) {
            return;
        }
        pages.pop();
    }
}

// Whether the cell holds an object and is kept.
fn stays(pages: &Pages, cell: u32, kept: &[bool]) -> bool
    requires { cell < length pages.now.cells }
    ensures { result ≡ is_some (held_after kept.now (map resident_in pages.now.cells) cell) }
{
    is_flagged(kept, cell) && matches!(pages.at(cell), Cell::Taken(_))
}

// Empties the cells that are not kept, and each slot that holds what stood in one. It answers the first empty cell.
fn sweep(pages: &mut Pages, kept: &[bool]) -> Option<u32>
    requires { StrongLeadToKept kept.now (map resident_in pages.old.cells) }
    ensures cells { pages.new.cells ≡ cells_after kept.now 0 pages.old.cells }
    ensures first { result ≡ first_empty 0 pages.new.cells }
{
    let mut first = None;
    for cell in (0..pages.len()).rev() {
        first = sweep_cell(pages, cell, first, kept);
    }
    first
}

// Empties the cell where it is not kept, and else the slots of the object in it that hold what stood in a cell that is not
// kept. It answers the first empty cell from this one on, where `later` is the first after it.
fn sweep_cell(pages: &mut Pages, cell: u32, later: Option<u32>, kept: &[bool]) -> Option<u32>
    requires in_range { cell < length pages.old.cells }
    requires strong { IsTrue (is_flagged kept.now cell) → IfSome (held_at (map resident_in pages.old.cells) cell) (StrongHoldKept kept.now) }
    ensures put { IfSome (slice_get pages.old.cells cell) (λ c. pages.new ≡ record pages.old { cells = slice_set pages.old.cells cell (cell_after (is_flagged kept.now cell) kept.now later c) }) }
    ensures first { IfSome (slice_get pages.old.cells cell) (λ c. result ≡ empty_from cell (cell_after (is_flagged kept.now cell) kept.now later c) later) }
{
    if is_flagged(kept, cell) && matches!(pages.at(cell), Cell::Taken(_)) {
        pages.keep(cell, kept);
        later
    } else {
        pages.put(cell, Cell::Empty(later));
        Some(cell)
    }
}

// Empties the slots, weak or not, that hold the object of a marked cell. It answers how many these were.
fn clear_slots(pages: &mut Pages, marked: &[bool]) -> u32
    requires few { sum_by (holders_at marked.now) pages.old.cells ≤ MOST_SLOTS }
    ensures cleared { pages.new.cells ≡ map (with_slots_cleared marked.now) pages.old.cells }
    ensures count { result ≡ sum_by (holders_at marked.now) pages.old.cells }
{
    let mut cleared = 0;
    for cell in 0..pages.len() {
        cleared += pages.clear_to(cell, marked);
    }
    cleared
}
