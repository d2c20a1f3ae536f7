//! The search for first references under way.
ghost use Rattle.graph_meaning.specs.Assertions.{roots_to, slots_to};
ghost use Rattle.graph_meaning.specs.Roles.{cells_of, id_at};
ghost use Rattle.heap_base.specs.Counting.{IsOnce};
ghost use Rattle.object_table.specs.Placed.{PlacedTable, id_in, IsPlaced};
ghost use Rattle.object_paths.specs.Findings.{finding_in};
ghost use Rattle.object_paths.specs.Prefixes.{FindsFirst, FindsMore, only_to, scanned_slots, ScannedByCell};
ghost use Rattle.object_paths.specs.References.{reference_of, RefersTo};
ghost use Rattle.std.specs.Prelude.{◌≡◌, ◌<◌, [], ℕ, List, Bool, length, All, IfOk, IsSome, None, Some, slice_get, slice_index_or};

use crate::cell_reference::{CellReference, FirstReferences, NO_REFERENCES};
use crate::traced::{TracedTable, is_scanned};
use heap_base::OutOfMemory;
use object_table::ObjectTable;
use std::alloc::Global;

// For each cell the place of its object among the asked ones, if it is one of them; and for each asked object the first
// references to it so far.
#[derive(Drop)]
pub(crate) struct Search {
    places: Vec<Option<usize>>,
    found: Vec<FirstReferences>,
}

impl Search {
    pub(crate) fn begin(alloc: Global, cells: u32, asked: &[u32]) -> Result<Search, OutOfMemory>
        requires in_range { All (λ cell. cell < cells) asked.now }
        requires once { IsOnce asked.now }
        ensures count { IfOk result (λ s. length (finding_in s).found ≡ length asked.now) }
        ensures finds { IfOk result (λ s. (p : PlacedTable) → All (λ cell. IsSome (id_in p cell)) asked.now → FindsFirst p asked.now (λ id. []) (finding_in s)) }
    {
        let places = places_of(alloc, cells, asked)?;
        let found = vec![in alloc; NO_REFERENCES; asked.len()]?;
        Ok(Search { places, found })
    }

    // Takes the roots, in the order of their names.
    pub(crate) fn take_roots(&mut self, table: &ObjectTable)
        requires placed { IsPlaced table.now }
        ensures count { length self.new.found.items ≡ length self.old.found.items }
        ensures finds { (asked : List ℕ) → FindsFirst table.now asked (λ id. []) (finding_in self.old) → FindsFirst table.now asked (roots_to table.now.table) (finding_in self.new) }
    {
        for root in 0..table.roots() {
            self.put(table.root_cell(root), CellReference::Root { root });
        }
    }

    // Takes the edges of the objects whose cells are kept, and of the owners, by their ids.
    pub(crate) fn take_objects(&mut self, traced: TracedTable<'_>)
        requires placed { IsPlaced traced.table.now }
        requires roles { cells_of traced.roles.now ≡ length traced.table.now.cells }
        requires kept { length traced.kept.now ≡ length traced.table.now.cells }
        ensures count { length self.new.found.items ≡ length self.old.found.items }
        ensures finds { let t = traced.entry in let p = t.table.now in (scanned : ℕ → Bool) → ScannedByCell p t.roles.now t.kept.now scanned → FindsMore p (scanned_slots p.table scanned) (finding_in self.old) (finding_in self.new) }
    {
        let TracedTable { table, roles, kept } = traced;
        for number in 0..table.live() {
            let cell = table.nth_cell(number);
            if is_scanned(roles, kept, cell) {
                self.take_slots(table, cell);
            }
        }
    }

    // Takes the edges from the slots of the object in a cell.
    fn take_slots(&mut self, table: &ObjectTable, holder: u32)
        requires placed { IsPlaced table.now }
        requires holder { IsSome (id_in table.now holder) }
        ensures count { length self.new.found.items ≡ length self.old.found.items }
        ensures finds { FindsMore table.now (λ id. slots_to table.now.table id (id_at table.now.cells holder)) (finding_in self.old) (finding_in self.new) }
    {
        let edges = table.edges_at(holder);
        for slot in 0..edges.len() {
            if let Some(target) = edges.at(slot) {
                self.put(target, CellReference::Slot { holder, slot });
            }
        }
    }

    // Puts a reference to the object in a cell after those that were found, if the object was asked for.
    fn put(&mut self, cell: u32, reference: CellReference)
        ensures count { length self.new.found.items ≡ length self.old.found.items }
        ensures finds { (p : PlacedTable) → (id : ℕ) → IsPlaced p → id_in p cell ≡ Some id → RefersTo p reference id → FindsMore p (only_to id (reference_of p reference)) (finding_in self.old) (finding_in self.new) }
    {
        let Some(place) = self.place_of(cell) else {
            return;
        };
        if let Some(found) = self.found.get_mut(place) {
            *found = found.with(reference);
        }
    }

    // The place of the object in a cell among the asked ones, if it is one of them.
    fn place_of(&self, cell: u32) -> Option<usize>
        ensures { result ≡ slice_index_or self.now.places.items cell None }
    {
        self.places.get(cell as usize).copied().flatten()
    }

    // The first references to each asked object.
    pub(crate) fn into_found(self) -> Vec<FirstReferences>
        ensures { result.items ≡ (finding_in self).found }
    {
        let Search { places: _, found } = self;
        found
    }
}

// For each cell its place among the asked ones, if it is one of them.
fn places_of(alloc: Global, cells: u32, asked: &[u32]) -> Result<Vec<Option<usize>>, OutOfMemory>
    requires in_range { All (λ cell. cell < cells) asked.now }
    requires once { IsOnce asked.now }
    ensures placed { IfOk result (λ places. (n cell : ℕ) → slice_get asked.now n ≡ Some cell → slice_index_or places.items cell None ≡ Some n) }
    ensures asked { IfOk result (λ places. (n cell : ℕ) → slice_index_or places.items cell None ≡ Some n → slice_get asked.now n ≡ Some cell) }
{
    let mut places = vec![in alloc; None; cells as usize]?;
    for (place, cell) in asked.iter().enumerate() {
        places[*cell as usize] = Some(place);
    }
    Ok(places)
}
