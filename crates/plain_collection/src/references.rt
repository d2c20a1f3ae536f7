//! How many references there are to each object.
ghost use Rattle.graph_meaning.specs.Assertions.{roots_to, slots_to, reference_count};
ghost use Rattle.graph_meaning.specs.Heap.{Heap};
ghost use Rattle.graph_meaning.specs.Roles.{AreRolesOf, cells_of, id_at};
ghost use Rattle.object_table.specs.Placed.{id_in, IsPlaced, IsSound};
ghost use Rattle.plain_collection.specs.Counting.{AtMost, CountsLists, CountsMore};
ghost use Rattle.object_paths.specs.Prefixes.{ScannedByCell, scanned_slots};
ghost use Rattle.object_paths.specs.References.{IsTracedTableOf};
ghost use Rattle.std.specs.Prelude.{◌≡◌, ◌+◌, ◌-◌, ◌*◌, ◌^◌, ◌<◌, ◌≤◌, ℕ, Bool, [], length, Some, IsSome, IfOk, replicate, slice_index, slice_set};

use graph_meaning::Roles;
use heap_base::OutOfMemory;
use object_paths::{TracedTable, is_scanned};
use object_table::ObjectTable;
use std::alloc::Global;

/// For each cell how many references there are to its object: by roots, and by slots of traced objects and of owners. It goes once over
/// the roots and these slots.
pub(crate) fn count_references(
    alloc: Global,
    traced: TracedTable<'_>,
) -> Result<Vec<u64>, OutOfMemory>
    requires roles { AreRolesOf traced.table.now.cells (length traced.table.now.table.kinds) traced.roles.now }
    requires kept { length traced.kept.now ≡ length traced.table.now.cells }
    ensures each { IfOk result (λ counts. length counts.items ≡ length traced.entry.table.now.cells) }
    ensures counts { let t = traced.entry in IfOk result (λ counts. (h : Heap) → IsTracedTableOf h t → (cell id : ℕ) → id_in t.table.now cell ≡ Some id → slice_index counts.items cell ≡ reference_count h id) }
{
    let TracedTable { table, roles, kept } = traced;
    let mut counts = no_counts(alloc, table.cells())?;
    count_roots(table, &mut counts);
    count_objects(table, roles, kept, &mut counts);
    Ok(counts)
}

// A count of 0 for each of so many cells.
fn no_counts(alloc: Global, cells: u32) -> Result<Vec<u64>, OutOfMemory>
    ensures { IfOk result (λ counts. counts.items ≡ replicate cells 0) }
{
    let counts = vec![in alloc; 0; cells as usize]?;
    Ok(counts)
}

// Counts the roots.
fn count_roots(table: &ObjectTable, counts: &mut Vec<u64>)
    requires placed { IsPlaced table.now }
    requires each { length counts.old.items ≡ length table.now.cells }
    requires few { AtMost 0 counts.old.items }
    ensures counts { CountsLists table.now (λ id. []) counts.old.items → CountsLists table.now (roots_to table.now.table) counts.new.items }
    ensures few { AtMost (2 ^ 32) counts.new.items }
    ensures each { length counts.new.items ≡ length counts.old.items }
{
    for root in 0..table.roots() {
        count_one(counts, table.root_cell(root));
    }
}

// Counts the edges of the objects whose cells are kept, and of the owners.
fn count_objects(table: &ObjectTable, roles: &Roles, kept: &[bool], counts: &mut Vec<u64>)
    requires placed { IsPlaced table.now }
    requires sound { IsSound table.now.table }
    requires roles { cells_of roles.now ≡ length table.now.cells }
    requires kept { length kept.now ≡ length table.now.cells }
    requires each { length counts.old.items ≡ length table.now.cells }
    requires few { AtMost (2 ^ 32) counts.old.items }
    ensures counts { (is_scanned : ℕ → Bool) → ScannedByCell table.now roles.now kept.now is_scanned → CountsMore table.now (scanned_slots table.now.table is_scanned) counts.old.items counts.new.items }
    ensures each { length counts.new.items ≡ length counts.old.items }
{
    for number in 0..table.live() {
        let cell = table.nth_cell(number);
        if is_scanned(roles, kept, cell) {
            count_slots(table, cell, counts);
        }
    }
}

// Counts the edges from the slots of the object in a cell.
fn count_slots(table: &ObjectTable, holder: u32, counts: &mut Vec<u64>)
    requires placed { IsPlaced table.now }
    requires holder { IsSome (id_in table.now holder) }
    requires each { length counts.old.items ≡ length table.now.cells }
    requires few { AtMost (2 ^ 63) counts.old.items }
    ensures counts { CountsMore table.now (λ id. slots_to table.now.table id (id_at table.now.cells holder)) counts.old.items counts.new.items }
    ensures few { (most : ℕ) → AtMost most counts.old.items → AtMost (most + 2 ^ 32) counts.new.items }
    ensures each { length counts.new.items ≡ length counts.old.items }
{
    let edges = table.edges_at(holder);
    for slot in 0..edges.len() {
        if let Some(target) = edges.at(slot) {
            count_one(counts, target);
        }
    }
}

// Counts a reference to the object in a cell.
fn count_one(counts: &mut Vec<u64>, cell: u32)
    requires cell { cell < length counts.old.items }
    requires few { slice_index counts.old.items cell < 2 ^ 64 - 1 }
    ensures { counts.new.items ≡ slice_set counts.old.items cell (slice_index counts.old.items cell + 1) }
{
    counts[cell as usize] += 1;
}
