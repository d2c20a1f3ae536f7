//! How many young objects each old one holds, and the list of the old ones that hold any.
ghost use Rattle.std.specs.Prelude.{◌≡◌, ◌+◌, ◌<◌, ◌≤◌, ◌∷◌, ℕ, List, All, AllPairs, Bool, true, false, not, ◌&&◌, ◌==◌, if◌then◌else◌, IsTrue, IsSome, Some, length, filter, slice_set, slice_index_or, vec_len, vec_capacity, nat_lt};
ghost use Rattle.heap_base.specs.Counting.{bit};
ghost use Rattle.std.specs.Option.{option_map_or};
ghost use Rattle.graph_meaning.specs.Heap.{edge_of, is_live};
ghost use Rattle.graph_meaning.specs.Reach.{has_id};
ghost use Rattle.object_table.specs.Placed.{id_in, slot_in, IsPlaced};
ghost use Rattle.minor_gc.specs.Tallies.{HoldsOneOf};

use heap_base::ObjId;
use object_table::ObjectTable;

/// Whether a slot of the object in a cell holds a young object. The cells of old objects are marked.
pub fn holds_young(table: &ObjectTable, marks: &[bool], cell: u32, slot: u32) -> bool
    requires placed { IsPlaced table.now }
    requires each { length marks.now ≡ length table.now.cells }
    requires cell { IsSome (id_in table.now cell) }
    ensures { (young : ℕ → Bool) → ((other id : ℕ) → id_in table.now other ≡ Some id → slice_index_or marks.now other false ≡ not (young id)) →
        result ≡ option_map_or young (edge_of (slot_in table.now cell slot)) false }
{
    if slot >= table.slots_at(cell) {
        return false;
    }
    match table.slot_at(cell, slot) {
        Some(target) => !marks[target as usize],
        None => false,
    }
}

/// Lets an object hold one young object more or less, where the slot changed so. It is put into the list with the first
/// one, and taken out of it with the last.
pub fn recount(count: &mut u32, remembered: &mut Vec<ObjId>, id: ObjId, change: Change)
    requires before { IsTrue change.before → 0 < count.old }
    requires fits { change.before ≡ false → change.after ≡ true → count.old < 4294967295 }
    requires room { count.old ≡ 0 → vec_len remembered.old < vec_capacity remembered.old }
    ensures count { count.new + bit change.before ≡ count.old + bit change.after }
    ensures list { (ids : List ℕ) (was is : ℕ → Bool) → AllPairs (λ x y. x < y) ids → IsTrue (has_id ids id) →
        ((x : ℕ) → (x == id) ≡ false → was x ≡ is x) → was id ≡ nat_lt 0 count.old → is id ≡ nat_lt 0 count.new →
        remembered.old.items ≡ filter was ids → remembered.new.items ≡ filter is ids }
    ensures room { vec_capacity remembered.old ≤ vec_capacity remembered.new }
{
    if change.after && !change.before {
        if *count == 0 {
            put(remembered, id);
        }
        *count += 1;
    } else if change.before && !change.after {
        *count -= 1;
        if *count == 0 {
            take(remembered, id);
        }
    }
}

/// Whether a slot held a young object before a store, and whether it does so after it.
#[derive(Clone, Copy)]
pub struct Change {
    pub before: bool,
    pub after: bool,
}

// Puts an id into the list, which rises.
fn put(remembered: &mut Vec<ObjId>, id: ObjId)
    requires room { vec_len remembered.old < vec_capacity remembered.old }
    ensures list { (ids : List ℕ) (was is : ℕ → Bool) → AllPairs (λ x y. x < y) ids → IsTrue (has_id ids id) →
        ((x : ℕ) → (x == id) ≡ false → was x ≡ is x) → was id ≡ false → is id ≡ true →
        remembered.old.items ≡ filter was ids → remembered.new.items ≡ filter is ids }
    ensures room { vec_capacity remembered.old ≤ vec_capacity remembered.new }
{
    if let Err(place) = remembered.binary_search_by_key(&id.number(), |other| other.number()) {
        let _ = remembered.insert(place, id);
    }
}

// Takes an id out of the list, which rises.
fn take(remembered: &mut Vec<ObjId>, id: ObjId)
    ensures list { (ids : List ℕ) (was is : ℕ → Bool) → AllPairs (λ x y. x < y) ids → IsTrue (has_id ids id) →
        ((x : ℕ) → (x == id) ≡ false → was x ≡ is x) → was id ≡ true → is id ≡ false →
        remembered.old.items ≡ filter was ids → remembered.new.items ≡ filter is ids }
    ensures room { vec_capacity remembered.old ≤ vec_capacity remembered.new }
{
    if let Ok(place) = remembered.binary_search_by_key(&id.number(), |other| other.number()) {
        remembered.remove(place);
    }
}

/// Sets the counts of these objects to 0. Those of all others are 0.
pub fn forget(table: &ObjectTable, counts: &mut Vec<u32>, remembered: &[ObjId])
    requires each { length counts.old.items ≡ length table.now.cells }
    requires placed { IsPlaced table.now }
    requires live { All (λ id. IsTrue (is_live table.now.table id)) remembered.now }
    requires others { (cell : ℕ) → 0 < slice_index_or counts.old.items cell 0 → HoldsOneOf table.now remembered.now cell }
    ensures each { length counts.new.items ≡ length counts.old.items }
    ensures none { (cell : ℕ) → slice_index_or counts.new.items cell 0 ≡ 0 }
{
    for id in remembered {
        if let Some(cell) = table.cell_of(*id) {
            counts[cell as usize] = 0;
        }
    }
}
