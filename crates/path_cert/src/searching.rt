//! The search by levels.
ghost use Rattle.graph_meaning.specs.Heap.{edges};
ghost use Rattle.graph_meaning.specs.Paths.{Way, way_by_edge, owner_way, root_ways, ways_from};
ghost use Rattle.graph_meaning.specs.Roles.{AreRolesOf, id_at};
ghost use Rattle.object_table.specs.Placed.{id_in, IsPlaced, IsSound};
ghost use Rattle.path_cert.specs.Frontiers.{FrontGrows, HasTaken, Round, by_object, AreByObjects, GoesUpTo, IsUnderWay, IsAtFirstLevel, ShutByCell, levels_by};
ghost use Rattle.path_cert.specs.Fronts.{front_of};
ghost use Rattle.path_cert.specs.Levels.{Search, search_of, arrival_in, AreLevelsOf};
ghost use Rattle.path_cert.specs.declared.start.Start.TheVariants.{Roots, Owners};
ghost use Rattle.std.specs.Prelude.{◌≡◌, ◌==◌, ◌≤◌, ◌<◌, ◌+◌, ◌-◌, ◌^◌, ◌++◌, ◌∷◌, [], ℕ, List, length, map, drop, IfOk, IsSome, All, replicate, slice_set, count_by, vec_len, vec_capacity, Some, if◌then◌else◌};

use crate::ancestors::ancestors_of;
use crate::arrival::Arrival;
use crate::frontier::Frontier;
use crate::level_table::Levels;
use crate::start::Start;
use graph_meaning::Roles;
use heap_base::OutOfMemory;
use object_table::ObjectTable;
use std::alloc::Global;

/// The levels from the roots or from the owners, where no path goes on from the objects of the cells that are shut.
/// It takes 16 bytes a cell, and 8 more where a path leaves steps out, and reads each slot of what it reaches once.
pub fn levels(
    alloc: Global,
    table: &ObjectTable,
    roles: &Roles,
    start: Start,
    shut: &[bool],
) -> Result<Levels, OutOfMemory>
    requires roles { AreRolesOf table.now.cells (length table.now.table.kinds) roles.now }
    requires shut { length shut.now ≡ length table.now.cells }
    ensures levels { IfOk result (λ l. AreLevelsOf table.now (search_of table.now roles.now start shut.now) l) }
{
    let mut search = Frontier::begin(alloc, table.cells())?;
    match start {
        Start::Roots => search.take_roots(table),
        Start::Owners => search.take_owners(table, roles.owners()),
    }
    search.take_levels(table, shut);
    let Frontier { arrivals, order } = search;
    let ancestors = ancestors_of(alloc, &arrivals, order.as_slice())?;
    Ok(Levels::of(alloc, start, arrivals, ancestors))
}

impl Frontier {
    // Takes the roots.
    fn take_roots(&mut self, table: &ObjectTable)
        requires placed { IsPlaced table.now }
        requires nothing { HasTaken table.now Roots [] (front_of self.old) }
        ensures taken { HasTaken table.now Roots (root_ways table.now.table) (front_of self.new) }
        ensures grows { FrontGrows table.now (front_of self.old) (front_of self.new) }
    {
        for root in 0..table.roots() {
            let arrival = Arrival {
                level: 1,
                from: root,
                slot: 0,
            };
            self.arrive_first(table.root_cell(root), arrival);
        }
    }

    // Takes the edges of the owners.
    fn take_owners(&mut self, table: &ObjectTable, owners: &[u32])
        requires placed { IsPlaced table.now }
        requires owners { All (λ owner. IsSome (id_in table.now owner)) owners.now }
        requires nothing { HasTaken table.now Owners [] (front_of self.old) }
        ensures taken { HasTaken table.now Owners (ways_from table.now.table (map (id_at table.now.cells) owners.now)) (front_of self.new) }
        ensures grows { FrontGrows table.now (front_of self.old) (front_of self.new) }
    {
        for owner in owners {
            self.take_owner(table, *owner);
        }
    }

    // Takes the edges of one owner.
    fn take_owner(&mut self, table: &ObjectTable, owner: u32)
        requires placed { IsPlaced table.now }
        requires owner { IsSome (id_in table.now owner) }
        requires each { length self.old.arrivals ≡ length table.now.cells }
        ensures taken { (ways : List Way) → HasTaken table.now Owners ways (front_of self.old) → HasTaken table.now Owners (ways ++ ways_from table.now.table (id_at table.now.cells owner ∷ [])) (front_of self.new) }
        ensures grows { FrontGrows table.now (front_of self.old) (front_of self.new) }
    {
        let edges = table.edges_at(owner);
        for slot in 0..edges.len() {
            if let Some(target) = edges.at(slot) {
                let arrival = Arrival {
                    level: 1,
                    from: owner,
                    slot,
                };
                self.arrive_first(target, arrival);
            }
        }
    }

    // Goes on level by level, until a level has no object.
    fn take_levels(&mut self, table: &ObjectTable, shut: &[bool])
        requires placed { IsPlaced table.now }
        requires sound { IsSound table.now.table }
        requires shut { length shut.now ≡ length table.now.cells }
        requires low { GoesUpTo table.now 1 (front_of self.old) }
        ensures levels { (s : Search) → ShutByCell table.now s shut.now → IsAtFirstLevel (record { placed = table.now; search = s }) (front_of self.old) → AreLevelsOf table.now s (levels_by s (front_of self.new)) }
    {
        let mut level = 1;
        let mut from = 0;
        while from < self.order.len() {
            let to = self.order.len();
            level += 1;
            self.take_level(table, shut, from, level);
            from = to;
        }
    }

    // Goes on from the objects of one level, which stand in the order from this place on, to those of the next.
    fn take_level(&mut self, table: &ObjectTable, shut: &[bool], from: usize, level: u32)
        requires placed { IsPlaced table.now }
        requires shut { length shut.now ≡ length table.now.cells }
        requires level { 1 < level }
        requires from { from ≤ length self.old.order.items }
        requires safe { IsUnderWay table.now level (front_of self.old) }
        ensures safe { IsUnderWay table.now level (front_of self.new) }
        ensures arrivals { AreByObjects (record { placed = table.now; shut = shut.now; level = level }) (drop from self.old.order.items) self.old.arrivals self.new.arrivals }
        ensures grows { FrontGrows table.now (front_of self.old) (front_of self.new) }
    {
        for place in from..self.order.len() {
            let cell = self.order[place];
            if !shut[cell as usize] {
                self.take_object(table, cell, level);
            }
        }
    }

    // Goes on from an object by its edges.
    fn take_object(&mut self, table: &ObjectTable, cell: u32, level: u32)
        requires placed { IsPlaced table.now }
        requires cell { IsSome (id_in table.now cell) }
        requires level { 1 < level }
        requires safe { IsUnderWay table.now level (front_of self.old) }
        ensures safe { IsUnderWay table.now level (front_of self.new) }
        ensures arrivals { (to : ℕ) → (id : ℕ) → id_in table.now to ≡ Some id → arrival_in self.new.arrivals to ≡ by_object (record { placed = table.now; shut = []; level = level }) cell (arrival_in self.old.arrivals to) id }
        ensures grows { FrontGrows table.now (front_of self.old) (front_of self.new) }
    {
        let edges = table.edges_at(cell);
        for slot in 0..edges.len() {
            if let Some(target) = edges.at(slot) {
                let arrival = Arrival {
                    level,
                    from: cell,
                    slot,
                };
                self.arrive(table, target, arrival);
            }
        }
    }
}
