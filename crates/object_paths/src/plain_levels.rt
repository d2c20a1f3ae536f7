//! Plain paths: by the roots, and where these don't lead to an object, by the owners.
ghost use Rattle.graph_meaning.specs.Assertions.{by_slot};
ghost use Rattle.graph_meaning.specs.Heap.{Heap, edge_of};
ghost use Rattle.graph_meaning.specs.Paths.{plain_way, reference_way, view_of};
ghost use Rattle.graph_meaning.specs.Roles.{RoleTable, AreRolesOf, id_at};
ghost use Rattle.graph_meaning.specs.Views.{heap_view, is_path};
ghost use Rattle.heap_base.specs.declared.limits.TheConstants.{END_STEPS};
ghost use Rattle.object_paths.specs.PlainPaths.{ArePlainLevels, WhereLevelsOf};
ghost use Rattle.object_table.specs.Placed.{id_in, slots_in, slot_in};
ghost use Rattle.object_paths.specs.References.{reference_of, RefersTo};
ghost use Rattle.std.specs.Option.{option_map};
ghost use Rattle.std.specs.Prelude.{◌≡◌, ◌<◌, ◌≤◌, ◌*◌, ℕ, length, Some, IsTrue, IfOk, IsSome, IfSome};

use crate::cell_reference::CellReference;
use graph_meaning::{PathView, Roles};
use heap_base::OutOfMemory;
use object_table::ObjectTable;
use path_cert::{Levels, Start, levels, owner_step, root_path};
use std::alloc::Global;
use std::marker::Model;

/// The levels from the roots and from the owners, with nothing shut. They are of the table that they were made for, as long as
/// it stands still. Contracts see a `PlainTable`.
#[derive(Drop)]
pub struct PlainLevels {
    alloc: Global,
    roots: Levels,
    owners: Levels,
}

impl Model for PlainLevels {
    ghost use Rattle.object_paths.specs.PlainPaths.{PlainTable};

    ghost Value = { PlainTable };

    ghost view = { λ l. record { roots = l.roots; owners = l.owners } };
}

impl PlainLevels {
    /// The levels of a table. Answers `OutOfMemory` when memory runs out.
    pub fn make(
        alloc: Global,
        table: &ObjectTable,
        roles: &Roles,
    ) -> Result<PlainLevels, OutOfMemory>
        requires roles { AreRolesOf table.now.cells (length table.now.table.kinds) roles.now }
        ensures levels { IfOk result (ArePlainLevels table.now roles.now) }
    {
        let shut = vec![in alloc; false; table.cells() as usize]?;
        let from_roots = levels(alloc, table, roles, Start::Roots, shut.as_slice())?;
        let from_owners = levels(alloc, table, roles, Start::Owners, shut.as_slice())?;
        Ok(PlainLevels {
            alloc,
            roots: from_roots,
            owners: from_owners,
        })
    }

    /// The plain path to the object in a cell, and `None` exactly where neither roots nor owners lead to it. The table is the
    /// one that the levels were made for.
    pub fn path(&self, table: &ObjectTable, cell: u32) -> Result<Option<PathView>, OutOfMemory>
        requires levels { (r : RoleTable) × ArePlainLevels table.now r self.now }
        requires cell { IsSome (id_in table.now cell) }
        ensures path { IfOk result (λ v. (h : Heap) → WhereLevelsOf table.now h self.now (v ≡ option_map view_of (plain_way h (id_at table.now.cells cell)))) }
        ensures is_path { IfOk result (λ v. IfSome v (λ path. IsTrue (is_path (heap_view table.now.table) path))) }
        ensures few { IfOk result (λ v. IfSome v (λ path. length path.steps ≤ 2 * END_STEPS)) }
    {
        match self.roots.path(table, cell)? {
            Some(path) => Ok(Some(path)),
            None => self.owners.path(table, cell),
        }
    }

    /// The path by a reference: the root alone, or the plain path to the holder of the slot and the step by that slot; a holder without
    /// a plain path is its own start. The table is the one that the levels were made for.
    pub fn reference_path(
        &self,
        table: &ObjectTable,
        reference: CellReference,
    ) -> Result<PathView, OutOfMemory>
        requires levels { (r : RoleTable) × ArePlainLevels table.now r self.now }
        requires refers { (id : ℕ) × RefersTo table.now reference id }
        ensures path { IfOk result (λ v. (h : Heap) → WhereLevelsOf table.now h self.now ((id : ℕ) → RefersTo table.now reference id → v ≡ view_of (reference_way h id (reference_of table.now reference)))) }
        ensures is_path { IfOk result (λ v. IsTrue (is_path (heap_view table.now.table) v)) }
        ensures few { IfOk result (λ v. length v.steps ≤ 2 * END_STEPS) }
    {
        match reference {
            CellReference::Root { root } => root_path(self.alloc, table, root),
            CellReference::Slot { holder, slot } => self.slot_path(table, holder, slot),
        }
    }

    // The path by a slot of the object in a cell, which is an edge.
    fn slot_path(
        &self,
        table: &ObjectTable,
        holder: u32,
        slot: u32,
    ) -> Result<PathView, OutOfMemory>
        requires levels { (r : RoleTable) × ArePlainLevels table.now r self.now }
        requires a_slot { slot < length (slots_in table.now holder) }
        requires an_edge { IsSome (edge_of (slot_in table.now holder slot)) }
        ensures path { IfOk result (λ v. (h : Heap) → WhereLevelsOf table.now h self.now ((id : ℕ) → edge_of (slot_in table.now holder slot) ≡ Some id → v ≡ view_of (reference_way h id (by_slot (id_at table.now.cells holder) slot)))) }
        ensures is_path { IfOk result (λ v. IsTrue (is_path (heap_view table.now.table) v)) }
        ensures few { IfOk result (λ v. length v.steps ≤ 2 * END_STEPS) }
    {
        if let Some(path) = self.roots.path_then(table, holder, slot)? {
            return Ok(path);
        }
        match self.owners.path_then(table, holder, slot)? {
            Some(path) => Ok(path),
            None => owner_step(self.alloc, table, holder, slot),
        }
    }
}
