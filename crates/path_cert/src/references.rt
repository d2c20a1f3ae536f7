//! The paths by one reference alone: a root, or a slot of an owner.
ghost use Rattle.graph_meaning.specs.Heap.{edge_of};
ghost use Rattle.graph_meaning.specs.Paths.{root_way, owner_way, view_of};
ghost use Rattle.graph_meaning.specs.Roles.{id_at};
ghost use Rattle.graph_meaning.specs.Views.{heap_view, is_path};
ghost use Rattle.object_table.specs.Placed.{id_in, slots_in, slot_in};
ghost use Rattle.path_cert.specs.Steps.{way_by_slot};
ghost use Rattle.std.specs.Prelude.{◌≡◌, ◌<◌, Some, IsTrue, IfOk, IsSome, IfSome, option_map, slice_get, length};

use crate::objects::{edge_cell, object_id, object_kind, step_to};
use graph_meaning::{PathFrom, PathView, StepList};
use heap_base::OutOfMemory;
use object_table::ObjectTable;
use std::alloc::Global;

/// The path from a root to the object that it names, with no step.
pub fn root_path(alloc: Global, table: &ObjectTable, root: u32) -> Result<PathView, OutOfMemory>
    requires root { root < length table.now.table.roots }
    ensures path { IfOk result (λ v. IfSome (slice_get table.now.table.roots root) (λ r. v ≡ view_of (root_way table.now.table r))) }
    ensures is_path { IfOk result (λ v. IsTrue (is_path (heap_view table.now.table) v)) }
{
    // what is true of every table
    let cell = table.root_cell(root);
    let cells = table.cells();
    prove!(cell < cells);
    let from = from_root(table, root)?;
    Ok(PathView {
        from,
        steps: StepList::empty(alloc),
        left_out: 0,
    })
}

/// The path of one step from the object in a cell, by an edge from one of its slots.
pub fn owner_step(
    alloc: Global,
    table: &ObjectTable,
    owner: u32,
    slot: u32,
) -> Result<PathView, OutOfMemory>
    requires a_slot { slot < length (slots_in table.now owner) }
    requires an_edge { IsSome (edge_of (slot_in table.now owner slot)) }
    ensures path { IfOk result (λ v. Some v ≡ option_map view_of (way_by_slot table.now (owner_way table.now.table (id_at table.now.cells owner)) owner slot)) }
    ensures is_path { IfOk result (λ v. IsTrue (is_path (heap_view table.now.table) v)) }
{
    // what is true of every table
    let cells = table.cells();
    prove!(owner < cells);
    let step = step_to(table, slot, edge_cell(table, owner, slot))?;
    let from = from_owner(table, owner)?;
    let mut steps = StepList::empty(alloc);
    steps.push(step)?;
    Ok(PathView {
        from,
        steps,
        left_out: 0,
    })
}

/// The start at a root.
pub(crate) fn from_root(table: &ObjectTable, root: u32) -> Result<PathFrom, OutOfMemory>
    requires { root < length table.now.table.roots }
    ensures { IfOk result (λ from. IfSome (slice_get table.now.table.roots root) (λ r. from ≡ (root_way table.now.table r).from)) }
{
    let name = table.root_name(root).copy()?;
    let cell = table.root_cell(root);
    let kind = object_kind(table, cell)?;
    let id = object_id(table, cell);
    Ok(PathFrom::Root { name, id, kind })
}

/// The start at an owner.
pub(crate) fn from_owner(table: &ObjectTable, owner: u32) -> Result<PathFrom, OutOfMemory>
    requires { IsSome (id_in table.now owner) }
    ensures { IfOk result (λ from. from ≡ (owner_way table.now.table (id_at table.now.cells owner)).from) }
{
    let kind = object_kind(table, owner)?;
    let id = object_id(table, owner);
    Ok(PathFrom::Owner { id, kind })
}
