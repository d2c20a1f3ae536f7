//! The search for the first two references.
ghost use Rattle.graph_meaning.specs.Heap.{Heap};
ghost use Rattle.graph_meaning.specs.Roles.{AreRolesOf};
ghost use Rattle.heap_base.specs.Counting.{IsOnce};
ghost use Rattle.object_table.specs.Placed.{id_in};
ghost use Rattle.object_paths.specs.References.{AreFirstOf, IsTracedTableOf};
ghost use Rattle.std.specs.Prelude.{◌≡◌, length, All, IfOk, IsSome};

use crate::cell_reference::FirstReferences;
use crate::search::Search;
use crate::traced::TracedTable;
use heap_base::OutOfMemory;
use std::alloc::Global;

/// The first two references to the object in each of these cells, in the order of the cells: by roots, in the order of their names, and
/// then by slots of traced objects and owners, in the order of their ids and of the slots. It goes once
/// over the roots and the slots, however many cells are asked, and takes 16 bytes a cell.
pub fn first_references(
    alloc: Global,
    traced: TracedTable<'_>,
    asked: &[u32],
) -> Result<Vec<FirstReferences>, OutOfMemory>
    requires roles { AreRolesOf traced.table.now.cells (length traced.table.now.table.kinds) traced.roles.now }
    requires kept { length traced.kept.now ≡ length traced.table.now.cells }
    requires asked { All (λ cell. IsSome (id_in traced.table.now cell)) asked.now }
    requires once { IsOnce asked.now }
    ensures each { IfOk result (λ found. length found.items ≡ length asked.now) }
    ensures first { IfOk result (λ found. (h : Heap) → IsTracedTableOf h traced.entry → AreFirstOf traced.entry.table.now h asked.now found.items) }
{
    let mut search = Search::begin(alloc, traced.table.cells(), asked)?;
    search.take_roots(traced.table);
    search.take_objects(traced);
    Ok(search.into_found())
}
