//! Which objects are traced: those to which owners or roots lead.
ghost use Rattle.assert_registry.specs.Laws.{StandFor};
ghost use Rattle.graph_meaning.specs.Heap.{Heap};
ghost use Rattle.graph_meaning.specs.Roles.{AreRolesOf};
ghost use Rattle.plain_collection.specs.Counting.{is_reached_in};
ghost use Rattle.object_paths.specs.References.{KeptAreTraced};
ghost use Rattle.std.specs.Prelude.{◌≡◌, ◌<◌, ℕ, false, length, slice_index_or, IfOk};

use graph_meaning::Roles;
use heap_base::OutOfMemory;
use object_table::ObjectTable;
use path_cert::{Levels, Start, levels};
use std::alloc::Global;

/// For each cell whether its object is traced: whether it has a level from the owners or from the roots, with nothing shut.
pub(crate) fn traced_cells(
    alloc: Global,
    table: &ObjectTable,
    roles: &Roles,
) -> Result<Vec<bool>, OutOfMemory>
    requires roles { AreRolesOf table.now.cells (length table.now.table.kinds) roles.now }
    ensures each { IfOk result (λ kept. length kept.items ≡ length table.now.cells) }
    ensures traced { IfOk result (λ kept. (h : Heap) → StandFor table.now roles.now h → KeptAreTraced table.now h kept.items) }
{
    let cells = table.cells();
    let nothing = vec![in alloc; false; cells as usize]?;
    let shut = nothing.as_slice();
    let by_owners = levels(alloc, table, roles, Start::Owners, shut)?;
    let by_roots = levels(alloc, table, roles, Start::Roots, shut)?;
    reached_cells(alloc, &by_owners, &by_roots, cells)
}

// For each of so many cells whether its object has a level from the owners or from the roots.
fn reached_cells(
    alloc: Global,
    by_owners: &Levels,
    by_roots: &Levels,
    cells: u32,
) -> Result<Vec<bool>, OutOfMemory>
    requires owners { cells ≡ length by_owners.now.arrivals }
    requires roots { cells ≡ length by_roots.now.arrivals }
    ensures each { IfOk result (λ kept. length kept.items ≡ cells) }
    ensures reached { IfOk result (λ kept. (cell : ℕ) → cell < cells → slice_index_or kept.items cell false ≡ is_reached_in by_owners.now by_roots.now cell) }
{
    let mut kept = Vec::with_capacity(alloc, cells as usize)?;
    for cell in 0..cells {
        kept.push_reserved(is_reached(by_owners, by_roots, cell));
    }
    Ok(kept)
}

// A function of its own, so that its answer is one value where it is pushed.
fn is_reached(by_owners: &Levels, by_roots: &Levels, cell: u32) -> bool
    requires owners { cell < length by_owners.now.arrivals }
    requires roots { cell < length by_roots.now.arrivals }
    ensures { result ≡ is_reached_in by_owners.now by_roots.now cell }
{
    by_owners.level(cell).is_some() || by_roots.level(cell).is_some()
}
