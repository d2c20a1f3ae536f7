//! Which ownees are met: those to which a path from a root leads that goes on from nothing under owners, and from no
//! owner.
ghost use Rattle.assert_registry.specs.Laws.{StandFor};
ghost use Rattle.graph_meaning.specs.Heap.{Heap};
ghost use Rattle.graph_meaning.specs.Roles.{AreRolesOf, cells_of};
ghost use Rattle.verdict_list.specs.Cells.{is_owned_cell};
ghost use Rattle.verdict_list.specs.Ownership.{unowned_search};
ghost use Rattle.path_cert.specs.Levels.{AreLevelsOf, AreLevelsIn, level_in};
ghost use Rattle.std.specs.Prelude.{◌≡◌, ◌<◌, ℕ, false, length, filter, is_some, slice_index_or, All, IfOk};

use graph_meaning::Roles;
use heap_base::OutOfMemory;
use object_table::ObjectTable;
use path_cert::{Levels, Start, levels};
use std::alloc::Global;

/// The levels from the roots, where no path goes on from what is under owners or from an owner.
pub(crate) fn unowned_levels(
    alloc: Global,
    table: &ObjectTable,
    roles: &Roles,
) -> Result<Levels, OutOfMemory>
    requires roles { AreRolesOf table.now.cells (length table.now.table.kinds) roles.now }
    ensures levels { IfOk result (AreLevelsIn table.now) }
    ensures unowned { IfOk result (λ l. (h : Heap) → StandFor table.now roles.now h → AreLevelsOf table.now (unowned_search h) l) }
{
    let cells = table.cells();
    let nothing = vec![in alloc; false; cells as usize]?;
    let under = levels(alloc, table, roles, Start::Owners, nothing.as_slice())?;
    let owned = owned_cells(alloc, roles, &under, cells)?;
    levels(alloc, table, roles, Start::Roots, owned.as_slice())
}

// For each cell whether its object is under owners or an owner. What has a level from the owners is under them.
fn owned_cells(
    alloc: Global,
    roles: &Roles,
    under: &Levels,
    cells: u32,
) -> Result<Vec<bool>, OutOfMemory>
    requires roles { cells ≡ cells_of roles.now }
    requires levels { cells ≡ length under.now.arrivals }
    ensures each { IfOk result (λ owned. length owned.items ≡ cells) }
    ensures owned { IfOk result (λ owned. (cell : ℕ) → cell < cells → slice_index_or owned.items cell false ≡ is_owned_cell roles.now under.now cell) }
{
    let mut owned = Vec::with_capacity(alloc, cells as usize)?;
    for cell in 0..cells {
        owned.push_reserved(under.level(cell).is_some() || roles.is_owner(cell));
    }
    Ok(owned)
}

/// Those of the ownees that have a level, in the same order.
pub(crate) fn with_level(
    alloc: Global,
    levels: &Levels,
    ownees: &[u32],
) -> Result<Vec<u32>, OutOfMemory>
    requires ownees { All (λ ownee. ownee < length levels.now.arrivals) ownees.now }
    ensures met { IfOk result (λ met. met.items ≡ filter (λ ownee. is_some (level_in levels.now ownee)) ownees.now) }
{
    let mut met = Vec::new(alloc);
    for ownee in ownees {
        if levels.level(*ownee).is_some() {
            met.push(*ownee)?;
        }
    }
    Ok(met)
}
