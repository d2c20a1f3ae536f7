//! The ownees of a table.
ghost use Rattle.graph_meaning.specs.Roles.{cells_of, owner_in, has_owner};
ghost use Rattle.object_table.specs.Placed.{IsPlaced};
ghost use Rattle.verdict_list.specs.Cells.{cells_by_id};
ghost use Rattle.std.specs.Prelude.{◌≡◌, ◌<◌, length, filter, IfOk};

use graph_meaning::Roles;
use heap_base::OutOfMemory;
use object_table::ObjectTable;
use std::alloc::Global;

/// The cells of all ownees, by the ids of the objects. The roles are of the table's cells. Answers `OutOfMemory` where
/// memory is wanting.
pub fn ownees_of(alloc: Global, table: &ObjectTable, roles: &Roles) -> Result<Vec<u32>, OutOfMemory>
    requires roles { cells_of roles.now ≡ length table.now.cells }
    ensures placed { IsPlaced table.now }
    ensures ownees { IfOk result (λ ownees. ownees.items ≡ filter (λ cell. has_owner (owner_in roles.now cell)) (cells_by_id table.now)) }
{
    let cells = table.cells();
    let mut ownees = Vec::new(alloc);
    for number in 0..table.live() {
        let cell = table.nth_cell(number);
        prove!(cell < cells);
        if roles.owner(cell).has_owner() {
            ownees.push(cell)?;
        }
    }
    Ok(ownees)
}
