//! What is read of the object in a cell.
ghost use Rattle.graph_meaning.specs.Heap.{kind_at, edge_of};
ghost use Rattle.graph_meaning.specs.Roles.{id_at};
ghost use Rattle.object_table.specs.Placed.{id_in, slots_in, slot_in};
ghost use Rattle.path_cert.specs.Steps.{step_to};
ghost use Rattle.std.specs.Prelude.{◌≡◌, ◌<◌, Some, IfOk, IsSome, option_map, length};

use graph_meaning::PathStep;
use heap_base::{Name, OutOfMemory};
use object_table::ObjectTable;

/// The id of the object in a cell that holds one: what a trace calls it, whichever cell it stands in.
pub fn object_id(table: &ObjectTable, cell: u32) -> u32
    requires { IsSome (id_in table.now cell) }
    ensures id { result ≡ id_at table.now.cells cell }
    ensures held { id_in table.now cell ≡ Some result }
{
    match table.id_at(cell) {
        Some(id) => id.number(),
        None => unreachable!(),
    }
}

/// The name of the type of the object in a cell that holds one, as a copy.
pub fn object_kind(table: &ObjectTable, cell: u32) -> Result<Name, OutOfMemory>
    requires { IsSome (id_in table.now cell) }
    ensures { IfOk result (λ kind. kind ≡ kind_at table.now.table (id_at table.now.cells cell)) }
{
    // what is true of every table
    let cells = table.cells();
    prove!(cell < cells);
    table.kind_name(table.kind_at(cell)).copy()
}

/// The cell that the edge by a slot leads to.
pub(crate) fn edge_cell(table: &ObjectTable, cell: u32, slot: u32) -> u32
    requires a_slot { slot < length (slots_in table.now cell) }
    requires an_edge { IsSome (edge_of (slot_in table.now cell slot)) }
    ensures leads { id_in table.now result ≡ edge_of (slot_in table.now cell slot) }
    ensures id { edge_of (slot_in table.now cell slot) ≡ Some (id_at table.now.cells result) }
{
    match table.slot_at(cell, slot) {
        Some(target) => target,
        None => unreachable!(),
    }
}

/// The step by a slot to the object in a cell.
pub(crate) fn step_to(table: &ObjectTable, slot: u32, cell: u32) -> Result<PathStep, OutOfMemory>
    requires { IsSome (id_in table.now cell) }
    ensures { IfOk result (λ step. step ≡ step_to table.now.table (slot, id_at table.now.cells cell)) }
{
    let kind = object_kind(table, cell)?;
    let id = object_id(table, cell);
    Ok(PathStep { slot, id, kind })
}
