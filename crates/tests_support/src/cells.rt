//! The cells of a table's objects, by their ids.
ghost use Rattle.std.specs.Prelude.{◌≡◌, ◌<◌, length, IfSome, IfOk, IsSome};
ghost use Rattle.object_table.specs.Placed.{id_in};

use heap_base::{ObjId, OutOfMemory};
use object_table::ObjectTable;
use std::alloc::Global;

/// The cell of the object with this id, and `None` where it isn't live.
pub fn cell(table: &ObjectTable, object: u32) -> Option<u32>
    ensures in_range { IfSome result (λ c. c < length table.now.cells) }
    ensures taken { IfSome result (λ c. IsSome (id_in table.now c)) }
{
    let cell = table.cell_of(ObjId::of(object)?)?;
    if cell < table.cells() {
        Some(cell)
    } else {
        None
    }
}

/// A flag for each cell: this value where the cell holds one of these objects, and the other value elsewhere.
pub fn flags(
    alloc: Global,
    table: &ObjectTable,
    objects: &[u32],
    value: bool,
) -> Result<Vec<bool>, OutOfMemory>
    ensures { IfOk result (λ flags. length flags.items ≡ length table.now.cells) }
{
    let mut flags = vec![in alloc; !value; table.cells() as usize]?;
    for object in objects {
        if let Some(cell) = cell(table, *object) {
            flags[cell as usize] = value;
        }
    }
    Ok(flags)
}
