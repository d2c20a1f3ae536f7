//! Tables of objects that nothing leads to, of which any may be freed.
ghost use Rattle.std.specs.Prelude.{◌≡◌, ℕ, [], IfOk, OnOk};
ghost use Rattle.graph_meaning.specs.Heap.{targets};

use crate::names::{id, name};
use heap_base::Limits;
use object_table::ObjectTable;
use std::alloc::Global;
use std::test::Fail;

// Adds an object by its id, its type and its number of slots. A table without roots and edges has none afterwards.
fn add(alloc: Global, table: &mut ObjectTable, object: (u32, &str, u32)) -> Result<(), Fail>
    ensures roots { OnOk result (table.old.table.roots ≡ [] → table.new.table.roots ≡ []) }
    ensures edges { OnOk result (((x : ℕ) → targets table.old.table x ≡ []) → (x : ℕ) → targets table.new.table x ≡ []) }
{
    table.alloc_object(id(object.0)?, &name(alloc, object.1)?, object.2)?;
    Ok(())
}

/// A table of these objects, each by its id, its type and its number of slots, without roots and edges.
pub fn table_apart(alloc: Global, objects: &[(u32, &str, u32)]) -> Result<ObjectTable, Fail>
    ensures roots { IfOk result (λ t. t.table.roots ≡ []) }
    ensures edges { IfOk result (λ t. (x : ℕ) → targets t.table x ≡ []) }
{
    let mut table = ObjectTable::make(alloc, Limits::usual())?;
    for object in objects {
        add(alloc, &mut table, *object)?;
    }
    Ok(table)
}
