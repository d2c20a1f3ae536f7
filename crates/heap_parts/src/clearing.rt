//! What is to be cut off by force at the end of a collection.
ghost use Rattle.std.specs.Prelude.{◌≡◌, ◌&&◌, length, IfOk};
ghost use Rattle.graph_meaning.specs.Roles.{AreRolesOf, cells_of};
ghost use Rattle.assert_registry.specs.Laws.{StandFor};
ghost use Rattle.heap_parts.specs.Parts.{AreDeadAndTraced, FlagTraced, dead_below, placed_in};

use crate::parts::HeapParts;
use graph_meaning::Roles;
use heap_base::OutOfMemory;
use std::alloc::Global;

// Whether an object is both. A function of its own, so that its answer is one value where it is pushed.
fn is_dead_and_traced(is_dead: bool, is_traced: bool) -> bool
    ensures { result ≡ (is_dead && is_traced) }
{
    is_dead && is_traced
}

// For each of so many cells whether its object is asserted dead and traced.
fn dead_and_traced(
    alloc: Global,
    roles: &Roles,
    kept: &[bool],
    cells: u32,
) -> Result<Vec<bool>, OutOfMemory>
    requires roles { cells_of roles.now ≡ cells }
    requires kept { length kept.now ≡ cells }
    ensures { IfOk result (λ flags. flags.items ≡ dead_below roles.now kept.now cells) }
{
    let mut flags = Vec::with_capacity(alloc, cells as usize)?;
    for cell in 0..cells {
        flags.push_reserved(is_dead_and_traced(roles.dead(cell), kept[cell as usize]));
    }
    Ok(flags)
}

impl HeapParts {
    /// For each cell whether its object is asserted dead and traced, by the heap's roles and by what is kept. Answers
    /// `OutOfMemory` when memory runs out.
    pub fn to_clear(
        &self,
        alloc: Global,
        roles: &Roles,
        kept: &[bool],
    ) -> Result<Vec<bool>, OutOfMemory>
        requires of_table { AreRolesOf self.now.cells (length self.now.heap.table.kinds) roles.now }
        requires of_heap { StandFor (placed_in self.now) roles.now self.now.heap }
        requires kept { FlagTraced self.now kept.now }
        ensures { IfOk result (λ flags. AreDeadAndTraced self.now flags.items) }
    {
        let cells = self.table.cells();
        dead_and_traced(alloc, roles, kept, cells)
    }
}
