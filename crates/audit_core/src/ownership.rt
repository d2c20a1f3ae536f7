//! The ownees that are met and that their owner doesn't find.
ghost use Rattle.assert_registry.specs.Laws.{StandFor};
ghost use Rattle.graph_meaning.specs.Heap.{Heap};
ghost use Rattle.graph_meaning.specs.Roles.{AreRolesOf};
ghost use Rattle.heap_marking.specs.Traces.{IsTraceOf};
ghost use Rattle.object_table.specs.Placed.{id_in};
ghost use Rattle.verdict_list.specs.Ownership.{AreViolating};
ghost use Rattle.path_cert.specs.Levels.{AreLevelsIn};
ghost use Rattle.std.specs.Prelude.{◌≡◌, length, All, IfOk, IfSome, IsSome};

use crate::doubts::doubtful_ownees;
use graph_meaning::Roles;
use heap_base::OutOfMemory;
use heap_marking::Traced;
use object_table::ObjectTable;
use std::alloc::Global;
use verdict_list::{OwnershipCheck, check_ownees};

/// The ownees that are met and that their owner doesn't find, or whose owner is gone, by id. Whatever the trace marked
/// found is found, and what it didn't mark as met by roots isn't met: only the others are in doubt, and are searched for.
/// The words of the trace are of the table's cells. Answers `OutOfMemory` when memory runs out.
pub fn check_owners(
    alloc: Global,
    table: &ObjectTable,
    roles: &Roles,
    traced: &Traced,
) -> Result<OwnershipCheck, OutOfMemory>
    requires roles { AreRolesOf table.now.cells (length table.now.table.kinds) roles.now }
    requires cells { traced.now.words.cells ≡ length table.now.cells }
    ensures objects { IfOk result (λ c. All (λ ownee. IsSome (id_in table.now ownee)) c.ownees) }
    ensures levels { IfOk result (λ c. IfSome c.levels (AreLevelsIn table.now)) }
    ensures violating { IfOk result (λ c. (h : Heap) → StandFor table.now roles.now h → IsTraceOf table.now h traced.now → AreViolating table.now h c) }
{
    let doubts = doubtful_ownees(alloc, table, roles, traced.words())?;
    check_ownees(alloc, table, roles, doubts)
}
