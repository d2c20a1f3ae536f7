//! The list of the verdicts, in order.
ghost use Rattle.assert_registry.specs.Laws.{StandFor};
ghost use Rattle.graph_meaning.specs.Heap.{Heap};
ghost use Rattle.graph_meaning.specs.Roles.{AreRolesOf};
ghost use Rattle.heap_marking.specs.Traces.{IsTraceOf};
ghost use Rattle.std.specs.Prelude.{◌≡◌, length, IfOk};
ghost use Rattle.verdict_list.specs.Listed.{verdicts_in};
ghost use Rattle.audit_core.specs.Verdicts.{counts_of};

use crate::counted::CountedTrace;
use crate::ownership::check_owners;
use graph_meaning::{Roles, VerdictList};
use heap_base::OutOfMemory;
use heap_marking::Traced;
use object_table::ObjectTable;
use std::alloc::Global;
use verdict_list::{CountedHeap, all_verdicts};

/// The violated assertions of a heap that was traced, in order: what is asserted dead, by id; the types over their limit, by name; what
/// is asserted unshared, by id; and the ownees, by id. So many of the first carry their paths. The counts are those of the trace.
pub fn verdicts(
    alloc: Global,
    table: &ObjectTable,
    roles: &Roles,
    traced: &Traced,
    paths: u32,
) -> Result<VerdictList, OutOfMemory>
    requires roles { AreRolesOf table.now.cells (length table.now.table.kinds) roles.now }
    requires trace { (h : Heap) × StandFor table.now roles.now h × IsTraceOf table.now h traced.now }
    ensures verdicts { IfOk result (λ v. (h : Heap) → StandFor table.now roles.now h → IsTraceOf table.now h traced.now → v ≡ verdicts_in table.now (counts_of traced.now) paths h) }
{
    let check = check_owners(alloc, table, roles, traced)?;
    let counts = CountedTrace { traced };
    let counted = CountedHeap {
        table,
        roles,
        counts: &counts,
    };
    all_verdicts(alloc, &counted, &check, paths)
}
