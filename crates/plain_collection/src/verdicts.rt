//! The list of the verdicts, in order.
ghost use Rattle.graph_meaning.specs.Assertions.{reference_count};
ghost use Rattle.graph_meaning.specs.Collecting.{first_with_paths, all_verdicts};
ghost use Rattle.graph_meaning.specs.Heap.{Heap};
ghost use Rattle.graph_meaning.specs.Roles.{AreRolesOf};
ghost use Rattle.plain_collection.specs.PlainTraces.{IsPlainTraceOf};
ghost use Rattle.std.specs.Prelude.{◌≡◌, length, IfOk};

use crate::plain_trace::PlainTrace;
use graph_meaning::{Roles, VerdictList};
use heap_base::OutOfMemory;
use object_table::ObjectTable;
use std::alloc::Global;
use verdict_list::{CountedHeap, all_verdicts, check_ownees, ownees_of};

impl PlainTrace {
    /// The violated assertions of the heap that was traced, in order: what is asserted dead, by id; the types over their limit, by
    /// name; what is asserted unshared, by id; and the ownees, by id. So many of the first carry their paths.
    pub(crate) fn verdicts(
        &self,
        alloc: Global,
        table: &ObjectTable,
        roles: &Roles,
        paths: u32,
    ) -> Result<VerdictList, OutOfMemory>
        requires roles { AreRolesOf table.now.cells (length table.now.table.kinds) roles.now }
        requires trace { (h : Heap) × IsPlainTraceOf table.now roles.now h self.now }
        ensures verdicts { IfOk result (λ v. (h : Heap) → IsPlainTraceOf table.now roles.now h self.now → v ≡ first_with_paths paths (all_verdicts (reference_count h) h)) }
    {
        // what is true of every table
        let cells = table.cells();
        prove!(cells < u32::MAX);
        let ownees = ownees_of(alloc, table, roles)?;
        let check = check_ownees(alloc, table, roles, ownees)?;
        let counted = CountedHeap {
            table,
            roles,
            counts: self,
        };
        all_verdicts(alloc, &counted, &check, paths)
    }
}
