//! What is counted in a heap on one thread.
ghost use Rattle.assert_registry.specs.Laws.{StandFor};
ghost use Rattle.graph_meaning.specs.Heap.{Heap};
ghost use Rattle.graph_meaning.specs.Roles.{AreRolesOf};
ghost use Rattle.plain_collection.specs.PlainTraces.{plain_counts, IsPlainTraceOf};
ghost use Rattle.std.specs.Prelude.{◌≡◌, length, IfOk};

use crate::instances::count_instances;
use crate::kept::traced_cells;
use crate::references::count_references;
use graph_meaning::Roles;
use heap_base::OutOfMemory;
use object_paths::TracedTable;
use object_table::ObjectTable;
use std::alloc::Global;
use verdict_list::HeapCounts;

/// For each cell how many references there are to its object, and whether that is traced; for each type how many of its objects
/// are traced.
#[derive(Drop)]
pub(crate) struct PlainTrace {
    pub(crate) references: Vec<u64>,
    pub(crate) instances: Vec<u32>,
    pub(crate) kept: Vec<bool>,
}

impl PlainTrace {
    /// Traces the heap of a table. Answers `OutOfMemory` when memory runs out.
    pub(crate) fn make(
        alloc: Global,
        table: &ObjectTable,
        roles: &Roles,
    ) -> Result<PlainTrace, OutOfMemory>
        requires roles { AreRolesOf table.now.cells (length table.now.table.kinds) roles.now }
        ensures each { IfOk result (λ t. length t.kept.items ≡ length table.now.cells) }
        ensures trace { IfOk result (λ t. (h : Heap) → StandFor table.now roles.now h → IsPlainTraceOf table.now roles.now h t) }
    {
        let kept = traced_cells(alloc, table, roles)?;
        let traced = TracedTable {
            table,
            roles,
            kept: kept.as_slice(),
        };
        let references = count_references(alloc, traced)?;
        let instances = count_instances(alloc, table, kept.as_slice())?;
        Ok(PlainTrace {
            references,
            instances,
            kept,
        })
    }
}

impl HeapCounts for PlainTrace {
    ghost counts = { plain_counts };

    fn references(&self, cell: u32) -> u64 {
        self.references[cell as usize]
    }

    fn instances(&self, kind: u32) -> u64 {
        u64::from(self.instances[kind as usize])
    }

    fn kept(&self) -> &[bool] {
        self.kept.as_slice()
    }
}
