//! The parts of a heap: its objects, what is asserted of them, and the open regions.
ghost use Rattle.std.specs.Prelude.{◌≡◌, [], length, IsTrue, IfOk};
ghost use Rattle.heap_base.specs.Limits.{ArePossible};
ghost use Rattle.graph_meaning.specs.Heap.{empty_heap};
ghost use Rattle.graph_meaning.specs.Roles.{AreRolesOf};
ghost use Rattle.assert_registry.specs.Laws.{StandFor};
ghost use Rattle.heap_parts.specs.Parts.{Steps, is_operation, placed_in};

use assert_registry::AssertRegistry;
use graph_meaning::{Event, Roles, Stop};
use heap_base::{Limits, MOST_OBJECTS, OutOfMemory};
use object_table::ObjectTable;
use region_log::RegionLog;
use std::alloc::Global;
use std::marker::Model;

/// What keeps the heap of a trace. Contracts see the heap that these parts stand for, and the cells of its objects.
#[derive(Drop)]
pub struct HeapParts {
    pub(crate) table: ObjectTable,
    pub(crate) registry: AssertRegistry,
    pub(crate) regions: RegionLog,
}

impl Model for HeapParts {
    ghost use Rattle.heap_parts.specs.Parts.{PlacedHeap, placed_heap, AreParts};

    ghost Value = { PlacedHeap };

    ghost view = { λ a. placed_heap (record { placed = a.table; assertions = a.registry; regions = a.regions }) };

    ghost invariant = { λ a. AreParts (record { placed = a.table; assertions = a.registry; regions = a.regions }) };
}

impl HeapParts {
    /// The parts of the empty heap under these limits. Answers `OutOfMemory` when memory runs out.
    pub fn make(alloc: Global, most: Limits) -> Result<HeapParts, OutOfMemory>
        requires possible { ArePossible most }
        ensures empty { IfOk result (λ a. a ≡ record { heap = empty_heap most; cells = [] }) }
    {
        let table = ObjectTable::make(alloc, most)?;
        let registry = AssertRegistry::make(alloc)?;
        let regions = RegionLog::make(alloc)?;
        Ok(HeapParts {
            table,
            registry,
            regions,
        })
    }

    /// Applies an operation to the heap. It refuses what `step` of the definitions refuses, for the same reason, whether or not
    /// there is memory. After a refusal, and when out of memory, nothing has changed.
    pub fn apply(&mut self, event: &Event) -> Result<(), Stop>
        requires { IsTrue (is_operation event.now) }
        ensures { Steps self.old event.now result self.new }
    {
        match event {
            Event::Alloc {
                id,
                kind,
                slots,
                thread,
            } => self.alloc_object(*id, kind, *slots, *thread),
            Event::Store { at, slot, to } => self.store(*at, *slot, *to),
            Event::SetWeak { at, slot, weak } => self.set_weak(*at, *slot, *weak),
            Event::Root { name, to } => self.set_root(name, *to),
            Event::AssertDead { id } => self.assert_dead(*id),
            Event::StartRegion { thread } => self.start_region(*thread),
            Event::AssertAllDead { thread } => self.assert_all_dead(*thread),
            Event::AssertInstances { kind, limit } => self.assert_instances(kind, *limit),
            Event::AssertUnshared { id } => self.assert_unshared(*id),
            Event::AssertOwnedBy { owner, ownee } => self.assert_ownedby(*owner, *ownee),
            Event::Collect => unreachable!(),
        }
    }

    /// The table of the heap.
    pub fn table(&self) -> &ObjectTable
        ensures { result.now ≡ placed_in self.now }
    {
        &self.table
    }

    /// The roles that the assertions make of the heap. Answers `OutOfMemory` when memory runs out.
    pub fn roles(&self) -> Result<Roles, OutOfMemory>
        ensures of_table { IfOk result (AreRolesOf self.now.cells (length self.now.heap.table.kinds)) }
        ensures of_heap { IfOk result (λ r. StandFor (placed_in self.now) r self.now.heap) }
    {
        // The call tells that no type stands twice.
        prove!(self.table.cells() <= MOST_OBJECTS);
        self.registry.roles(&self.table)
    }
}
