//! What is counted in a heap.
ghost use Rattle.std.specs.Prelude.{◌≡◌, ◌<◌, length, slice_index};
ghost use Rattle.verdict_list.specs.Counts.{CountTable};

use graph_meaning::Roles;
use object_table::ObjectTable;

/// What a trace of a heap counted, whoever made it.
pub trait HeapCounts {
    /// What was counted.
    ghost counts: { Self → CountTable };

    /// How many references to the object in a cell were counted.
    fn references(&self, cell: u32) -> u64
        requires { cell < (counts self.now).cells }
        ensures { result ≡ (counts self.now).references cell };

    /// How many objects of the type with this number are traced.
    fn instances(&self, kind: u32) -> u64
        requires { kind < length (counts self.now).instances }
        ensures { result ≡ slice_index (counts self.now).instances kind };

    /// For each cell whether it holds a traced object.
    fn kept(&self) -> &[bool]
        ensures { result.now ≡ (counts self.now).kept };
}

/// A heap, by its table and its roles, and what was counted in it.
#[derive(Drop)]
pub struct CountedHeap<'a, T> {
    /// The table.
    pub table: &'a ObjectTable,
    /// What is asserted of its objects.
    pub roles: &'a Roles,
    /// What was counted.
    pub counts: &'a T,
}
