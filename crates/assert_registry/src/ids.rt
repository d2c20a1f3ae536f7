//! Which objects are live, and where they stand.
ghost use Rattle.std.specs.Prelude.{◌≡◌, ◌<◌, IsTrue, Some, length};
ghost use Rattle.graph_meaning.specs.Heap.{is_live};
ghost use Rattle.object_table.specs.Placed.{id_in};

use heap_base::ObjId;
use object_table::ObjectTable;

/// Whether the object is live.
pub(crate) fn is_live(table: &ObjectTable, id: ObjId) -> bool
    ensures { result ≡ is_live table.now.table id }
{
    table.cell_of(id).is_some()
}

/// The cell of a live object.
pub(crate) fn live_cell(table: &ObjectTable, id: ObjId) -> u32
    requires { IsTrue (is_live table.now.table id) }
    ensures cell { id_in table.now result ≡ Some id }
    ensures below { result < length table.now.cells }
{
    match table.cell_of(id) {
        Some(cell) => cell,
        None => unreachable!(),
    }
}

/// Answers the same of objects whose ids rise from call to call, in less time.
#[derive(Drop)]
pub(crate) struct IdCursor {
    // among the objects by their ids
    place: usize,
}

impl IdCursor {
    /// A cursor at the first object.
    pub(crate) fn new() -> IdCursor {
        IdCursor { place: 0 }
    }

    /// Whether the object is live.
    pub(crate) fn is_live(&mut self, table: &ObjectTable, id: ObjId) -> bool
        ensures { result ≡ is_live table.now.table id }
    {
        table.cell_from(id, &mut self.place).is_some()
    }

    /// The cell of a live object.
    pub(crate) fn live_cell(&mut self, table: &ObjectTable, id: ObjId) -> u32
        requires { IsTrue (is_live table.now.table id) }
        ensures cell { id_in table.now result ≡ Some id }
        ensures below { result < length table.now.cells }
    {
        match table.cell_from(id, &mut self.place) {
            Some(cell) => cell,
            None => unreachable!(),
        }
    }
}
