//! What the definitions of the contracts say of one another. These functions do nothing; each is proved to have its law.
ghost use Rattle.heap_marking.specs.TracedCells.{PhasesTrace};
ghost use Rattle.heap_marking.specs.TracedHeaps.{CellsTraceHeaps};

/// What jobs gain by the three phases, one after another, traces the graph.
pub fn what_the_phases_gain_traces_the_graph()
    ensures { PhasesTrace }
{}

/// Where the graph of a table is traced by cells, so is the heap that the table and its roles stand for, by ids.
pub fn what_is_traced_by_cells_is_traced_by_ids()
    ensures { CellsTraceHeaps }
{}
