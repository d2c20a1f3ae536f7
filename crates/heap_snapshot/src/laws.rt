ghost use Rattle.heap_snapshot.specs.Laws.{WritesAtTheEnd};
ghost use Rattle.heap_snapshot.specs.HeapOfTrace.{RemakesHeap, TraceHasEvents, TraceIsShort};
ghost use Rattle.heap_snapshot.specs.Made.{ViewsAreLawful};
ghost use Rattle.heap_snapshot.specs.RoundTrips.{RoundTrips};

/// A snapshot of a trace is written at the trace's end alone: nothing is due before.
pub fn a_snapshot_is_written_at_the_end()
    ensures { WritesAtTheEnd }
{}

/// The trace of a snapshot is read, line by line, as the operations that its objects, slots and roots ask for.
pub fn a_trace_of_a_snapshot_has_its_operations()
    ensures { TraceHasEvents }
{}

/// The trace of a snapshot is no longer than a trace may be.
pub fn a_trace_of_a_snapshot_is_short()
    ensures { TraceIsShort }
{}

/// No line of the trace of a snapshot is refused, and the trace makes the snapshot's heap.
pub fn a_trace_of_a_snapshot_makes_its_heap()
    ensures { RemakesHeap }
{}

/// The view of each heap that allocations, stores and roots make is lawful.
pub fn the_view_of_a_made_heap_is_lawful()
    ensures { ViewsAreLawful }
{}

/// A trace of the snapshot of a trace has that snapshot again.
pub fn a_snapshot_comes_back_from_its_trace()
    ensures { RoundTrips }
{}
