//! Programs that write one text.
ghost use Rattle.std.specs.Prelude.{◌≤◌};
ghost use Rattle.streams.specs.Streams.{Stream, stream_of};
ghost use Rattle.trace_run.specs.Outcome.{RefusesWords, WritesOnce, outside_of, sink_change};

use heap_base::Status;
use streams::{Sink, put_all};

/// Writes a text, and then answers this status.
pub fn write_once<K: Sink>(text: &[u8], status: Status, sink: &mut K) -> Status
    ensures writes { WritesOnce text.now status (sink_change (stream_of K.held K.faults sink.old) (stream_of K.held K.faults sink.new)) result }
    ensures later { K.faults sink.old ≤ K.faults sink.new }
{
    match put_all(sink, text) {
        Ok(()) => status,
        Err(_) => Status::WriteFault,
    }
}

/// Writes the usage line, where the words of a command line are refused.
pub fn refuse_words<K: Sink>(usage: &[u8], sink: &mut K) -> Status
    ensures { (source : Stream) →
        RefusesWords usage.now (outside_of source (stream_of K.held K.faults sink.old)) (outside_of source (stream_of K.held K.faults sink.new)) result }
{
    write_once(usage, Status::Usage, sink)
}
