//! The trace that makes the heap of a snapshot.
ghost use Rattle.std.specs.Prelude.{◌≡◌, IfOk};
ghost use Rattle.streams.specs.Streams.{stream_of};
ghost use Rattle.trace_run.specs.Outcome.{outside_of};
ghost use Rattle.heap_snapshot.specs.ToTrace.{ConversionEndsAs, snapshot_status, text_of};

use crate::fault::snapshot_fault_text;
use crate::read::read_snapshot;
use crate::refusal::SnapError;
use crate::trace_of_heap::trace_text;
use crate::whole::{ReadStop, read_whole};
use heap_base::{OutOfMemory, Status};
use std::alloc::Global;
use streams::{Sink, Source};
use trace_run::write_once;

/// Writes the trace that makes the heap of a snapshot, or why the bytes are none.
pub(crate) fn to_trace<S: Source, K: Sink>(alloc: Global, source: &mut S, sink: &mut K) -> Status
    ensures { let old = outside_of (stream_of S.left S.faults source.old) (stream_of K.held K.faults sink.old) in
        let new = outside_of (stream_of S.left S.faults source.new) (stream_of K.held K.faults sink.new) in
        ConversionEndsAs old new result }
{
    let bytes = match read_whole(alloc, source) {
        Ok(bytes) => bytes,
        Err(ReadStop::Failed) => return Status::ReadFault,
        Err(ReadStop::OutOfMemory) => return Status::NoMemory,
    };
    match conversion_of(alloc, &bytes) {
        Ok((text, status)) => write_once(&text, status, sink),
        Err(_) => Status::NoMemory,
    }
}

// What there is to write for the bytes of a snapshot, and the status to answer.
fn conversion_of(alloc: Global, bytes: &[u8]) -> Result<(Vec<u8>, Status), OutOfMemory>
    ensures { IfOk result (λ found. (found.0.items ≡ text_of bytes.now) × (found.1 ≡ snapshot_status bytes.now)) }
{
    match read_snapshot(alloc, bytes) {
        Ok(view) => Ok((trace_text(alloc, &view)?, Status::Clean)),
        Err(SnapError::Refused { line, why }) => {
            Ok((snapshot_fault_text(alloc, line, why)?, Status::TraceFault))
        }
        Err(SnapError::OutOfMemory) => Err(OutOfMemory),
    }
}
