//! What is due is written.
ghost use Rattle.std.specs.Prelude.{◌≡◌, ◌≤◌, Err, OnOk, OnErr};
ghost use Rattle.std.specs.Io.KnownBytes.{Appends};
ghost use Rattle.streams.specs.Causes.{Rose};
ghost use Rattle.streams.specs.Sinks.{AppendsPart};
ghost use Rattle.report.specs.declared.writing.WriteError.TheVariants.{WriteFailed};
ghost use Rattle.trace_run.specs.Program.{due_text};
ghost use Rattle.trace_run.specs.Turn.{status_of_error};

use crate::taken::Due;
use heap_base::Status;
use report::{WriteError, write_collection};
use std::alloc::Global;
use streams::{Sink, put_all};

/// Writes a text that is due. Where a write fails or memory runs out, a beginning of it was appended.
pub(crate) fn write_due<K: Sink>(alloc: Global, due: &Due, sink: &mut K) -> Result<(), WriteError>
    ensures whole { OnOk result (Appends (K.held sink.old) (K.held sink.new) (due_text due.now)) }
    ensures part { OnErr result (AppendsPart (K.held sink.old) (K.held sink.new) (due_text due.now)) }
    ensures later { K.faults sink.old ≤ K.faults sink.new }
    ensures failed { result ≡ Err WriteFailed → Rose (K.faults sink.old) (K.faults sink.new) }
{
    match due {
        Due::Text(text) => {
            put_all(sink, text)?;
            Ok(())
        }
        Due::Lines(collection) => write_collection(alloc, collection, sink),
    }
}

/// How a run ends where a text was not written whole.
pub(crate) fn failed(error: WriteError) -> Status
    ensures { result ≡ status_of_error error }
{
    match error {
        WriteError::WriteFailed => Status::WriteFault,
        WriteError::OutOfMemory => Status::NoMemory,
    }
}
