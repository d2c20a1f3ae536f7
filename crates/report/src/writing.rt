//! The lines of a collection, written piece by piece, so that a text of many verdicts never stands in memory as a whole.
ghost use Rattle.std.specs.Prelude.{◌≡◌, ◌≤◌, ◌++◌, ℕ, List, Option, Err, OnOk, OnErr};
ghost use Rattle.std.specs.List.{flat_map};
ghost use Rattle.std.specs.Io.KnownBytes.{Appends};
ghost use Rattle.streams.specs.Causes.{HasCause, Rose};
ghost use Rattle.streams.specs.Sinks.{AppendsPart};
ghost use Rattle.report.specs.Text.{collection_text, verdict_line};
ghost use Rattle.report.specs.Pieces.{IsWritten};
ghost use Rattle.report.specs.declared.writing.WriteError.{WriteError};
ghost use Rattle.report.specs.declared.writing.WriteError.TheVariants.{WriteFailed};

use crate::verdicts::{put_cleared, put_line, put_summary};
use graph_meaning::Collection;
use heap_base::OutOfMemory;
use std::alloc::Global;
use streams::{Failed, Sink, put_all};

/// Why a text was not written whole.
#[derive(Clone, Copy, Debug, PartialEq, Eq)]
pub enum WriteError {
    /// A write failed.
    WriteFailed,
    /// Memory for a piece of the text was not there.
    OutOfMemory,
}

impl From<Failed> for WriteError {
    ghost from_gives = { λ e r. r ≡ WriteError.WriteFailed };

    fn from(_failed: Failed) -> WriteError {
        WriteError::WriteFailed
    }
}

impl From<OutOfMemory> for WriteError {
    ghost from_gives = { λ e r. r ≡ WriteError.OutOfMemory };

    fn from(_refused: OutOfMemory) -> WriteError {
        WriteError::OutOfMemory
    }
}

// A piece with so many bytes or more is written, and the next one begins.
const FULL_PIECE: usize = 65_536;

// Writes the piece where it is full, and empties it.
fn write_if_full<K: Sink>(piece: &mut Vec<u8>, sink: &mut K) -> Result<(), Failed>
    ensures goes_on { OnOk result ((start : Option (List ℕ)) (text : List ℕ) → IsWritten start (K.held sink.old) piece.old.items text → IsWritten start (K.held sink.new) piece.new.items text) }
    ensures part { OnErr result (AppendsPart (K.held sink.old) (K.held sink.new) piece.old.items) }
    ensures cause { HasCause (K.faults sink.old) (K.faults sink.new) result }
{
    if piece.len() >= FULL_PIECE {
        put_all(sink, piece)?;
        piece.clear();
    }
    Ok(())
}

// Puts a line for each verdict behind the piece, and writes each piece that is full.
fn write_verdicts<K: Sink>(
    piece: &mut Vec<u8>,
    collection: &Collection,
    sink: &mut K,
) -> Result<(), WriteError>
    ensures verdicts { OnOk result ((start : Option (List ℕ)) (text : List ℕ) → IsWritten start (K.held sink.old) piece.old.items text →
        IsWritten start (K.held sink.new) piece.new.items (text ++ flat_map (verdict_line collection.now.number) collection.now.verdicts)) }
    ensures part { OnErr result ((start : Option (List ℕ)) (text : List ℕ) → IsWritten start (K.held sink.old) piece.old.items text →
        AppendsPart start (K.held sink.new) (text ++ flat_map (verdict_line collection.now.number) collection.now.verdicts)) }
    ensures later { K.faults sink.old ≤ K.faults sink.new }
    ensures failed { result ≡ Err WriteFailed → Rose (K.faults sink.old) (K.faults sink.new) }
{
    let verdicts = &collection.verdicts;
    for place in 0..verdicts.len() {
        put_line(piece, collection.number, verdicts.at(place))?;
        write_if_full(piece, sink)?;
    }
    Ok(())
}

/// Writes the lines of a collection in pieces of some 64 KiB. Where a write fails or memory runs out, a beginning of the
/// lines was appended, and no more is written.
#[tactic(auto, unfolding(crate::specs::Text::collection_text))]
pub fn write_collection<K: Sink>(
    alloc: Global,
    collection: &Collection,
    sink: &mut K,
) -> Result<(), WriteError>
    ensures whole { OnOk result (Appends (K.held sink.old) (K.held sink.new) (collection_text collection.now)) }
    ensures part { OnErr result (AppendsPart (K.held sink.old) (K.held sink.new) (collection_text collection.now)) }
    ensures later { K.faults sink.old ≤ K.faults sink.new }
    ensures failed { result ≡ Err WriteFailed → Rose (K.faults sink.old) (K.faults sink.new) }
{
    let mut piece = Vec::new(alloc);
    put_summary(&mut piece, collection)?;
    write_verdicts(&mut piece, collection, sink)?;
    put_cleared(&mut piece, collection)?;
    put_all(sink, &piece)?;
    Ok(())
}
