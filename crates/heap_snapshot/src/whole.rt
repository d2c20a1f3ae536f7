//! Reads a source whole.
ghost use Rattle.std.specs.Prelude.{◌≤◌, ◌<◌, ◌≡◌, ℕ, List, [], length, Err, IfOk, OnOk};
ghost use Rattle.trace_reader.specs.Windows.{Adds, held_and_left};
ghost use Rattle.streams.specs.Causes.{Rose};
ghost use Rattle.heap_snapshot.specs.ToTrace.{IsRead};

use crate::read::LONGEST_SNAPSHOT;
use heap_base::OutOfMemory;
use std::alloc::Global;
use streams::Source;

/// So many bytes are asked for at a time.
const PIECE: usize = 65_536;

/// Why a source was not read whole.
#[derive(Clone, Copy, Debug, PartialEq, Eq)]
pub(crate) enum ReadStop {
    Failed,
    OutOfMemory,
}

/// All the bytes that a source has left, or more than a snapshot may have.
pub(crate) fn read_whole<S: Source>(alloc: Global, source: &mut S) -> Result<Vec<u8>, ReadStop>
    ensures read { IfOk result (λ text. IsRead (S.left source.old) (S.left source.new) text.items) }
    ensures later { S.faults source.old ≤ S.faults source.new }
    ensures failed { result ≡ Err ReadStop.Failed → Rose (S.faults source.old) (S.faults source.new) }
{
    let Ok(mut piece) = vec![in alloc; 0u8; PIECE] else {
        return Err(ReadStop::OutOfMemory);
    };
    let mut text = Vec::new(alloc);
    match read_rest(source, &mut piece, &mut text) {
        Ok(()) => Ok(text),
        Err(stop) => Err(stop),
    }
}

// Reads by the piece, to the end or past what a snapshot may have.
fn read_rest<S: Source>(
    source: &mut S,
    piece: &mut [u8],
    text: &mut Vec<u8>,
) -> Result<(), ReadStop>
    requires some { 0 < length piece.old }
    requires empty { text.old.items ≡ [] }
    ensures read { OnOk result (IsRead (S.left source.old) (S.left source.new) text.new.items) }
    ensures later { S.faults source.old ≤ S.faults source.new }
    ensures failed { result ≡ Err ReadStop.Failed → Rose (S.faults source.old) (S.faults source.new) }
{
    while text.len() <= LONGEST_SNAPSHOT {
        match read_piece(source, piece, text) {
            Ok(0) => return Ok(()),
            Ok(_) => {}
            Err(stop) => return Err(stop),
        }
    }
    Ok(())
}

// Reads once, and answers how many bytes were put behind the text: none only at the end.
fn read_piece<S: Source>(
    source: &mut S,
    piece: &mut [u8],
    text: &mut Vec<u8>,
) -> Result<usize, ReadStop>
    requires some { 0 < length piece.old }
    ensures read { IfOk result (λ count. (took : List ℕ) × Adds (held_and_left text.old.items (S.left source.old)) (held_and_left text.new.items (S.left source.new)) count took) }
    ensures later { S.faults source.old ≤ S.faults source.new }
    ensures failed { result ≡ Err ReadStop.Failed → Rose (S.faults source.old) (S.faults source.new) }
{
    match source.read(piece) {
        Ok(count) => match text.extend_from_slice(&piece[..count]) {
            Ok(()) => Ok(count),
            Err(_) => Err(ReadStop::OutOfMemory),
        },
        Err(_) => Err(ReadStop::Failed),
    }
}
