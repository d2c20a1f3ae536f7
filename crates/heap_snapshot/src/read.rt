//! Reads a snapshot.
ghost use Rattle.std.specs.Prelude.{◌≡◌, ◌+◌, ◌<◌, ◌≤◌, length, drop, AllPairs, MatchOption, OnOk, IfErr};
ghost use Rattle.heap_base.specs.declared.limits.TheConstants.{USUAL_OBJECTS};
ghost use Rattle.trace_reader.specs.Cuts.{HasNoNewline, IsFirstNewline};
ghost use Rattle.heap_snapshot.specs.Reading.{Fails, Reads, line_behind, meaning_of, snapshot_in, unless_dangling, view_read};
ghost use Rattle.heap_snapshot.specs.Table.{nothing_read};
ghost use Rattle.heap_snapshot.specs.Dangling.{first_dangling, object_ids};

use crate::assembly::Assembly;
use crate::dangling::without_dangling;
use crate::refusal::{SnapError, SnapWhy};
use graph_meaning::HeapView;
use memchr::memchr;
use std::alloc::Global;

/// A snapshot has at most so many bytes: 2^28.
pub const LONGEST_SNAPSHOT: usize = 268_435_456;

/// The view that the bytes of a snapshot stand for. It refuses, in this order, more bytes than a snapshot may have
/// (`TooLong`), a line that says nothing that may stand there (`BadLine`), an end that is missing (`Unended`), and an id
/// that no object has (`Dangling`).
#[tactic(auto, unfolding(crate::specs::Reading::snapshot_in))]
pub fn read_snapshot(alloc: Global, bytes: &[u8]) -> Result<HeapView, SnapError>
    ensures { Reads result (snapshot_in bytes.now) }
{
    if bytes.len() > LONGEST_SNAPSHOT {
        return Err(SnapError::Refused {
            line: line_behind(&bytes[..LONGEST_SNAPSHOT]),
            why: SnapWhy::TooLong,
        });
    }
    read_lines(alloc, bytes)
}

// The number of the line behind these bytes.
fn line_behind(bytes: &[u8]) -> u64
    requires { length bytes.now ≤ LONGEST_SNAPSHOT }
    ensures { result ≡ line_behind bytes.now }
{
    bytes.iter().filter(|byte| **byte == b'\n').count() as u64 + 1
}

fn read_lines(alloc: Global, bytes: &[u8]) -> Result<HeapView, SnapError>
    requires { length bytes.now ≤ LONGEST_SNAPSHOT }
    ensures { Reads result (meaning_of bytes.now) }
{
    let mut assembly = Assembly::make(alloc)?;
    take_lines(&mut assembly, bytes)?;
    without_dangling(alloc, assembly.into_view())
}

// Takes all lines, the last of which is the end.
fn take_lines(assembly: &mut Assembly, bytes: &[u8]) -> Result<(), SnapError>
    requires few { length bytes.now ≤ LONGEST_SNAPSHOT }
    requires nothing { assembly.old ≡ nothing_read }
    ensures meaning { OnOk result (meaning_of bytes.now ≡ unless_dangling (view_read assembly.new) (first_dangling (view_read assembly.new))) }
    ensures few { OnOk result (length assembly.new.objects ≤ USUAL_OBJECTS) }
    ensures rising { OnOk result (AllPairs (λ x y. x < y) (object_ids assembly.new.objects)) }
    ensures fails { IfErr result (λ error. Fails error (meaning_of bytes.now)) }
{
    let mut rest = bytes;
    let mut lines = 0;
    while let Some(n) = first_newline(rest) {
        lines += 1;
        if !assembly.take(&rest[..n])? {
            return Err(SnapError::Refused {
                line: lines,
                why: SnapWhy::BadLine,
            });
        }
        rest = behind(rest, n);
    }
    if !rest.is_empty() || !assembly.is_ended() {
        return Err(SnapError::Refused {
            line: lines + 1,
            why: SnapWhy::Unended,
        });
    }
    Ok(())
}

// What stands behind the byte at this place.
fn behind(bytes: &[u8], place: usize) -> &[u8]
    requires { place < length bytes.now }
    ensures { result.now ≡ drop (place + 1) bytes.now }
{
    &bytes[place + 1..]
}

fn first_newline(bytes: &[u8]) -> Option<usize>
    ensures { MatchOption result (HasNoNewline bytes.now) (IsFirstNewline bytes.now) }
{
    memchr(b'\n', bytes)
}
