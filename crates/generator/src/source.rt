ghost use Rattle.std.specs.Prelude.{◌≡◌, ◌<◌, ◌≤◌, ◌++◌, [], length, min, take, drop, Some, Ok, IfOk};
ghost use Rattle.std.specs.Io.KnownBytes.{ReadConsumes};
ghost use Rattle.streams.specs.Causes.{HasCause};
ghost use Rattle.generator.specs.Plans.{IsPlan};
ghost use Rattle.generator.specs.Text.{gen_text};

use crate::piece::Piece;
use crate::pieces::Pieces;
use crate::plan::GenPlan;
use heap_base::OutOfMemory;
use std::alloc::Global;
use std::marker::Model;
use streams::{Failed, Source};

/// A generated trace as a source, which tells the bytes that are left. No read fails, and each gives as many bytes as fit.
/// The text is made an object at a time, so the source stays small whatever the trace. Contracts see it as the bytes that
/// are left.
#[derive(Debug, Drop)]
pub struct GenSource {
    pieces: Pieces,
    piece: Piece,
    begin: usize,
}

impl Model for GenSource {
    ghost use Rattle.std.specs.Prelude.{◌≤◌, ◌++◌, List, ℕ, drop, length};

    ghost Value = { List ℕ };

    ghost view = { λ s. drop s.begin s.piece ++ s.pieces };

    ghost invariant = { λ s. s.begin ≤ length s.piece };
}

impl GenSource {
    /// The source of the trace with this number and size.
    pub fn make(alloc: Global, plan: GenPlan) -> Result<GenSource, OutOfMemory>
        requires { IsPlan plan }
        ensures left { IfOk result (λ s. s ≡ gen_text plan.number plan.size) }
    {
        let piece = Piece::make(alloc)?;
        Ok(GenSource {
            pieces: Pieces::of(plan),
            piece,
            begin: 0,
        })
    }

    // Gives bytes of the piece, or of the next one where this one is used up: none only at the end of the trace.
    fn give(&mut self, into: &mut [u8]) -> usize
        requires { 0 < length into.old }
        ensures some { result ≡ 0 → self.old ≡ [] }
        ensures bound { result ≤ length into.old }
        ensures within { result ≤ length self.old }
        ensures given { into.new ≡ take result self.old ++ drop result into.old }
        ensures rest { self.new ≡ drop result self.old }
    {
        if self.begin == self.piece.bytes().len() {
            self.pieces.make_next(&mut self.piece);
            self.begin = 0;
        }
        let left = &self.piece.bytes()[self.begin..];
        let n = into.len().min(left.len());
        into[..n].copy_from_slice(&left[..n]);
        self.begin += n;
        n
    }
}

impl Source for GenSource {
    ghost left = { λ s. Some s };

    ghost faults = { λ s. 0 };

    fn read(&mut self, into: &mut [u8]) -> Result<usize, Failed>
        requires { 0 < length into.old }
        ensures bound { IfOk result (λ n. n ≤ length into.old) }
        ensures bytes { ReadConsumes (Some self.old) (Some self.new) result into.new }
        ensures cause { HasCause 0 0 result }

        // No read fails, and each gives as many bytes as fit.
        ensures count { result ≡ Ok (min (length into.old) (length self.old)) }
        ensures given { into.new ≡ take (length into.old) self.old ++ drop (length self.old) into.old }
        ensures rest { self.new ≡ drop (length into.old) self.old }
    {
        let mut filled = 0;
        while filled < into.len() {
            let given = self.give(&mut into[filled..]);
            if given == 0 {
                return Ok(filled);
            }
            filled += given;
        }
        Ok(filled)
    }
}
