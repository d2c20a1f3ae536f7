ghost use Rattle.std.specs.Prelude.{◌≡◌, ◌≤◌, ◌<◌, ◌+◌, ℕ, List, length, take, drop, IfOk, MatchOption, None, Some};
ghost use Rattle.streams.specs.Streams.{stream_of};
ghost use Rattle.trace_reader.specs.Ahead.{GivesKnown};
ghost use Rattle.trace_reader.specs.Cuts.{IsFirstNewline};
ghost use Rattle.trace_reader.specs.Cutter.{fresh_cutter, StepsOn, with_source};
ghost use Rattle.trace_reader.specs.declared.reader.TheConstants.{MOST_AHEAD};

use crate::cut::Cut;
use crate::error::CutError;
use crate::held::Held;
use crate::reader::MOST_AHEAD;
use crate::window::Window;
use heap_base::{LONGEST_LINE, OutOfMemory};
use std::alloc::Global;
use std::marker::Model;
use streams::{Failed, Source};

/// Cuts a trace into lines, in whatever pieces its bytes are read.
#[derive(Drop)]
pub struct LineCutter {
    // The piece that was given last, and behind it the bytes of which no line was given.
    held: Held,
    piece_length: usize,
    line_length: usize,
    // So many bytes behind the piece are known to have no newline.
    searched: usize,
    limit: u64,
    given: u64,
    lines: u64,
    stopped: Option<CutError>,
}

impl Model for LineCutter {
    ghost use Rattle.std.specs.Prelude.{◌≤◌, take, drop};
    ghost use Rattle.trace_reader.specs.Cutter.{CutterState};
    ghost use Rattle.trace_reader.specs.Reads.{HoldsPiece};

    ghost Value = { CutterState };

    ghost view = { λ c. record { limit = c.limit; pending = drop c.piece_length c.held.window; at_end = c.held.at_end; given = c.given; lines = c.lines; line = take c.line_length c.held.window; stopped = c.stopped } };

    ghost invariant = { λ c. HoldsPiece c.held.window c.piece_length c.line_length c.searched × (c.given ≤ c.limit) × (c.lines ≤ c.given) };
}

impl LineCutter {
    /// A cutter for a trace of at most `limit` bytes.
    pub fn make(alloc: Global, limit: u64) -> Result<LineCutter, OutOfMemory>
        ensures { IfOk result (λ cutter. cutter ≡ fresh_cutter limit) }
    {
        LineCutter::with_ahead(alloc, limit, 0)
    }

    /// A cutter for a trace of at most `limit` bytes, whose reads may bring so many bytes more than those of others.
    pub fn with_ahead(alloc: Global, limit: u64, ahead: usize) -> Result<LineCutter, OutOfMemory>
        requires { ahead ≤ MOST_AHEAD }
        ensures { IfOk result (λ cutter. cutter ≡ fresh_cutter limit) }
    {
        let window = Window::make(alloc, ahead)?;
        Ok(LineCutter {
            held: Held {
                window,
                at_end: false,
            },
            piece_length: 0,
            line_length: 0,
            searched: 0,
            limit,
            given: 0,
            lines: 0,
            stopped: None,
        })
    }

    /// Cuts the next line, and answers its number, from 1. `Ok(None)` comes where the source's end was read
    /// and no line is left. It reads only where it holds no whole line.
    #[inline(always)]
    pub fn next<S: Source>(&mut self, source: &mut S) -> Result<Option<u64>, CutError>
        ensures { (took : List ℕ) × StepsOn (with_source self.old (stream_of S.left S.faults source.old)) (with_source self.new (stream_of S.left S.faults source.new)) result took }
    {
        if let Some(refusal) = self.stopped {
            return Err(refusal);
        }
        self.cut_next(source)
    }

    /// Cuts the next line, which is known to have so many bytes before its newline, and answers its number. It cuts none where the line is
    /// longer than one may be, or goes on past the last byte that the trace may have: `next` tells which.
    #[inline(always)]
    pub fn next_known(&mut self, bytes: usize) -> Option<u64>
        requires line { IsFirstNewline self.old.pending bytes }
        requires going { self.old.stopped ≡ None }
        ensures { MatchOption result (self.new ≡ self.old) (GivesKnown self.old self.new bytes) }
    {
        if bytes > LONGEST_LINE || bytes as u64 >= self.limit - self.given {
            return None;
        }
        Some(self.give(bytes, bytes + 1))
    }

    /// How many bytes the lines have that were given, with their newlines.
    pub fn given(&self) -> u64
        ensures { result ≡ self.now.given }
    {
        self.given
    }

    /// The bytes of the line that was given last, without its newline.
    pub fn line(&self) -> &[u8]
        ensures { result.now ≡ self.now.line }
    {
        &self.held.window.bytes()[..self.line_length]
    }

    /// The bytes behind that line, as far as they were read.
    pub fn behind(&self) -> &[u8]
        ensures { result.now ≡ self.now.pending }
    {
        &self.held.window.bytes()[self.piece_length..]
    }

    // The step of a cutter that stands at no refusal.
    #[inline(always)]
    fn cut_next<S: Source>(&mut self, source: &mut S) -> Result<Option<u64>, CutError>
        requires { self.old.stopped ≡ None }
        ensures { (took : List ℕ) × StepsOn (with_source self.old (stream_of S.left S.faults source.old)) (with_source self.new (stream_of S.left S.faults source.new)) result took }
    {
        self.held.window.skip(self.piece_length);
        self.piece_length = 0;
        self.line_length = 0;
        let allowed = self.limit - self.given;
        let settled = self.held.settle(source, self.searched, allowed);
        self.searched = 0;
        match settled {
            Ok(Cut::Line(n)) => Ok(Some(self.give(n, n + 1))),
            Ok(Cut::LastLine) => {
                let n = self.held.window.bytes().len();
                Ok(Some(self.give(n, n)))
            }
            Ok(Cut::End) => Ok(None),
            Ok(Cut::LineTooLong) => Err(self.stop(CutError::LineTooLong)),
            Ok(Cut::TraceTooLong) => Err(self.stop(CutError::TraceTooLong)),
            Err(Failed) => {
                self.searched = self.held.window.bytes().len();
                Err(CutError::ReadFault)
            }
        }
    }

    // Gives the next line, which has the first bytes of a piece, and answers its number.
    fn give(&mut self, line_length: usize, piece_length: usize) -> u64
        requires some { 0 < piece_length }
        requires line { line_length ≤ piece_length }
        requires held { piece_length ≤ length self.old.pending }
        requires within { self.old.given + piece_length ≤ self.old.limit }
        ensures gives { self.new ≡ record self.old { pending = drop piece_length self.old.pending; line = take line_length self.old.pending; given = self.old.given + piece_length; lines = self.old.lines + 1 } }
        ensures number { result ≡ self.old.lines + 1 }
    {
        self.held.window.skip(self.piece_length);
        self.piece_length = piece_length;
        self.line_length = line_length;
        self.searched = 0;
        self.given += piece_length as u64;
        self.lines += 1;
        self.lines
    }

    // Stays at this refusal.
    fn stop(&mut self, refusal: CutError) -> CutError
        ensures stopped { self.new ≡ record self.old { stopped = Some refusal } }
        ensures same { result ≡ refusal }
    {
        self.stopped = Some(refusal);
        refusal
    }
}
