ghost use Rattle.std.specs.Prelude.{◌≡◌, ◌+◌, ◌-◌, ◌≤◌, ℕ, [], length, drop, slice_range, IfOk};
ghost use Rattle.streams.specs.Causes.{HasCause};
ghost use Rattle.trace_reader.specs.declared.reader.TheConstants.{MOST_AHEAD};
ghost use Rattle.trace_reader.specs.Windows.{ReadsInto, held_and_left};

use crate::reader::MOST_AHEAD;
use heap_base::{LONGEST_LINE, OutOfMemory};
use std::alloc::Global;
use std::marker::Model;
use streams::{Failed, Source};

// Each read is asked for at least this many bytes.
const LEAST_READ: usize = 64;

// Room for the longest front of a line that is held, and for a read of more than as much behind it.
const LEAST_CAPACITY: usize = 2 * LONGEST_LINE + LEAST_READ;

/// The bytes that were read and are still held, in a buffer whose size stays. Contracts see the list of them.
#[derive(Drop)]
pub struct Window {
    buffer: Vec<u8>,
    start: usize,
    end: usize,
}

impl Model for Window {
    ghost use Rattle.std.specs.Prelude.{◌≡◌, ◌≤◌, List, ℕ, vec_len, slice_range};
    ghost use Rattle.trace_reader.specs.declared.window.TheConstants.{LEAST_CAPACITY};

    ghost Value = { List ℕ };

    ghost view = { λ w. slice_range w.buffer.items w.start w.end };

    ghost invariant = { λ w. (w.start ≤ w.end) × (w.end ≤ vec_len w.buffer) × (LEAST_CAPACITY ≤ vec_len w.buffer) };
}

impl Window {
    /// A window that holds nothing, with so much more room than the longest line needs.
    pub fn make(alloc: Global, ahead: usize) -> Result<Window, OutOfMemory>
        requires { ahead ≤ MOST_AHEAD }
        ensures { IfOk result (λ window. window ≡ []) }
    {
        let buffer = vec![in alloc; 0u8; LEAST_CAPACITY + ahead]?;
        Ok(Window {
            buffer,
            start: 0,
            end: 0,
        })
    }

    /// The bytes that it holds.
    pub fn bytes(&self) -> &[u8]
        ensures { result.now ≡ self.now }
    {
        &self.buffer[self.start..self.end]
    }

    /// Gives up its first `n` bytes.
    pub fn skip(&mut self, n: usize)
        requires { n ≤ length self.old }
        ensures { self.new ≡ drop n self.old }
    {
        self.start += n;
    }

    /// Reads more bytes behind those that it holds, and answers how many. It moves the held bytes only where
    /// too little room is left behind them, so none is moved again and again.
    pub fn fill<S: Source>(&mut self, source: &mut S) -> Result<usize, Failed>
        requires { length self.old ≤ LONGEST_LINE }
        ensures reads { ReadsInto (held_and_left self.old (S.left source.old)) (held_and_left self.new (S.left source.new)) result }
        ensures cause { HasCause (S.faults source.old) (S.faults source.new) result }
    {
        let buffer = self.buffer.as_mut_slice();
        let held = self.end - self.start;
        self.start = make_room(buffer, self.start, self.end);
        self.end = self.start + held;
        let n = source.read(&mut buffer[self.end..])?;
        self.end += n;
        Ok(n)
    }
}

// Moves the bytes from `start` to `end` to the front, where too little room is left behind them. It answers
// where they start.
fn make_room(buffer: &mut [u8], start: usize, end: usize) -> usize
    requires order { start ≤ end }
    requires within { end ≤ length buffer.old }
    requires room { end - start + LEAST_READ ≤ length buffer.old }
    ensures room { result + (end - start) + LEAST_READ ≤ length buffer.new }
    ensures held { slice_range buffer.new result (result + (end - start)) ≡ slice_range buffer.old start end }
{
    if buffer.len() - end >= LEAST_READ {
        return start;
    }
    buffer.copy_within(start..end, 0);
    0
}
