//! The bytes of a source that were read in pieces and are not compared yet.
ghost use Rattle.std.specs.Prelude.{◌≡◌, ◌≤◌, ◌==◌, [], ℕ, length, drop, IfOk, OnOk, OnErr};
ghost use Rattle.std.specs.Io.KnownBytes.{Consumes, IsAtEnd, Keeps};
ghost use Rattle.streams.specs.Causes.{HasCause};

use heap_base::OutOfMemory;
use std::alloc::Global;
use std::marker::Model;
use streams::{Failed, Source};

// So many bytes are read at a time.
const PIECE: usize = 65536;

/// The bytes that were read and not passed yet. Contracts see the list of them.
#[derive(Drop)]
pub(crate) struct Pending {
    start: usize,
    end: usize,
    buffer: Vec<u8>,
}

impl Model for Pending {
    ghost use Rattle.std.specs.Prelude.{◌≡◌, ◌≤◌, List, ℕ, vec_len, slice_range};
    ghost use Rattle.report_check.specs.declared.pending.TheConstants.{PIECE};

    ghost Value = { List ℕ };

    ghost view = { λ p. slice_range p.buffer.items p.start p.end };

    ghost invariant = { λ p. (p.start ≤ p.end) × (p.end ≤ vec_len p.buffer) × (vec_len p.buffer ≡ PIECE) };
}

impl Pending {
    /// Nothing was read.
    pub(crate) fn make(alloc: Global) -> Result<Pending, OutOfMemory>
        ensures { IfOk result (λ pending. pending ≡ []) }
    {
        let buffer = vec![in alloc; 0u8; PIECE]?;
        Ok(Pending {
            start: 0,
            end: 0,
            buffer,
        })
    }

    /// Whether there are none.
    pub(crate) fn is_empty(&self) -> bool
        ensures { result ≡ (length self.now == 0) }
    {
        self.start == self.end
    }

    /// Reads a piece in their place: none only at the end of the source.
    pub(crate) fn fill<B: Source>(&mut self, source: &mut B) -> Result<(), Failed>
        ensures read { OnOk result (Consumes (B.left source.old) (B.left source.new) self.new) }
        ensures at_end { OnOk result (self.new ≡ [] → IsAtEnd (B.left source.new)) }
        ensures failed { OnErr result ((self.new ≡ []) × Keeps (B.left source.old) (B.left source.new)) }
        ensures cause { HasCause (B.faults source.old) (B.faults source.new) result }
    {
        self.start = 0;
        self.end = 0;
        self.end = source.read(self.buffer.as_mut_slice())?;
        Ok(())
    }

    /// They.
    pub(crate) fn bytes(&self) -> &[u8]
        ensures { result.now ≡ self.now }
    {
        &self.buffer[self.start..self.end]
    }

    /// Passes over so many of them.
    pub(crate) fn pass(&mut self, count: usize)
        requires { count ≤ length self.old }
        ensures { self.new ≡ drop count self.old }
    {
        self.start += count;
    }
}
