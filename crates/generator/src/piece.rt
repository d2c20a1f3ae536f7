ghost use Rattle.std.specs.Prelude.{◌≡◌, ◌+◌, ◌≤◌, ◌++◌, [], length, decimal, IfOk};
ghost use Rattle.generator.specs.declared.piece.TheConstants.{PIECE_ROOM, NUMBER_ROOM};

use heap_base::OutOfMemory;
use itoa::Buffer;
use std::alloc::Global;
use std::marker::Model;

/// A piece has room for so many bytes: the lines of an object have fewer.
pub(crate) const PIECE_ROOM: usize = 512;

/// A number is printed in at most so many digits.
pub(crate) const NUMBER_ROOM: usize = 10;

/// A text within a fixed room, whose memory is taken once.
#[derive(Debug, Drop)]
pub(crate) struct Piece {
    bytes: Vec<u8>,
}

impl Model for Piece {
    ghost use Rattle.std.specs.Prelude.{List, ℕ, ◌≤◌, vec_capacity};
    ghost use Rattle.generator.specs.declared.piece.TheConstants.{PIECE_ROOM};

    ghost Value = { List ℕ };

    ghost view = { λ p. p.bytes.items };

    ghost invariant = { λ p. PIECE_ROOM ≤ vec_capacity p.bytes };
}

impl Piece {
    /// An empty piece.
    pub(crate) fn make(alloc: Global) -> Result<Piece, OutOfMemory>
        ensures { IfOk result (λ p. p ≡ []) }
    {
        let bytes = Vec::with_capacity(alloc, PIECE_ROOM)?;
        Ok(Piece { bytes })
    }

    pub(crate) fn bytes(&self) -> &[u8]
        ensures { result.now ≡ self.now }
    {
        self.bytes.as_slice()
    }

    pub(crate) fn clear(&mut self)
        ensures { self.new ≡ [] }
    {
        self.bytes.clear();
    }

    /// Appends these bytes.
    pub(crate) fn put(&mut self, bytes: &[u8])
        requires fits { length self.old + length bytes.now ≤ PIECE_ROOM }
        ensures { self.new ≡ self.old ++ bytes.now }
    {
        match self.bytes.extend_from_slice(bytes) {
            Ok(()) => {}
            Err(_) => unreachable!(),
        }
    }

    /// Appends a number in decimal.
    pub(crate) fn put_number(&mut self, number: u32)
        requires fits { length self.old + NUMBER_ROOM ≤ PIECE_ROOM }
        ensures text { self.new ≡ self.old ++ decimal number }
        ensures short { length self.new ≤ length self.old + NUMBER_ROOM }
    {
        let mut buffer = Buffer::new();
        self.put(buffer.format(number).as_bytes());
    }
}
