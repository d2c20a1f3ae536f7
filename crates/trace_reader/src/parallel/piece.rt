use crate::line::LineReader;
use crate::lines_ahead::LinesAhead;
use heap_base::OutOfMemory;
use std::alloc::Global;

/// A piece of a trace: a copy of its bytes, and then its lines, which were read before their turn by whichever thread.
#[derive(Drop)]
pub struct Piece {
    number: u64,
    // its bytes until it is read, and then those of the piece that was there before
    text: Vec<u8>,
    // Those of the piece before stay until this one is read, so that whoever reads it lets their names go, and the caller needn't.
    lines: LinesAhead,
}

impl Piece {
    /// A piece without bytes.
    pub fn empty(alloc: Global) -> Piece {
        Piece {
            number: 0,
            text: Vec::new(alloc),
            lines: LinesAhead::none(alloc),
        }
    }

    /// Which piece it is: they are numbered in the order in which they were cut.
    pub fn number(&self) -> u64 {
        self.number
    }

    /// Takes the bytes of a piece with this number, to be read.
    pub fn fill(&mut self, number: u64, text: &[u8]) -> Result<(), OutOfMemory> {
        self.number = number;
        self.text.clear();
        Ok(self.text.extend_from_slice(text)?)
    }

    /// Reads its lines. When out of memory, it has the first of them or none.
    pub fn read(&mut self, reader: &mut LineReader) {
        self.lines.read(&mut self.text, reader);
    }

    /// Its lines, when it was read.
    pub fn lines(&self) -> &LinesAhead {
        &self.lines
    }
}
