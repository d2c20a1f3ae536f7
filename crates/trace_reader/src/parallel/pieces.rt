use crate::parallel::piece::Piece;
use crate::reader::Ahead;
use heap_base::OutOfMemory;
use std::alloc::Global;

// A piece of a text, and the copy of it whose lines were read, where that has come.
#[derive(Drop)]
struct Cut {
    length: usize,
    read: Option<Piece>,
}

/// The pieces into which a text was cut that stands ahead, in order, and the place in them at which the next line begins.
#[derive(Drop)]
pub struct Pieces {
    alloc: Global,
    cuts: Vec<Cut>,
    // the number of the first of these pieces
    first: u64,
    // the piece in which the next line begins, and the place there
    next: usize,
    place: usize,
    // pieces whose memory can be used again
    spare: Vec<Piece>,
}

impl Pieces {
    /// No pieces.
    pub fn none(alloc: Global) -> Pieces {
        Pieces {
            alloc,
            cuts: Vec::new(alloc),
            first: 0,
            next: 0,
            place: 0,
            spare: Vec::new(alloc),
        }
    }

    /// Whether the next line stands in none of them.
    pub fn is_over(&self) -> bool {
        self.next >= self.cuts.len()
    }

    /// How many pieces there are.
    pub fn count(&self) -> usize {
        self.cuts.len()
    }

    /// Forgets the pieces: those that are cut from now on are of another text.
    pub fn clear(&mut self) {
        self.first = self.first.wrapping_add(self.cuts.len() as u64);
        self.cuts.clear();
        self.next = 0;
        self.place = 0;
    }

    /// Cuts a piece with this text behind the others, and answers a copy of it, to be read.
    pub fn cut(&mut self, text: &[u8]) -> Result<Piece, OutOfMemory> {
        let mut piece = match self.spare.pop() {
            Some(piece) => piece,
            None => Piece::empty(self.alloc),
        };
        let number = self.first.wrapping_add(self.cuts.len() as u64);
        piece.fill(number, text)?;
        let cut = Cut {
            length: text.len(),
            read: None,
        };
        self.cuts.push(cut)?;
        Ok(piece)
    }

    /// Puts a piece back that was read. One that was passed meanwhile is of no use but for its memory.
    pub fn put(&mut self, piece: Piece) {
        let n = piece.number().wrapping_sub(self.first);
        if n >= self.next as u64 && n < self.cuts.len() as u64 {
            self.cuts[n as usize].read = Some(piece);
        } else {
            let _ = self.spare.push(piece);
        }
    }

    /// Whether the piece in which the next line begins was read.
    pub fn is_read(&self) -> bool {
        match self.cuts.get(self.next) {
            Some(cut) => cut.read.is_some(),
            None => false,
        }
    }

    /// The lines of the piece in which the next line begins, if that was read, and where in it that is.
    pub fn lines(&self) -> Option<Ahead<'_>> {
        let piece = self.cuts.get(self.next)?.read.as_ref()?;
        Some(Ahead {
            lines: piece.lines(),
            place: self.place,
        })
    }

    /// Passes the next bytes of the text, which are those of whole lines of one piece.
    pub fn pass(&mut self, bytes: usize) {
        let Some(cut) = self.cuts.get(self.next) else {
            return;
        };
        self.place = self.place.saturating_add(bytes);
        // each piece ends with a line
        if self.place >= cut.length {
            self.pass_piece();
        }
    }

    // Goes on to the next piece. Never inlined: some hundred lines are passed for each piece.
    #[inline(never)]
    fn pass_piece(&mut self) {
        let Some(cut) = self.cuts.get_mut(self.next) else {
            return;
        };
        if let Some(piece) = cut.read.take() {
            let _ = self.spare.push(piece);
        }
        self.next += 1;
        self.place = 0;
    }
}
