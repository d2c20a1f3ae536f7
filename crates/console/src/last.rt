/// So many of the last bytes are remembered.
const REMEMBERED: usize = 16;

/// The last bytes that were written.
#[derive(Clone, Copy, Drop)]
pub struct LastBytes {
    ring: [u8; REMEMBERED],
    // how many bytes were put, modulo 2^64
    count: usize,
}

impl LastBytes {
    pub(crate) fn none() -> LastBytes {
        LastBytes {
            ring: [0; REMEMBERED],
            count: 0,
        }
    }

    /// Remembers the end of a piece.
    pub(crate) fn put(&mut self, piece: &[u8]) {
        let first = piece.len().saturating_sub(REMEMBERED);
        for byte in &piece[first..] {
            self.ring[self.count % REMEMBERED] = *byte;
            self.count = self.count.wrapping_add(1);
        }
    }

    /// Whether the last bytes are this text, of at most 16 bytes.
    pub(crate) fn are(&self, text: &str) -> bool {
        let bytes = text.as_bytes();
        let first = self.count.wrapping_sub(bytes.len());
        bytes.iter().enumerate().all(|(at, byte)| self.ring[first.wrapping_add(at) % REMEMBERED]
            == *byte)
    }
}
