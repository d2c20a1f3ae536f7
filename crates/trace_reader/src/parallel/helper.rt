use crate::line::LineReader;
use crate::parallel::piece::Piece;
use crossbeam_deque::{Steal, Stealer, Worker};
use heap_base::OutOfMemory;
use std::alloc::Global;
use std::sync::Arc;
use std::sync::atomic::{AtomicBool, Ordering};
use std::thread;

// A thread makes at most so many turns before it ends.
const MOST_TURNS: u32 = 1_000_000_000;

// It ends after so many idle turns in a row. They take a millisecond or two: about as long as the caller takes for the lines of a text
// when all of them were read ahead, before it has the next text.
const PATIENCE: u32 = 4_096;

/// What a thread and the one that started it tell each other. Nothing but time rests on it.
#[derive(Drop)]
pub struct Signals {
    /// Whether the thread is to end.
    pub stop: AtomicBool,
    /// Whether the thread has ended, but for its return.
    pub ended: AtomicBool,
}

impl Signals {
    /// Those of a thread that is to be started.
    pub fn make() -> Signals {
        Signals {
            stop: AtomicBool::new(false),
            ended: AtomicBool::new(false),
        }
    }
}

/// What a thread has that reads pieces: a way to those that wait to be read, and a place for those that it has read.
#[derive(Drop)]
pub struct Helper {
    reader: LineReader,
    waiting: Stealer<Piece>,
    read: Worker<Piece>,
    signals: Arc<Signals>,
}

impl Helper {
    /// A helper that has read nothing, with room for so many pieces.
    pub fn make(
        alloc: Global,
        waiting: Stealer<Piece>,
        signals: Arc<Signals>,
        room: usize,
    ) -> Result<Helper, OutOfMemory> {
        Ok(Helper {
            reader: LineReader::make(alloc),
            waiting,
            read: Worker::new_fifo(alloc, room)?,
            signals,
        })
    }

    /// A way to the pieces that it has read.
    pub fn read_pieces(&self) -> Result<Stealer<Piece>, OutOfMemory> {
        Ok(self.read.stealer()?)
    }

    /// Reads pieces until none has come for some time, or it is told to stop.
    pub fn work(mut self) -> Helper {
        let mut patience = PATIENCE;
        for _ in 0..MOST_TURNS {
            if self.signals.stop.load(Ordering::Relaxed) {
                break;
            }
            if self.turn() {
                patience = PATIENCE;
            } else if patience > 0 {
                patience -= 1;
                thread::yield_now();
            } else {
                break;
            }
        }
        self.signals.ended.store(true, Ordering::Release);
        self
    }

    // Reads a piece, if one waits, and answers whether one did.
    fn turn(&mut self) -> bool {
        let Steal::Success(mut piece) = self.waiting.steal() else {
            return false;
        };
        piece.read(&mut self.reader);
        let _ = self.read.push(piece);
        true
    }
}
