use crate::parallel::piece::Piece;
use crate::parallel::seat::Seat;
use crossbeam_deque::Worker;
use heap_base::OutOfMemory;
use std::alloc::Global;
use std::thread::Threads;

/// The threads that read pieces, and the pieces that wait for them.
#[derive(Drop)]
pub struct Crew {
    alloc: Global,
    waiting: Worker<Piece>,
    room: usize,
    seats: Vec<Option<Seat>>,
}

impl Crew {
    /// A crew of so many threads, none of which is started, with room for so many pieces.
    pub fn make(alloc: Global, threads: usize, room: usize) -> Result<Crew, OutOfMemory> {
        let waiting = Worker::new_fifo(alloc, room)?;
        let mut seats = Vec::with_capacity(alloc, threads)?;
        for _ in 0..threads {
            seats.push(None)?;
        }
        Ok(Crew {
            alloc,
            waiting,
            room,
            seats,
        })
    }

    /// Starts the threads that aren't there, as far as there is memory for them.
    pub fn start<R: Threads>(&mut self, rt: &R) {
        for n in 0..self.seats.len() {
            self.seats[n] = match self.seats[n].take() {
                None => self.start_first(rt),
                Some(seat) if seat.has_ended() => seat.start_again(rt).ok(),
                there => there,
            };
        }
    }

    /// Lets a piece wait for a thread. Where it can't, it is dropped.
    pub fn offer(&mut self, piece: Piece) {
        let _ = self.waiting.push(piece);
    }

    /// The first of the pieces that wait.
    pub fn take_back(&mut self) -> Option<Piece> {
        self.waiting.pop()
    }

    /// A piece that a thread has read, if there is one.
    pub fn fetch(&self) -> Option<Piece> {
        for seat in self.seats.iter().flatten() {
            if let Some(piece) = seat.fetch() {
                return Some(piece);
            }
        }
        None
    }

    /// Ends the threads.
    pub fn end<R: Threads>(self, rt: &R) {
        let Crew { seats, .. } = self;
        for seat in seats.iter().flatten() {
            seat.stop();
        }
        for seat in seats.into_iter().flatten() {
            seat.join(rt);
        }
    }

    // A thread of a new helper, if there is memory for it.
    fn start_first<R: Threads>(&self, rt: &R) -> Option<Seat> {
        let waiting = self.waiting.stealer().ok()?;
        Seat::start(rt, self.alloc, waiting, self.room).ok()
    }
}
