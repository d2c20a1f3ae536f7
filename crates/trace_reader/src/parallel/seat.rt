use crate::parallel::helper::{Helper, Signals};
use crate::parallel::piece::Piece;
use crossbeam_deque::{Steal, Stealer};
use heap_base::OutOfMemory;
use std::alloc::Global;
use std::sync::Arc;
use std::sync::atomic::Ordering;
use std::thread;
use std::thread::{JoinHandle, Threads};

/// A helper's thread, seen from the thread that started it.
#[derive(Drop)]
pub struct Seat {
    read: Stealer<Piece>,
    signals: Arc<Signals>,
    thread: JoinHandle<Helper>,
}

impl Seat {
    /// Starts the thread of a new helper, if there is memory for it.
    pub fn start<R: Threads>(
        rt: &R,
        alloc: Global,
        waiting: Stealer<Piece>,
        room: usize,
    ) -> Result<Seat, OutOfMemory> {
        let signals = Arc::new(alloc, Signals::make())?;
        let helper = Helper::make(alloc, waiting, Arc::try_clone(&signals)?, room)?;
        let read = helper.read_pieces()?;
        Seat::with_thread(rt, read, signals, helper)
    }

    /// Whether its thread has ended, so that it needn't be waited for.
    pub fn has_ended(&self) -> bool {
        self.signals.ended.load(Ordering::Acquire)
    }

    /// Starts the thread, which has ended, again, if there is memory for it.
    pub fn start_again<R: Threads>(self, rt: &R) -> Result<Seat, OutOfMemory> {
        let Seat {
            read,
            signals,
            thread,
        } = self;
        let helper = thread.join(rt);
        signals.ended.store(false, Ordering::Relaxed);
        Seat::with_thread(rt, read, signals, helper)
    }

    /// A piece that the helper has read, if there is one.
    pub fn fetch(&self) -> Option<Piece> {
        match self.read.steal() {
            Steal::Success(piece) => Some(piece),
            Steal::Empty | Steal::Retry => None,
        }
    }

    /// Tells the thread to end.
    pub fn stop(&self) {
        self.signals.stop.store(true, Ordering::Relaxed);
    }

    /// Waits until the thread has ended.
    pub fn join<R: Threads>(self, rt: &R) {
        self.thread.join(rt);
    }

    // Starts the thread of this helper.
    fn with_thread<R: Threads>(
        rt: &R,
        read: Stealer<Piece>,
        signals: Arc<Signals>,
        helper: Helper,
    ) -> Result<Seat, OutOfMemory> {
        match thread::spawn(rt, move || helper.work()) {
            Ok(thread) => Ok(Seat {
                read,
                signals,
                thread,
            }),
            Err(_) => Err(OutOfMemory),
        }
    }
}
