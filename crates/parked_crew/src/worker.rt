//! A worker of a crew, and the thread that it has.
use crate::round::{SentRound, Ticket};
use crate::share::Share;
use crossbeam_channel::{Receiver, Sender, bounded};
use heap_base::OutOfMemory;
use std::alloc::Global;
use std::sync::Wait;
use std::thread;
use std::thread::{JoinHandle, Threads};

/// A worker. Its thread sleeps while no round is there for it, and ends when the worker is dropped. Where it has no thread, each
/// ticket comes back to whoever hands it over.
#[derive(Drop)]
pub struct Worker<C: Share + Drop> {
    tickets: Sender<Ticket<C>, Global>,
    // A message for each round that its thread has ended, and none where one waits already.
    ended: Receiver<(), Global>,
    thread: Option<JoinHandle<()>>,
}

/// What the thread of a worker has: its ends of both channels.
#[derive(Drop)]
pub struct ThreadSide<C: Share + Drop> {
    tickets: Receiver<Ticket<C>, Global>,
    ended: Sender<(), Global>,
}

impl<C: Share + Drop> ThreadSide<C> {
    // Works off share after share, until no more can come.
    fn serve<R: Wait>(&self, rt: &R) {
        for _ in rt.forever() {
            let Ok(ticket) = self.tickets.recv(rt) else {
                return;
            };
            ticket.work();
            let _ = self.ended.try_send(rt, ());
        }
    }
}

impl<C: Share + Drop> Worker<C> {
    /// A worker without a thread.
    pub fn without_thread(alloc: Global) -> Result<Worker<C>, OutOfMemory> {
        let (tickets, _) = bounded(alloc, 1)?;
        let (_, ended) = bounded(alloc, 1)?;
        Ok(Worker {
            tickets,
            ended,
            thread: None,
        })
    }

    /// Hands a ticket to its thread. Where it has none, or where a thread does not pay, the ticket comes back.
    pub fn hand<R: Wait>(&self, rt: &R, ticket: Ticket<C>) -> Option<Ticket<C>> {
        if !ticket.is_for_a_thread {
            return Some(ticket);
        }
        match self.tickets.send(rt, ticket) {
            Ok(()) => None,
            Err(error) => Some(error.into_inner()),
        }
    }

    /// Waits until the share of a round is worked off.
    pub fn fetch<R: Wait>(&self, rt: &R, round: SentRound<C>) -> C
        ensures { C.worked round result }
    {
        let mut round = round;
        for _ in rt.forever() {
            match round.look() {
                Ok(share) => return share,
                Err(again) => round = again,
            }
            let _ = self.ended.recv(rt);
        }
        unreachable!()
    }

    /// Ends its thread.
    pub fn end<R: Threads>(self, rt: &R) {
        let Worker {
            tickets,
            ended,
            thread,
        } = self;
        drop(tickets);
        drop(ended);
        if let Some(thread) = thread {
            thread.join(rt);
        }
    }
}

impl<C: Share + Send + Drop + 'static> Worker<C> {
    /// A worker with a thread, where one can be started.
    pub fn start<R: Threads + Wait + Clone + Drop + Send + Sync + 'static>(
        rt: &R,
        alloc: Global,
    ) -> Result<Worker<C>, OutOfMemory> {
        let (tickets, for_thread) = bounded(alloc, 1)?;
        let (from_thread, ended) = bounded(alloc, 1)?;
        let mine = rt.clone()?;
        let side = ThreadSide {
            tickets: for_thread,
            ended: from_thread,
        };
        let thread = thread::spawn(rt, move || side.serve(&mine)).ok();
        Ok(Worker {
            tickets,
            ended,
            thread,
        })
    }
}
