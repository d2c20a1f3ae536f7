//! A round of all workers of a crew.
ghost use Rattle.std.specs.Prelude.{◌≡◌, ◌≤◌, length, IfOk, vec_len, vec_capacity};
ghost use Rattle.std.specs.List.{All, AllZip};

use crate::round::{ReadyRound, SentRound, Ticket};
use crate::share::Share;
use crate::worker::Worker;
use heap_base::OutOfMemory;
use std::alloc::Global;
use std::sync::Wait;

/// A round for each share. None is sent.
pub fn make_all<C: Share + Drop>(
    alloc: Global,
    shares: Vec<C>,
) -> Result<Vec<ReadyRound<C>>, OutOfMemory>
    requires { All C.can_work shares.items }
    ensures { IfOk result (λ rounds. rounds.items ≡ shares.items) }
{
    let mut rounds = Vec::with_capacity(alloc, shares.len())?;
    for share in shares {
        rounds.push(ReadyRound::make(alloc, share)?)?;
    }
    Ok(rounds)
}

/// Both sides of rounds that were sent: the callers', and those of the shares that no thread works off.
#[derive(Drop)]
pub struct Sent<C: Share + Drop> {
    pub rounds: Vec<SentRound<C>>,
    pub left: Vec<Ticket<C>>,
}

impl<C: Share + Drop> Sent<C> {
    /// Nothing was sent, with room for so many rounds.
    pub fn none(alloc: Global, room: usize) -> Result<Sent<C>, OutOfMemory>
        ensures none { IfOk result (λ s. (vec_len s.rounds ≡ 0) × (vec_len s.left ≡ 0)) }
        ensures room { IfOk result (λ s. (room ≤ vec_capacity s.rounds) × (room ≤ vec_capacity s.left)) }
    {
        Ok(Sent {
            rounds: Vec::with_capacity(alloc, room)?,
            left: Vec::with_capacity(alloc, room)?,
        })
    }

    /// Sends each round to its worker.
    pub fn send_all<R: Wait>(&mut self, rt: &R, workers: &[Worker<C>], rounds: Vec<ReadyRound<C>>)
        requires workers { vec_len rounds ≡ length workers.now }
        requires none { (vec_len self.old.rounds ≡ 0) × (vec_len self.old.left ≡ 0) }
        requires room { (vec_len rounds ≤ vec_capacity self.old.rounds) × (vec_len rounds ≤ vec_capacity self.old.left) }
        ensures { self.new.rounds.items ≡ rounds.items }
    {
        for round in rounds {
            let (caller, ticket) = round.send();
            if let Some(ticket) = workers[self.rounds.len()].hand(rt, ticket) {
                self.left.push_reserved(ticket);
            }
            self.rounds.push_reserved(caller);
        }
    }
}

/// Works off what no thread does.
pub fn work_all<C: Share + Drop>(tickets: Vec<Ticket<C>>) {
    for ticket in tickets {
        ticket.work();
    }
}

/// Waits for the end of each round.
pub fn fetch_all<R: Wait, C: Share + Drop>(
    rt: &R,
    workers: &[Worker<C>],
    rounds: Vec<SentRound<C>>,
    mut shares: Vec<C>,
) -> Vec<C>
    requires workers { vec_len rounds ≡ length workers.now }
    requires none { vec_len shares ≡ 0 }
    requires room { vec_len rounds ≤ vec_capacity shares }
    ensures { AllZip C.worked rounds.items result.items }
{
    for round in rounds {
        let share = workers[shares.len()].fetch(rt, round);
        shares.push_reserved(share);
    }
    shares
}
