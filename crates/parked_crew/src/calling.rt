//! The caller's side: a round is made, sent and looked at.
ghost use Rattle.std.specs.Prelude.{◌≡◌, IfOk, MatchResult};

use crate::errand::Errand;
use crate::plays::{Hire, Look, Open, Send};
use crate::round::{Board, ReadyRound, SentRound, Ticket};
use crate::share::Share;
use heap_base::OutOfMemory;
use std::alloc::Global;
use std::snapshot::Snapshot;
use std::sync::Arc;

/// The phase of a round that was sent.
const SENT: u64 = 1;

/// The phase of a round whose errand is done.
const DONE: u64 = 3;

impl<C: Share + Drop> ReadyRound<C> {
    /// A round about this share. When out of memory the share is dropped.
    pub fn make(alloc: Global, share: C) -> Result<ReadyRound<C>, OutOfMemory>
        requires { C.can_work share }
        ensures { IfOk result (λ r. r ≡ share) }
    {
        let is_for_a_thread = share.is_for_a_thread();
        let start = Snapshot::of(&share);
        let errand = Errand::of(share);
        let (table, mut place) = Board::vacant(alloc, &[0, 0], 1, &start)?;
        // A table that was just made is open to its first seat: that it is not can't be seen from here.
        if table.shared.swap::<Open>(&mut place, 0, 1) != 0 {
            return Err(OutOfMemory);
        }
        table.shared.exchange(&mut place, 0, Some(errand));
        let board = Arc::new(alloc, table)?;
        let for_worker = Arc::try_clone(&board)?;
        Ok(ReadyRound {
            board,
            for_worker,
            place,
            is_for_a_thread,
        })
    }

    /// Sends the share. Whoever has the ticket can work it off.
    pub fn send(self) -> (SentRound<C>, Ticket<C>)
        ensures { result.0 ≡ self }
    {
        let ReadyRound {
            board,
            for_worker,
            mut place,
            is_for_a_thread,
        } = self;
        board.shared.swap::<Send>(&mut place, 1, SENT);
        let seat = board.shared.split_seat::<Hire>(&mut place);
        (
            SentRound { board, place },
            Ticket {
                board: for_worker,
                place: seat,
                is_for_a_thread,
            },
        )
    }
}

impl<C: Share + Drop> SentRound<C> {
    /// The share, where it was worked off, and else the round again.
    pub fn look(self) -> Result<C, SentRound<C>>
        ensures { MatchResult result (C.worked self) (λ r. r ≡ self) }
    {
        let SentRound { board, mut place } = self;
        if board.shared.load::<Look>(&mut place, 1) != DONE {
            return Err(SentRound { board, place });
        }
        let Some(errand) = board.shared.exchange(&mut place, 0, None) else {
            unreachable!()
        };
        Ok(errand.ended())
    }
}
