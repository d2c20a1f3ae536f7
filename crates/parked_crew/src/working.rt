//! The worker's side: it takes the errand, does it and lays it back.
use crate::plays::{Finish, Take};
use crate::round::Ticket;
use crate::share::Share;

/// The phase of a round while its worker has the errand.
const AT_WORK: u64 = 2;

/// The phase of a round whose errand is done.
const DONE: u64 = 3;

impl<C: Share + Drop> Ticket<C> {
    /// Works the share off.
    pub fn work(self) {
        let Ticket {
            board,
            mut place,
            is_for_a_thread: _,
        } = self;
        board.shared.swap::<Take>(&mut place, 1, AT_WORK);
        let Some(errand) = board.shared.exchange(&mut place, 0, None) else {
            unreachable!()
        };
        let errand = errand.carried_out();
        board.shared.exchange(&mut place, 0, Some(errand));
        board.shared.swap::<Finish>(&mut place, 1, DONE);
    }
}
