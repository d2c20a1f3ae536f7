//! What each step on a round's table tells.
ghost use Rattle.parked_crew.specs.Rounds.{Opens, Sends, Takes, Finishes, Looks, without_right, the_worker};

use crate::errand::Errand;
use crate::rule::View;
use crate::share::Share;
use atomic_table::{Play, Split};

/// The first seat becomes the caller's.
pub struct Open;

impl<C: Share + Drop> Play<Option<Errand<C>>, View<C>> for Open {
    ghost then = { Opens };
}

/// The caller lays the errand into the slot.
pub struct Send;

impl<C: Share + Drop> Play<Option<Errand<C>>, View<C>> for Send {
    ghost then = { Sends };
}

/// The worker takes the errand.
pub struct Take;

impl<C: Share + Drop> Play<Option<Errand<C>>, View<C>> for Take {
    ghost then = { Takes };
}

/// The worker lays the errand back, done.
pub struct Finish;

impl<C: Share + Drop> Play<Option<Errand<C>>, View<C>> for Finish {
    ghost then = { Finishes };
}

/// The caller takes the errand where it is done.
pub struct Look;

impl<C: Share + Drop> Play<Option<Errand<C>>, View<C>> for Look {
    ghost then = { Looks };
}

/// The worker's right goes to a seat of its own.
pub struct Hire;

impl<C> Split<View<C>> for Hire {
    ghost left = { without_right };

    ghost right = { the_worker };
}
