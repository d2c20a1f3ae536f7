//! How an errand begins, is done and ends.
ghost use Rattle.std.specs.Prelude.{◌≡◌, true, false};

use crate::errand::Errand;
use crate::share::Share;
use std::snapshot::Snapshot;

impl<C: Share + Drop> Errand<C> {
    /// An errand that is not done.
    pub fn of(share: C) -> Errand<C>
        requires { C.can_work share }
        ensures { result ≡ record { is_done = false; start = share; share = share } }
    {
        let start = Snapshot::of(&share);
        Errand {
            share,
            is_done: false,
            start,
        }
    }

    /// The same errand, done.
    pub fn carried_out(self) -> Errand<C>
        requires { self.is_done ≡ false }
        ensures done { result.is_done ≡ true }
        ensures same { result.start ≡ self.start }
    {
        let Errand {
            mut share,
            is_done: _,
            start,
        } = self;
        share.work();
        Errand {
            share,
            is_done: true,
            start,
        }
    }

    /// The share of an errand that is done.
    pub fn ended(self) -> C
        requires { self.is_done ≡ true }
        ensures { C.worked self.start result }
    {
        let Errand {
            share,
            is_done: _,
            start: _,
        } = self;
        share
    }
}
