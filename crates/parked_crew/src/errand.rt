use crate::share::Share;
use std::marker::Model;
use std::snapshot::Snapshot;

/// A share, and whether it was worked off. Contracts see that, the share as it was before, and the share.
#[derive(Drop)]
pub struct Errand<C: Share + Drop> {
    pub share: C,
    pub is_done: bool,
    pub start: Snapshot<C>,
}

impl<C: Share + Drop> Model for Errand<C> {
    ghost use Rattle.parked_crew.specs.Errands.{Errand, IsKept};

    ghost Value = { Errand C };

    ghost view = { λ e. record { is_done = e.is_done; start = e.start.value; share = e.share } };

    ghost invariant = { λ e. IsKept C.can_work C.worked (record { is_done = e.is_done; start = e.start.value; share = e.share }) };
}
