//! The rule of a round's table. No value of a view is made.
use crate::errand::Errand;
use crate::share::Share;
use atomic_table::TableRule;
use std::marker::PhantomData;
use std::snapshot::Snapshot;

/// Whose seat it is, and what it has done.
pub enum Role {
    Nobody,
    Unsent,
    /// Whether it holds the worker's right.
    Sent(bool),
    Served,
    Fresh,
    AtWork,
    Ended,
}

/// What a seat knows: its role, and the share that the round is about, as it was at first.
pub struct View<C> {
    pub role: Role,
    pub start: C,
}

/// The rule. The key is the share.
pub struct Rounds<C> {
    of: PhantomData<C>,
}

impl<C: Share + Drop> TableRule<Option<Errand<C>>, View<C>, Snapshot<C>> for Rounds<C> {
    ghost use Rattle.parked_crew.specs.Rounds.{Turned, seen};
    ghost use Rattle.parked_crew.specs.declared.rule.Role.TheVariants.{Nobody};

    ghost holds = { λ key. Turned key.value };

    ghost first = { λ key. seen Nobody key.value };
}
