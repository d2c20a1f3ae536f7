//! A round: its table, and the seats of the caller and the worker.
ghost use Rattle.std.specs.Arc.{arc_value};
ghost use Rattle.parked_crew.specs.declared.rule.Role.TheVariants as Roles;
ghost use Rattle.parked_crew.specs.Seats.{IsSeatOf, IsBare};

use crate::errand::Errand;
use crate::rule::{Rounds, View};
use crate::share::Share;
use atomic_table::{Seat, Table};
use std::alloc::Global;
use std::marker::Model;
use std::snapshot::Snapshot;
use std::sync::Arc;

/// The table of one round.
pub type Board<C> = Table<Option<Errand<C>>, View<C>, Snapshot<C>, Rounds<C>, Global>;

/// A seat at the table of a round.
pub type Place<C> = Seat<Option<Errand<C>>, View<C>>;

/// A round that was not sent yet. Contracts see its share.
#[derive(Drop)]
pub struct ReadyRound<C: Share + Drop> {
    pub(crate) board: Arc<Board<C>>,
    pub(crate) for_worker: Arc<Board<C>>,
    pub(crate) place: Place<C>,
    pub(crate) is_for_a_thread: bool,
}

impl<C: Share + Drop> Model for ReadyRound<C> {
    ghost use Rattle.std.specs.Prelude.{◌≡◌};
    ghost use Rattle.std.specs.Arc.{arc_value};
    ghost use Rattle.parked_crew.specs.Seats.{share_at, IsSeatOf, IsReady};

    ghost Value = { C };

    ghost view = { λ r. share_at r.place };

    ghost invariant = { λ r. IsSeatOf (arc_value r.board).shared.table_id r.place × (arc_value r.for_worker ≡ arc_value r.board) × IsReady r.place };
}

/// The caller's side of a round that was sent. Contracts see its share as it was when it was sent.
#[derive(Drop)]
pub struct SentRound<C: Share + Drop> {
    pub(crate) board: Arc<Board<C>>,
    pub(crate) place: Place<C>,
}

impl<C: Share + Drop> Model for SentRound<C> {
    ghost use Rattle.std.specs.Prelude.{false};
    ghost use Rattle.std.specs.Arc.{arc_value};
    ghost use Rattle.parked_crew.specs.declared.rule.Role.TheVariants as Roles;
    ghost use Rattle.parked_crew.specs.Seats.{share_at, IsSeatOf, IsBare};

    ghost Value = { C };

    ghost view = { λ r. share_at r.place };

    ghost invariant = { λ r. IsSeatOf (arc_value r.board).shared.table_id r.place × IsBare (Roles.Sent false) r.place };
}

/// The worker's side of a round that was sent.
#[derive(Drop)]
pub struct Ticket<C: Share + Drop> {
    pub(crate) board: Arc<Board<C>>,
    pub(crate) place: Place<C>,
    /// Whether it pays to have a thread of its own work the share off.
    pub(crate) is_for_a_thread: bool,
    ghost seated: { IsSeatOf (arc_value board).shared.table_id place },
    ghost fresh: { IsBare Roles.Fresh place },
}
