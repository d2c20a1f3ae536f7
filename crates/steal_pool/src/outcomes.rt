//! What each step on a deque does to the hand that makes it.
ghost use Rattle.std.specs.Prelude.{ℕ, List};
ghost use Rattle.steal_pool.specs.declared.task.Task.{Task};
ghost use Rattle.steal_pool.specs.Hands.{spent_hand};
ghost use Rattle.steal_pool.specs.Steps.{Puts, Takes, IsEmptied, HasSettled, renewed_hand, one_less, lent_hand, joined_hand};

use crate::hand::Hand;
use crate::task::Task;
use crossbeam_deque::protocol::{Join, Lesson, Outcome, Split};
use std::marker::{Brand, PhantomData};

/// The terms of a run, which each call picks.
pub trait Terms {
    ghost fit: { List Task };

    ghost bound: { ℕ };
}

impl Terms for Brand {
    ghost use Rattle.std.specs.Prelude.{[]};

    ghost fit = { [] };

    ghost bound = { 0 };
}

/// Sets the terms of the next run. The other hand that a split makes has nothing.
pub(crate) struct Renew<B> {
    terms: PhantomData<B>,
}

impl<B: Terms> Split<Hand> for Renew<B> {
    ghost left = { λ _. renewed_hand B.fit B.bound };

    ghost right = { λ _. spent_hand };
}

pub(crate) struct Put;

impl Outcome<Task, Hand> for Put {
    ghost then = { Puts };
}

pub(crate) struct Take;

impl Outcome<Task, Hand> for Take {
    ghost then = { Takes };

    ghost empty = { IsEmptied };
}

pub(crate) struct Settle;

impl Lesson<Task, Hand> for Settle {
    ghost fact = { HasSettled };
}

pub(crate) struct LendOne;

impl Split<Hand> for LendOne {
    ghost left = { one_less };

    ghost right = { lent_hand };
}

pub(crate) struct Together;

impl Join<Hand> for Together {
    ghost both = { joined_hand };

    ghost spent = { spent_hand };
}
