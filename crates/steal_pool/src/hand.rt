//! What a hand on a deque knows, and the rule that all hands on it keep. No value of a hand is ever made.
use crate::task::Task;
use crossbeam_deque::protocol::Protocol;
use std::collections::LinkedList;

/// One worker's share in a deque.
pub struct Hand {
    /// How many of the deque's 16 rights it has.
    pub rights: u64,
    /// Whether it is the hand of the worker whose deque it is.
    pub owner: bool,
    /// The terms of the run: which tasks are fit.
    pub fit: LinkedList<Task>,
    /// The terms of the run: how many tasks may be put into the deque.
    pub bound: u64,
    /// What it put.
    pub put: LinkedList<Task>,
    /// What it took.
    pub took: LinkedList<Task>,
}

pub struct DequeRule;

impl Protocol<Task, Hand> for DequeRule {
    ghost use Rattle.steal_pool.specs.Hands.{IsBalanced, first_hand, spent_hand};

    ghost holds = { IsBalanced };

    ghost first = { first_hand };

    ghost guest = { spent_hand };
}
