//! What a pass that has its words to itself has met, for the proofs alone.
ghost use Rattle.std.specs.Prelude.{◌≡◌};
ghost use Rattle.std.specs.Borrow.{ftrue};
ghost use Rattle.header_rule.specs.declared.view.View.{View};
ghost use Rattle.header_rule.specs.Rule.{new_view};
ghost use Rattle.header_rule.specs.Steps.{after_meet};

use crate::mark::Marks;
use std::marker::Model;

/// One meet.
#[derive(Clone, Copy)]
pub(crate) struct OneMeet {
    pub(crate) cell: u32,
    pub(crate) given: Marks,
    pub(crate) won: bool,
}

/// A view without a table. It takes no bytes, and its methods do nothing at run time. By itself it says nothing; whoever keeps it ties it to words
/// by an invariant.
#[derive(Drop)]
pub(crate) struct History {
    pub(crate) ghost view: { View },
}

impl Model for History {
    ghost also_owns = { λ _. ftrue };
}

// It owns nothing.
unsafe impl Send for History {}

impl History {
    /// All the rights, and nothing met.
    pub(crate) fn new() -> History
        ensures { result.view ≡ new_view 16 }
    {
        History {}
    }

    /// The same and one meet more.
    pub(crate) fn with(_before: &History, _meet: &OneMeet) -> History
        ensures { result.view ≡ after_meet _meet.now.cell _meet.now.given _meet.now.won _before.now.view }
    {
        History {}
    }
}
