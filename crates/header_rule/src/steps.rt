//! The kinds of step on the table, and what each tells the seat that makes it.
ghost use Rattle.header_rule.specs.Rule.{new_view};
ghost use Rattle.header_rule.specs.Steps.{TakesRights, AddsCell, SetsMarks, ReadsWord, one_right_less, both_views};

use crate::view::View;
use atomic_table::{Join, Play, Split};

/// The first seat: a swap of 1 into the opening word takes all rights, where it found 0.
pub(crate) struct FirstSeat;

impl Play<(), View> for FirstSeat {
    ghost then = { TakesRights };
}

/// An add of 1 to a header word.
pub(crate) struct Add;

impl Play<(), View> for Add {
    ghost then = { AddsCell };
}

/// Marks set in a header word.
pub(crate) struct SetMarks;

impl Play<(), View> for SetMarks {
    ghost then = { SetsMarks };
}

/// A word is read, and nothing changes.
pub(crate) struct ReadWord;

impl Play<(), View> for ReadWord {
    ghost then = { ReadsWord };
}

/// A seat gives one right to a new one.
pub(crate) struct OneRight;

impl Split<View> for OneRight {
    ghost left = { one_right_less };

    ghost right = { λ _. new_view 1 };
}

/// A seat takes over all that another has.
pub(crate) struct Together;

impl Join<View> for Together {
    ghost both = { both_views };

    ghost spent = { new_view 0 };
}
