//! What a pass knows, and the rule of the table. No value of a view is made.
use crate::mark::Mark;
use atomic_table::TableRule;
use std::collections::LinkedList;

/// What one seat on the table holds: a number of rights, the cells that it met, those that it won, and the marks
/// that it set, each with its cell. All views together have 16 rights, so that a view with 16 is known to be
/// the only one that met anything.
pub struct View {
    pub rights: u64,
    pub adds: LinkedList<u32>,
    pub wins: LinkedList<u32>,
    pub marks: LinkedList<(u32, Mark)>,
}

/// The rule of the header words. The key is the number of cells.
pub struct HeaderRule;

impl TableRule<(), View, u32> for HeaderRule {
    ghost use Rattle.header_rule.specs.Rule.{KeepsRule, new_view};

    ghost holds = { KeepsRule };

    ghost first = { λ _. new_view 0 };
}
