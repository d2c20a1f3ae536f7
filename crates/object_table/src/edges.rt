ghost use Rattle.std.specs.Prelude.{◌≡◌, ◌<◌, ◌≤◌, length, map, None, slice_index_or};
ghost use Rattle.heap_base.specs.declared.limits.TheConstants.{MOST_SLOTS};
ghost use Rattle.object_table.specs.Edges.{cell_edge};

use crate::slot::PackedSlot;
use std::marker::Model;

/// What the slots of an object lead to, in order. Contracts see the cell of each, and `None` where a slot is no edge: it is
/// empty, or weak.
#[derive(Drop)]
pub struct Edges<'a> {
    slots: &'a [PackedSlot],
}

impl<'a> Model for Edges<'a> {
    ghost use Rattle.std.specs.Prelude.{ℕ, ◌≤◌, List, Option, length, map};
    ghost use Rattle.heap_base.specs.declared.limits.TheConstants.{MOST_SLOTS};
    ghost use Rattle.object_table.specs.Edges.{cell_edge};

    ghost Value = { List (Option ℕ) };

    ghost view = { λ e. map cell_edge e.slots.now };

    ghost invariant = { λ e. length e.slots.now ≤ MOST_SLOTS };
}

impl<'a> Edges<'a> {
    /// Those of these slots.
    pub(crate) fn of(slots: &'a [PackedSlot]) -> Edges<'a>
        requires { length slots.now ≤ MOST_SLOTS }
        ensures { result ≡ map cell_edge slots.now }
    {
        Edges { slots }
    }

    /// How many slots there are.
    pub fn len(&self) -> u32
        ensures count { result ≡ length self.now }
        ensures few { result ≤ MOST_SLOTS }
    {
        self.slots.len() as u32
    }

    /// The cell of the object that a slot leads to, and `None` where the slot is no edge.
    pub fn at(&self, slot: u32) -> Option<u32>
        requires { slot < length self.now }
        ensures { slice_index_or self.now slot None ≡ result }
    {
        self.slots[slot as usize].edge()
    }
}
