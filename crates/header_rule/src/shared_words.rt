//! The words that several passes share, and their steps on them.
ghost use Rattle.std.specs.Prelude.{◌≡◌, ◌+◌, ◌*◌, ◌^◌, ◌<◌, [], length};
ghost use Rattle.heap_base.specs.Counting.{IsOnce};
ghost use Rattle.header_rule.specs.Steps.{after_meet};

use crate::layout::{bits, count};
use crate::mark::Marks;
use crate::steps::{Add, ReadWord, SetMarks};
use crate::view::{HeaderRule, View};
use atomic_table::{Seat, Table};
use std::alloc::Global;

/// The words and the rule that they keep.
pub(crate) type HeaderTable = Table<(), View, u32, HeaderRule, Global>;

/// The opening word, and then the word of each cell, in a table.
#[derive(Drop)]
pub(crate) struct SharedWords {
    pub(crate) table: HeaderTable,
    pub(crate) cells: u32,
    ghost keyed: { table.shared.key ≡ cells },
    ghost sized: { table.shared.table_id.words ≡ cells + 1 },
    ghost slotless: { table.shared.table_id.slots ≡ 0 },
}

impl SharedWords {
    /// Reads the word of a cell, and changes nothing.
    #[inline]
    pub(crate) fn prefetch(&self, seat: &mut Seat<(), View>, cell: u32)
        requires cell { cell < self.now.cells }
        requires table { seat.old.table_id ≡ self.now.table.shared.table_id }
        ensures table { seat.new.table_id ≡ seat.old.table_id }
        ensures same { seat.new.me ≡ seat.old.me }
    {
        self.table.shared.load::<ReadWord>(seat, cell as usize + 1);
    }

    /// Meets a cell: one add, and one change of the marks where some are given. Answers whether the add found the count 0.
    #[inline]
    pub(crate) fn meet(&self, seat: &mut Seat<(), View>, cell: u32, given: Marks) -> bool
        requires cell { cell < self.now.cells }
        requires table { seat.old.table_id ≡ self.now.table.shared.table_id }
        requires slotless { seat.old.me.1 ≡ [] }
        requires room { length seat.old.me.0.adds < seat.old.me.0.rights * 2 ^ 51 }
        ensures table { seat.new.table_id ≡ seat.old.table_id }
        ensures met { seat.new.me ≡ (after_meet cell given result seat.old.me.0, []) }
        ensures once { IsOnce seat.new.me.0.wins }
    {
        let word = cell as usize + 1;
        let shared = &self.table.shared;
        let found = shared.fetch_add::<Add>(seat, word, 1);
        let bits = bits(given);
        if bits != 0 {
            shared.fetch_or::<SetMarks>(seat, word, bits);
        }
        count(found) == 0
    }
}
