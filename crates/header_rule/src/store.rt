//! Where header words are kept that nobody changes any more.
ghost use Rattle.std.specs.Prelude.{◌≡◌};
ghost use Rattle.std.specs.Mem.Slots.{slots_len, IsFull};

use atomic_table::Closed;
use std::alloc::Global;

/// A table that was closed.
pub(crate) struct ClosedTable {
    pub(crate) closed: Closed<(), Global>,
    ghost full: { IsFull closed.words },
    ghost slotless: { slots_len closed.slots ≡ 0 },
}

impl Drop for ClosedTable {
    fn drop(self) {
        let ClosedTable { closed } = self;
        closed.free();
    }
}

/// The opening word, and then the word of each cell.
#[derive(Drop)]
pub(crate) enum WordStore {
    /// Those of a table that was closed.
    Closed(ClosedTable),
    /// Those that were read from a table that stays.
    Read(Vec<u64>),
}
