ghost use Rattle.std.specs.Prelude.{◌≡◌, ◌≤◌, length, map};
ghost use Rattle.std.specs.List.{count_by};
ghost use Rattle.heap_base.specs.declared.limits.TheConstants.{MOST_SLOTS};
ghost use Rattle.object_table.specs.Residents.{holds_marked, is_flagged, slot_after, slot_cleared};
ghost use Rattle.object_table.specs.Packing.{CanBePacked};
ghost use Rattle.object_table.specs.Edges.{cell_edge};

use std::marker::Model;

/// A slot of an object: the cell of the object that it holds, or nothing, and whether it is weak.
#[derive(Clone, Copy)]
pub struct Slot {
    pub held: Option<u32>,
    pub weak: bool,
}

/// A slot in four bytes. Contracts see the slot.
#[derive(Clone, Copy, Default)]
pub struct PackedSlot {
    // twice the number of the cell and two more, or 0 where the slot is empty, and one more where it is weak
    word: u32,
}

impl Model for PackedSlot {
    ghost use Rattle.std.specs.Prelude.{◌≡◌};
    ghost use Rattle.std.proofs.Common.{ap};
    ghost use Rattle.object_table.specs.Packing.{word_of_slot, slot_of_word, packed-unpacked};
    ghost use Rattle.object_table.specs.declared.slot.Slot.{Slot};

    ghost Value = { Slot };

    ghost view = { λ p. slot_of_word p.word };

    ghost inverse = { λ s. record { word = word_of_slot s } };

    ghost inverse_ok = { λ p h. ap (λ n. record { word = n }) (packed-unpacked p.word) };
}

impl PackedSlot {
    /// The slot, where it is empty or the number of its cell is less than 2^31 - 1.
    pub fn pack(slot: Slot) -> PackedSlot
        requires { CanBePacked slot }
        ensures { result ≡ slot }
    {
        let cell = match slot.held {
            Some(cell) => cell + 1,
            None => 0,
        };
        PackedSlot {
            word: 2 * cell + u32::from(slot.weak),
        }
    }

    /// The slot, as it was packed.
    pub fn slot(self) -> Slot
        ensures same { result ≡ self }
        ensures packed { CanBePacked result }
    {
        let half = self.word / 2;
        Slot {
            held: if half == 0 { None } else { Some(half - 1) },
            weak: self.word % 2 == 1,
        }
    }

    /// The cell that the slot leads to: none where it is weak, or empty.
    pub fn edge(self) -> Option<u32>
        ensures { result ≡ cell_edge self }
    {
        if self.word == 0 || self.word % 2 == 1 {
            None
        } else {
            Some(self.word / 2 - 1)
        }
    }

    /// The slot after the cells that are not kept were emptied.
    pub fn after(self, kept: &[bool]) -> PackedSlot
        ensures { result ≡ slot_after kept.now self }
    {
        match self.slot().held {
            Some(cell) if !is_flagged(kept, cell) => self.emptied(),
            _ => self,
        }
    }

    /// Empties it where it holds the object of a marked cell. Answers whether it held one.
    pub fn clear_to(&mut self, marked: &[bool]) -> bool
        ensures cleared { self.new ≡ slot_cleared marked.now self.old }
        ensures held { result ≡ holds_marked marked.now self.old }
    {
        match self.slot().held {
            Some(cell) if is_flagged(marked, cell) => {
                *self = self.emptied();
                true
            }
            _ => false,
        }
    }

    // The slot with nothing in it; it stays weak where it is.
    fn emptied(self) -> PackedSlot
        ensures { result ≡ record self { held = None } }
    {
        PackedSlot {
            word: self.word % 2,
        }
    }
}

/// Empties the slots that hold what stood in a cell that is not kept.
pub fn keep_slots(slots: &mut [PackedSlot], kept: &[bool])
    ensures { slots.new ≡ map (slot_after kept.now) slots.old }
{
    for slot in 0..slots.len() {
        slots[slot] = slots[slot].after(kept);
    }
}

/// Empties the slots, weak or not, that hold the object of a marked cell. Answers how many these were.
pub fn clear_slots_to(slots: &mut [PackedSlot], marked: &[bool]) -> u32
    requires { length slots.old ≤ MOST_SLOTS }
    ensures cleared { slots.new ≡ map (slot_cleared marked.now) slots.old }
    ensures count { result ≡ count_by (holds_marked marked.now) slots.old }
{
    let mut cleared = 0;
    for slot in 0..slots.len() {
        cleared += u32::from(slots[slot].clear_to(marked));
    }
    cleared
}

/// Whether the flag of the cell is set.
pub fn is_flagged(flags: &[bool], cell: u32) -> bool
    ensures { result ≡ is_flagged flags.now cell }
{
    flags.get(cell as usize).copied().unwrap_or(false)
}
