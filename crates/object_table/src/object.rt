ghost use Rattle.std.specs.Prelude.{◌≡◌, ◌<◌, ◌≤◌, length, map, replicate, slice_get, slice_set, Some, IfOk};
ghost use Rattle.heap_base.specs.declared.limits.TheConstants.{MOST_KINDS, MOST_SLOTS};
ghost use Rattle.object_table.specs.Edges.{cell_edge};
ghost use Rattle.object_table.specs.Packing.{CanBePacked};
ghost use Rattle.object_table.specs.Residents.{StrongHoldKept, no_edge, slot_after, holders_in, resident_cleared};

use crate::edges::Edges;
use crate::slot::{PackedSlot, Slot, clear_slots_to, keep_slots};
use arrayvec::ArrayVec;
use heap_base::{ObjId, OutOfMemory};
use std::alloc::Global;
use std::marker::Model;

/// So many slots stand in the object itself, and more in memory of their own.
const OWN_SLOTS: usize = 4;

/// An object as it stands in a cell: its id, the number of its type, and its slots.
#[derive(Drop)]
pub struct Object {
    stored: Stored,
}

// Both variants begin with the flag, the number of the type and the id, in this order: so these share eight bytes with the
// mark of the variant, and an object takes 32 bytes. The number of the type is below `MOST_KINDS`. The flag is set when a
// slot is made weak: where it is not set, no slot is weak.
#[derive(Drop)]
enum Stored {
    Few {
        has_weak: bool,
        kind: u16,
        id: ObjId,
        slots: ArrayVec<PackedSlot, OWN_SLOTS>,
    },
    Many {
        has_weak: bool,
        kind: u16,
        id: ObjId,
        slots: Vec<PackedSlot>,
    },
}

impl Model for Object {
    ghost use Rattle.object_table.specs.Residents.{Resident};
    ghost use Rattle.object_table.specs.Stored.{resident_of, IsStored};

    ghost Value = { Resident };

    ghost view = { λ o. resident_of o.stored };

    ghost invariant = { λ o. IsStored o.stored };
}

impl Object {
    /// An object with empty slots, none weak.
    pub fn make(alloc: Global, id: ObjId, kind: u32, slots: u32) -> Result<Object, OutOfMemory>
        requires kind { kind < MOST_KINDS }
        requires slots { slots ≤ MOST_SLOTS }
        ensures { IfOk result (λ o. o ≡ record { id = id; kind = kind; slots = replicate slots no_edge }) }
    {
        let empty = PackedSlot::pack(Slot {
            held: None,
            weak: false,
        });
        let kind = kind as u16;
        let stored = if slots as usize <= OWN_SLOTS {
            Stored::Few {
                has_weak: false,
                kind,
                id,
                slots: own_slots(empty, slots as usize),
            }
        } else {
            Stored::Many {
                has_weak: false,
                kind,
                id,
                slots: vec![in alloc; empty; slots as usize]?,
            }
        };
        Ok(Object { stored })
    }

    /// An equal object, with slots of its own.
    pub fn copy(&self) -> Result<Object, OutOfMemory>
        ensures { IfOk result (λ o. o ≡ self.now) }
    {
        let stored = match &self.stored {
            Stored::Few {
                has_weak,
                kind,
                id,
                slots,
            } => Stored::Few {
                has_weak: *has_weak,
                kind: *kind,
                id: *id,
                slots: slots.clone()?,
            },
            Stored::Many {
                has_weak,
                kind,
                id,
                slots,
            } => Stored::Many {
                has_weak: *has_weak,
                kind: *kind,
                id: *id,
                slots: Vec::from_slice(*slots.allocator(), slots.as_slice())?,
            },
        };
        Ok(Object { stored })
    }

    /// Its id.
    pub fn id(&self) -> ObjId
        ensures { result ≡ self.now.id }
    {
        match &self.stored {
            Stored::Few { id, .. } | Stored::Many { id, .. } => *id,
        }
    }

    /// The number of its type.
    pub fn kind(&self) -> u32
        ensures { result ≡ self.now.kind }
    {
        match &self.stored {
            Stored::Few { kind, .. } | Stored::Many { kind, .. } => u32::from(*kind),
        }
    }

    /// How many slots it has.
    pub fn slots(&self) -> u32
        ensures count { result ≡ length self.now.slots }
        ensures few { result ≤ MOST_SLOTS }
    {
        self.packed().len() as u32
    }

    /// One of its slots.
    pub fn slot(&self, slot: u32) -> Slot
        requires { slot < length self.now.slots }
        ensures found { slice_get self.now.slots slot ≡ Some result }
        ensures packed { CanBePacked result }
    {
        self.packed()[slot as usize].slot()
    }

    /// What its slots lead to.
    pub fn edges(&self) -> Edges<'_>
        ensures { result ≡ map cell_edge self.now.slots }
    {
        Edges::of(self.packed())
    }

    /// Puts one of its slots.
    pub fn set_slot(&mut self, slot: u32, value: Slot)
        requires in_range { slot < length self.old.slots }
        requires packed { CanBePacked value }
        ensures { self.new ≡ record self.old { slots = slice_set self.old.slots slot value } }
    {
        let weak = value.weak;
        let packed = PackedSlot::pack(value);
        match &mut self.stored {
            Stored::Few {
                has_weak,
                slots,
                ..
            } => {
                *has_weak = *has_weak || weak;
                slots[slot as usize] = packed;
            }
            Stored::Many {
                has_weak,
                slots,
                ..
            } => {
                *has_weak = *has_weak || weak;
                slots[slot as usize] = packed;
            }
        }
    }

    /// Empties the slots that hold what stood in a cell that is not kept, as weak ones alone do. So it looks at the slots only
    /// where one may be weak.
    pub fn keep(&mut self, kept: &[bool])
        requires { StrongHoldKept kept.now self.old }
        ensures { self.new ≡ record self.old { slots = map (slot_after kept.now) self.old.slots } }
    {
        match &mut self.stored {
            Stored::Few {
                has_weak,
                slots,
                ..
            } if *has_weak => keep_slots(slots.as_mut_slice(), kept),
            Stored::Many {
                has_weak,
                slots,
                ..
            } if *has_weak => keep_slots(slots.as_mut_slice(), kept),
            _ => {}
        }
    }

    /// Empties the slots, weak or not, that hold the object of a marked cell. Answers how many these were.
    pub fn clear_to(&mut self, marked: &[bool]) -> u32
        ensures cleared { self.new ≡ resident_cleared marked.now self.old }
        ensures count { result ≡ holders_in marked.now self.old }
    {
        match &mut self.stored {
            Stored::Few { slots, .. } => clear_slots_to(slots.as_mut_slice(), marked),
            Stored::Many { slots, .. } => clear_slots_to(slots.as_mut_slice(), marked),
        }
    }

    // Its slots.
    fn packed(&self) -> &[PackedSlot]
        ensures slots { result.now ≡ self.now.slots }
        ensures few { length result.now ≤ MOST_SLOTS }
    {
        match &self.stored {
            Stored::Few { slots, .. } => slots.as_slice(),
            Stored::Many { slots, .. } => slots.as_slice(),
        }
    }
}

// So many slots as this one, no more than an object has room for.
fn own_slots(slot: PackedSlot, count: usize) -> ArrayVec<PackedSlot, OWN_SLOTS>
    requires { count ≤ OWN_SLOTS }
    ensures { result.items ≡ replicate count slot }
{
    let mut slots = ArrayVec::from([slot; OWN_SLOTS]);
    slots.truncate(count);
    slots
}
