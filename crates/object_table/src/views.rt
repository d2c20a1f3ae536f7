ghost use Rattle.std.specs.Prelude.{◌≡◌, ℕ, ◌<◌, ◌≤◌, All, IsTrue, length, map, IfSome, IfOk};
ghost use Rattle.heap_base.specs.declared.limits.TheConstants.{MOST_OBJECTS};
ghost use Rattle.graph_meaning.specs.Heap.{edge_of};
ghost use Rattle.graph_meaning.specs.Views.{object_view};
ghost use Rattle.object_table.specs.Residents.{held_at, is_taken};
ghost use Rattle.object_table.specs.Parts.{HoldsTaken, slot_of, object_of, object_at_cell};

use crate::cells::Cells;
use crate::ids::Ids;
use crate::kinds::Kinds;
use crate::object::Object;
use crate::roots::Roots;
use crate::slot::Slot;
use graph_meaning::{ObjectList, ObjectView, RootList, SlotList};
use heap_base::OutOfMemory;
use std::alloc::Global;

/// The objects with these ids as they are shown, in the order of the ids.
pub fn objects_view(
    alloc: Global,
    ids: &Ids,
    cells: &Cells,
    kinds: &Kinds,
) -> Result<ObjectList, OutOfMemory>
    requires taken { All (λ e. IsTrue (is_taken cells.now.cells e.1)) ids.now }
    requires known { (cell : ℕ) → IfSome (held_at cells.now.cells cell) (λ o. o.kind < length kinds.now) }
    requires leads { (cell : ℕ) → IfSome (held_at cells.now.cells cell) (λ o. All (HoldsTaken cells.now.cells) o.slots) }
    requires few { length ids.now ≤ MOST_OBJECTS }
    ensures { IfOk result (λ v. v ≡ map (λ e. object_view (object_at_cell kinds.now cells.now.cells e.1)) ids.now) }
{
    let mut objects = ObjectList::empty(alloc);
    for place in 0..ids.len() {
        let object = cells.at(ids.cell(place));
        objects.push(view_of(alloc, object, cells, kinds)?)?;
    }
    Ok(objects)
}

// An object as it is shown.
fn view_of(
    alloc: Global,
    object: &Object,
    cells: &Cells,
    kinds: &Kinds,
) -> Result<ObjectView, OutOfMemory>
    requires known { object.now.kind < length kinds.now }
    requires leads { All (HoldsTaken cells.now.cells) object.now.slots }
    ensures { IfOk result (λ v. v ≡ object_view (object_of kinds.now cells.now.cells object.now)) }
{
    let kind = kinds.name(object.kind()).copy()?;
    let slots = slots_view(alloc, object, cells)?;
    Ok(ObjectView {
        id: object.id().number(),
        kind,
        slots,
    })
}

// What the edges of an object lead to, by its slots.
fn slots_view(alloc: Global, object: &Object, cells: &Cells) -> Result<SlotList, OutOfMemory>
    requires { All (HoldsTaken cells.now.cells) object.now.slots }
    ensures { IfOk result (λ v. v ≡ map (λ s. edge_of (slot_of cells.now.cells s)) object.now.slots) }
{
    let mut slots = SlotList::empty(alloc);
    for slot in 0..object.slots() {
        slots.push(target(object.slot(slot), cells))?;
    }
    Ok(slots)
}

// The id of the object that a slot leads to, if it is an edge.
fn target(slot: Slot, cells: &Cells) -> Option<u32>
    requires { HoldsTaken cells.now.cells slot }
    ensures { result ≡ edge_of (slot_of cells.now.cells slot) }
{
    match slot.held {
        Some(cell) if !slot.weak => Some(cells.at(cell).id().number()),
        _ => None,
    }
}

/// The roots as they are shown, by the bytes of their names.
pub fn roots_view(alloc: Global, roots: &Roots) -> Result<RootList, OutOfMemory>
    ensures { IfOk result (λ v. v ≡ roots.now) }
{
    let mut views = RootList::empty(alloc);
    for root in 0..roots.len() {
        let name = roots.name(root).copy()?;
        views.push((name, roots.number(root)))?;
    }
    Ok(views)
}
