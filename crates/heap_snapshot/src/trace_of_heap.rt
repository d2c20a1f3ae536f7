ghost use Rattle.std.specs.Prelude.{◌≡◌, ◌++◌, IfOk, OnOk};
ghost use Rattle.std.specs.List.{flat_map};
ghost use Rattle.heap_snapshot.specs.Trace.{alloc_line, root_line, slot_lines, store_line, store_lines, trace_text};

use crate::trace_lines::{put_alloc, put_root, put_store};
use graph_meaning::{HeapView, ObjectList, RootList, SlotList};
use heap_base::OutOfMemory;
use std::alloc::Global;

/// The trace that makes the heap of a view: a line for each object by id, for each slot that isn't empty by id and slot, and
/// for each root by name.
#[tactic(auto, unfolding(crate::specs::Trace::trace_text))]
pub fn trace_text(alloc: Global, view: &HeapView) -> Result<Vec<u8>, OutOfMemory>
    ensures { IfOk result (λ text. text.items ≡ trace_text view.now) }
{
    let mut text = Vec::new(alloc);
    put_allocs(alloc, &mut text, &view.objects)?;
    put_stores(&mut text, &view.objects)?;
    put_roots(alloc, &mut text, &view.roots)?;
    Ok(text)
}

fn put_allocs(alloc: Global, text: &mut Vec<u8>, objects: &ObjectList) -> Result<(), OutOfMemory>
    ensures { OnOk result (text.new.items ≡ text.old.items ++ flat_map alloc_line objects.now) }
{
    for place in 0..objects.len() {
        put_alloc(alloc, text, objects.at(place))?;
    }
    Ok(())
}

fn put_stores(text: &mut Vec<u8>, objects: &ObjectList) -> Result<(), OutOfMemory>
    ensures { OnOk result (text.new.items ≡ text.old.items ++ flat_map store_lines objects.now) }
{
    for place in 0..objects.len() {
        let object = objects.at(place);
        put_slots(text, object.id, &object.slots)?;
    }
    Ok(())
}

fn put_slots(text: &mut Vec<u8>, at: u32, slots: &SlotList) -> Result<(), OutOfMemory>
    ensures { OnOk result (text.new.items ≡ text.old.items ++ slot_lines at 0 slots.now) }
{
    for place in 0..slots.len() {
        put_slot(text, at, place, *slots.at(place))?;
    }
    Ok(())
}

fn put_slot(text: &mut Vec<u8>, at: u32, slot: u32, held: Option<u32>) -> Result<(), OutOfMemory>
    ensures { OnOk result (text.new.items ≡ text.old.items ++ store_line at slot held) }
{
    match held {
        Some(to) => put_store(text, at, slot, to),
        None => Ok(()),
    }
}

fn put_roots(alloc: Global, text: &mut Vec<u8>, roots: &RootList) -> Result<(), OutOfMemory>
    ensures { OnOk result (text.new.items ≡ text.old.items ++ flat_map root_line roots.now) }
{
    for place in 0..roots.len() {
        let root = roots.at(place);
        put_root(alloc, text, &root.0, root.1)?;
    }
    Ok(())
}
