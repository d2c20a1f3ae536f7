//! Writes a snapshot.
ghost use Rattle.std.specs.Prelude.{◌≡◌, ◌++◌, ◌∷◌, [], List, ℕ, decimal, length, map, IfOk, OnOk, Some};
ghost use Rattle.std.specs.List.{flat_map};
ghost use Rattle.heap_snapshot.specs.declared.line.Line.TheVariants.{Object, Root, Slot};
ghost use Rattle.heap_snapshot.specs.Lines.{line_bytes};
ghost use Rattle.heap_snapshot.specs.Reading.{IsLawful, StandsFor};
ghost use Rattle.heap_snapshot.specs.Text.{lines_of_object, line_of_root, slot_line, lines_of_slots, snapshot_text};

use graph_meaning::{HeapView, ObjectList, ObjectView, RootList, SlotList};
use heap_base::{Name, OutOfMemory};
use std::alloc::Global;
use streams::{put, put_number};

/// The text of a lawful view: the one that stands for it.
pub fn write_snapshot(alloc: Global, view: &HeapView) -> Result<Vec<u8>, OutOfMemory>
    requires lawful { IsLawful view.now }
    ensures text { IfOk result (λ text. text.items ≡ snapshot_text view.now) }
    ensures stands { IfOk result (λ text. StandsFor text.items view.now) }
{
    let mut text = Vec::new(alloc);
    put_view(&mut text, view)?;
    Ok(text)
}

#[tactic(auto, unfolding(crate::specs::Text::snapshot_text))]
fn put_view(text: &mut Vec<u8>, view: &HeapView) -> Result<(), OutOfMemory>
    ensures { OnOk result (text.new.items ≡ text.old.items ++ snapshot_text view.now) }
{
    put(text, b"heapsnap 1\n")?;
    put_objects(text, &view.objects)?;
    put_roots(text, &view.roots)?;
    put(text, b"end\n")
}

fn put_objects(text: &mut Vec<u8>, objects: &ObjectList) -> Result<(), OutOfMemory>
    ensures { OnOk result (text.new.items ≡ text.old.items ++ flat_map line_bytes (flat_map lines_of_object objects.now)) }
{
    for place in 0..objects.len() {
        put_object(text, objects.at(place))?;
    }
    Ok(())
}

fn put_object(text: &mut Vec<u8>, object: &ObjectView) -> Result<(), OutOfMemory>
    ensures { OnOk result (text.new.items ≡ text.old.items ++ flat_map line_bytes (lines_of_object object.now)) }
{
    put_object_line(text, object)?;
    put_slots(text, &object.slots)
}

fn put_object_line(text: &mut Vec<u8>, object: &ObjectView) -> Result<(), OutOfMemory>
    ensures { OnOk result (text.new.items ≡ text.old.items ++ line_bytes (Object object.now.id (length object.now.slots) object.now.kind)) }
{
    put(text, b"object ")?;
    put_number(text, object.id as u64)?;
    put(text, b" ")?;
    put_number(text, object.slots.len() as u64)?;
    put(text, b" ")?;
    put_name_and_newline(text, &object.kind)
}

fn put_slots(text: &mut Vec<u8>, slots: &SlotList) -> Result<(), OutOfMemory>
    ensures { OnOk result (text.new.items ≡ text.old.items ++ flat_map line_bytes (lines_of_slots 0 slots.now)) }
{
    for place in 0..slots.len() {
        put_slot(text, place, *slots.at(place))?;
    }
    Ok(())
}

fn put_slot(text: &mut Vec<u8>, slot: u32, held: Option<u32>) -> Result<(), OutOfMemory>
    ensures { OnOk result (text.new.items ≡ text.old.items ++ flat_map line_bytes (slot_line slot held)) }
{
    match held {
        Some(to) => put_slot_line(text, slot, to),
        None => Ok(()),
    }
}

fn put_slot_line(text: &mut Vec<u8>, slot: u32, to: u32) -> Result<(), OutOfMemory>
    ensures { OnOk result (text.new.items ≡ text.old.items ++ line_bytes (Slot slot to)) }
{
    put(text, b"slot ")?;
    put_number(text, slot as u64)?;
    put(text, b" ")?;
    put_number(text, to as u64)?;
    put(text, b"\n")
}

fn put_roots(text: &mut Vec<u8>, roots: &RootList) -> Result<(), OutOfMemory>
    ensures { OnOk result (text.new.items ≡ text.old.items ++ flat_map line_bytes (map line_of_root roots.now)) }
{
    for place in 0..roots.len() {
        let root = roots.at(place);
        put_root_line(text, &root.0, root.1)?;
    }
    Ok(())
}

fn put_root_line(text: &mut Vec<u8>, name: &Name, to: u32) -> Result<(), OutOfMemory>
    ensures { OnOk result (text.new.items ≡ text.old.items ++ line_bytes (Root to name.now)) }
{
    put(text, b"root ")?;
    put_number(text, to as u64)?;
    put(text, b" ")?;
    put_name_and_newline(text, name)
}

// A name, which ends its line.
fn put_name_and_newline(text: &mut Vec<u8>, name: &Name) -> Result<(), OutOfMemory>
    ensures { OnOk result (text.new.items ≡ text.old.items ++ (name.now ++ 10 ∷ [])) }
{
    put(text, name.as_str().as_bytes())?;
    put(text, b"\n")
}
