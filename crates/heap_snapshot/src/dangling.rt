//! Looks for references to objects that aren't there.
ghost use Rattle.std.specs.Prelude.{◌≡◌, ◌+◌, ◌*◌, ◌<◌, ◌≤◌, ◌++◌, ◌∷◌, [], ◌^◌, List, length, map, AllPairs, Some, None, ℕ, IfOk};
ghost use Rattle.std.specs.List.{flat_map};
ghost use Rattle.heap_base.specs.declared.limits.TheConstants.{USUAL_OBJECTS};
ghost use Rattle.graph_meaning.specs.Reach.{has_id};
ghost use Rattle.heap_snapshot.specs.declared.line.Line.{Line};
ghost use Rattle.heap_snapshot.specs.declared.line.Line.TheVariants.{End};
ghost use Rattle.heap_snapshot.specs.Text.{lines_of, lines_of_object, line_of_root, slot_line, lines_of_slots};
ghost use Rattle.heap_snapshot.specs.Dangling.{FindsDangling, Passes, dangling_at, dangling_from, first_dangling, object_ids};
ghost use Rattle.heap_snapshot.specs.Reading.{Reads, unless_dangling};

use crate::refusal::{SnapError, SnapWhy};
use graph_meaning::{HeapView, ObjectList, RootList, SlotList};
use heap_base::OutOfMemory;
use std::alloc::Global;

/// A reference to an object that isn't there: its line, and what it refers to.
#[derive(Clone, Copy)]
pub(crate) struct DanglingReference {
    line: u64,
    to: u32,
}

/// The view, unless a line of its text refers to no object.
pub(crate) fn without_dangling(alloc: Global, view: HeapView) -> Result<HeapView, SnapError>
    requires few { length view.objects ≤ USUAL_OBJECTS }
    requires rising { AllPairs (λ x y. x < y) (object_ids view.objects) }
    ensures { Reads result (unless_dangling view (first_dangling view)) }
{
    let ids = ids_of(alloc, &view.objects)?;
    match dangling_in_view(&ids, &view) {
        Ok(()) => Ok(view),
        Err(found) => Err(SnapError::Refused {
            line: found.line,
            why: SnapWhy::Dangling(found.to),
        }),
    }
}

// The ids of the objects.
fn ids_of(alloc: Global, objects: &ObjectList) -> Result<Vec<u32>, OutOfMemory>
    ensures { IfOk result (λ ids. ids.items ≡ object_ids objects.now) }
{
    let mut ids = Vec::new(alloc);
    for place in 0..objects.len() {
        ids.push(objects.at(place).id)?;
    }
    Ok(ids)
}

fn has_id(ids: &[u32], id: u32) -> bool
    requires { AllPairs (λ x y. x < y) ids.now }
    ensures { result ≡ has_id ids.now id }
{
    ids.binary_search(&id).is_ok()
}

// The number of the line behind those of the view, or the first line that refers to none of these objects.
fn dangling_in_view(ids: &[u32], view: &HeapView) -> Result<(), DanglingReference>
    requires few { length view.now.objects ≤ USUAL_OBJECTS }
    requires rising { AllPairs (λ x y. x < y) ids.now }
    ensures { FindsDangling result (dangling_from ids.now 1 (lines_of view.now)) }
{
    match dangling_in_objects(ids, 2, &view.objects) {
        Ok(line) => dangling_in_roots(ids, line, &view.roots),
        Err(found) => Err(found),
    }
}

// The number of the line behind those of the objects, of which the first has this number, or the first that refers to
// none of these ids.
fn dangling_in_objects(
    ids: &[u32],
    line: u64,
    objects: &ObjectList,
) -> Result<u64, DanglingReference>
    requires few { length objects.now ≤ USUAL_OBJECTS }
    requires early { line ≤ 2 }
    requires rising { AllPairs (λ x y. x < y) ids.now }
    ensures passes { (rest : List Line) → Passes result (dangling_from ids.now line (flat_map lines_of_object objects.now ++ rest)) (λ next. dangling_from ids.now next rest) }
    ensures bound { IfOk result (λ next. next ≤ 2 + USUAL_OBJECTS * 2 ^ 32) }
{
    let mut next = line;
    for place in 0..objects.len() {
        match dangling_in_slots(ids, next + 1, &objects.at(place).slots) {
            Ok(behind) => next = behind,
            Err(found) => return Err(found),
        }
    }
    Ok(next)
}

fn dangling_in_slots(ids: &[u32], line: u64, slots: &SlotList) -> Result<u64, DanglingReference>
    requires early { line ≤ 2 ^ 62 }
    requires rising { AllPairs (λ x y. x < y) ids.now }
    ensures passes { (rest : List Line) → Passes result (dangling_from ids.now line (lines_of_slots 0 slots.now ++ rest)) (λ next. dangling_from ids.now next rest) }
    ensures bound { IfOk result (λ next. next < line + 2 ^ 32) }
{
    let mut next = line;
    for place in 0..slots.len() {
        match dangling_in_slot(ids, next, *slots.at(place)) {
            Ok(behind) => next = behind,
            Err(found) => return Err(found),
        }
    }
    Ok(next)
}

fn dangling_in_slot(ids: &[u32], line: u64, slot: Option<u32>) -> Result<u64, DanglingReference>
    requires early { line ≤ 2 ^ 63 }
    requires rising { AllPairs (λ x y. x < y) ids.now }
    ensures passes { (place : ℕ) → (rest : List Line) → Passes result (dangling_from ids.now line (slot_line place slot ++ rest)) (λ next. dangling_from ids.now next rest) }
    ensures bound { IfOk result (λ next. next ≤ line + 1) }
{
    match slot {
        Some(to) => dangling_at(ids, line, to),
        None => Ok(line),
    }
}

// The number of the next line, unless this one refers to none of these ids.
fn dangling_at(ids: &[u32], line: u64, to: u32) -> Result<u64, DanglingReference>
    requires early { line ≤ 2 ^ 63 }
    requires rising { AllPairs (λ x y. x < y) ids.now }
    ensures passes { Passes result (dangling_at ids.now line (Some to)) (λ next. None) }
    ensures next { IfOk result (λ next. next ≡ line + 1) }
{
    if has_id(ids, to) {
        Ok(line + 1)
    } else {
        Err(DanglingReference { line, to })
    }
}

fn dangling_in_roots(ids: &[u32], line: u64, roots: &RootList) -> Result<(), DanglingReference>
    requires early { line ≤ 2 ^ 62 }
    requires rising { AllPairs (λ x y. x < y) ids.now }
    ensures { FindsDangling result (dangling_from ids.now line (map line_of_root roots.now ++ End ∷ [])) }
{
    let mut next = line;
    for place in 0..roots.len() {
        match dangling_at(ids, next, roots.at(place).1) {
            Ok(behind) => next = behind,
            Err(found) => return Err(found),
        }
    }
    Ok(())
}
