ghost use Rattle.std.specs.Prelude.{◌≡◌, ◌==◌, ◌&&◌};
ghost use Rattle.std.specs.List.{list_any};
ghost use Rattle.std.specs.Option.{option_map};
ghost use Rattle.std.specs.Str.{bytes_eq};
ghost use Rattle.graph_meaning.specs.Paths.{start_of};
ghost use Rattle.graph_meaning.specs.Views.{shown_object, has_object, holds, has_start, goes_by, leads_on, leads_to_end, is_path};

use crate::paths::{PathFrom, PathStep, PathView};
use crate::views::{HeapView, ObjectView};
use heap_base::{END_STEPS, Name};

/// Whether a path leads through a heap: it starts at a root of the heap and the object that the root names, or at an
/// object of the heap; each step that is shown goes by a slot of the object before it to the object that this slot
/// holds; and each type is that of its object. Where steps are left out, the object before the next step
/// isn't known, and that step's slot is not looked at.
#[tactic(auto, using(std::proofs::lemmas::List::take_min, std::proofs::lemmas::List::drop_min), unfolding(crate::specs::Views::is_path))]
pub fn is_path(heap: &HeapView, path: &PathView) -> bool
    ensures { result ≡ is_path heap.now path.now }
{
    if !has_start(heap, &path.from) {
        return false;
    }
    let start = start_of(&path.from);
    let steps = path.steps.items();
    if path.left_out == 0 {
        return leads_on(heap, start, steps);
    }
    let (first, last) = steps.split_at((END_STEPS as usize).min(steps.len()));
    leads_on(heap, start, first) && leads_to_end(heap, last)
}

// The object that a path starts at.
fn start_of(from: &PathFrom) -> u32
    ensures { result ≡ start_of from.now }
{
    match from {
        PathFrom::Root { id, .. } | PathFrom::Owner { id, .. } => *id,
    }
}

// Whether a path may start so.
fn has_start(heap: &HeapView, from: &PathFrom) -> bool
    ensures { result ≡ has_start heap.now from.now }
{
    match from {
        PathFrom::Root { name, id, kind } => {
            has_root(heap, name, *id) && has_object(heap, *id, kind)
        }
        PathFrom::Owner { id, kind } => has_object(heap, *id, kind),
    }
}

// Whether a root has this name and names this object.
fn has_root(heap: &HeapView, name: &Name, id: u32) -> bool
    ensures { result ≡ list_any (λ r. bytes_eq r.0 name.now && (r.1 == id)) heap.now.roots }
{
    heap.roots
        .items()
        .iter()
        .any(|root| root.0.as_str() == name.as_str() && root.1 == id)
}

// The object with this id.
fn shown_object(heap: &HeapView, id: u32) -> Option<&ObjectView>
    ensures { option_map (λ o. o.now) result ≡ shown_object heap.now id }
{
    heap.objects.items().iter().find(|object| object.id == id)
}

// Whether there is an object with this id and this type.
fn has_object(heap: &HeapView, id: u32, kind: &Name) -> bool
    ensures { result ≡ has_object heap.now id kind.now }
{
    match shown_object(heap, id) {
        Some(object) => object.kind.as_str() == kind.as_str(),
        None => false,
    }
}

// Whether a slot of an object holds another.
fn holds(heap: &HeapView, holder: u32, slot: u32, id: u32) -> bool
    ensures { result ≡ holds heap.now holder slot id }
{
    match shown_object(heap, holder) {
        Some(object) => { slot < object.slots.len() && *object.slots.at(slot) == Some(id) }
        None => false,
    }
}

// Whether a step goes by a slot of the object to another of the type that the step names.
fn goes_by(heap: &HeapView, holder: u32, step: &PathStep) -> bool
    ensures { result ≡ goes_by heap.now holder step.now }
{
    holds(heap, holder, step.slot, step.id) && has_object(heap, step.id, &step.kind)
}

// Whether the steps lead on from the object.
fn leads_on(heap: &HeapView, start: u32, steps: &[PathStep]) -> bool
    ensures { result ≡ leads_on heap.now start steps.now }
{
    let mut holder = start;
    for step in steps {
        if !goes_by(heap, holder, step) {
            return false;
        }
        holder = step.id;
    }
    true
}

// Whether the steps lead to the end, where it isn't known which object holds the first.
#[tactic(auto, unfolding(crate::specs::Views::leads_to_end))]
fn leads_to_end(heap: &HeapView, steps: &[PathStep]) -> bool
    ensures { result ≡ leads_to_end heap.now steps.now }
{
    match steps.split_first() {
        Some((step, rest)) => {
            has_object(heap, step.id, &step.kind) && leads_on(heap, step.id, rest)
        }
        None => true,
    }
}
