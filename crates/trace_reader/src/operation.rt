ghost use Rattle.std.specs.Prelude.{◌≡◌, false, codes};
ghost use Rattle.std.specs.Str.{bytes_eq};
ghost use Rattle.trace_reader.specs.Objects.{object_data};
ghost use Rattle.trace_reader.specs.Meaning.{Gives, operation, event_in, alloc_in, store_in, set_weak_in, root_in, dead_in, start_in, all_dead_in, instances_in, unshared_in, owned_in};

use crate::field::{
    bool_field, count_field, good_field, id_field, name_field, needed_field, slots_field,
    target_field, thread_field,
};
use crate::names::RecentNames;
use crate::object::Object;
use graph_meaning::{Event, FieldName, Refusal, Stop};

/// The operation that a value is: an object whose field `op` names it.
// It is inlined with what reads the common operations, since each caller knows whether its object is plain.
#[inline(always)]
#[tactic(auto, unfolding(crate::specs::Meaning::event_in))]
pub fn event_of_object(names: &mut RecentNames, object: Object<'_>) -> Result<Event, Stop>
    ensures { Gives result (event_in (object_data object.entry)) }
{
    if !object.is_object() {
        return Err(Stop::Refused(Refusal::NotObject));
    }
    let op = needed_field(object, FieldName::OpField)?;
    let op = good_field(FieldName::OpField, op.as_str())?;
    operation_named(names, op, object)
}

// The operation of this name, the most common one first. The fields of each are tested in the order in which they are read here.
#[inline(always)]
#[tactic(auto, unfolding(crate::specs::Meaning::operation))]
fn operation_named(names: &mut RecentNames, op: &str, object: Object<'_>) -> Result<Event, Stop>
    ensures { Gives result (operation op.now (object_data object.entry)) }
{
    // The two most common ones by compares of their letters, in place of calls of memcmp.
    if equals(op, "store") {
        store_event(object)
    } else if equals(op, "alloc") {
        alloc_event(names, object)
    } else {
        other_event(names, op, object)
    }
}

// The operation of this name, which is a less common one. Never inlined, so that `operation_named` stays small enough to be inlined.
#[inline(never)]
#[tactic(auto, unfolding(crate::specs::Meaning::operation))]
fn other_event(names: &mut RecentNames, op: &str, object: Object<'_>) -> Result<Event, Stop>
    requires store { bytes_eq op.now (codes "store") ≡ false }
    requires alloc { bytes_eq op.now (codes "alloc") ≡ false }
    ensures { Gives result (operation op.now (object_data object.entry)) }
{
    match op {
        "set-weak" => set_weak_event(object),
        "root" => root_event(names, object),
        "assert-dead" => dead_event(object),
        "start-region" => start_event(object),
        "assert-alldead" => all_dead_event(object),
        "assert-instances" => instances_event(names, object),
        "assert-unshared" => unshared_event(object),
        "assert-ownedby" => owned_event(object),
        "collect" => Ok(Event::Collect),
        _ => Err(Stop::Refused(Refusal::UnknownOp)),
    }
}

// Whether the texts are the same. Where the name is a literal, the loop is unrolled.
#[inline(always)]
pub fn equals(text: &str, name: &str) -> bool
    ensures { result ≡ bytes_eq text.now name.now }
{
    if text.len() != name.len() {
        return false;
    }
    let mut at = name.len();
    'letters: while at > 0 {
        at -= 1;
        if text.as_bytes()[at] != name.as_bytes()[at] {
            return false;
        }
    }
    true
}

#[inline(always)]
#[tactic(auto, unfolding(crate::specs::Meaning::alloc_in))]
fn alloc_event(names: &mut RecentNames, object: Object<'_>) -> Result<Event, Stop>
    ensures { Gives result (alloc_in (object_data object.entry)) }
{
    let id = id_field(object, FieldName::IdField)?;
    let kind = name_field(names, object, FieldName::TypeField)?;
    let slots = slots_field(object)?;
    let thread = thread_field(object)?;
    Ok(Event::Alloc {
        id,
        kind,
        slots,
        thread,
    })
}

#[inline(always)]
#[tactic(auto, unfolding(crate::specs::Meaning::store_in))]
fn store_event(object: Object<'_>) -> Result<Event, Stop>
    ensures { Gives result (store_in (object_data object.entry)) }
{
    let at = id_field(object, FieldName::AtField)?;
    let slot = count_field(object, FieldName::SlotField)?;
    let to = target_field(object, FieldName::ToField)?;
    Ok(Event::Store { at, slot, to })
}

#[tactic(auto, unfolding(crate::specs::Meaning::set_weak_in))]
fn set_weak_event(object: Object<'_>) -> Result<Event, Stop>
    ensures { Gives result (set_weak_in (object_data object.entry)) }
{
    let at = id_field(object, FieldName::AtField)?;
    let slot = count_field(object, FieldName::SlotField)?;
    let weak = bool_field(object, FieldName::WeakField)?;
    Ok(Event::SetWeak { at, slot, weak })
}

#[inline(always)]
#[tactic(auto, unfolding(crate::specs::Meaning::root_in))]
fn root_event(names: &mut RecentNames, object: Object<'_>) -> Result<Event, Stop>
    ensures { Gives result (root_in (object_data object.entry)) }
{
    let name = name_field(names, object, FieldName::NameField)?;
    let to = target_field(object, FieldName::ToField)?;
    Ok(Event::Root { name, to })
}

#[tactic(auto, unfolding(crate::specs::Meaning::dead_in))]
fn dead_event(object: Object<'_>) -> Result<Event, Stop>
    ensures { Gives result (dead_in (object_data object.entry)) }
{
    let id = id_field(object, FieldName::IdField)?;
    Ok(Event::AssertDead { id })
}

#[tactic(auto, unfolding(crate::specs::Meaning::start_in))]
fn start_event(object: Object<'_>) -> Result<Event, Stop>
    ensures { Gives result (start_in (object_data object.entry)) }
{
    let thread = thread_field(object)?;
    Ok(Event::StartRegion { thread })
}

#[tactic(auto, unfolding(crate::specs::Meaning::all_dead_in))]
fn all_dead_event(object: Object<'_>) -> Result<Event, Stop>
    ensures { Gives result (all_dead_in (object_data object.entry)) }
{
    let thread = thread_field(object)?;
    Ok(Event::AssertAllDead { thread })
}

#[tactic(auto, unfolding(crate::specs::Meaning::instances_in))]
fn instances_event(names: &mut RecentNames, object: Object<'_>) -> Result<Event, Stop>
    ensures { Gives result (instances_in (object_data object.entry)) }
{
    let kind = name_field(names, object, FieldName::TypeField)?;
    let limit = count_field(object, FieldName::LimitField)?;
    Ok(Event::AssertInstances { kind, limit })
}

#[tactic(auto, unfolding(crate::specs::Meaning::unshared_in))]
fn unshared_event(object: Object<'_>) -> Result<Event, Stop>
    ensures { Gives result (unshared_in (object_data object.entry)) }
{
    let id = id_field(object, FieldName::IdField)?;
    Ok(Event::AssertUnshared { id })
}

#[tactic(auto, unfolding(crate::specs::Meaning::owned_in))]
fn owned_event(object: Object<'_>) -> Result<Event, Stop>
    ensures { Gives result (owned_in (object_data object.entry)) }
{
    let owner = id_field(object, FieldName::OwnerField)?;
    let ownee = id_field(object, FieldName::OwneeField)?;
    Ok(Event::AssertOwnedBy { owner, ownee })
}
