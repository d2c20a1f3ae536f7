ghost use Rattle.std.specs.Prelude.{◌≡◌, ◌^◌, ◌<◌, IfOk, Some, None, Ok, Err, option_map, MatchResult};
ghost use Rattle.serde_json.specs.Find.{get, as_bool, as_u64, as_number};
ghost use Rattle.trace_reader.specs.Objects.{object_data, value_data};
ghost use Rattle.trace_reader.specs.Meaning.{Gives, field_text, good_value, needed_field, field_or_zero, id_value, count_value, thread_value, target_value, name_value};

use crate::names::RecentNames;
use crate::object::{FieldValue, Object};
use graph_meaning::{FieldName, Refusal, Stop};
use heap_base::{Name, ObjId, OutOfMemory, ThreadNo};

/// An id, in a field that must be there.
#[inline(always)]
pub fn id_field(object: Object<'_>, field: FieldName) -> Result<ObjId, Stop>
    ensures { Gives result (needed_field field id_value (object_data object.entry)) }
{
    good_field(field, id_in(needed_field(object, field)?))
}

/// A slot number or a limit, in a field that must be there.
#[inline(always)]
pub fn count_field(object: Object<'_>, field: FieldName) -> Result<u32, Stop>
    ensures { Gives result (needed_field field count_value (object_data object.entry)) }
{
    good_field(field, count_in(needed_field(object, field)?))
}

/// An id, or null for nothing, in a field that must be there.
#[inline(always)]
pub fn target_field(object: Object<'_>, field: FieldName) -> Result<Option<ObjId>, Stop>
    ensures { Gives result (needed_field field target_value (object_data object.entry)) }
{
    good_field(field, target_in(needed_field(object, field)?))
}

/// True or false, in a field that must be there.
pub fn bool_field(object: Object<'_>, field: FieldName) -> Result<bool, Stop>
    ensures { Gives result (needed_field field as_bool (object_data object.entry)) }
{
    good_field(field, needed_field(object, field)?.as_bool())
}

/// A name, in a field that must be there.
pub fn name_field(
    names: &mut RecentNames,
    object: Object<'_>,
    field: FieldName,
) -> Result<Name, Stop>
    ensures { Gives result (needed_field field name_value (object_data object.entry)) }
{
    good_field(field, name_in(names, needed_field(object, field)?)?)
}

/// A number of slots, 0 where the field is missing.
#[inline(always)]
pub fn slots_field(object: Object<'_>) -> Result<u32, Stop>
    ensures { Gives result (field_or_zero FieldName.SlotsField count_value (object_data object.entry)) }
{
    match object.get(FieldName::SlotsField) {
        None => Ok(0),
        Some(value) => good_field(FieldName::SlotsField, count_in(value)),
    }
}

/// A thread, number 0 where the field is missing.
#[inline(always)]
pub fn thread_field(object: Object<'_>) -> Result<ThreadNo, Stop>
    ensures { Gives result (field_or_zero FieldName.ThreadField thread_value (object_data object.entry)) }
{
    let thread = match object.get(FieldName::ThreadField) {
        None => ThreadNo::of(0),
        Some(value) => thread_in(value),
    };
    good_field(FieldName::ThreadField, thread)
}

/// The value of a field that must be there.
#[inline(always)]
pub fn needed_field<'a>(object: Object<'a>, field: FieldName) -> Result<FieldValue<'a>, Stop>
    ensures { MatchResult result (λ value. get (field_text field) (object_data object.entry) ≡ Some (value_data value))
        (λ stop. (stop ≡ Stop.Refused (Refusal.MissingField field)) × (get (field_text field) (object_data object.entry) ≡ None)) }
{
    let value = object.get(field).ok_or(Refusal::MissingField(field))?;
    Ok(value)
}

/// The value of a field, if it is one that the field may have.
#[inline(always)]
pub fn good_field<T>(field: FieldName, value: Option<T>) -> Result<T, Stop>
    ensures { Gives result (good_value field value) }
{
    let value = value.ok_or(Refusal::BadField(field))?;
    Ok(value)
}

/// How a field is spelled in a trace.
pub fn spelling_of(field: FieldName) -> &'static str
    ensures { result.now ≡ field_text field }
{
    match field {
        FieldName::OpField => "op",
        FieldName::IdField => "id",
        FieldName::TypeField => "type",
        FieldName::SlotsField => "slots",
        FieldName::ThreadField => "thread",
        FieldName::AtField => "at",
        FieldName::SlotField => "slot",
        FieldName::ToField => "to",
        FieldName::NameField => "name",
        FieldName::LimitField => "limit",
        FieldName::OwnerField => "owner",
        FieldName::OwneeField => "ownee",
        FieldName::WeakField => "weak",
    }
}

#[inline(always)]
pub fn count_in(value: FieldValue<'_>) -> Option<u32>
    ensures { result ≡ count_value (value_data value.entry) }
{
    let n = value.as_u64()?;
    if n < 4_294_967_296 {
        Some(n as u32)
    } else {
        None
    }
}

#[inline(always)]
pub fn id_in(value: FieldValue<'_>) -> Option<ObjId>
    ensures { result ≡ id_value (value_data value.entry) }
{
    ObjId::of(count_in(value)?)
}

#[inline(always)]
pub fn thread_in(value: FieldValue<'_>) -> Option<ThreadNo>
    ensures { result ≡ thread_value (value_data value.entry) }
{
    ThreadNo::of(count_in(value)?)
}

#[inline(always)]
pub fn target_in(value: FieldValue<'_>) -> Option<Option<ObjId>>
    ensures { result ≡ target_value (value_data value.entry) }
{
    if value.is_null() {
        Some(None)
    } else {
        Some(Some(id_in(value)?))
    }
}

fn name_in(names: &mut RecentNames, value: FieldValue<'_>) -> Result<Option<Name>, OutOfMemory>
    ensures { IfOk result (λ name. name ≡ name_value (value_data value.entry)) }
{
    match value.as_str() {
        None => Ok(None),
        Some(text) => names.name_of(text),
    }
}
