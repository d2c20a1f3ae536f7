ghost use Rattle.std.specs.Prelude.{◌≡◌, option_map, is_some};
ghost use Rattle.serde_json.specs.Find.{as_bool, as_null, as_object, as_str, get};
ghost use Rattle.serde_json.specs.View.{view};
ghost use Rattle.trace_reader.specs.Meaning.{field_text, whole_number};
ghost use Rattle.trace_reader.specs.Objects.{value_data, object_data};

use crate::field::spelling_of;
use crate::fields::Fields;
use graph_meaning::FieldName;
use serde_json::Value;

/// The JSON value of a field.
#[derive(Clone, Copy, Debug, Drop)]
pub enum FieldValue<'a> {
    Null,
    Bool(bool),
    /// A whole number below 2^64 that was written as digits alone.
    Whole(u64),
    /// A text, its escapes replaced by what they stand for.
    Text(&'a str),
    /// Any value, as serde_json gives it.
    Json(&'a Value),
}

/// The JSON value of a line.
#[derive(Clone, Copy, Drop)]
pub enum Object<'a> {
    /// An object each of whose values is null, true, false, a whole number or a text, by its fields.
    Plain(&'a Fields<'a>),
    /// Any value, as serde_json gives it.
    Any(&'a Value),
}

impl<'a> Object<'a> {
    /// Whether the value is an object.
    pub fn is_object(self) -> bool
        ensures { result ≡ is_some (as_object (object_data self.entry)) }
    {
        match self {
            Object::Plain(_) => true,
            Object::Any(value) => value.is_object(),
        }
    }

    /// The value of a field, if it is there.
    #[inline(always)]
    pub fn get(self, field: FieldName) -> Option<FieldValue<'a>>
        ensures { option_map value_data result ≡ get (field_text field) (object_data self.entry) }
    {
        match self {
            Object::Plain(fields) => fields.get(field),
            Object::Any(value) => json_field(value, field),
        }
    }
}

// Never inlined, so that `get` stays small enough to be inlined.
#[inline(never)]
fn json_field<'a>(value: &'a Value, field: FieldName) -> Option<FieldValue<'a>>
    ensures { option_map value_data result ≡ get (field_text field) (view value.now) }
{
    value.get(spelling_of(field)).map(FieldValue::Json)
}

impl FieldValue<'_> {
    /// The whole number below 2^64 that it is, if it is one.
    #[inline(always)]
    pub fn as_u64(self) -> Option<u64>
        ensures { result ≡ whole_number (value_data self.entry) }
    {
        match self {
            FieldValue::Whole(n) => Some(n),
            FieldValue::Json(value) => value.as_u64(),
            FieldValue::Null | FieldValue::Bool(_) | FieldValue::Text(_) => None,
        }
    }

    /// Whether it is null.
    #[inline(always)]
    pub fn is_null(self) -> bool
        ensures { result ≡ is_some (as_null (value_data self.entry)) }
    {
        match self {
            FieldValue::Null => true,
            FieldValue::Json(value) => value.is_null(),
            FieldValue::Bool(_) | FieldValue::Whole(_) | FieldValue::Text(_) => false,
        }
    }

    /// The truth value that it is, if it is one.
    pub fn as_bool(self) -> Option<bool>
        ensures { result ≡ as_bool (value_data self.entry) }
    {
        match self {
            FieldValue::Bool(b) => Some(b),
            FieldValue::Json(value) => value.as_bool(),
            FieldValue::Null | FieldValue::Whole(_) | FieldValue::Text(_) => None,
        }
    }
}

impl<'a> FieldValue<'a> {
    /// The text that it is, if it is one.
    #[inline(always)]
    pub fn as_str(self) -> Option<&'a str>
        ensures { option_map (λ s. s.now) result ≡ as_str (value_data self.entry) }
    {
        match self {
            FieldValue::Text(text) => Some(text),
            FieldValue::Json(value) => value.as_str(),
            FieldValue::Null | FieldValue::Bool(_) | FieldValue::Whole(_) => None,
        }
    }
}
