ghost use Rattle.std.specs.Prelude.{◌≡◌, ◌≢◌, Some};
ghost use Rattle.graph_meaning.specs.declared.refusal.FieldName.{FieldName};
ghost use Rattle.trace_reader.specs.Objects.{no_fields, value_of};

use crate::object::FieldValue;
use graph_meaning::FieldName;

// There are so many fields.
const FIELDS: usize = 13;

/// The values of an object's fields, each `None` where the object has no member of that key.
#[derive(Drop)]
pub struct Fields<'a> {
    /// The value of each field, at the place of its name.
    pub values: [Option<FieldValue<'a>>; FIELDS],
}

impl<'a> Fields<'a> {
    /// The fields of an object without members.
    pub fn new() -> Fields<'a>
        ensures { result ≡ no_fields }
    {
        Fields {
            values: [None; FIELDS],
        }
    }

    /// The value of a field, if it is there.
    #[inline(always)]
    pub fn get(&self, field: FieldName) -> Option<FieldValue<'a>>
        ensures { result ≡ value_of self.now field }
    {
        let values = &self.values[..];
        values[field as usize]
    }

    /// Gives a field this value, in place of the one that it had.
    #[inline(always)]
    pub fn set(&mut self, field: FieldName, value: FieldValue<'a>)
        ensures value { value_of self.new field ≡ Some value.entry }
        ensures others { (other : FieldName) → other ≢ field → value_of self.new other ≡ value_of self.old other }
    {
        let values = &mut self.values[..];
        values[field as usize] = Some(value);
    }
}
