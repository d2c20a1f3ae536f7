ghost use Rattle.std.specs.Prelude.{◌≡◌, ◌++◌, codes, decimal, OnOk};
ghost use Rattle.report.specs.Text.{refusal_text};
ghost use Rattle.trace_reader.specs.Meaning.{field_text};

use graph_meaning::{FieldName, Refusal};
use heap_base::OutOfMemory;
use streams::{put, put_number};
use trace_reader::spelling_of;

/// Appends the name of a refusal, and its detail where it has one.
pub(crate) fn put_refusal(text: &mut Vec<u8>, refusal: &Refusal) -> Result<(), OutOfMemory>
    ensures { OnOk result (text.new.items ≡ text.old.items ++ refusal_text refusal.now) }
{
    match *refusal {
        Refusal::LineTooLong => put(text, b"LineTooLong"),
        Refusal::TraceTooLong => put(text, b"TraceTooLong"),
        Refusal::NotJson => put(text, b"NotJson"),
        Refusal::NotObject => put(text, b"NotObject"),
        Refusal::UnknownOp => put(text, b"UnknownOp"),
        Refusal::MissingField(field) => put_with_field(text, b"MissingField ", field),
        Refusal::BadField(field) => put_with_field(text, b"BadField ", field),
        Refusal::IdNotRising(id) => put_with_number(text, b"IdNotRising ", id),
        Refusal::TooManyObjects => put(text, b"TooManyObjects"),
        Refusal::TooManySlots => put(text, b"TooManySlots"),
        Refusal::NotLive(id) => put_with_number(text, b"NotLive ", id),
        Refusal::BadSlot(slot) => put_with_number(text, b"BadSlot ", slot),
        Refusal::TooManyRoots => put(text, b"TooManyRoots"),
        Refusal::TooManyTypes => put(text, b"TooManyTypes"),
        Refusal::TooDeep(thread) => put_with_number(text, b"TooDeep ", thread),
        Refusal::NoRegion(thread) => put_with_number(text, b"NoRegion ", thread),
        Refusal::SelfOwned(id) => put_with_number(text, b"SelfOwned ", id),
    }
}

fn put_with_number(text: &mut Vec<u8>, name: &[u8], number: u32) -> Result<(), OutOfMemory>
    ensures { OnOk result (text.new.items ≡ text.old.items ++ (name.now ++ decimal number)) }
{
    put(text, name)?;
    put_number(text, number as u64)
}

fn put_with_field(text: &mut Vec<u8>, name: &[u8], field: FieldName) -> Result<(), OutOfMemory>
    ensures { OnOk result (text.new.items ≡ text.old.items ++ (name.now ++ field_text field)) }
{
    put(text, name)?;
    put(text, spelling_of(field).as_bytes())
}
