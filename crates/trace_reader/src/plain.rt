ghost use Rattle.std.specs.Prelude.{◌≡◌, ◌<◌, ℕ, false, IsTrue, Some, IfOk, IfSome, OnSome, length};
ghost use Rattle.json.specs.Json.{members, value};
ghost use Rattle.serde_json.specs.Data.{Data, Members, no_members, object, unsigned};
ghost use Rattle.serde_json.specs.Read.{converted, number_from, number_of, of_json, of_members, read};
ghost use Rattle.trace_reader.specs.Objects.{no_fields, value_data, HasFieldsOf};
ghost use Rattle.trace_reader.specs.Skips.{member_depth, IsMemberValue, TakesMember};

use crate::fields::Fields;
use crate::key::field_spelled;
use crate::object::FieldValue;
use crate::skip::{MEMBER_DEPTH, skip_value};
use fast_float::Numeral;
use heap_base::OutOfMemory;
use json::{Reader, Scratch, Token};

// A number of so many digits is below 2^64.
const FEW_DIGITS: usize = 19;

/// Whether a text is a plain object: each member whose key names a field is null, true, false, a whole number or a
/// text. If it is one, its fields are found; if not, some of them may be.
pub fn read_plain<'a>(
    text: &'a str,
    scratch: &'a mut Scratch,
    fields: &mut Fields<'a>,
) -> Result<bool, OutOfMemory>
    requires { fields.old ≡ no_fields }
    ensures { IfOk result (λ plain. IsTrue plain → (found : Members) × (read text.now ≡ Some (object found)) × HasFieldsOf fields.new found) }
{
    let Ok(mut reader) = Reader::new(text, scratch) else {
        return Err(OutOfMemory);
    };
    let Some(Token::BeginObject) = reader.next() else {
        return Ok(false);
    };
    Ok(read_members(&mut reader, fields) && reader.next().is_none())
}

// Reads on to the end of the object that was begun, if it is plain.
fn read_members<'a>(reader: &mut Reader<'a>, fields: &mut Fields<'a>) -> bool
    requires { fields.old ≡ no_fields }
    ensures { IsTrue result → (found : Members) × HasFieldsOf fields.new found × (converted (λ all. of_members all no_members) (members (value member_depth) (length reader.old) reader.old) ≡ Some (found, reader.new)) }
{
    'members: loop {
        let Ok(key) = reader.next_key() else {
            return false;
        };
        let Some(key) = key else {
            return true;
        };
        if !read_member(key, reader, fields) {
            return false;
        }
    }
}

// Reads the value of a member, which counts where its key names a field, and only has to be one that serde_json takes
// where it names none. Of a key that stands twice the later value counts.
#[inline(always)]
fn read_member<'a>(key: &str, reader: &mut Reader<'a>, fields: &mut Fields<'a>) -> bool
    ensures value { IsTrue result → (d : Data) × IsMemberValue reader.old d reader.new × TakesMember fields.old fields.new key.now d }
    ensures shorter { IsTrue result → length reader.new < length reader.old }
{
    let Some(field) = field_spelled(key) else {
        return skip_value(reader, MEMBER_DEPTH);
    };
    let Some(value) = plain_value(reader) else {
        return false;
    };
    fields.set(field, value);
    true
}

#[inline(always)]
pub fn plain_value<'a>(reader: &mut Reader<'a>) -> Option<FieldValue<'a>>
    ensures value { IfSome result (λ v. (depth : ℕ) → converted of_json (value depth reader.old) ≡ Some (value_data v, reader.new)) }
    ensures shorter { OnSome result (length reader.new < length reader.old) }
{
    match reader.next()? {
        Token::Null => Some(FieldValue::Null),
        Token::Bool(b) => Some(FieldValue::Bool(b)),
        Token::String(text) => Some(FieldValue::Text(text)),
        Token::Number(text) => Some(FieldValue::Whole(whole_number(text)?)),
        _ => None,
    }
}

// The number of a token that is all digits, if it is below 2^64.
#[inline(always)]
fn whole_number(text: &str) -> Option<u64>
    ensures { IfSome result (λ n. number_of text.now ≡ Some (unsigned n)) }
{
    let bytes = text.as_bytes();
    match number_of_few_digits(bytes) {
        Some(n) => Some(n),
        None => number_of_digits(bytes),
    }
}

// The number of a text that is all digits, if they are at most `FEW_DIGITS`.
#[inline(always)]
fn number_of_few_digits(bytes: &[u8]) -> Option<u64>
    ensures { IfSome result (λ n. number_of bytes.now ≡ Some (unsigned n)) }
{
    if bytes.is_empty() || bytes.len() > FEW_DIGITS {
        return None;
    }
    let mut value = 0u64;
    let mut at = 0;
    'digits: while at < bytes.len() {
        let digit = (bytes[at] as u64).wrapping_sub(b'0' as u64);
        if digit > 9 {
            return None;
        }
        value = value * 10 + digit;
        at += 1;
    }
    Some(value)
}

// The number of a text that is all digits, if it is below 2^64. Never inlined, since few numbers have so many digits.
#[inline(never)]
fn number_of_digits(bytes: &[u8]) -> Option<u64>
    ensures { IfSome result (λ n. number_of bytes.now ≡ Some (unsigned n)) }
{
    if bytes.is_empty() || bytes[0] == b'-' {
        return None;
    }
    unsigned(&Numeral::scan(bytes))
}

#[inline(always)]
fn unsigned(numeral: &Numeral<'_>) -> Option<u64>
    ensures { IfSome result (λ n. number_from false numeral.now ≡ Some (unsigned n)) }
{
    numeral.to_u64()
}
