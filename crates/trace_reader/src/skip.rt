ghost use Rattle.std.specs.Prelude.{◌≡◌, ◌<◌, ◌==◌, IsTrue, Some, false, is_some, length, slice_index, true};
ghost use Rattle.serde_json.specs.Read.{float_of, number_from, number_of};
ghost use Rattle.trace_reader.specs.Skips.{after_items, after_members, after_value};

use fast_float::Numeral;
use json::{Reader, Token};

/// How deep arrays and objects may nest in a member's value: serde_json lets 127 of them nest, and one is the object around it.
pub const MEMBER_DEPTH: usize = 126;

/// Passes over the value that comes next, without keeping anything of it. False where serde_json may refuse the value: the
/// reader is then of no more use.
#[cycle(skip)]
#[inline(always)]
pub fn skip_value(reader: &mut Reader<'_>, depth: usize) -> bool
    ensures value { IsTrue result → after_value depth reader.old ≡ Some reader.new }
    ensures shorter { IsTrue result → length reader.new < length reader.old }
{
    let Some(token) = reader.next() else {
        return false;
    };
    match token {
        Token::Null | Token::Bool(_) | Token::String(_) => true,
        Token::Number(text) => is_number(text),
        Token::BeginArray => depth > 0 && skip_items(reader, depth - 1),
        Token::BeginObject => depth > 0 && skip_members(reader, depth - 1),
        Token::EndArray | Token::EndObject | Token::Key(_) | Token::Bad => false,
    }
}

// Passes over the items that are left of an array.
#[cycle(skip)]
#[inline(never)]
fn skip_items(reader: &mut Reader<'_>, depth: usize) -> bool
    ensures value { IsTrue result → after_items depth reader.old ≡ Some reader.new }
    ensures shorter { IsTrue result → length reader.new < length reader.old }
{
    'items: while !reader.take_end_array() {
        if !skip_value(reader, depth) {
            return false;
        }
    }
    true
}

// Passes over the members that are left of an object.
#[cycle(skip)]
#[inline(never)]
fn skip_members(reader: &mut Reader<'_>, depth: usize) -> bool
    ensures value { IsTrue result → after_members depth reader.old ≡ Some reader.new }
    ensures shorter { IsTrue result → length reader.new < length reader.old }
{
    'members: loop {
        let Ok(key) = reader.next_key() else {
            return false;
        };
        let Some(_key) = key else {
            return true;
        };
        if !skip_value(reader, depth) {
            return false;
        }
    }
}

// Whether serde_json takes a number with this text: one that is too large for a float is refused.
#[inline(always)]
fn is_number(text: &str) -> bool
    ensures { result ≡ is_some (number_of text.now) }
{
    let bytes = text.as_bytes();
    if has_minus(bytes) {
        is_negative(&Numeral::scan(&bytes[1..]))
    } else {
        is_unsigned(&Numeral::scan(bytes))
    }
}

#[inline(always)]
fn has_minus(bytes: &[u8]) -> bool
    ensures value { result ≡ (slice_index bytes.now 0 == 45) }
    ensures len { IsTrue result → 0 < length bytes.now }
{
    !bytes.is_empty() && bytes[0] == b'-'
}

#[inline(always)]
fn is_unsigned(numeral: &Numeral<'_>) -> bool
    ensures { result ≡ is_some (number_from false numeral.now) }
{
    numeral.to_u64().is_some() || is_finite(false, numeral)
}

#[inline(always)]
fn is_negative(numeral: &Numeral<'_>) -> bool
    ensures { result ≡ is_some (number_from true numeral.now) }
{
    if let Some(n) = numeral.to_i64(true) {
        if n < 0 {
            return true;
        }
    }
    is_finite(true, numeral)
}

#[inline(always)]
fn is_finite(negative: bool, numeral: &Numeral<'_>) -> bool
    ensures { result ≡ is_some (float_of negative numeral.now) }
{
    numeral.to_float::<f64>(negative).is_finite()
}
