ghost use Rattle.std.specs.Prelude.{◌≡◌, ◌<◌, ◌∷◌, [], IfOk, IfSome, IsTrue, Ok, OnSome, Some, length, option_map};
ghost use Rattle.json.specs.Token.{Token as SpecToken};
ghost use Rattle.json.specs.Json.{read_key};
ghost use Rattle.serde_json.specs.Data.{string};
ghost use Rattle.serde_json.specs.Read.{read};
ghost use Rattle.trace_reader.specs.Meaning.{event_of_json};
ghost use Rattle.trace_reader.specs.Skips.{IsMemberValue};
ghost use Rattle.trace_reader.specs.Usual.{EndsBehind, IsAllocOf, IsEventOf};

use crate::field::{count_in, id_in, target_in, thread_in};
use crate::key::field_spelled;
use crate::names::RecentNames;
use crate::operation::equals;
use crate::plain::plain_value;
use crate::skip::{MEMBER_DEPTH, skip_value};
use graph_meaning::Event;
use heap_base::{ObjId, OutOfMemory, ThreadNo};
use json::{Reader, Scratch, Token};

// So many lines of an operation are not tried after one that was not usual, so that few are read twice where none is usual.
const LINES_PASSED: u32 = 15;

/// Reads the stores and allocs that have their members in the usual order: `op`, the operation's fields in the order in which they are
/// tested, and then members that name no field. They are most lines of most traces, and are read in less time than other plain objects.
#[derive(Drop)]
pub struct UsualLines {
    stores: Tries,
    allocs: Tries,
}

impl UsualLines {
    /// It has seen no line.
    pub fn new() -> UsualLines {
        UsualLines {
            stores: Tries { lines_passed: 0 },
            allocs: Tries { lines_passed: 0 },
        }
    }

    /// The operation that a text is, if it is seen to be a usual one. `Ok(None)` says nothing of the text.
    #[inline(always)]
    pub fn event_of(
        &mut self,
        names: &mut RecentNames,
        text: &str,
        scratch: &mut Scratch,
    ) -> Result<Option<Event>, OutOfMemory>
        ensures { IfOk result (λ usual. IfSome usual (λ event. event_of_json (read text.now) ≡ Ok event)) }
    {
        match likely_op(text.as_bytes()) {
            LikelyOp::Store => self.store(text, scratch),
            LikelyOp::Alloc => self.alloc(names, text, scratch),
            LikelyOp::Other => Ok(None),
        }
    }

    #[inline(always)]
    fn store(&mut self, text: &str, scratch: &mut Scratch) -> Result<Option<Event>, OutOfMemory>
        ensures { IfOk result (λ usual. IfSome usual (λ event. event_of_json (read text.now) ≡ Ok event)) }
    {
        if !self.stores.is_due() {
            return Ok(None);
        }
        let event = store_event(Reader::new(text, scratch)?);
        self.stores.learn(event.is_some());
        Ok(event)
    }

    #[inline(always)]
    fn alloc(
        &mut self,
        names: &mut RecentNames,
        text: &str,
        scratch: &mut Scratch,
    ) -> Result<Option<Event>, OutOfMemory>
        ensures { IfOk result (λ usual. IfSome usual (λ event. event_of_json (read text.now) ≡ Ok event)) }
    {
        if !self.allocs.is_due() {
            return Ok(None);
        }
        let event = alloc_event(names, Reader::new(text, scratch)?)?;
        self.allocs.learn(event.is_some());
        Ok(event)
    }
}

// When the lines of an operation are tried.
#[derive(Drop)]
struct Tries {
    // so many lines more are not
    lines_passed: u32,
}

impl Tries {
    // Whether the next line is tried.
    #[inline(always)]
    fn is_due(&mut self) -> bool {
        if self.lines_passed == 0 {
            return true;
        }
        self.lines_passed -= 1;
        false
    }

    // A line was tried, and was usual or not.
    #[inline(always)]
    fn learn(&mut self, usual: bool) {
        self.lines_passed = if usual { 0 } else { LINES_PASSED };
    }
}

// What the letters of a line suggest that its operation is.
enum LikelyOp {
    Store,
    Alloc,
    Other,
}

// By the letters where the operation stands if `op` is the first member, with a blank before its value or with none.
#[inline(always)]
fn likely_op(line: &[u8]) -> LikelyOp {
    if line.len() < 12 {
        return LikelyOp::Other;
    }
    let at = if line[6] == b'"' { 7 } else { 8 };
    match (line[at], line[at + 2]) {
        (b's', b'o') => LikelyOp::Store,
        (b'a', b'l') => LikelyOp::Alloc,
        _ => LikelyOp::Other,
    }
}

// The store that is read. The reader is taken by value, so that what it stands at is kept in registers.
#[inline(never)]
fn store_event(reader: Reader<'_>) -> Option<Event>
    ensures { IfSome result (λ event. IsEventOf reader.entry event) }
{
    let mut reader = reader;
    take_begin(&mut reader)?;
    take_key(&mut reader, "op")?;
    take_text(&mut reader, "store")?;
    take_key(&mut reader, "at")?;
    let at = id_in(plain_value(&mut reader)?)?;
    take_key(&mut reader, "slot")?;
    let slot = count_in(plain_value(&mut reader)?)?;
    take_key(&mut reader, "to")?;
    let to = target_in(plain_value(&mut reader)?)?;
    let key = reader.next_key().ok()?;
    if !ends_behind(reader, key) {
        return None;
    }
    Some(Event::Store { at, slot, to })
}

// The alloc that is read.
#[inline(never)]
fn alloc_event(names: &mut RecentNames, reader: Reader<'_>) -> Result<Option<Event>, OutOfMemory>
    ensures { IfOk result (λ usual. IfSome usual (λ event. IsEventOf reader.entry event)) }
{
    let Some(alloc) = alloc_fields(reader) else {
        return Ok(None);
    };
    let Some(kind) = names.name_of(alloc.kind)? else {
        return Ok(None);
    };
    Ok(Some(Event::Alloc {
        id: alloc.id,
        kind,
        slots: alloc.slots,
        thread: alloc.thread,
    }))
}

/// The fields of an alloc.
#[derive(Drop)]
pub struct AllocFields<'a> {
    pub id: ObjId,
    pub kind: &'a str,
    pub slots: u32,
    pub thread: ThreadNo,
}

#[inline(always)]
fn alloc_fields<'a>(reader: Reader<'a>) -> Option<AllocFields<'a>>
    ensures { IfSome result (λ fields. IsAllocOf reader.entry fields) }
{
    let mut reader = reader;
    take_begin(&mut reader)?;
    take_key(&mut reader, "op")?;
    take_text(&mut reader, "alloc")?;
    take_key(&mut reader, "id")?;
    let id = id_in(plain_value(&mut reader)?)?;
    take_key(&mut reader, "type")?;
    let kind = plain_value(&mut reader)?.as_str()?;
    take_key(&mut reader, "slots")?;
    let slots = count_in(plain_value(&mut reader)?)?;
    let key = reader.next_key().ok()?;
    if let Some(found) = key {
        if equals(found, "thread") {
            let thread = thread_in(plain_value(&mut reader)?)?;
            let key = reader.next_key().ok()?;
            if !ends_behind(reader, key) {
                return None;
            }
            return Some(AllocFields {
                id,
                kind,
                slots,
                thread,
            });
        }
    }
    if !ends_behind(reader, key) {
        return None;
    }
    Some(AllocFields {
        id,
        kind,
        slots,
        thread: ThreadNo::of(0)?,
    })
}

// Takes the brace that begins an object.
#[inline(always)]
fn take_begin(reader: &mut Reader<'_>) -> Option<()>
    ensures { OnSome result (reader.old ≡ SpecToken.begin_object ∷ reader.new) }
{
    match reader.next()? {
        Token::BeginObject => Some(()),
        _ => None,
    }
}

// Takes this key.
#[inline(always)]
fn take_key(reader: &mut Reader<'_>, key: &str) -> Option<()>
    ensures { OnSome result (read_key reader.old ≡ Some (Some key.now, reader.new)) }
{
    let found = reader.next_key().ok()??;
    if equals(found, key) { Some(()) } else { None }
}

// Takes this text, as a member's value.
#[inline(always)]
fn take_text(reader: &mut Reader<'_>, text: &str) -> Option<()>
    ensures value { OnSome result (IsMemberValue reader.old (string text.now) reader.new) }
    ensures shorter { OnSome result (length reader.new < length reader.old) }
{
    let found = plain_value(reader)?.as_str()?;
    if equals(found, text) { Some(()) } else { None }
}

// Whether an object goes on, behind the key that was read or the brace that closes it, with members that name no field, and nothing
// stands behind it.
#[inline(always)]
fn ends_behind(reader: Reader<'_>, key: Option<&str>) -> bool
    ensures { IsTrue result → EndsBehind (option_map (λ k. k.now) key.entry) reader.entry }
{
    match key {
        None => is_at_end(reader),
        Some(key) => names_no_field(reader, key),
    }
}

#[inline(always)]
fn is_at_end(reader: Reader<'_>) -> bool
    ensures { IsTrue result → reader.entry ≡ [] }
{
    let mut reader = reader;
    reader.next().is_none()
}

// The same, behind a key.
#[inline(never)]
fn names_no_field(reader: Reader<'_>, key: &str) -> bool
    ensures { IsTrue result → EndsBehind (Some key.now) reader.entry }
{
    let mut reader = reader;
    let mut key = key;
    'members: loop {
        if field_spelled(key).is_some() || !skip_value(&mut reader, MEMBER_DEPTH) {
            return false;
        }
        match reader.next_key() {
            Err(_) => return false,
            Ok(None) => return is_at_end(reader),
            Ok(Some(next)) => key = next,
        }
    }
}
