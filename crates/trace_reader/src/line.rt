ghost use Rattle.std.specs.Prelude.{◌≡◌, IfOk, IsOk, IsTrue, ⊤};
ghost use Rattle.std.specs.List.{list_all};
ghost use Rattle.trace_reader.specs.Cutter.{TellsItem};
ghost use Rattle.trace_reader.specs.Meaning.{Gives, event_of_json, item_of_line, json_of, is_blank};
ghost use Rattle.serde_json.specs.Read.{read};

use crate::fields::Fields;
use crate::names::RecentNames;
use crate::object::Object;
use crate::operation::event_of_object;
use crate::plain::read_plain;
use crate::reader::{Ahead, EventReader};
use crate::usual::UsualLines;
use crate::utf8::text_of;
use graph_meaning::{Event, Refusal, Stop};
use heap_base::OutOfMemory;
use json::Scratch;
use serde_json::Value;
use std::alloc::Global;

/// Reads lines as operations, in memory that it keeps from line to line.
#[derive(Drop)]
pub struct LineReader {
    names: RecentNames,
    usual: UsualLines,
    scratch: Scratch,
}

impl LineReader {
    /// A reader that has read nothing. It takes memory only where a line asks for it.
    pub fn make(alloc: Global) -> LineReader {
        LineReader {
            names: RecentNames::new(alloc),
            usual: UsualLines::new(),
            scratch: Scratch::new(alloc),
        }
    }

    /// The operation that a line is, without its newline, and `Ok(None)` for a line of spaces, tabs and carriage
    /// returns alone. It refuses, in this order, a line that is no JSON text (`NotJson`), a value that is no
    /// object (`NotObject`), a missing or bad `op`, an operation that is not known (`UnknownOp`), and the first
    /// field that is missing or bad (`MissingField`, `BadField`).
    #[tactic(auto, unfolding(crate::specs::Meaning::item_of_line))]
    pub fn event_of(&mut self, line: &[u8]) -> Result<Option<Event>, Stop>
        ensures { TellsItem result (item_of_line line.now) }
    {
        if is_blank_line(line) {
            return Ok(None);
        }
        let event = self.event_of_line(line)?;
        Ok(Some(event))
    }

    /// Whether a text would be read by the way of usual lines if it came next: as a store or an alloc that has its members in the usual
    /// order. It counts as a line that was read. Only the time that a line takes depends on it, so no contract says which texts are; tests do.
    pub fn reads_as_usual(&mut self, text: &str) -> Result<bool, OutOfMemory>
        ensures { IfOk result (λ usual. IsTrue usual → IsOk (event_of_json (read text.now))) }
    {
        let event = self
            .usual
            .event_of(&mut self.names, text, &mut self.scratch)?;
        Ok(event.is_some())
    }

    // The operation of a line that is one JSON text (RFC 8259) in UTF-8.
    #[tactic(auto, using(crate::proofs::Json::json_of_text, crate::proofs::Json::json_of_no_text))]
    fn event_of_line(&mut self, line: &[u8]) -> Result<Event, Stop>
        ensures { Gives result (event_of_json (json_of line.now)) }
    {
        match text_of(line) {
            Some(text) => self.event_of_text(text),
            None => Err(Stop::Refused(Refusal::NotJson)),
        }
    }

    // Most lines are read as usual ones.
    fn event_of_text(&mut self, text: &str) -> Result<Event, Stop>
        ensures { Gives result (event_of_json (read text.now)) }
    {
        let usual = self
            .usual
            .event_of(&mut self.names, text, &mut self.scratch)?;
        match usual {
            Some(event) => Ok(event),
            None => event_of_unusual(&mut self.names, text, &mut self.scratch),
        }
    }
}

impl EventReader for LineReader {
    ghost ready = { λ _. ⊤ };

    fn event_of(&mut self, line: &[u8]) -> Result<Option<Event>, Stop> {
        LineReader::event_of(self, line)
    }

    fn look_ahead(&mut self, _behind: &[u8]) {}

    fn lines_ahead(&self) -> Option<Ahead<'_>> {
        None
    }

    fn pass_ahead(&mut self, _bytes: usize) {}

    fn ahead(&self) -> usize {
        0
    }
}

/// What `LineReader::event_of` answers, for a line alone.
pub fn event_of(alloc: Global, line: &[u8]) -> Result<Option<Event>, Stop>
    ensures { TellsItem result (item_of_line line.now) }
{
    LineReader::make(alloc).event_of(line)
}

fn is_blank_line(line: &[u8]) -> bool
    ensures { result ≡ list_all is_blank line.now }
{
    line.iter()
        .all(|b| *b == b' ' || *b == b'\t' || *b == b'\r')
}

// Most other lines are plain objects, which are read without memory of their own; serde_json reads what is left.
#[inline(never)]
fn event_of_unusual(
    names: &mut RecentNames,
    text: &str,
    scratch: &mut Scratch,
) -> Result<Event, Stop>
    ensures { Gives result (event_of_json (read text.now)) }
{
    let mut fields = Fields::new();
    let plain = read_plain(text, scratch, &mut fields)?;
    if plain {
        event_of_object(names, Object::Plain(&fields))
    } else {
        event_of_any(names, text)
    }
}

// Never inlined, since what serde_json keeps on the stack would then be touched for every line.
#[inline(never)]
fn event_of_any(names: &mut RecentNames, text: &str) -> Result<Event, Stop>
    ensures { Gives result (event_of_json (read text.now)) }
{
    match Value::from_str(names.alloc, text) {
        Ok(value) => event_of_object(names, Object::Any(&value)),
        Err(error) if error.is_memory() => Err(Stop::OutOfMemory),
        Err(_) => Err(Stop::Refused(Refusal::NotJson)),
    }
}
