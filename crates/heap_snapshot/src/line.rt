//! What a line of a snapshot says.
ghost use Rattle.std.specs.Prelude.{◌≡◌, IfOk, option_map};
ghost use Rattle.heap_snapshot.specs.Lines.{line_in, number_in, number_first, object_line_in, root_line_in, said_by, slot_line_in, text_in, words_in};

use heap_base::{Name, ObjId, OutOfMemory};
use itoa::Buffer;
use std::alloc::Global;

/// What a line says.
#[derive(Debug, Drop)]
pub enum Line {
    /// `heapsnap 1`: a snapshot begins.
    Head,
    /// `object ID SLOTS TYPE`: an object with so many slots, which are empty where no line says what they hold.
    Object { id: ObjId, slots: u32, kind: Name },
    /// `slot K TO`: slot K, from 0, of the object of the last object line holds the object TO.
    Slot { slot: u32, to: ObjId },
    /// `root TO NAME`: a root of this name holds the object TO.
    Root { to: ObjId, name: Name },
    /// `end`: the snapshot ends.
    End,
}

/// What a line says, without its newline, and `None` where it says nothing.
#[tactic(auto, using(crate::proofs::Lines::line_of_text, crate::proofs::Lines::line_of_no_text))]
pub fn line_in(alloc: Global, line: &[u8]) -> Result<Option<Line>, OutOfMemory>
    ensures { IfOk result (λ said. said ≡ line_in line.now) }
{
    match str::from_utf8(line) {
        Ok(text) => text_in(alloc, text),
        Err(_) => Ok(None),
    }
}

#[tactic(auto, unfolding(crate::specs::Lines::text_in))]
fn text_in(alloc: Global, text: &str) -> Result<Option<Line>, OutOfMemory>
    ensures { IfOk result (λ said. said ≡ text_in text.now) }
{
    match text {
        "heapsnap 1" => Ok(Some(Line::Head)),
        "end" => Ok(Some(Line::End)),
        _ => words_in(alloc, text),
    }
}

#[tactic(auto, unfolding(crate::specs::Lines::first_word, crate::specs::Lines::words_in))]
fn words_in(alloc: Global, text: &str) -> Result<Option<Line>, OutOfMemory>
    ensures { IfOk result (λ said. said ≡ words_in text.now) }
{
    match text.split_once(' ') {
        Some((word, rest)) => said_by(alloc, word, rest),
        None => Ok(None),
    }
}

fn said_by(alloc: Global, word: &str, rest: &str) -> Result<Option<Line>, OutOfMemory>
    ensures { IfOk result (λ said. said ≡ said_by word.now rest.now) }
{
    match word {
        "object" => object_line_in(alloc, rest),
        "slot" => Ok(slot_line_in(rest)),
        "root" => root_line_in(alloc, rest),
        _ => Ok(None),
    }
}

#[tactic(auto, unfolding(crate::specs::Lines::object_line_in))]
fn object_line_in(alloc: Global, text: &str) -> Result<Option<Line>, OutOfMemory>
    ensures { IfOk result (λ said. said ≡ object_line_in text.now) }
{
    let Some((id, rest)) = number_first(text) else {
        return Ok(None);
    };
    let Some((slots, kind)) = number_first(rest) else {
        return Ok(None);
    };
    let Some(id) = ObjId::of(id) else {
        return Ok(None);
    };
    let Some(kind) = Name::of(alloc, kind)? else {
        return Ok(None);
    };
    Ok(Some(Line::Object { id, slots, kind }))
}

#[tactic(auto, unfolding(crate::specs::Lines::slot_line_in))]
fn slot_line_in(text: &str) -> Option<Line>
    ensures { result ≡ slot_line_in text.now }
{
    let (slot, to) = number_first(text)?;
    let to = ObjId::of(number_in(to)?)?;
    Some(Line::Slot { slot, to })
}

#[tactic(auto, unfolding(crate::specs::Lines::root_line_in))]
fn root_line_in(alloc: Global, text: &str) -> Result<Option<Line>, OutOfMemory>
    ensures { IfOk result (λ said. said ≡ root_line_in text.now) }
{
    let Some((to, name)) = number_first(text) else {
        return Ok(None);
    };
    let Some(to) = ObjId::of(to) else {
        return Ok(None);
    };
    let Some(name) = Name::of(alloc, name)? else {
        return Ok(None);
    };
    Ok(Some(Line::Root { to, name }))
}

// A number that is the first word, and what stands behind it.
#[tactic(auto, unfolding(crate::specs::Lines::first_word, crate::specs::Lines::number_first))]
fn number_first(text: &str) -> Option<(u32, &str)>
    ensures { option_map (λ found. (found.0, found.1.now)) result ≡ number_first text.now }
{
    let (word, rest) = text.split_once(' ')?;
    Some((number_in(word)?, rest))
}

fn number_in(text: &str) -> Option<u32>
    ensures { result ≡ number_in text.now }
{
    let Ok(number) = text.parse::<u32>() else {
        return None;
    };
    let mut buffer = Buffer::new();
    if buffer.format(number) == text {
        Some(number)
    } else {
        None
    }
}
