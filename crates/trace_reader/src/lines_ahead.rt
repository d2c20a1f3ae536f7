ghost use Rattle.std.specs.Prelude.{◌≡◌, ◌<◌, ◌≤◌, length, All, IfSome};
ghost use Rattle.trace_reader.specs.Ahead.{IsReadOf, nothing_ahead};

use crate::line::LineReader;
use crate::line_ahead::LineAhead;
use std::alloc::Global;
use std::marker::Model;
use std::mem;

/// A text of whole lines that stands ahead in a trace, and those of its lines that were read before their turn, in order. It may be read
/// by another thread than the one that takes its lines.
#[derive(Drop)]
pub struct LinesAhead {
    text: Vec<u8>,
    lines: Vec<LineAhead>,
}

impl Model for LinesAhead {
    ghost use Rattle.std.specs.Prelude.{All};
    ghost use Rattle.trace_reader.specs.Ahead.{IsReadOf, TextAhead};

    ghost Value = { TextAhead };

    ghost view = { λ a. record { text = a.text.items; lines = a.lines.items } };

    ghost invariant = { λ a. All (IsReadOf a.text.items) a.lines.items };
}

impl LinesAhead {
    /// No text.
    pub fn none(alloc: Global) -> LinesAhead
        ensures { result ≡ nothing_ahead }
    {
        LinesAhead {
            text: Vec::new(alloc),
            lines: Vec::new(alloc),
        }
    }

    /// Its text.
    pub fn text(&self) -> &[u8]
        ensures { result.now ≡ self.now.text }
    {
        &self.text
    }

    /// Its lines.
    pub fn lines(&self) -> &[LineAhead]
        ensures lines { result.now ≡ self.now.lines }
        ensures read { All (IsReadOf self.now.text) result.now }
    {
        &self.lines
    }

    /// Takes this text in place of its own, which it leaves there, and reads the whole lines of it. When out of memory, it has the first of
    /// them or none.
    pub fn read(&mut self, text: &mut Vec<u8>, reader: &mut LineReader)
        ensures text { self.new.text ≡ text.old.items }
        ensures own { text.new.items ≡ self.old.text }
    {
        self.lines.clear();
        mem::swap(&mut self.text, text);
        let mut from = 0;
        while let Some(next) = self.read_next(from, reader) {
            from = next;
        }
    }

    // Reads the line that begins at this place behind those that it has, if a whole one begins there, and answers where the one behind
    // it begins. When out of memory it reads none.
    fn read_next(&mut self, from: usize, reader: &mut LineReader) -> Option<usize>
        requires within { from ≤ length self.old.text }
        ensures text { self.new.text ≡ self.old.text }
        ensures next { IfSome result (λ next. (from < next) × (next ≤ length self.old.text)) }
    {
        self.lines.reserve(1).ok()?;
        let line = LineAhead::read(reader, &self.text, from)?;
        let next = from + line.bytes + 1;
        self.lines.push_reserved(line);
        Some(next)
    }
}
