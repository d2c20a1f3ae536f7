ghost use Rattle.std.specs.Prelude.{◌≡◌, ◌≤◌, length, IfSome};
ghost use Rattle.trace_reader.specs.Ahead.{IsReadOf};

use crate::cut::first_newline;
use crate::line::LineReader;
use graph_meaning::{Event, Stop};

/// A line that was read before its turn: where in a text it begins, how many bytes it has without its newline, and what it is.
#[derive(Drop)]
pub struct LineAhead {
    pub from: usize,
    pub bytes: usize,
    pub told: Result<Option<Event>, Stop>,
}

impl LineAhead {
    /// The line that begins at this place of the text, if a whole one does, and there is memory to read it.
    pub(crate) fn read(reader: &mut LineReader, text: &[u8], from: usize) -> Option<LineAhead>
        requires { from ≤ length text.now }
        ensures read { IfSome result (IsReadOf text.now) }
        ensures place { IfSome result (λ line. line.from ≡ from) }
    {
        let rest = &text[from..];
        let bytes = first_newline(rest)?;
        match reader.event_of(&rest[..bytes]) {
            // in its turn it may find memory
            Err(Stop::OutOfMemory) => None,
            told => Some(LineAhead { from, bytes, told }),
        }
    }
}
