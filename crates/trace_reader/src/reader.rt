ghost use Rattle.std.specs.Prelude.{◌≤◌};
ghost use Rattle.trace_reader.specs.declared.reader.TheConstants.{MOST_AHEAD};
ghost use Rattle.trace_reader.specs.Cutter.{TellsItem};
ghost use Rattle.trace_reader.specs.Meaning.{item_of_line};

use crate::lines_ahead::LinesAhead;
use graph_meaning::{Event, Stop};

/// No reader asks for more bytes than these behind a line.
pub const MOST_AHEAD: usize = 1_048_576;

/// Lines that were read before their turn, and the place in their text at which the next line of the trace begins.
#[derive(Clone, Copy)]
pub struct Ahead<'a> {
    pub lines: &'a LinesAhead,
    pub place: usize,
}

/// What reads the lines of a trace, one after another.
pub trait EventReader {
    /// Whether it may be used.
    ghost ready: { Self → Type 0 };

    /// The operation that a line is, as `LineReader::event_of` answers it.
    fn event_of(&mut self, line: &[u8]) -> Result<Option<Event>, Stop>
        requires { ready self.old }
        ensures ready { ready self.new }
        ensures tells { TellsItem result (item_of_line line.now) };

    /// It is shown the bytes behind the line that was read last, as far as they are there, and may read lines of them before their
    /// turn.
    fn look_ahead(&mut self, behind: &[u8])
        requires { ready self.old }
        ensures { ready self.new };

    /// The lines of the text in which the next line begins, if they were read before their turn. Whoever takes them compares their text
    /// with the trace's.
    fn lines_ahead(&self) -> Option<Ahead<'_>>;

    /// So many bytes of these lines were passed.
    fn pass_ahead(&mut self, bytes: usize)
        requires { ready self.old }
        ensures { ready self.new };

    /// How many bytes it wants to be shown at once, beside those that it needs.
    fn ahead(&self) -> usize
        ensures { result ≤ MOST_AHEAD };
}
