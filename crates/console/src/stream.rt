ghost use Rattle.std.specs.Prelude.{◌≡◌, ◌<◌, ◌≤◌, length, IfOk};
ghost use Rattle.std.specs.Io.KnownBytes.{ReadConsumes, WriteAppends};
ghost use Rattle.streams.specs.Causes.{HasCause};
ghost use Rattle.streams.specs.Counts.{CountsFault, one_more};

use crate::last::LastBytes;
use std::io::{self, Read, Write};
use streams::{Failed, Sink, Source};

/// A reader of std as a source, or a writer as a sink. It tells the bytes that the reader or the writer tells, counts its faults, and remembers
/// why the last of them came, and the last bytes that were written. Every error is a fault, an interrupted read too, and so is a write that takes no byte of a piece.
#[derive(Drop)]
pub struct Remembering<S> {
    pub stream: S,
    pub faults: u64,
    pub why: Option<io::Error>,
    pub last: LastBytes,
}

impl<S> Remembering<S> {
    /// Over this reader or writer, with no fault so far.
    pub fn over(stream: S) -> Remembering<S>
        ensures stream { result.stream ≡ stream }
        ensures faults { result.faults ≡ 0 }
    {
        Remembering {
            stream,
            faults: 0,
            why: None,
            last: LastBytes::none(),
        }
    }

    // Counts a fault that has this cause, where it has one, and gives its error.
    fn fail(&mut self, why: Option<io::Error>) -> Failed
        ensures counted { self.new ≡ record self.old { faults = one_more self.old.faults; why = why } }
        ensures later { self.old.faults ≤ self.new.faults }
    {
        self.faults = self.faults.saturating_add(1);
        self.why = why;
        Failed
    }
}

impl<S: Read> Source for Remembering<S> {
    ghost left = { λ s. S.remaining s.stream };

    ghost faults = { λ s. s.faults };

    fn read(&mut self, into: &mut [u8]) -> Result<usize, Failed>
        requires { 0 < length into.old }
        ensures bound { IfOk result (λ n. n ≤ length into.old) }
        ensures bytes { ReadConsumes (S.remaining self.old.stream) (S.remaining self.new.stream) result into.new }
        ensures cause { HasCause self.old.faults self.new.faults result }
        ensures counted { CountsFault self.old.faults self.new.faults result }
    {
        match self.stream.read(into) {
            Ok(n) => Ok(n),
            Err(error) => Err(self.fail(Some(error))),
        }
    }
}

impl<S: Write> Sink for Remembering<S> {
    ghost held = { λ s. S.contents s.stream };

    ghost faults = { λ s. s.faults };

    fn write(&mut self, piece: &[u8]) -> Result<usize, Failed>
        requires { 0 < length piece.now }
        ensures bound { IfOk result (λ n. (0 < n) × (n ≤ length piece.now)) }
        ensures bytes { WriteAppends (S.contents self.old.stream) (S.contents self.new.stream) result piece.now }
        ensures cause { HasCause self.old.faults self.new.faults result }
        ensures counted { CountsFault self.old.faults self.new.faults result }
    {
        match self.stream.write(piece) {
            Ok(0) => Err(self.fail(None)),
            Ok(n) => {
                self.last.put(&piece[..n]);
                Ok(n)
            }
            Err(error) => Err(self.fail(Some(error))),
        }
    }
}
