ghost use Rattle.std.specs.Prelude.{◌≤◌, ℕ, List, length, take};
ghost use Rattle.streams.specs.Streams.{stream_of};
ghost use Rattle.trace_reader.specs.Cuts.{HasNoNewline};
ghost use Rattle.trace_reader.specs.Reads.{ReadState, ReadsOn, Settles, read_state};

use crate::cut::{Cut, cut_of};
use crate::window::Window;
use streams::{Failed, Source};

/// The bytes that were read and are still held, and whether the source's end was read.
#[derive(Drop)]
pub struct Held {
    pub window: Window,
    pub at_end: bool,
}

impl Held {
    /// Reads until the bytes that are held have a cut, or a read fails. The first `searched` bytes are known to have no newline, and the trace may
    /// have `allowed` bytes more than those before the bytes that are held.
    #[inline(always)]
    pub fn settle<S: Source>(
        &mut self,
        source: &mut S,
        searched: usize,
        allowed: u64,
    ) -> Result<Cut, Failed>
        requires within { searched ≤ length self.old.window }
        requires searched { HasNoNewline (take searched self.old.window) }
        ensures { let old : ReadState = read_state self.old.window self.old.at_end (stream_of S.left S.faults source.old) in
            let new : ReadState = read_state self.new.window self.new.at_end (stream_of S.left S.faults source.new) in
            (took : List ℕ) × ReadsOn old new took × Settles old new allowed result }
    {
        let mut searched = searched;
        loop {
            let held = self.window.bytes();
            if let Some(cut) = cut_of(held, searched, self.at_end, allowed) {
                return Ok(cut);
            }
            searched = held.len();
            let n = self.window.fill(source)?;
            self.at_end = n == 0;
        }
    }
}
