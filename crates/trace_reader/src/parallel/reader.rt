ghost use Rattle.std.specs.Prelude.{◌≤◌, ⊤, length};

use crate::line::LineReader;
use crate::parallel::crew::Crew;
use crate::parallel::pieces::Pieces;
use crate::reader::{Ahead, EventReader};
use graph_meaning::{Event, Stop};
use heap_base::OutOfMemory;
use memchr::{memchr, memrchr};
use std::alloc::Global;
use std::thread::Threads;

// So many bytes are read ahead at once where the source has them: few enough to stay in the caches of the processors until their lines
// are taken.
const AHEAD: usize = 262_144;

// Into so many pieces a text is cut at most.
const MOST_PIECES: usize = 128;

// Where nothing could be read ahead, as when out of memory, so many lines are read one by one before it is tried again.
const PAUSE: u32 = 1_000;

/// What it costs to read lines before their turn. No line's meaning depends on it.
#[derive(Clone, Copy, Debug)]
pub struct AheadCost {
    /// Fewer bytes than these are not read ahead.
    pub least: usize,
    /// A piece, which one thread reads, has so many bytes at most, unless its first line has more.
    pub piece: usize,
}

impl AheadCost {
    /// What it costs on a machine of today. To wake threads for fewer bytes takes as long as it spares; a pipe brings twice as many where its
    /// writer is fast. Of a larger piece more lines would be read twice, where the caller comes to it while a thread is at it.
    pub fn usual() -> AheadCost {
        AheadCost {
            least: 32_768,
            piece: 8_192,
        }
    }

    /// Whatever stands behind a line is read ahead, each line a piece of its own, so that a short trace goes the way of a long one.
    pub fn none() -> AheadCost {
        AheadCost { least: 0, piece: 1 }
    }
}

/// Reads lines by several workers: where many lines stand behind the one that was read last, they are cut into pieces, which threads
/// read while the caller goes on. The caller never waits for a thread: it reads what no thread has read. A line's meaning doesn't depend
/// on another line, so each has the meaning that `LineReader` gives it.
#[derive(Drop)]
pub struct ParallelReader<'a, R: Threads> {
    rt: &'a R,
    own: LineReader,
    crew: Crew,
    pieces: Pieces,
    cost: AheadCost,
    // so many lines are still to be read one by one
    pause: u32,
}

impl<'a, R: Threads> ParallelReader<'a, R> {
    /// A reader with so many workers, the caller's thread among them, for which reading ahead costs what it usually does. `end` ends the
    /// other threads.
    pub fn make(
        rt: &'a R,
        alloc: Global,
        workers: u32,
    ) -> Result<ParallelReader<'a, R>, OutOfMemory> {
        ParallelReader::with_cost(rt, alloc, workers, AheadCost::usual())
    }

    /// The same with this cost.
    pub fn with_cost(
        rt: &'a R,
        alloc: Global,
        workers: u32,
        cost: AheadCost,
    ) -> Result<ParallelReader<'a, R>, OutOfMemory> {
        let threads = workers.saturating_sub(1) as usize;
        Ok(ParallelReader {
            rt,
            own: LineReader::make(alloc),
            crew: Crew::make(alloc, threads, MOST_PIECES)?,
            pieces: Pieces::none(alloc),
            cost,
            pause: 0,
        })
    }

    /// Ends the threads that it has started.
    pub fn end(self) {
        self.crew.end(self.rt);
    }

    // Puts the pieces that threads have read in their places, and answers whether that of the next line is there.
    fn gather(&mut self) -> bool {
        for _ in 0..MOST_PIECES {
            let Some(piece) = self.crew.fetch() else {
                break;
            };
            self.pieces.put(piece);
        }
        self.pieces.is_read()
    }

    // Sees to it that the piece of the next line is read, unless a thread is at it: until it has come, the caller reads pieces that wait.
    // Never inlined: most lines stand in a piece that is there.
    #[inline(never)]
    fn fetch(&mut self) {
        for _ in 0..MOST_PIECES {
            if self.gather() {
                return;
            }
            let Some(mut piece) = self.crew.take_back() else {
                return;
            };
            piece.read(&mut self.own);
            self.pieces.put(piece);
        }
    }

    // Has the lines of the text read where they are enough, unless it is to wait before it tries again.
    fn begin_if_enough(&mut self, behind: &[u8]) {
        if behind.len() < self.cost.least {
            return;
        }
        if self.pause > 0 {
            self.pause -= 1;
            return;
        }
        self.begin(behind);
    }

    // Has the lines of the text read, in place of those before it. Never inlined: it is called once for some thousand lines.
    #[inline(never)]
    fn begin(&mut self, behind: &[u8]) {
        self.pieces.clear();
        self.crew.start(self.rt);
        self.cut(behind);
        if self.pieces.count() == 0 {
            self.pause = PAUSE;
        }
    }

    // Cuts the whole lines of the text into pieces, as far as there is memory, and lets them wait.
    fn cut(&mut self, text: &[u8]) {
        let mut rest = text;
        for _ in 0..MOST_PIECES {
            let end = piece_end(rest, self.cost.piece);
            if end == 0 {
                return;
            }
            let (piece, behind) = rest.split_at(end);
            let Ok(piece) = self.pieces.cut(piece) else {
                return;
            };
            self.crew.offer(piece);
            rest = behind;
        }
    }
}

// Where the first piece of the text ends, which has whole lines and at most so many bytes unless its first line has more, or 0 where there
// is no whole line.
fn piece_end(text: &[u8], most: usize) -> usize
    ensures { result ≤ length text.now }
{
    let front = &text[..text.len().min(most)];
    if let Some(n) = memrchr(b'\n', front) {
        return n + 1;
    }
    match memchr(b'\n', text) {
        Some(n) => n + 1,
        None => 0,
    }
}

impl<'a, R: Threads> EventReader for ParallelReader<'a, R> {
    ghost ready = { λ _. ⊤ };

    fn event_of(&mut self, line: &[u8]) -> Result<Option<Event>, Stop> {
        self.pieces.pass(line.len().saturating_add(1));
        self.own.event_of(line)
    }

    fn look_ahead(&mut self, behind: &[u8]) {
        if self.pieces.is_over() {
            self.begin_if_enough(behind);
        }
        if !self.pieces.is_over() && !self.pieces.is_read() {
            self.fetch();
        }
    }

    fn lines_ahead(&self) -> Option<Ahead<'_>> {
        self.pieces.lines()
    }

    fn pass_ahead(&mut self, bytes: usize) {
        self.pieces.pass(bytes);
    }

    fn ahead(&self) -> usize {
        AHEAD
    }
}
