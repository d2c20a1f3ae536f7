//! What a trace found.
ghost use Rattle.std.specs.Prelude.{◌≡◌, ◌+◌, ◌<◌, ◌≤◌, ◌^◌, ℕ, [], length, vec_capacity, slice_index, IfOk};
ghost use Rattle.std.specs.List.{All};
ghost use Rattle.heap_base.specs.Counting.{bit, is_positive};
ghost use Rattle.header_rule.specs.ClosedWords.{count_in};
ghost use Rattle.heap_marking.specs.Results.{kept_below, many_of, IsByCounts};

use header_rule::Words;
use heap_base::OutOfMemory;
use instance_ledger::Tally;
use object_table::ObjectTable;
use std::alloc::Global;
use std::marker::Model;

/// What a trace found: the header words after it, how many objects of each type are traced, and in which cells the
/// traced objects are. Contracts see a `TraceResult`.
#[derive(Drop)]
pub struct Traced {
    words: Words,
    tally: Tally,
    kept: Vec<bool>,
    traced: u32,
}

impl Model for Traced {
    ghost use Rattle.heap_marking.specs.Results.{TraceResult};

    ghost Value = { TraceResult };

    ghost view = { λ t. record { words = t.words; instances = t.tally; kept = t.kept.items; traced = t.traced } };
}

// Whether the cell was met.
fn is_kept(words: &Words, cell: u32) -> bool
    requires { cell < words.now.cells }
    ensures { result ≡ is_positive (count_in words.now cell) }
{
    words.count(cell) != 0
}

// 1 for a cell that is kept.
fn one_if(is_kept: bool) -> u32
    ensures { result ≡ bit is_kept }
{
    if is_kept { 1 } else { 0 }
}

// Notes which cells are kept, and answers how many.
fn note_kept(words: &Words, cells: u32, kept: &mut Vec<bool>) -> u32
    requires cells { cells ≡ words.now.cells }
    requires empty { kept.old.items ≡ [] }
    requires room { cells ≤ vec_capacity kept.old }
    ensures kept { kept.new.items ≡ kept_below words.now cells }
    ensures traced { result ≡ many_of kept.new.items }
{
    let mut traced = 0;
    for cell in 0..cells {
        let is_kept = is_kept(words, cell);
        kept.push_reserved(is_kept);
        traced += one_if(is_kept);
    }
    traced
}

impl Traced {
    /// What these words and this tally say, in memory that was taken before: `kept` is empty and has room for every
    /// cell.
    pub(crate) fn make(words: Words, tally: Tally, cells: u32, mut kept: Vec<bool>) -> Traced
        requires cells { cells ≡ words.cells }
        requires empty { kept.items ≡ [] }
        requires room { cells ≤ vec_capacity kept }
        ensures words { result.words ≡ words }
        ensures instances { result.instances ≡ tally }
        ensures counts { IsByCounts result }
    {
        let traced = note_kept(&words, cells, &mut kept);
        Traced {
            words,
            tally,
            kept,
            traced,
        }
    }

    /// What these words and this tally say of a table. Both are of the table's cells and types. Answers
    /// `OutOfMemory` when memory runs out.
    pub fn of(
        alloc: Global,
        words: Words,
        total: &Tally,
        table: &ObjectTable,
    ) -> Result<Traced, OutOfMemory>
        requires cells { words.cells ≡ length table.now.cells }
        requires kinds { length total.now ≡ length table.now.table.kinds }
        requires below { (kind : ℕ) → slice_index total.now kind < 2 ^ 40 }
        ensures words { IfOk result (λ t. t.words ≡ words) }
        ensures kinds { IfOk result (λ t. length t.instances ≡ length total.now) }
        ensures instances { IfOk result (λ t. (kind : ℕ) → slice_index t.instances kind ≡ slice_index total.now kind) }
        ensures counts { IfOk result IsByCounts }
    {
        let mut tally = Tally::make(alloc, table.kinds())?;
        tally.merge(total);
        let kept = Vec::with_capacity(alloc, table.cells() as usize)?;
        Ok(Traced::make(words, tally, table.cells(), kept))
    }

    /// The header words after the trace.
    pub fn words(&self) -> &Words
        ensures { result.now ≡ self.now.words }
    {
        &self.words
    }

    /// How many objects of the type with this number are traced.
    pub fn instances(&self, kind: u32) -> u64
        requires { kind < length self.now.instances }
        ensures { result ≡ slice_index self.now.instances kind }
    {
        self.tally.of(kind)
    }

    /// How many objects are traced.
    pub fn traced(&self) -> u32
        ensures { result ≡ self.now.traced }
    {
        self.traced
    }

    /// For each cell whether it holds a traced object.
    pub fn kept(&self) -> &[bool]
        ensures { result.now ≡ self.now.kept }
    {
        self.kept.as_slice()
    }
}
