//! What the bits of a header word mean: bits 0 to 55 count, bits 56 to 58 are the marks, and the others are 0.
ghost use Rattle.std.specs.Prelude.{◌≡◌, ◌*◌};
ghost use Rattle.heap_base.specs.Counting.{bit};
ghost use Rattle.header_rule.specs.Layout.{count_of, mark_bit, has_bit, bits_of, is_given};

use crate::mark::{Mark, Marks};

/// A count is below this: it has 56 bits.
const COUNT_LIMIT: u64 = 1 << 56;

/// The count in a header word.
pub(crate) fn count(word: u64) -> u64
    ensures { result ≡ count_of word }
{
    word % COUNT_LIMIT
}

/// What a mark adds to a header word.
fn bit_of(mark: Mark) -> u64
    ensures { result ≡ mark_bit mark }
{
    match mark {
        Mark::Found => COUNT_LIMIT,
        Mark::Disputed => COUNT_LIMIT << 1,
        Mark::MetByRoots => COUNT_LIMIT << 2,
    }
}

/// Whether a header word has a mark.
pub(crate) fn is_set(word: u64, mark: Mark) -> bool
    ensures { result ≡ has_bit word mark }
{
    word / bit_of(mark) % 2 == 1
}

// The mark's bit, where it is given.
fn given_bit(given: bool, mark: Mark) -> u64
    ensures { result ≡ bit given * mark_bit mark }
{
    if given { bit_of(mark) } else { 0 }
}

/// The bits of the marks that are given.
pub(crate) fn bits(marks: Marks) -> u64
    ensures { result ≡ bits_of (is_given marks) }
{
    given_bit(marks.found, Mark::Found)
        + given_bit(marks.disputed, Mark::Disputed)
        + given_bit(marks.met_by_roots, Mark::MetByRoots)
}
