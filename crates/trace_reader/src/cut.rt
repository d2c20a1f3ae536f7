ghost use Rattle.std.specs.Prelude.{◌≤◌, ◌<◌, ◌+◌, ◌↔◌, length, take, min, MatchOption, IsTrue};
ghost use Rattle.trace_reader.specs.Cuts.{HasNoNewline, IsFirstNewline, HasTooLongLine, IsCutOf};

use heap_base::LONGEST_LINE;
use memchr::memchr;

/// Where the bytes that a cutter holds are to be cut.
#[derive(Clone, Copy)]
pub enum Cut {
    /// A line of this many bytes, and its newline.
    Line(usize),
    /// All the bytes are the last line.
    LastLine,
    /// No byte is left.
    End,
    /// More than `LONGEST_LINE` bytes are there without a newline.
    LineTooLong,
    /// The line goes on past the last byte that the trace may have.
    TraceTooLong,
}

/// The cut of these bytes, or `None` where only more bytes decide. The trace may have `allowed` bytes more than
/// those before them, and the first `searched` bytes are known to have no newline.
pub fn cut_of(held: &[u8], searched: usize, at_end: bool, allowed: u64) -> Option<Cut>
    requires within { searched ≤ length held.now }
    requires searched { HasNoNewline (take searched held.now) }
    ensures { IsCutOf held.now at_end allowed result }
{
    let reach = allowed.min(LONGEST_LINE as u64 + 1) as usize;
    match newline_in(held, searched, reach) {
        Some(n) => Some(Cut::Line(n)),
        None => cut_without_newline(held, at_end, allowed),
    }
}

// The first newline, where it is one of the first `reach` bytes.
fn newline_in(held: &[u8], searched: usize, reach: usize) -> Option<usize>
    requires within { searched ≤ length held.now }
    requires searched { HasNoNewline (take searched held.now) }
    ensures { MatchOption result (HasNoNewline (take reach held.now)) (λ n. (n < reach) × IsFirstNewline held.now n) }
{
    let end = reach.min(held.len());
    if end <= searched {
        return None;
    }
    let n = first_newline(&held[searched..end])?;
    Some(searched + n)
}

/// The first newline of the bytes.
pub fn first_newline(bytes: &[u8]) -> Option<usize>
    ensures { MatchOption result (HasNoNewline bytes.now) (IsFirstNewline bytes.now) }
{
    memchr(b'\n', bytes)
}

// The cut of bytes that have no newline among those that a line within both limits may have.
fn cut_without_newline(held: &[u8], at_end: bool, allowed: u64) -> Option<Cut>
    requires { HasNoNewline (take (min allowed (LONGEST_LINE + 1)) held.now) }
    ensures { IsCutOf held.now at_end allowed result }
{
    if is_too_long(held, allowed) {
        Some(Cut::LineTooLong)
    } else if held.len() as u64 > allowed {
        Some(Cut::TraceTooLong)
    } else if !at_end {
        None
    } else if held.is_empty() {
        Some(Cut::End)
    } else {
        Some(Cut::LastLine)
    }
}

// Whether more than `LONGEST_LINE` bytes of the line are there, so many of them within what the trace may have.
fn is_too_long(held: &[u8], allowed: u64) -> bool
    requires { HasNoNewline (take (min allowed (LONGEST_LINE + 1)) held.now) }
    ensures { IsTrue result ↔ HasTooLongLine held.now allowed }
{
    if held.len() <= LONGEST_LINE || allowed < LONGEST_LINE as u64 {
        return false;
    }
    if allowed == LONGEST_LINE as u64 && held[LONGEST_LINE] == b'\n' {
        return false;
    }
    true
}
