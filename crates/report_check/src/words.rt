//! The words of the command line.
ghost use Rattle.std.specs.Prelude.{◌≡◌, map};
ghost use Rattle.report_check.specs.Words.{paths_by, paths_in};

use heap_base::USUAL_PATHS;
use settings::{MOST_PATHS, number_by};

/// A number of paths is written in at most so many digits.
pub const MOST_DIGITS: usize = 5;

/// How many paths the words ask for, the program's name first, and `None` where they are refused.
pub(crate) fn paths_of(words: &[&str]) -> Option<u32>
    ensures { result ≡ paths_by (map (λ w. w.now) words.now) }
{
    match words {
        [_, _, _] => Some(USUAL_PATHS),
        [_, _, _, paths] => paths_in(paths),
        _ => None,
    }
}

// The number of paths that the text says, where it is one.
fn paths_in(text: &str) -> Option<u32>
    ensures { result ≡ paths_in text.now }
{
    if text.len() > MOST_DIGITS {
        return None;
    }
    number_by(text, 0, MOST_PATHS)
}
