//! The words of the command line.
ghost use Rattle.std.specs.Prelude.{◌≡◌, ◌<◌, ◌≤◌, map, IfSome};
ghost use Rattle.heap_base.specs.declared.limits.TheConstants.{MOST_WORKERS};
ghost use Rattle.resident_crew.specs.Words.{workers_by};

use heap_base::MOST_WORKERS;
use settings::{LEAST_WORKERS, USUAL_WORKERS, number_by};

/// How many workers the words ask for, the program's name first, and `None` where they are refused.
pub fn workers_by(words: &[&str]) -> Option<u32>
    ensures asked { result ≡ workers_by (map (λ w. w.now) words.now) }
    ensures in_range { IfSome result (λ workers. (0 < workers) × (workers ≤ MOST_WORKERS)) }
{
    match words {
        [_] => Some(USUAL_WORKERS),
        [_, option, number] if *option == "--workers" => number_by(
            number,
            LEAST_WORKERS,
            MOST_WORKERS,
        ),
        _ => None,
    }
}
