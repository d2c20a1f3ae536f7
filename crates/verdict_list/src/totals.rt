//! The total of verdicts over collections.
ghost use Rattle.std.specs.Prelude.{◌≡◌, ◌≤◌, ◌+◌, ◌^◌, length, IfOk, OnErr};

use graph_meaning::VerdictList;
use heap_base::OutOfMemory;

/// The total of verdicts with those of one more collection. Answers `OutOfMemory` exactly where eight bytes don't hold it, which the limits
/// of a heap and of a trace don't exclude. A program then ends as it does without memory, with status 5.
pub fn total_with(total: u64, verdicts: &VerdictList) -> Result<u64, OutOfMemory>
    ensures total { IfOk result (λ sum. sum ≡ total + length verdicts.now) }
    ensures fails { OnErr result (2 ^ 64 ≤ total + length verdicts.now) }
{
    total.checked_add(verdicts.len() as u64).ok_or(OutOfMemory)
}
