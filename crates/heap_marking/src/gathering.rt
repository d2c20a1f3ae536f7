//! What the jobs of a trace found together.
ghost use Rattle.std.specs.Prelude.{◌≡◌, ℕ, ◌≤◌, [], length, vec_capacity, slice_index};
ghost use Rattle.std.specs.List.{All};
ghost use Rattle.heap_base.specs.declared.limits.TheConstants.{MOST_OBJECTS, MOST_WORKERS};
ghost use Rattle.heap_marking.specs.TracedCells.{all_tallies};
ghost use Rattle.scan_job.specs.States.{passes_of};

use header_rule::Pass;
use instance_ledger::Tally;
use scan_job::ScanJob;

/// Adds the tallies of all jobs up. It takes no memory.
pub fn merge_tallies(jobs: &[ScanJob], tally: &mut Tally)
    requires kinds { All (λ j. length j.tally ≡ length tally.old) jobs.now }
    requires cells { All (λ j. j.cells ≤ MOST_OBJECTS) jobs.now }
    requires few { length jobs.now ≤ MOST_WORKERS }
    requires zero { (kind : ℕ) → slice_index tally.old kind ≡ 0 }
    ensures kinds { length tally.new ≡ length tally.old }
    ensures sums { (kind : ℕ) → slice_index tally.new kind ≡ all_tallies kind jobs.now }
{
    for job in jobs {
        tally.merge(job.tally());
    }
}

/// The passes of the jobs, in order, in memory that was taken before.
pub fn take_passes(jobs: Vec<ScanJob>, passes: &mut Vec<Pass>)
    requires empty { passes.old.items ≡ [] }
    requires room { length jobs.items ≤ vec_capacity passes.old }
    ensures { passes.new.items ≡ passes_of jobs.items }
{
    for job in jobs {
        passes.push_reserved(job.into_pass());
    }
}
