ghost use Rattle.std.specs.Prelude.{◌≡◌, ℕ, ◌^◌, ◌+◌, ◌<◌, length, replicate, slice_index, slice_set, IfOk};

use heap_base::OutOfMemory;
use std::alloc::Global;
use std::marker::Model;

/// A number for each kind, below 2^40 wherever one is raised. Contracts see the list of these numbers.
#[derive(Drop)]
pub struct Tally {
    counts: Vec<u64>,
}

impl Model for Tally {
    ghost use Rattle.std.specs.Prelude.{List, ℕ};

    ghost Value = { List ℕ };

    ghost view = { λ t. t.counts.items };
}

impl Tally {
    /// A tally of the kinds below `kinds`, 0 of each.
    pub fn make(alloc: Global, kinds: u32) -> Result<Tally, OutOfMemory>
        ensures { IfOk result (λ t. t ≡ replicate kinds 0) }
    {
        let counts = vec![in alloc; 0u64; kinds as usize]?;
        Ok(Tally { counts })
    }

    /// One more of the kind.
    pub fn add(&mut self, kind: u32)
        requires kind { kind < length self.old }
        requires below { slice_index self.old kind < 2 ^ 40 }
        ensures { self.new ≡ slice_set self.old kind (slice_index self.old kind + 1) }
    {
        self.counts[kind as usize] += 1;
    }

    /// Adds the other's number of each kind to this one's.
    pub fn merge(&mut self, other: &Tally)
        requires kinds { length other.now ≡ length self.old }
        requires below { (n : ℕ) → slice_index self.old n + slice_index other.now n < 2 ^ 40 }
        ensures kinds { length self.new ≡ length self.old }
        ensures sums { (n : ℕ) → slice_index self.new n ≡ slice_index self.old n + slice_index other.now n }
    {
        for kind in 0..self.counts.len() {
            self.counts[kind] += other.counts[kind];
        }
    }

    /// The number of the kind.
    pub fn of(&self, kind: u32) -> u64
        requires { kind < length self.now }
        ensures { result ≡ slice_index self.now kind }
    {
        self.counts[kind as usize]
    }
}
