//! What a nursery makes of a trace, as a program.
ghost use Rattle.std.specs.Prelude.{◌≡◌};
ghost use Rattle.minor_gc.specs.MinorRuns.{MinorState, minor_meaning};

use crate::nursery::Nursery;
use crate::texts::end_text;
use heap_base::OutOfMemory;
use std::alloc::Global;
use trace_run::{LastText, Program};

/// A nursery, with how many collections were made.
#[derive(Drop)]
pub struct MinorProgram {
    pub alloc: Global,
    pub nursery: Nursery,
    pub collections: u64,
}

impl Program for MinorProgram {
    ghost State = { MinorState };

    ghost meaning = { minor_meaning };

    ghost state = { λ p. record { heap = p.nursery.heap; collections = p.collections } };

    ghost events = { λ p. p.collections };

    fn last(&self) -> Result<LastText, OutOfMemory> {
        Ok(LastText {
            text: end_text(self.alloc, self.collections)?,
            violated: false,
        })
    }
}
