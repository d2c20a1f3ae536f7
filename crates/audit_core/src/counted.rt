//! What a trace by a crew counted.
ghost use Rattle.std.specs.Prelude.{◌<◌};
ghost use Rattle.audit_core.specs.Verdicts.{counts_of};

use heap_marking::Traced;
use verdict_list::HeapCounts;

/// A trace, seen as what it counted.
#[derive(Clone, Copy)]
pub(crate) struct CountedTrace<'a> {
    pub(crate) traced: &'a Traced,
}

impl HeapCounts for CountedTrace<'_> {
    ghost counts = { λ t. counts_of t.traced.now };

    fn references(&self, cell: u32) -> u64 {
        self.traced.words().count(cell)
    }

    fn instances(&self, kind: u32) -> u64 {
        self.traced.instances(kind)
    }

    fn kept(&self) -> &[bool] {
        self.traced.kept()
    }
}
