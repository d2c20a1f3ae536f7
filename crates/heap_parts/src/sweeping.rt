//! What the end of a collection leaves of the parts of a heap.
ghost use Rattle.std.specs.Prelude.{◌≡◌, ◌-◌, length, true, is_some, IfSome};
ghost use Rattle.graph_meaning.specs.Assertions.{traced_ids};
ghost use Rattle.graph_meaning.specs.Collecting.{Rules, after_sweep, after_collection, holders_of, ids_to_clear, violating_dead};
ghost use Rattle.graph_meaning.specs.Reach.{has_id};
ghost use Rattle.heap_parts.specs.Parts.{AreDeadAndTraced, FlagTraced};

use crate::parts::HeapParts;
use heap_base::MOST_OBJECTS;
use sweep::sweep;

/// What the end of a collection did: how many objects it freed, and how many slots and roots it cleared.
#[derive(Drop)]
pub struct Swept {
    pub freed: u32,
    pub cleared: u32,
}

impl HeapParts {
    /// Frees what is not traced, and answers how many objects that were. `kept` says of each cell whether its object is
    /// traced. It takes no memory.
    pub fn sweep(&mut self, kept: &[bool]) -> u32
        requires kept { FlagTraced self.old kept.now }
        ensures left { self.new.heap ≡ after_sweep self.old.heap }
        ensures freed { result ≡ length self.old.heap.table.objects - length (traced_ids self.old.heap) }
    {
        // The call tells that each object stands in one cell.
        prove!(self.table.cells() <= MOST_OBJECTS);
        sweep(&mut self.table, &mut self.registry, &mut self.regions, kept)
    }

    /// Frees what is not traced, and cuts off what is asserted dead and was traced, as the flags of the cells say. It takes no
    /// memory.
    pub fn sweep_by_force(&mut self, kept: &[bool], to_clear: &[bool]) -> Swept
        requires kept { FlagTraced self.old kept.now }
        requires to_clear { AreDeadAndTraced self.old to_clear.now }
        ensures left { (rules : Rules) → rules.force ≡ true → self.new.heap ≡ after_collection rules self.old.heap }
        ensures freed { result.freed ≡ length self.old.heap.table.objects - length (traced_ids self.old.heap) }
        ensures cleared { result.cleared ≡ holders_of (has_id (violating_dead self.old.heap)) (after_sweep self.old.heap).table }
    {
        // The call tells that each object stands in one cell, before the sweep and after it.
        prove!(self.table.cells() <= MOST_OBJECTS);
        let freed = sweep(&mut self.table, &mut self.registry, &mut self.regions, kept);
        prove!(self.table.cells() <= MOST_OBJECTS);
        let cleared = self.table.clear_to(to_clear);
        Swept { freed, cleared }
    }

    /// Ends a collection: frees what is not traced, and cuts off what the flags say, where there are flags, as there are where
    /// that is done by force. It takes no memory.
    pub fn finish(&mut self, kept: &[bool], to_clear: Option<&Vec<bool>>) -> Swept
        requires kept { FlagTraced self.old kept.now }
        requires to_clear { IfSome to_clear (λ flags. AreDeadAndTraced self.old flags.now.items) }
        ensures left { (rules : Rules) → rules.force ≡ is_some to_clear.entry → self.new.heap ≡ after_collection rules self.old.heap }
        ensures freed { result.freed ≡ length self.old.heap.table.objects - length (traced_ids self.old.heap) }
        ensures cleared { (rules : Rules) → rules.force ≡ is_some to_clear.entry → result.cleared ≡ holders_of (has_id (ids_to_clear rules self.old.heap)) (after_sweep self.old.heap).table }
    {
        match to_clear {
            Some(flags) => self.sweep_by_force(kept, flags),
            None => Swept {
                freed: self.sweep(kept),
                cleared: 0,
            },
        }
    }
}
