//! How far a search by levels has come.
ghost use Rattle.object_table.specs.Placed.{id_in};
ghost use Rattle.path_cert.specs.Frontiers.{better};
ghost use Rattle.path_cert.specs.Levels.{arrival_in, is_new};
ghost use Rattle.path_cert.specs.declared.arrival.TheConstants.{NOWHERE};
ghost use Rattle.std.specs.Prelude.{◌≡◌, ◌==◌, ◌≤◌, ◌<◌, ◌+◌, ◌++◌, ◌∷◌, [], length, IfOk, IsSome, replicate, slice_set, count_by, vec_len, vec_capacity, true, if◌then◌else◌};

use crate::arrival::{Arrival, NOWHERE};
use crate::objects::object_id;
use graph_meaning::ByCell;
use heap_base::OutOfMemory;
use object_table::ObjectTable;
use std::alloc::Global;

// How the search arrives at the object of each cell, and the cells with a level in the order in which they got it. There is
// room for each cell once.
#[derive(Drop)]
pub(crate) struct Frontier {
    pub(crate) arrivals: ByCell<Arrival>,
    pub(crate) order: Vec<u32>,
    ghost once: { count_by is_new arrivals + vec_len order ≡ length arrivals },
    ghost room: { length arrivals ≤ vec_capacity order },
}

impl Frontier {
    pub(crate) fn begin(alloc: Global, cells: u32) -> Result<Frontier, OutOfMemory>
        ensures arrivals { IfOk result (λ f. f.arrivals ≡ replicate cells NOWHERE) }
        ensures order { IfOk result (λ f. f.order.items ≡ []) }
    {
        let arrivals = ByCell::make(alloc, cells, NOWHERE)?;
        let order = Vec::with_capacity(alloc, cells as usize)?;
        Ok(Frontier { arrivals, order })
    }

    // Arrives at the object in a cell, which was not arrived at before.
    fn put(&mut self, cell: u32, arrival: Arrival)
        requires cell { cell < length self.old.arrivals }
        requires new { is_new (arrival_in self.old.arrivals cell) ≡ true }
        requires level { 0 < arrival.level }
        ensures arrivals { self.new.arrivals ≡ slice_set self.old.arrivals cell arrival }
        ensures order { self.new.order.items ≡ self.old.order.items ++ cell ∷ [] }
    {
        self.order.push_reserved(cell);
        self.arrivals.set(cell, arrival);
    }

    // Arrives at the object in a cell by a source reference, unless an earlier one led to it.
    pub(crate) fn arrive_first(&mut self, cell: u32, arrival: Arrival)
        requires cell { cell < length self.old.arrivals }
        requires level { 0 < arrival.level }
        ensures arrivals { self.new.arrivals ≡ slice_set self.old.arrivals cell (if is_new (arrival_in self.old.arrivals cell) then arrival else arrival_in self.old.arrivals cell) }
        ensures order { self.new.order.items ≡ (if is_new (arrival_in self.old.arrivals cell) then self.old.order.items ++ cell ∷ [] else self.old.order.items) }
    {
        if self.arrivals.get(cell).level == 0 {
            self.put(cell, arrival);
        }
    }

    // Arrives at the object in a cell by an edge, unless it is of an earlier level, or an object with a lower id leads to it.
    pub(crate) fn arrive(&mut self, table: &ObjectTable, cell: u32, arrival: Arrival)
        requires cell { cell < length self.old.arrivals }
        requires level { 0 < arrival.level }
        requires from { IsSome (id_in table.now arrival.from) }
        requires known { (arrival_in self.old.arrivals cell).level ≡ arrival.level → IsSome (id_in table.now (arrival_in self.old.arrivals cell).from) }
        ensures arrivals { self.new.arrivals ≡ slice_set self.old.arrivals cell (better table.now (arrival_in self.old.arrivals cell) arrival) }
        ensures order { self.new.order.items ≡ (if is_new (arrival_in self.old.arrivals cell) then self.old.order.items ++ cell ∷ [] else self.old.order.items) }
    {
        let known = self.arrivals.get(cell);
        if known.level == 0 {
            self.put(cell, arrival);
        } else if known.level == arrival.level
            && object_id(table, arrival.from) < object_id(table, known.from)
        {
            self.arrivals.set(cell, arrival);
        }
    }
}
