ghost use Rattle.std.specs.Prelude.{◌≡◌, ◌↔◌, ℕ, IsTrue, true, false, IfOk, OnOk, OnErr};
ghost use Rattle.std.specs.Result.{result_err};
ghost use Rattle.graph_meaning.specs.Answers.{RefusesBy};
ghost use Rattle.graph_meaning.specs.Heap.{ids, is_live};
ghost use Rattle.graph_meaning.specs.Step.{alloc_refusal, store_refusal, root_refusal, with_object, with_changed_slot, slot_holding, with_root};
ghost use Rattle.object_table.specs.Placed.{nothing_placed};
ghost use Rattle.minor_gc.specs.Generations.{is_young, remembered_set, after_minor, after_full, minor_collection, full_collection};
ghost use Rattle.minor_gc.specs.Nurseries.{nursery_table, nothing_nursed};
ghost use Rattle.minor_gc.specs.Survivors.{KeepsObjects};

use crate::minor::Minor;
use crate::room::{add_cells, drop_cells, reserve_one};
use crate::search::Search;
use crate::tally::{Change, forget, holds_young, recount};
use graph_meaning::{Refusal, Stop};
use heap_base::{Limits, MOST_OBJECTS, Name, ObjId, OutOfMemory};
use object_table::ObjectTable;
use std::alloc::Global;
use std::marker::Model;

/// A heap in two generations. An object is young from its allocation until the first collection that it survives, and old
/// from then on. Contracts see its table and the id up to which objects are old.
#[derive(Drop)]
pub struct Nursery {
    table: ObjectTable,
    old_up_to: u32,
    // the greatest id that was allocated, 0 before the first
    greatest: u32,
    // the cells of old objects are marked
    search: Search,
    // for each cell how many slots of the old object in it hold a young one
    counts: Vec<u32>,
    remembered: Vec<ObjId>,
}

impl Model for Nursery {
    ghost use Rattle.std.specs.Prelude.{vec_capacity};
    ghost use Rattle.minor_gc.specs.Nurseries.{NurseryState, IsNursery};

    ghost Value = { NurseryState };

    ghost view = { λ n. record { heap = record { table = n.table.table; old_up_to = n.old_up_to }; cells = n.table.cells } };

    ghost invariant = { λ n. IsNursery (record { placed = n.table; old_up_to = n.old_up_to; greatest = n.greatest; marks = n.search.marks.items; work = n.search.work.items; counts = n.counts.items; remembered = n.remembered.items; room = vec_capacity n.remembered }) };
}

impl Nursery {
    /// The empty heap, under the usual limits.
    pub fn make(alloc: Global) -> Result<Nursery, OutOfMemory>
        ensures empty { IfOk result (λ n. n ≡ nothing_nursed) }
    {
        Ok(Nursery {
            table: ObjectTable::make(alloc, Limits::usual())?,
            old_up_to: 0,
            greatest: 0,
            search: Search::make(alloc),
            counts: Vec::new(alloc),
            remembered: Vec::new(alloc),
        })
    }

    /// Adds a young object, as `ObjectTable::alloc_object` does. After a refusal, and when out of memory, nothing has
    /// changed. All memory that later calls want is taken here.
    pub fn alloc_object(&mut self, id: ObjId, kind: &Name, slots: u32) -> Result<(), Stop>
        ensures refused { RefusesBy result (alloc_refusal self.old.heap.table id kind.now slots) }
        ensures added { OnOk result (self.new.heap ≡ record self.old.heap { table = with_object self.old.heap.table id kind.now slots }) }
        ensures young { OnOk result (is_young self.new.heap id ≡ true) }
        ensures err { OnErr result (self.new ≡ self.old) }
    {
        if let Some(refusal) = self.table.alloc_refusal(id, kind, slots) {
            return Err(Stop::Refused(refusal));
        }
        let objects = self.table.live();
        prove!(self.table.cells() <= MOST_OBJECTS);
        reserve_one(
            &mut self.search,
            &mut self.counts,
            &mut self.remembered,
            objects,
        )?;
        self.table.alloc_object(id, kind, slots)?;
        let cells = self.table.cells();
        add_cells(&mut self.search, &mut self.counts, cells);
        self.greatest = id.number();
        Ok(())
    }

    /// Lets a slot hold an object, or nothing, as `ObjectTable::store` does. After a refusal nothing has changed.
    pub fn store(&mut self, at: ObjId, slot: u32, to: Option<ObjId>) -> Result<(), Stop>
        ensures refused { RefusesBy result (store_refusal self.old.heap.table at slot to) }
        ensures stored { OnOk result (self.new.heap ≡ record self.old.heap { table = with_changed_slot self.old.heap.table at slot (slot_holding to) }) }
        ensures err { OnErr result (self.new ≡ self.old) }
    {
        if at.number() > self.old_up_to {
            return Ok(self.table.store(at, slot, to)?);
        }
        let Some(cell) = self.table.cell_of(at) else {
            return Err(Stop::Refused(Refusal::NotLive(at.number())));
        };
        let cells = self.table.cells();
        let before = holds_young(&self.table, &self.search.marks, cell, slot);
        self.table.store(at, slot, to)?;
        prove_eq!(self.table.cells(), cells);
        let after = holds_young(&self.table, &self.search.marks, cell, slot);
        recount(
            &mut self.counts[cell as usize],
            &mut self.remembered,
            at,
            Change { before, after },
        );
        Ok(())
    }

    /// Lets a root name hold an object, or takes the name away, as `ObjectTable::set_root` does. After a refusal, and when
    /// out of memory, nothing has changed.
    pub fn set_root(&mut self, name: &Name, to: Option<ObjId>) -> Result<(), Stop>
        ensures refused { RefusesBy result (root_refusal self.old.heap.table name.now to) }
        ensures set { OnOk result (self.new.heap ≡ record self.old.heap { table = with_root self.old.heap.table name.now to }) }
        ensures err { OnErr result (self.new ≡ self.old) }
    {
        self.table.set_root(name, to)
    }

    /// Whether a live object is young.
    pub fn young(&self, id: ObjId) -> bool
        requires live { IsTrue (is_live self.now.heap.table id) }
        ensures young { result ≡ is_young self.now.heap id }
    {
        id.number() > self.old_up_to
    }

    /// The old objects that hold a young one in a slot, by id.
    pub fn remembered(&self) -> &[ObjId]
        ensures list { result.now ≡ remembered_set self.now.heap }
    {
        &self.remembered
    }

    /// Frees exactly the young objects to which no path over young objects leads from one that a root names or an old
    /// object holds; all others are old then. Its time goes with the young objects, with what they and the remembered ones
    /// hold, and with the roots. Whatever is left has the slots that it had.
    pub fn minor(&mut self) -> Result<Minor, OutOfMemory>
        ensures heap { OnOk result (self.new.heap ≡ after_minor self.old.heap) }
        ensures survivors { OnOk result (KeepsObjects self.old.heap.table self.new.heap.table) }
        ensures counts { IfOk result (λ m. m ≡ minor_collection self.old.heap) }
        ensures err { OnErr result (self.new ≡ self.old) }
    {
        let cells = self.table.cells();
        let live = self.table.live();
        let remembered = self.remembered.len() as u32;
        self.search.take_roots(&self.table);
        self.search.take_objects(&self.table, &self.remembered);
        self.search.run(&self.table);
        forget(&self.table, &mut self.counts, &self.remembered);
        self.remembered.clear();
        self.table.keep_above(self.old_up_to, &self.search.marks);
        prove_eq!(self.table.cells(), cells);
        self.old_up_to = self.greatest;
        Ok(Minor {
            live,
            freed: live - self.table.live(),
            remembered,
        })
    }

    /// Frees exactly the objects that no root reaches; all others are old then, with the slots that they had.
    pub fn full(&mut self) -> Result<Minor, OutOfMemory>
        ensures heap { OnOk result (self.new.heap ≡ after_full self.old.heap) }
        ensures survivors { OnOk result (KeepsObjects self.old.heap.table self.new.heap.table) }
        ensures counts { IfOk result (λ m. m ≡ full_collection self.old.heap) }
        ensures err { OnErr result (self.new ≡ self.old) }
    {
        // The call tells that each object stands in one cell.
        prove!(self.table.cells() <= MOST_OBJECTS);
        let live = self.table.live();
        let remembered = self.remembered.len() as u32;
        self.search.clear();
        self.search.take_roots(&self.table);
        self.search.run(&self.table);
        forget(&self.table, &mut self.counts, &self.remembered);
        self.remembered.clear();
        self.table.keep(&self.search.marks);
        let cells = self.table.cells();
        drop_cells(&mut self.search, &mut self.counts, cells);
        self.old_up_to = self.greatest;
        Ok(Minor {
            live,
            freed: live - self.table.live(),
            remembered,
        })
    }

    /// The table.
    pub fn table(&self) -> &ObjectTable
        ensures table { result.now ≡ nursery_table self.now }
    {
        &self.table
    }
}
